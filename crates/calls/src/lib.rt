// The calls of a tree with what they are given in lent lists: each carried out on the lent state, and its answer as numbers.
#![tactic(auto)]

ghost use Rattle.std.specs.Prelude.{◌≡◌, List, ℕ, ◌+◌, ◌≤◌, take, Float};
ghost use Rattle.limits.specs.Limits.{width, capacity_limit};
ghost use Rattle.cuttree.specs.Run.{put, add, delete, query};
ghost use Rattle.pointstore.specs.Puts.{Puts};
ghost use Rattle.treestore.specs.Arrays.{NodeStore};
ghost use Rattle.randomcuttree.specs.State.{SomeState};
ghost use Rattle.randomcuttree.specs.Answers.{AddDone, header_added, header_deleted};
ghost use Rattle.randomcuttree.specs.Queries.{BoxRead, SomeBoxRead};
ghost use Rattle.calls.specs.Done.{PutRead, Does, query_of};

use answers::Reply;
use limits::{Copies, Points};
use pointstore::PointStore;
use randomcuttree::{Added, Deleted, RCFTree};
use refusals::Refusal;
use treestore::NodeStore;

// The put of a list by as many of its coordinates as are looked at. A list of so many is longer than any tree's, so a longer one is refused like it.
// Rules out one coordinate too many left out of sight, and a refused put whose answer is told as written.
pub fn put(
    tree: RCFTree,
    copies: &Copies,
    table: &mut PointStore,
    index: usize,
    coordinates: &[f32],
    reply: &mut Reply,
)
    ensures read { PutRead tree copies.now index coordinates.now table.old.points table.old.written table.new.points table.new.written reply.new }
    ensures does { (a : NodeStore) (xs : List Float) → a.copies ≡ copies.now → coordinates.now ≡ take (width + 1) xs
        → Does (λ d. put index xs) tree a table.old.points table.old.written tree a table.new.points table.new.written reply.new }
{
    let answer = tree.put(copies, table, index, coordinates);
    answers::tell_put(answer, reply);
}

// The header after an add, and after a delete: a refused one leaves it as it was. One function for both would ask a trait of the two answers, which says no more.
fn header_added(tree: RCFTree, answer: Result<Added, Refusal>) -> RCFTree
    ensures { result ≡ header_added tree answer }
{
    answer.map_or(tree, |added| added.tree)
}

fn header_deleted(tree: RCFTree, answer: Result<Deleted, Refusal>) -> RCFTree
    ensures { result ≡ header_deleted tree answer }
{
    answer.map_or(tree, |deleted| deleted.tree)
}

// The add with a list by as many of its words as a tree has leaves at most, and the header after it. A walk takes no more.
// Rules out an add that is short of words where the list has enough, and the old header given back for an add that is done.
pub fn add(
    tree: RCFTree,
    store: &mut NodeStore,
    table: &PointStore,
    index: usize,
    words: &[u64],
    reply: &mut Reply,
) -> RCFTree
    requires { SomeState tree store.old table.now.points table.now.written }
    ensures { (ws : List ℕ) → words.now ≡ take capacity_limit ws
        → Does (λ d. add index ws) tree store.old table.now.points table.now.written result store.new table.now.points table.now.written reply.new }
{
    let answer = tree.add(store, table, index, words);
    answers::tell_add(answer, reply);
    header_added(tree, answer)
}

// The delete of an index, and the header after it.
// Rules out a delete whose answer has the index asked for in place of the leaf's, and a refused one that gives another header back.
pub fn delete(
    tree: RCFTree,
    store: &mut NodeStore,
    table: &PointStore,
    index: usize,
    reply: &mut Reply,
) -> RCFTree
    requires { SomeState tree store.old table.now.points table.now.written }
    ensures { Does (λ d. delete index) tree store.old table.now.points table.now.written result store.new table.now.points table.now.written reply.new }
{
    let answer = tree.delete(store, table, index);
    answers::tell_delete(answer, reply);
    header_deleted(tree, answer)
}

// The query of a kind and an id. It writes nothing but the reply. The kinds are the numbers of docs/LAYOUT.md, which C writes.
// Rules out the copies of a leaf answered where a branch is asked for, and numbers left in the reply from the call before.
pub fn query<'a>(
    tree: RCFTree,
    store: &'a NodeStore,
    points: &'a Points,
    kind: usize,
    id: usize,
    reply: &mut Reply,
)
    requires { SomeBoxRead tree store.now.nodes points.now store.now.boxes }
    ensures { (a : NodeStore) (marks : List ℕ) → BoxRead a store.now.nodes store.now.boxes → a.cuts ≡ store.now.cuts → a.copies ≡ store.now.copies
        → Does (λ d. query (query_of kind id)) tree a points.now marks tree a points.now marks reply.new }
{
    match kind {
        8 => answers::tell_count(tree.copies_of(&store.copies, id), reply),
        9 => answers::tell_branch(tree.branch_of(&store.nodes, &store.cuts, id), reply),
        _ => answers::tell_box(
            tree.box_of(&store.nodes, points, &store.boxes, id),
            tree.dimensions,
            reply,
        ),
    }
}
