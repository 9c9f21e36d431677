// The calls of a byte run (docs/LAYOUT.md): each read from its place in the run and carried out on the lent state, with its answer as numbers.
#![tactic(auto)]

ghost use Rattle.std.specs.Prelude.{◌≡◌, true, ◌+◌, ◌*◌, ◌≤◌, take};
ghost use Rattle.std.proofs.lemmas.List.Edits.{sets};
ghost use Rattle.limits.specs.Limits.{capacity_limit};
ghost use Rattle.cuttree.specs.Run.{put, add, delete};
ghost use Rattle.treestore.specs.Arrays.{NodeStore};
ghost use Rattle.randomcuttree.specs.State.{SomeState};
ghost use Rattle.calls.specs.Done.{Does};
ghost use Rattle.runlayout.specs.Layout.{size, number, coordinates_at, words_at, IsPlain, plain_at, stands_at};
ghost use Rattle.runcalls.specs.Words.{words_after};

use answers::Reply;
use limits::{CAPACITY, COORDINATES, Copies, Words};
use pointstore::PointStore;
use randomcuttree::RCFTree;
use treestore::NodeStore;

fn put_call(
    tree: RCFTree,
    copies: &Copies,
    table: &mut PointStore,
    run: &[u8],
    p: usize,
    reply: &mut Reply,
)
    requires { p + 3 + number run.now (p + 2) ≤ size run.now }
    ensures { (a : NodeStore) → a.copies ≡ copies.now → Does (λ d. put (number run.now (p + 1)) (coordinates_at run.now p)) tree a table.old.points table.old.written tree a table.new.points table.new.written reply.new }
{
    let index = runlayout::number_at(run, p + 1);
    let n = casts::at_most(runlayout::number_at(run, p + 2), COORDINATES);
    let mut room = [0.0f32; COORDINATES];
    let coordinates = &mut room[..n];
    rungiven::read_coordinates(run, p + 3, coordinates);
    calls::put(tree, copies, table, index, coordinates, reply);
}

fn add_call(
    tree: RCFTree,
    store: &mut NodeStore,
    table: &PointStore,
    run: &[u8],
    p: usize,
    words: &mut Words,
    reply: &mut Reply,
) -> RCFTree
    requires { (p + 3 + 2 * number run.now (p + 2) ≤ size run.now) × SomeState tree store.old table.now.points table.now.written }
    ensures done { Does (λ d. add (number run.now (p + 1)) (words_at run.now p)) tree store.old table.now.points table.now.written result store.new table.now.points table.now.written reply.new }
    ensures words { words.new ≡ sets words.old 0 (take capacity_limit (words_at run.now p)) }
{
    let index = runlayout::number_at(run, p + 1);
    let n = casts::at_most(runlayout::number_at(run, p + 2), CAPACITY);
    let first = &mut words[..n];
    rungiven::read_words(run, p + 3, first);
    calls::add(tree, store, table, index, first, reply)
}

fn delete_call(
    tree: RCFTree,
    store: &mut NodeStore,
    table: &PointStore,
    run: &[u8],
    p: usize,
    reply: &mut Reply,
) -> RCFTree
    requires { (p + 2 ≤ size run.now) × SomeState tree store.old table.now.points table.now.written }
    ensures { Does (λ d. delete (number run.now (p + 1))) tree store.old table.now.points table.now.written result store.new table.now.points table.now.written reply.new }
{
    let index = runlayout::number_at(run, p + 1);
    calls::delete(tree, store, table, index, reply)
}

// The put, add, delete or query at a place of the run: its answer's numbers in the reply, with 0 after them, and the header after it. An add reads its
// words into the lent ones.
// Rules out a call read from another place, and lent words written by a put.
pub fn call_at(
    tree: RCFTree,
    store: &mut NodeStore,
    table: &mut PointStore,
    run: &[u8],
    p: usize,
    words: &mut Words,
    reply: &mut Reply,
) -> RCFTree
    requires plain { IsPlain (number run.now p) × (stands_at run.now p ≡ true) }
    requires state { SomeState tree store.old table.old.points table.old.written }
    ensures done { Does (λ d. plain_at run.now d p) tree store.old table.old.points table.old.written result store.new table.new.points table.new.written reply.new }
    ensures words { words.new ≡ words_after run.now p words.old }
{
    let kind = runlayout::number_at(run, p);
    match kind {
        3 => {
            put_call(tree, &store.copies, table, run, p, reply);
            tree
        }
        4 => add_call(tree, store, table, run, p, words, reply),
        5 => delete_call(tree, store, table, run, p, reply),
        _ => {
            let id = runlayout::number_at(run, p + 1);
            calls::query(tree, store, &table.points, kind, id, reply);
            tree
        }
    }
}
