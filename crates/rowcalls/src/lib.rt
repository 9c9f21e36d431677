// One op row of treelist's text, carried out on the lent state.
#![tactic(auto)]

ghost use Rattle.std.specs.Prelude.{◌≡◌};
ghost use Rattle.std.proofs.Math.Option.{some};
ghost use Rattle.cuttree.specs.Run.{put, add};
ghost use Rattle.text.specs.Pieces.{pieces};
ghost use Rattle.text.specs.Fields.{words_from, coordinates_from};
ghost use Rattle.form.specs.Rows.{Op, row_of};
ghost use Rattle.treestore.specs.Arrays.{NodeStore};
ghost use Rattle.randomcuttree.specs.State.{SomeState};
ghost use Rattle.calls.specs.Done.{Does};
ghost use Rattle.rowcalls.specs.Ops.{call_of, SomeOp};

use answers::Reply;
use form::Row;
use limits::{CAPACITY, COORDINATES, Copies};
use pointstore::PointStore;
use randomcuttree::RCFTree;
use treestore::NodeStore;

// The put of a row whose coordinates start at a place: those that a put looks at.
// Rules out a put of the coordinates in form alone, and an answer that tells of the eight first of nine.
pub fn put_row(
    tree: RCFTree,
    copies: &Copies,
    table: &mut PointStore,
    row: &[u8],
    index: u64,
    start: usize,
    reply: &mut Reply,
)
    ensures { (a : NodeStore) → a.copies ≡ copies.now → Does (λ d. put index (coordinates_from row.now start)) tree a table.old.points table.old.written tree a table.new.points table.new.written reply.new }
{
    let mut coordinates = [0.0f32; COORDINATES];
    let given = text::read_coordinates(row, start, &mut coordinates);
    let n = casts::at_most(given, COORDINATES);
    calls::put(
        tree,
        copies,
        table,
        index as usize,
        &coordinates[..n],
        reply,
    );
}

// The add of a row whose words start at a place: those that an add looks at.
fn add_row(
    tree: RCFTree,
    store: &mut NodeStore,
    table: &PointStore,
    row: &[u8],
    index: u64,
    start: usize,
    reply: &mut Reply,
) -> RCFTree
    requires { SomeState tree store.old table.now.points table.now.written }
    ensures { Does (λ d. add index (words_from row.now start)) tree store.old table.now.points table.now.written result store.new table.now.points table.now.written reply.new }
{
    let mut words = [0u64; CAPACITY];
    let given = text::read_words(row, start, &mut words);
    let n = casts::at_most(given, CAPACITY);
    calls::add(tree, store, table, index as usize, &words[..n], reply)
}

// The call of an op row: its answer's numbers in the reply, with 0 after them, and the header after it.
// Rules out a row's rest read from another place, and a delete done as an add.
pub fn call_row(
    tree: RCFTree,
    store: &mut NodeStore,
    table: &mut PointStore,
    row: &[u8],
    reply: &mut Reply,
) -> RCFTree
    requires { SomeOp row.now × SomeState tree store.old table.old.points table.old.written }
    ensures { (o : Op) → row_of (pieces 32 row.now) ≡ some o
        → Does (λ d. call_of d o) tree store.old table.old.points table.old.written result store.new table.new.points table.new.written reply.new }
{
    match form::read_row(row) {
        Some(Row::Put { index, start }) => {
            put_row(tree, &store.copies, table, row, index, start, reply);
            tree
        }
        Some(Row::Add { index, start }) => add_row(tree, store, table, row, index, start, reply),
        Some(Row::Delete { index }) => calls::delete(tree, store, table, index as usize, reply),
        None => tree,
    }
}
