// A row of an archive, carried out on the lent state of a sampled tree: its answer as numbers, and the rows of a report in lent rows.
#![tactic(auto)]

ghost use Rattle.std.specs.Prelude.{◌≡◌, [], ◌∷◌, ◌+◌, ◌≤◌, length, take};
ghost use Rattle.limits.specs.Limits.{width, capacity_limit};
ghost use Rattle.text.specs.Pieces.{pieces_from};
ghost use Rattle.samplerplustree.specs.State.{SomeSampled};
ghost use Rattle.answers.specs.Said.{filled, reply_width};
ghost use Rattle.nodeview.specs.Told.{ReportTold, SomeReportRead};
ghost use Rattle.arrivals.specs.Arrived.{Arrives};
ghost use Rattle.archiverow.specs.Rows.{coordinates_in, weight_in, chance_in, arrival_words_in, row_of};
ghost use Rattle.archiverow.specs.Read.{read_line};
ghost use Rattle.archivecalls.specs.Carried.{ReportDone, Carries};

use answers::{REPLY, Reply};
use archiverow::Line;
use limits::{CAPACITY, COORDINATES, Points};
use nodeview::Rows;
use pointstore::PointStore;
use randomcuttree::RCFTree;
use refusals::Refusal;
use samplerplustree::{Sample, SamplerPlusTree};
use treestore::NodeStore;

// The number of a refusal, with 0 after it.
fn tell_refused(number: usize, reply: &mut Reply)
    ensures { reply.new ≡ filled reply_width (number ∷ []) }
{
    *reply = [0; REPLY];
    reply[0] = number;
}

// The report of a row whose coordinates start at a place: those that a report looks at.
fn report_row<'a>(
    tree: RCFTree,
    store: &'a NodeStore,
    points: &'a Points,
    line: &[u8],
    start: usize,
    rows: &mut Rows,
    reply: &mut Reply,
)
    requires { SomeReportRead tree store.now.nodes store.now.cuts store.now.copies points.now store.now.boxes }
    ensures { ReportDone tree store.now.nodes store.now.cuts store.now.copies points.now store.now.boxes (coordinates_in (pieces_from 32 line.now start)) rows.old rows.new reply.new }
{
    let mut coordinates = [0.0f32; COORDINATES];
    let given = text::read_coordinates(line, start, &mut coordinates);
    let n = casts::at_most(given, COORDINATES);
    let answer = nodeview::traverse(tree, store, points, &coordinates[..n], rows);
    answers::tell_count(answer, reply);
}

// The arrival of a row whose rest starts at a place: the words that an arrival looks at.
fn arrival_row(
    tree: SamplerPlusTree,
    store: &mut NodeStore,
    table: &PointStore,
    sample: &mut Sample,
    line: &[u8],
    index: u64,
    start: usize,
    reply: &mut Reply,
) -> SamplerPlusTree
    requires { SomeSampled tree store.old table.now.points table.now.written sample.old.weights sample.old.held }
    ensures { Arrives index (weight_in (pieces_from 32 line.now start)) (chance_in (pieces_from 32 line.now start)) (arrival_words_in (pieces_from 32 line.now start))
        tree store.old table.now.points table.now.written sample.old.weights sample.old.held
        result store.new sample.new.weights sample.new.held reply.new }
{
    let mut words = [0u64; CAPACITY];
    let given = archiverow::read_arrival_words(line, start, &mut words);
    let n = casts::at_most(given, CAPACITY);
    let weight = archiverow::read_weight(line, start);
    let chance = archiverow::read_chance(line, start);
    arrivals::arrive(
        tree,
        store,
        table,
        sample,
        index as usize,
        weight,
        chance,
        &words[..n],
        reply,
    )
}

// The row of a line, which is given with what was read of it: its answer's numbers in the reply, with 0 after them, the rows of a report in the lent rows, and the
// header after it.
// Rules out an arrival that leaves the sample as it was, and a report that leaves rows of the one before it within its own.
pub fn call_row(
    tree: SamplerPlusTree,
    store: &mut NodeStore,
    table: &mut PointStore,
    sample: &mut Sample,
    line: &[u8],
    read: Result<Line, Refusal>,
    rows: &mut Rows,
    reply: &mut Reply,
) -> SamplerPlusTree
    requires { (read ≡ read_line line.now) × SomeSampled tree store.old table.old.points table.old.written sample.old.weights sample.old.held }
    ensures { Carries (row_of line.now)
        tree store.old table.old.points table.old.written sample.old.weights sample.old.held rows.old
        result store.new table.new.points table.new.written sample.new.weights sample.new.held rows.new reply.new }
{
    match read {
        Ok(Line::Puts { index, start }) => {
            rowcalls::put_row(tree.tree, &store.copies, table, line, index, start, reply);
            tree
        }
        Ok(Line::Arrives { index, start }) => arrival_row(
            tree, store, table, sample, line, index, start, reply,
        ),
        Ok(Line::Reports { start }) => {
            report_row(tree.tree, store, &table.points, line, start, rows, reply);
            tree
        }
        Err(refusal) => {
            tell_refused(refusal.number(), reply);
            tree
        }
    }
}
