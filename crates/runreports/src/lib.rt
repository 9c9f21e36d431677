// A report of a byte run (docs/LAYOUT.md): read from its place, carried out on the lent state, and its answer's numbers written to the lent bytes.
#![tactic(auto)]

ghost use Rattle.std.specs.Prelude.{◌≡◌, ◌+◌, ◌*◌, ◌≤◌, length, get_or};
ghost use Rattle.std.proofs.lemmas.List.Edits.{sets};
ghost use Rattle.little.specs.Little.{bytes_of};
ghost use Rattle.answers.specs.Said.{filled};
ghost use Rattle.nodeview.specs.Told.{SomeReportRead};
ghost use Rattle.nodeview.specs.Walking.{MemoryLeft};
ghost use Rattle.runlayout.specs.Layout.{size, number, coordinates_at};
ghost use Rattle.runreports.specs.Written.{five_of, lent_numbers, no_row, refusal_in, rows_in, answer_numbers, ReportAt};

use limits::{CAPACITY, COORDINATES, Path, Points};
use nodeview::{Chances, Rows};
use randomcuttree::RCFTree;
use refusals::Refusal;
use treestore::NodeStore;

const HALF: u64 = 4294967296;

// The refusal's number, 0 where there is none.
fn refusal_of(answer: Result<usize, Refusal>) -> usize
    ensures { result ≡ refusal_in answer }
{
    match answer {
        Ok(_) => 0,
        Err(refusal) => refusal.number(),
    }
}

// Row i of those written, and a row of 0 beyond them.
fn row_at(rows: &[[u64; 4]], i: usize) -> [u64; 4]
    ensures { result ≡ get_or rows.now i no_row }
{
    if i < rows.len() { rows[i] } else { [0; 4] }
}

// Writes the five numbers of a row, from the answer number `out` on.
fn put_row(answers: &mut [u8], out: usize, row: [u64; 4])
    requires { 4 * (out + 5) ≤ length answers.old }
    ensures { answers.new ≡ sets answers.old (4 * out) (bytes_of (five_of row)) }
{
    let at = 4 * out;
    let bits = row[3];
    little::put_u32(answers, at, casts::wide64(row[0]));
    little::put_u32(answers, at + 4, casts::wide64(row[1]));
    little::put_u32(answers, at + 8, casts::wide64(row[2]));
    little::put_u32(answers, at + 12, casts::wide64(bits % HALF));
    little::put_u32(answers, at + 16, casts::wide64(bits / HALF));
}

// Writes n rows, from the answer number `out` on: the lent ones, and 0 beyond them.
fn write_rows(rows: &[[u64; 4]], n: usize, answers: &mut [u8], out: usize)
    requires { 4 * (out + 5 * n) ≤ length answers.old }
    ensures { answers.new ≡ sets answers.old (4 * out) (bytes_of (filled (5 * n) (lent_numbers rows.now))) }
{
    for i in 0..n {
        put_row(answers, out + 5 * i, row_at(rows, i));
    }
}

// Writes an answer's numbers, n rows lent, from the answer number `out` on.
fn write_report(
    answer: Result<usize, Refusal>,
    rows: &[[u64; 4]],
    n: usize,
    answers: &mut [u8],
    out: usize,
)
    requires { (rows_in answer ≤ length rows.now) × (4 * (out + 2 + 5 * n) ≤ length answers.old) }
    ensures { answers.new ≡ sets answers.old (4 * out) (bytes_of (answer_numbers n answer rows.now)) }
{
    let count = answer.unwrap_or(0);
    little::put_u32(answers, 4 * out, refusal_of(answer));
    little::put_u32(answers, 4 * (out + 1), count);
    write_rows(&rows[..count], n, answers, out + 2);
}

// The report at a place of the run: its answer's numbers from the answer number `out` on, and its rows in the working ones. No walk has more rows than
// those, and a query of one coordinate more than a row has is refused like any longer one. The path and the chances are working memory too: whatever they
// hold before, and after it what the report's walk leaves.
// Rules out a row left from the report before told beyond those written, and the halves of a probability in turn.
pub fn report_at<'a>(
    tree: RCFTree,
    store: &'a NodeStore,
    points: &'a Points,
    run: &[u8],
    p: usize,
    rows: &mut Rows,
    path: &mut Path,
    chances: &mut Chances,
    answers: &mut [u8],
    out: usize,
)
    requires place { p + 3 + number run.now (p + 2) ≤ size run.now }
    requires room { 4 * (out + 2 + 5 * number run.now (p + 1)) ≤ length answers.old }
    requires state { SomeReportRead tree store.now.nodes store.now.cuts store.now.copies points.now store.now.boxes }
    ensures told { ReportAt tree store.now.nodes store.now.cuts store.now.copies points.now store.now.boxes run.now p out answers.old rows.old answers.new rows.new }
    ensures memory { MemoryLeft tree store.now.nodes store.now.cuts store.now.copies points.now store.now.boxes (coordinates_at run.now p) path.old chances.old path.new chances.new }
{
    let n = runlayout::number_at(run, p + 1);
    let k = casts::at_most(runlayout::number_at(run, p + 2), COORDINATES);
    let mut room = [0.0f32; COORDINATES];
    let coordinates = &mut room[..k];
    rungiven::read_coordinates(run, p + 3, coordinates);
    let lent = &mut rows[..casts::at_most(n, CAPACITY)];
    let answer = nodeview::traverse_in(tree, store, points, coordinates, lent, path, chances);
    write_report(answer, lent, n, answers, out);
}
