// The lines that answer a row of an archive, written to a lent buffer. What lies beyond the buffer's end is counted and not stored.
#![tactic(auto)]

ghost use Rattle.std.specs.Prelude.{◌+◌, ◌≤◌, ◌<◌, length, take};
ghost use Rattle.limits.specs.Limits.{capacity_limit};
ghost use Rattle.lines.specs.Lines.{Wrote};
ghost use Rattle.archivelines.specs.Answers.{passed_line, kept_line, evicted_line, report_line, report_lines, arrival_line, answer_lines, answer_limit};

use limits::CAPACITY;

// A buffer of so many bytes has room for the answer of any row: `answer_limit`.
pub const ANSWER: usize = CAPACITY * 84;

// What a row asks to be told of beside a refusal: a put nothing, an arrival what became of it, a report its rows.
#[derive(Clone, Copy, Debug, PartialEq, Eq)]
pub enum Asks {
    Nothing,
    Arrival,
    Report,
}

// Writes `passed R`.
fn put_passed(out: &mut [u8], at: usize, row: usize) -> usize
    requires { at < 10000000000 }
    ensures wrote { Wrote out.old at (passed_line row) result out.new }
    ensures few { result ≤ at + 28 }
{
    let p = lines::put_bytes(out, at, b"passed ");
    lines::put_last(out, p, row)
}

// Writes `leaf J R`.
fn put_kept(out: &mut [u8], at: usize, leaf: usize, row: usize) -> usize
    requires { at < 10000000000 }
    ensures wrote { Wrote out.old at (kept_line leaf row) result out.new }
    ensures few { result ≤ at + 47 }
{
    let p = lines::put_bytes(out, at, b"leaf ");
    let q = lines::put_field(out, p, leaf);
    lines::put_last(out, q, row)
}

// Writes `leaf J evicted E R`.
fn put_evicted(out: &mut [u8], at: usize, leaf: usize, evicted: usize, row: usize) -> usize
    requires { at < 10000000000 }
    ensures wrote { Wrote out.old at (evicted_line leaf evicted row) result out.new }
    ensures few { result ≤ at + 76 }
{
    let p1 = lines::put_bytes(out, at, b"leaf ");
    let p2 = lines::put_field(out, p1, leaf);
    let p3 = lines::put_bytes(out, p2, b"evicted ");
    let p4 = lines::put_field(out, p3, evicted);
    lines::put_last(out, p4, row)
}

// Writes `row ID DEPTH MASS BITS`.
fn put_report_row(out: &mut [u8], at: usize, row: [u64; 4]) -> usize
    requires { at < 100000000000 }
    ensures wrote { Wrote out.old at (report_line row) result out.new }
    ensures few { result ≤ at + 84 }
{
    let p1 = lines::put_bytes(out, at, b"row ");
    let p2 = lines::put_field(out, p1, casts::wide64(row[0]));
    let p3 = lines::put_field(out, p2, casts::wide64(row[1]));
    let p4 = lines::put_field(out, p3, casts::wide64(row[2]));
    let p5 = lines::put_hex(out, p4, 16, casts::wide64(row[3]));
    lines::put_bytes(out, p5, b"\n")
}

// Writes the first `count` rows, or all where there are fewer.
fn put_report(out: &mut [u8], at: usize, rows: &[[u64; 4]], count: usize) -> usize
    requires { (at < 10000000000) × (length rows.now ≤ capacity_limit) }
    ensures wrote { Wrote out.old at (report_lines (take count rows.now)) result out.new }
    ensures few { result ≤ at + answer_limit }
{
    let n = casts::at_most(count, rows.len());
    let mut p = at;
    for i in 0..n {
        p = put_report_row(out, p, rows[i]);
    }
    p
}

// Writes what became of an arrival, by its numbers, which are docs/LAYOUT.md's.
fn put_arrival(out: &mut [u8], at: usize, numbers: [usize; 4], row: usize) -> usize
    requires { at < 10000000000 }
    ensures wrote { Wrote out.old at (arrival_line numbers row) result out.new }
    ensures few { result ≤ at + 76 }
{
    match numbers[1] {
        0 => put_passed(out, at, row),
        1 => put_kept(out, at, numbers[2], row),
        _ => put_evicted(out, at, numbers[2], numbers[3], row),
    }
}

// Writes the lines that answer a row, by what it asks, its answer's numbers and the lent rows; the next place, which is at most `ANSWER` bytes on.
// Rules out a report's rows from the root to the leaf, and `passed` printed of a refused arrival.
pub fn put_answer(
    out: &mut [u8],
    at: usize,
    asks: Asks,
    numbers: [usize; 4],
    rows: &[[u64; 4]; CAPACITY],
    row: usize,
) -> usize
    requires { at < 10000000000 }
    ensures wrote { Wrote out.old at (answer_lines asks numbers rows.now row) result out.new }
    ensures fits { result ≤ at + answer_limit }
{
    if numbers[0] != 0 {
        return lines::put_refused(out, at, numbers[0], row);
    }
    match asks {
        Asks::Nothing => at,
        Asks::Arrival => put_arrival(out, at, numbers, row),
        Asks::Report => put_report(out, at, rows, numbers[1]),
    }
}
