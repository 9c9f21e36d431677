// One line of an archive: read, carried out on the lent state of a sampled tree, and answered in a lent buffer.
#![tactic(auto)]

ghost use Rattle.std.specs.Prelude.{◌≡◌, ◌+◌, ◌≤◌, ◌<◌};
ghost use Rattle.lines.specs.Lines.{Wrote};
ghost use Rattle.samplerplustree.specs.State.{SomeSampled};
ghost use Rattle.archiverow.specs.Rows.{row_of};
ghost use Rattle.archivelines.specs.Answers.{answer_lines, answer_limit};
ghost use Rattle.regrow_line.specs.Answered.{asks_read, is_read, four_of, LineCarries};

use answers::{REPLY, Reply};
use archivelines::Asks;
use archiverow::Line;
use nodeview::Rows;
use pointstore::PointStore;
use refusals::Refusal;
use samplerplustree::{Sample, SamplerPlusTree};
use treestore::NodeStore;

// A line that is carried out: the header after it, the place after its answer, and whether the lines go on. A row out of form ends all.
#[derive(Clone, Copy)]
pub struct Done {
    pub tree: SamplerPlusTree,
    pub end: usize,
    pub goes_on: bool,
}

// What a row asks; nothing, where it is refused whatever it is.
fn asks_of(read: Result<Line, Refusal>) -> Asks
    ensures { result ≡ asks_read read }
{
    match read {
        Ok(Line::Puts { .. }) | Err(_) => Asks::Nothing,
        Ok(Line::Arrives { .. }) => Asks::Arrival,
        Ok(Line::Reports { .. }) => Asks::Report,
    }
}

fn in_form(read: Result<Line, Refusal>) -> bool
    ensures { result ≡ is_read read }
{
    match read {
        Err(Refusal::OutOfForm) => false,
        _ => true,
    }
}

// Writes the answer of a row, by its reply and the lent rows.
fn write_answer(
    read: Result<Line, Refusal>,
    reply: &Reply,
    rows: &Rows,
    number: usize,
    out: &mut [u8],
    at: usize,
) -> usize
    requires { at < 10000000000 }
    ensures wrote { Wrote out.old at (answer_lines (asks_read read) (four_of reply.now) rows.now number) result out.new }
    ensures fits { result ≤ at + answer_limit }
{
    let numbers = [reply[0], reply[1], reply[2], reply[3]];
    archivelines::put_answer(out, at, asks_of(read), numbers, rows, number)
}

// Carries out a line, given without its line feed, as op row `number`, and writes its answer from a place of the buffer on, which takes at most
// `archivelines::ANSWER` bytes. What lies beyond the buffer's end is counted and not stored.
// Rules out an answer of the tree before the row's own call, and a row out of form after which the lines go on.
pub fn carry_line(
    tree: SamplerPlusTree,
    store: &mut NodeStore,
    table: &mut PointStore,
    sample: &mut Sample,
    rows: &mut Rows,
    line: &[u8],
    number: usize,
    out: &mut [u8],
    at: usize,
) -> Done
    requires near { at < 10000000000 }
    requires stands { SomeSampled tree store.old table.old.points table.old.written sample.old.weights sample.old.held }
    ensures carries { LineCarries (row_of line.now) number at
        tree store.old table.old.points table.old.written sample.old.weights sample.old.held rows.old out.old
        result store.new table.new.points table.new.written sample.new.weights sample.new.held rows.new out.new }
    ensures fits { result.end ≤ at + answer_limit }
{
    let read = archiverow::read_line(line);
    let mut reply = [0usize; REPLY];
    let next = archivecalls::call_row(tree, store, table, sample, line, read, rows, &mut reply);
    let end = write_answer(read, &reply, rows, number, out, at);
    let goes_on = in_form(read);
    Done {
        tree: next,
        end,
        goes_on,
    }
}
