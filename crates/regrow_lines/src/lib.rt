// Lines of an archive as they come: those of a text that are ended by a line feed, carried out one after another on the lent state of a sampled tree.
#![tactic(auto)]

ghost use Rattle.std.specs.Prelude.{◌≡◌, ◌+◌, ◌<◌, ◌≤◌, length};
ghost use Rattle.samplerplustree.specs.State.{SomeSampled};
ghost use Rattle.regrow_lines.specs.Batch.{TextCarries};

use archivelines::ANSWER;
use nodeview::Rows;
use pointstore::PointStore;
use samplerplustree::{Sample, SamplerPlusTree};
use treestore::NodeStore;

// Lines that are carried out: the header after them, how many bytes of the text they are with their line feeds, the number of the row after them, how many bytes
// their answers have, and whether the lines go on. A row out of form ends all.
#[derive(Clone, Copy)]
pub struct Batch {
    pub tree: SamplerPlusTree,
    pub read: usize,
    pub number: usize,
    pub end: usize,
    pub goes_on: bool,
}

fn so_far(tree: SamplerPlusTree, read: usize, number: usize, end: usize, goes_on: bool) -> Batch
    ensures { result ≡ record { tree = tree; read = read; number = number; end = end; goes_on = goes_on } }
{
    Batch {
        tree,
        read,
        number,
        end,
        goes_on,
    }
}

// Carries out the whole lines of a text one after another, the first as op row `number`, and writes their answers from the buffer's front. It stops after a row out
// of form, where no whole line is left, or before a line for whose answer the buffer might lack room.
// Rules out the last bytes of a text taken for a line before their line feed has come, and a line left out or carried out twice where a text ends.
pub fn carry_lines(
    tree: SamplerPlusTree,
    store: &mut NodeStore,
    table: &mut PointStore,
    sample: &mut Sample,
    rows: &mut Rows,
    text: &[u8],
    number: usize,
    out: &mut [u8],
) -> Batch
    requires near { (number + length text.now < 10000000000000000000) × (length out.old < 10000000000) }
    requires stands { SomeSampled tree store.old table.old.points table.old.written sample.old.weights sample.old.held }
    ensures carries { TextCarries text.now number
        tree store.old table.old.points table.old.written sample.old.weights sample.old.held rows.old out.old
        result store.new table.new.points table.new.written sample.new.weights sample.new.held rows.new out.new }
    ensures fits { (result.read ≤ length text.now) × (result.number ≤ number + result.read) × (result.end ≤ length out.old) }
{
    let mut current = tree;
    let mut at: usize = 0;
    let mut next = number;
    let mut end: usize = 0;
    // A turn goes on by a line's length and by its answer's, so this is no `for`.
    loop {
        if out.len() < end + ANSWER {
            return so_far(current, at, next, end, true);
        }
        let stop = text::piece_end(text, at, 10);
        if stop == text.len() {
            return so_far(current, at, next, end, true);
        }
        let done = regrow_line::carry_line(
            current,
            store,
            table,
            sample,
            rows,
            &text[at..stop],
            next,
            out,
            end,
        );
        let left = done.tree;
        current = left;
        next += 1;
        end = done.end;
        at = stop + 1;
        if !done.goes_on {
            return so_far(current, at, next, end, false);
        }
    }
}
