// What `treelist` prints for a text (document 01, 'Printed tree'), written to a lent buffer: the form is checked first, then the op rows are carried out
// on a bare tree, and the tree is printed after the rows that are refused.
#![tactic(auto)]

ghost use Rattle.std.specs.Prelude.{◌≡◌, cond, List, [], ℕ, ◌+◌, ◌<◌, ◌≤◌, eqb, length, Float};
ghost use Rattle.text.specs.Pieces.{pieces_from};
ghost use Rattle.cuttree.specs.Run.{World};
ghost use Rattle.wholetree.specs.Whole.{whole};
ghost use Rattle.randomcuttree.specs.Making.{made_by};
ghost use Rattle.form.specs.Rows.{Op};
ghost use Rattle.form.specs.Form.{op_rows, rows_from};
ghost use Rattle.lines.specs.Lines.{refused_line, Wrote};
ghost use Rattle.treelist_text.specs.Output.{output_from, output_by, listed_by, output, printed_limit};
ghost use Rattle.treelist_text.specs.Running.{InForm, HasRows, Standing, SomeStanding};

use answers::REPLY;
use listing::TREE;
use pointstore::PointStore;
use randomcuttree::RCFTree;
use refusals::Refusal;
use treestore::NodeStore;

// Request A.7, 'the printed-tree program keeps to 8': as many channels as it takes.
const LISTED: usize = 8;

// A buffer of so many bytes has room for what any text prints: `printed_limit`.
pub const PRINTED: usize = 8180 * 16 + TREE;

// Writes the line of a row that is refused, and nothing for one that is not: its refusal is 0.
fn tell_row(out: &mut [u8], at: usize, refusal: usize, row: usize) -> usize
    requires { at < 100000000000 }
    ensures wrote { Wrote out.old at (cond (eqb refusal 0) [] (refused_line refusal row)) result out.new }
    ensures few { result ≤ at + 50 }
{
    if refusal == 0 {
        return at;
    }
    lines::put_refused(out, at, refusal, row)
}

// The op rows from a place of the text on, each told if it is refused; then the tree.
fn run_rows(
    tree: RCFTree,
    store: &mut NodeStore,
    table: &mut PointStore,
    text: &[u8],
    start: usize,
    out: &mut [u8],
) -> usize
    requires within { (start ≤ length text.now) × (length text.now ≤ 32768) }
    requires ready { SomeStanding text.now start 0 tree store.old table.old.points table.old.written }
    ensures { (d c : ℕ) (s : Float) (W : World (whole d)) (os : List Op) → Standing d c s W os text.now start 0 tree store.old table.old.points table.old.written
        → Wrote out.old 0 (output_from d c W 0 os) result out.new }
{
    let mut reply = [0usize; REPLY];
    let mut current = tree;
    let mut at = start;
    let mut row: usize = 0;
    let mut p: usize = 0;
    // A turn goes on by a line's length, so this is no `for`.
    loop {
        let end = text::piece_end(text, at, 10);
        if end == text.len() {
            return listing::print_tree(current, store, out, p);
        }
        current = rowcalls::call_row(current, store, table, &text[at..end], &mut reply);
        row += 1;
        p = tell_row(out, p, reply[0], row);
        at = end + 1;
    }
}

// A making and the op rows from a place of the text on.
fn print_by(
    channels: usize,
    capacity: usize,
    share: f64,
    text: &[u8],
    start: usize,
    out: &mut [u8],
) -> usize
    requires within { (start ≤ length text.now) × (length text.now ≤ 32768) }
    requires rows { HasRows text.now start }
    ensures { (os : List Op) → rows_from 0 (pieces_from 10 text.now start) ≡ op_rows os
        → Wrote out.old 0 (output_by channels capacity (made_by channels capacity share) os) result out.new }
{
    let mut store = treestore::no_nodes();
    let mut table = PointStore::new();
    match RCFTree::new(channels, capacity, share, &mut store) {
        Err(refusal) => lines::put_refused(out, 0, refusal.number(), 0),
        Ok(tree) => run_rows(tree, &mut store, &mut table, text, start, out),
    }
}

// The same, but for more channels than the program takes, which are refused before all else.
fn print_few(
    channels: usize,
    capacity: usize,
    share: f64,
    text: &[u8],
    start: usize,
    out: &mut [u8],
) -> usize
    requires within { (start ≤ length text.now) × (length text.now ≤ 32768) }
    requires rows { HasRows text.now start }
    ensures { (os : List Op) → rows_from 0 (pieces_from 10 text.now start) ≡ op_rows os
        → Wrote out.old 0 (output_by channels capacity (listed_by channels capacity share) os) result out.new }
{
    if channels <= LISTED {
        return print_by(channels, capacity, share, text, start, out);
    }
    lines::put_refused(out, 0, Refusal::Channels.number(), 0)
}

// A text in form: its making is the second line, and its op rows are the lines from the fourth on.
fn print_made(text: &[u8], out: &mut [u8]) -> usize
    requires { InForm text.now }
    ensures { Wrote out.old 0 (output text.now) result out.new }
{
    let a = text::piece_end(text, 0, 10);
    let b = text::piece_end(text, a + 1, 10);
    let c = text::piece_end(text, b + 1, 10);
    match form::read_making(&text[a + 1..b]) {
        None => 0,
        Some(making) => print_few(
            casts::wide64(making.channels),
            casts::wide64(making.capacity),
            form::share_of(making.sixteenths),
            text,
            c + 1,
            out,
        ),
    }
}

// What `treelist` prints for a text, for every list of bytes, as far as the buffer goes; how many bytes it is, which are never more than `PRINTED`.
// Rules out a text with a bad row carried out up to that row, and op rows told by numbers from 0.
pub fn treelist_output(text: &[u8], out: &mut [u8]) -> usize
    ensures wrote { Wrote out.old 0 (output text.now) result out.new }
    ensures fits { result ≤ printed_limit }
{
    match form::check_form(text) {
        Err(bad) => lines::put_refused(out, 0, Refusal::OutOfForm.number(), bad.row),
        Ok(_) => print_made(text, out),
    }
}
