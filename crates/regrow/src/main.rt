// Program `regrow`: standard input is an archive (docs/ARCHIVE_TEXT.md), of any length; standard output has the answers of its rows as they come, then the sample
// and the tree.
#![tactic(auto)]

ghost use Rattle.std.specs.Prelude.{◌≡◌, true, ◌≤◌, ◌<◌, length};
ghost use Rattle.samplerplustree.specs.State.{SomeSampled};
ghost use Rattle.archiveend.specs.Prints.{SomeEnd};

use archiveend::END;
use limits::CAPACITY;
use nodeview::Rows;
use pointstore::PointStore;
use refusals::Refusal;
use regrow_text::Failed;
use samplerplustree::{Sample, SamplerPlusTree};
use std::io;
use std::io::Read;
use treestore::NodeStore;

// A proved loop has to end, and nothing says that an archive does: there are more turns than any archive uses up.
const TURNS: usize = 1 << 40;

// So many bytes of an archive's text are there at a time, and of the answers to its rows.
const TEXT: usize = 65536;

// Writes `refused N R`.
fn refuse(rt: &impl Print, refusal: Refusal, row: usize) -> io::Result<()> {
    let mut line = [0u8; 64];
    let n = lines::put_refused(&mut line, 0, refusal.number(), row);
    rt.write_all(&line[..n])
}

// Writes answers; whether the rows go on, which they do not where an answer can't be written.
fn tell(rt: &impl Print, answers: &[u8], goes_on: bool) -> bool
    ensures { result ≡ true → goes_on ≡ true }
{
    match rt.write_all(answers) {
        Ok(()) => goes_on,
        Err(_) => false,
    }
}

// The archive's end: the sample and the tree.
fn finish(
    rt: &impl Print,
    tree: SamplerPlusTree,
    store: &NodeStore,
    sample: &Sample,
) -> io::Result<()>
    requires { SomeEnd tree store.now.nodes store.now.cuts store.now.copies sample.now.weights sample.now.held }
{
    let mut out = [0u8; END];
    let n = archiveend::print_end(tree, store, sample, &mut out, 0);
    rt.write_all(&out[..n])
}

// The rows as they come, from a place of the text on.
fn grow(
    rt: &impl Print,
    input: &mut impl Read,
    tree: SamplerPlusTree,
    store: &mut NodeStore,
    table: &mut PointStore,
    sample: &mut Sample,
    rows: &mut Rows,
    text: &mut [u8],
    start: usize,
    come: usize,
    out: &mut [u8],
) -> io::Result<()>
    requires near { (start ≤ come) × (come ≤ length text.old) × (8192 ≤ length text.old) × (length text.old ≤ 65536) × (length out.old < 10000000000) }
    requires stands { SomeSampled tree store.old table.old.points table.old.written sample.old.weights sample.old.held }
{
    let mut current = tree;
    let mut number: usize = 1;
    let mut from = start;
    let mut to = come;
    for turn in 0..TURNS {
        let batch = regrow_lines::carry_lines(
            current,
            store,
            table,
            sample,
            rows,
            &text[from..to],
            number,
            out,
        );
        let left = batch.tree;
        current = left;
        number = batch.number;
        let end = batch.end;
        if !tell(rt, &out[..end], batch.goes_on) {
            return Ok(());
        }
        match regrow_text::follow(input, text, from, to, batch.read) {
            Ok(Some(part)) => {
                from = part.from;
                to = part.to;
            }
            Ok(None) => {
                return finish(rt, current, store, sample);
            }
            Err(Failed) => {
                return refuse(rt, Refusal::OutOfForm, number);
            }
        }
    }
    refuse(rt, Refusal::OutOfForm, number)
}

// A head in form: the making of its second line, then the rows from a place of the text on.
fn make_and_grow(
    rt: &impl Print,
    input: &mut impl Read,
    text: &mut [u8],
    a: usize,
    b: usize,
    start: usize,
    come: usize,
) -> io::Result<()>
    requires { (a ≤ b) × (b ≤ length text.old) × (start ≤ come) × (come ≤ length text.old) × (8192 ≤ length text.old) × (length text.old ≤ 65536) }
{
    let mut store = treestore::no_nodes();
    let mut table = PointStore::new();
    let mut sample = Sample::new();
    match archivemaking::make(&text[a..b], &mut store, &mut sample) {
        Err(refusal) => refuse(rt, refusal, 0),
        Ok(tree) => {
            let mut rows = [[0u64; 4]; CAPACITY];
            let mut out = [0u8; TEXT];
            grow(
                rt,
                input,
                tree,
                &mut store,
                &mut table,
                &mut sample,
                &mut rows,
                text,
                start,
                come,
                &mut out,
            )
        }
    }
}

// The archive by what has come of it: its first three lines, then the rows.
fn begin(rt: &impl Print, input: &mut impl Read, text: &mut [u8], come: usize) -> io::Result<()>
    requires { (come ≤ length text.old) × (8192 ≤ length text.old) × (length text.old ≤ 65536) }
{
    let head = &text[..come];
    match regrow_text::find_head(head) {
        None => refuse(rt, Refusal::OutOfForm, 0),
        Some(ends) => {
            let (a, b, c) = (ends.first, ends.second, ends.third);
            if !archivehead::is_making_names(&head[..a]) {
                return refuse(rt, Refusal::OutOfForm, 0);
            }
            if !archivehead::is_row_names(&head[b + 1..c]) {
                return refuse(rt, Refusal::OutOfForm, 0);
            }
            make_and_grow(rt, input, text, a + 1, b, c + 1, come)
        }
    }
}

fn main(rt: HostRuntime) -> io::Result<()> {
    let mut input = rt.reader();
    let mut text = [0u8; TEXT];
    let come = regrow_text::read_head(&mut input, &mut text);
    begin(&rt, &mut input, &mut text, come)
}
