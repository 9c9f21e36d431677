// A call of a byte run (docs/LAYOUT.md), on a bare or a sampled tree: carried out on the lent state, its answer written to the lent bytes.
#![tactic(auto)]

ghost use Rattle.std.specs.Prelude.{◌≡◌, true, List, ℕ, ◌+◌, ◌*◌, ◌≤◌, length, take, Float};
ghost use Rattle.std.specs.Float.{binary32};
ghost use Rattle.std.specs.Float.Ieee.{of_bits};
ghost use Rattle.std.proofs.lemmas.List.Edits.{sets};
ghost use Rattle.little.specs.Little.{bytes_of};
ghost use Rattle.arrivals.specs.Arrived.{WalksPath};
ghost use Rattle.runlayout.specs.Layout.{number, double, IsPlain, channels, capacity, stands_at, arrival_words_at};
ghost use Rattle.runlayout.specs.Check.{width_of_kind};
ghost use Rattle.runsteps.specs.Standing.{kept, SomeStanding, SomePlain};
ghost use Rattle.runsteps.specs.Steps.{room, Steps, Works};

use answers::Reply;
use limits::{Path, Words};
use nodeview::{Chances, Rows};
use pointstore::PointStore;
use samplerplustree::{Sample, SamplerPlusTree};
use treestore::NodeStore;

// Writes the first n numbers of a reply, from the answer number `out` on.
fn write_reply(answers: &mut [u8], out: usize, reply: &[usize], n: usize)
    requires { (n ≤ length reply.now) × (4 * (out + n) ≤ length answers.old) }
    ensures { answers.new ≡ sets answers.old (4 * out) (bytes_of (take n reply.now)) }
{
    for i in 0..n {
        little::put_u32(answers, 4 * (out + i), reply[i]);
    }
}

// A put, an add, a delete or a query, on either kind of tree.
fn plain_step(
    current: SamplerPlusTree,
    store: &mut NodeStore,
    table: &mut PointStore,
    run: &[u8],
    p: usize,
    words: &mut Words,
    reply: &mut Reply,
    answers: &mut [u8],
    out: usize,
    width: usize,
) -> SamplerPlusTree
    requires plain { IsPlain (number run.now p) × (stands_at run.now p ≡ true) }
    requires state { SomePlain run.now current store.old table.old.points table.old.written }
    requires room { (width ≡ width_of_kind (channels run.now) (capacity run.now) (number run.now p) (number run.now (p + 1))) × (4 * (out + width) ≤ length answers.old) }
    ensures { (weights : List Float) (held : List ℕ) (rows : List (List ℕ)) → Steps run.now p out current (kept store.old table.old.points table.old.written weights held) (room words.old reply.old rows answers.old)
        result (kept store.new table.new.points table.new.written weights held) (room words.new reply.new rows answers.new) }
{
    let tree = runcalls::call_at(current.tree, store, table, run, p, words, reply);
    write_reply(answers, out, reply, width);
    SamplerPlusTree { tree, ..current }
}

// An arrival.
fn arrival_step(
    current: SamplerPlusTree,
    store: &mut NodeStore,
    table: &PointStore,
    sample: &mut Sample,
    run: &[u8],
    p: usize,
    words: &mut Words,
    path: &mut Path,
    reply: &mut Reply,
    answers: &mut [u8],
    out: usize,
) -> SamplerPlusTree
    requires arrival { (number run.now p ≡ 6) × (stands_at run.now p ≡ true) }
    requires state { SomeStanding run.now current (kept store.old table.now.points table.now.written sample.old.weights sample.old.held) }
    requires room { 4 * (out + 4) ≤ length answers.old }
    ensures done { (rows : List (List ℕ)) → Steps run.now p out current (kept store.old table.now.points table.now.written sample.old.weights sample.old.held) (room words.old reply.old rows answers.old)
        result (kept store.new table.now.points table.now.written sample.new.weights sample.new.held) (room words.new reply.new rows answers.new) }
    ensures path { WalksPath (number run.now (p + 1)) (of_bits binary32 (number run.now (p + 2))) (double run.now (p + 3)) (arrival_words_at run.now p)
        current store.old table.now.points table.now.written sample.old.weights sample.old.held
        path.old path.new }
{
    let next = runarrivals::arrival_at(current, store, table, sample, run, p, words, path, reply);
    write_reply(answers, out, reply, 4);
    next
}

// The call at a place of the run, of the kind that stands there, answered from the answer number `out` on; its answer has `width` numbers.
// Gives the header after it. The path and the chances are working memory of arrivals and reports: whatever they hold before. After either they hold what its
// walks leave, after any other call what they held before.
// Rules out the sample's arrays written by a put, and an answer that begins where the one before it does.
pub fn step(
    current: SamplerPlusTree,
    store: &mut NodeStore,
    table: &mut PointStore,
    sample: &mut Sample,
    run: &[u8],
    p: usize,
    words: &mut Words,
    reply: &mut Reply,
    rows: &mut Rows,
    path: &mut Path,
    chances: &mut Chances,
    answers: &mut [u8],
    out: usize,
    width: usize,
    kind: usize,
) -> SamplerPlusTree
    requires stands { (stands_at run.now p ≡ true) × (kind ≡ number run.now p) }
    requires state { SomeStanding run.now current (kept store.old table.old.points table.old.written sample.old.weights sample.old.held) }
    requires room { (width ≡ width_of_kind (channels run.now) (capacity run.now) (number run.now p) (number run.now (p + 1))) × (4 * (out + width) ≤ length answers.old) }
    ensures told { Steps run.now p out current (kept store.old table.old.points table.old.written sample.old.weights sample.old.held) (room words.old reply.old rows.old answers.old)
        result (kept store.new table.new.points table.new.written sample.new.weights sample.new.held) (room words.new reply.new rows.new answers.new) }
    ensures memory { Works run.now p current (kept store.old table.old.points table.old.written sample.old.weights sample.old.held) path.old chances.old path.new chances.new }
{
    match kind {
        6 => arrival_step(
            current, store, table, sample, run, p, words, path, reply, answers, out,
        ),
        7 => {
            let points = &table.points;
            runreports::report_at(
                current.tree,
                store,
                points,
                run,
                p,
                rows,
                path,
                chances,
                answers,
                out,
            );
            current
        }
        11 => {
            arrivals::write_sample(current, sample, answers, out);
            current
        }
        _ => plain_step(
            current, store, table, run, p, words, reply, answers, out, width,
        ),
    }
}
