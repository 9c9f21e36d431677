// The C entry: a byte run, a making and the calls after it, carried out whole (docs/LAYOUT.md). No state outlives it. Beside it, in `words`, that of the source of words.
// Crate `run_c` exports both to C.
#![tactic(auto)]

pub mod words;

ghost use Rattle.std.specs.Prelude.{◌≡◌, true, List, [], ◌∷◌, ℕ, ◌+◌, ◌*◌, ◌/◌, ◌<◌};
ghost use Rattle.refusals.specs.Refusals.{number};
ghost use Rattle.runlayout.specs.Layout.{RunCall, making_width, begins_with_making, channels, share};
ghost use Rattle.runsteps.specs.Told.{told_from};
ghost use Rattle.runsteps.specs.Standing.{kept};
ghost use Rattle.run.specs.Outcome.{given, begun, as_sampled, made, answered, outcome};
ghost use Rattle.run.specs.Running.{Running, SomeRunning, Started, SomeStarted, Checks};
ghost use Rattle.run.specs.Makes.{Makes};

use answers::REPLY;
use limits::CAPACITY;
use pointstore::PointStore;
use randomcuttree::RCFTree;
use refusals::Refusal;
use sampler::Sampler;
use samplerplustree::{Sample, SamplerPlusTree};
use treestore::NodeStore;

// The calls after the making, each answered in turn, after the making's own number. Gives how many numbers are answered.
// The kind of the next call is read before a call is carried out: of a long run it lies far away in memory, and comes meanwhile.
// The working memory is no struct: a step takes two or three of the five, and a clause would name each by `work.old.` and `work.new.` before its own name.
fn run_calls(
    tree: SamplerPlusTree,
    store: &mut NodeStore,
    table: &mut PointStore,
    sample: &mut Sample,
    run: &[u8],
    answers: &mut [u8],
) -> usize
    requires making { begins_with_making run.now ≡ true }
    requires ready { SomeRunning run.now (making_width run.now) 1 tree (kept store.old table.old.points table.old.written sample.old.weights sample.old.held) answers.old }
    ensures { (final : List ℕ) (count : ℕ) → Running run.now (making_width run.now) 1 tree (kept store.old table.old.points table.old.written sample.old.weights sample.old.held) answers.old final count → (result ≡ count) × (answers.new ≡ final) }
{
    let n = runlayout::size_of(run);
    let mut words = [0u64; CAPACITY];
    let mut reply = [0usize; REPLY];
    let mut rows = [[0u64; 4]; CAPACITY];
    let mut path = [[0u16; 2]; CAPACITY];
    let mut chances = [0.0f64; CAPACITY];
    let mut current = tree;
    let mut p = runlayout::making_width(run);
    let mut kind = runlayout::number_or_none(run, p);
    let mut out: usize = 1;
    // A turn goes on by a call's width, so this is no `for`.
    while p < n {
        let width = runlayout::answer_width(run, p);
        let next = p + runlayout::width_at(run, p);
        let ahead = runlayout::number_or_none(run, next);
        current = runsteps::step(
            current,
            store,
            table,
            sample,
            run,
            p,
            &mut words,
            &mut reply,
            &mut rows,
            &mut path,
            &mut chances,
            answers,
            out,
            width,
            kind,
        );
        out += width;
        p = next;
        kind = ahead;
    }
    out
}

// A making that is refused: its number is the only answer.
fn tell_refusal(answers: &mut [u8], refusal: Refusal) -> usize
    ensures { (result, answers.new) ≡ given (number refusal ∷ []) answers.old }
{
    if answers.len() < 4 {
        return Refusal::FewRows.number();
    }
    little::put_u32(answers, 0, refusal.number());
    4
}

// A tree that is made: 0 for the making, then its calls.
fn run_tree(
    tree: SamplerPlusTree,
    store: &mut NodeStore,
    table: &mut PointStore,
    sample: &mut Sample,
    run: &[u8],
    answers: &mut [u8],
) -> usize
    requires making { begins_with_making run.now ≡ true }
    requires ready { SomeStarted run.now tree (kept store.old table.old.points table.old.written sample.old.weights sample.old.held) answers.old }
    ensures { (cs : List (RunCall (channels run.now))) → Started run.now cs tree (kept store.old table.old.points table.old.written sample.old.weights sample.old.held) answers.old
        → (result, answers.new) ≡ given (0 ∷ told_from (channels run.now) (share run.now) (begun run.now) cs) answers.old }
{
    little::put_u32(answers, 0, 0);
    4 * run_calls(tree, store, table, sample, run, answers)
}

// A bare tree as a sampled one: with an empty sample, and no initial share.
fn as_sampled(tree: RCFTree) -> SamplerPlusTree
    ensures { result ≡ as_sampled tree }
{
    SamplerPlusTree {
        tree,
        sampler: Sampler {
            capacity: tree.capacity,
            current_size: 0,
        },
        initial_accept_fraction: 0.0,
    }
}

// The making of either kind.
fn make(run: &[u8], store: &mut NodeStore, sample: &mut Sample) -> Result<SamplerPlusTree, Refusal>
    requires { begins_with_making run.now ≡ true }
    ensures { Makes run.now store.new sample.new.weights sample.new.held result }
{
    let dimensions = runlayout::number_at(run, 1);
    let capacity = runlayout::number_at(run, 2);
    let share = little::double_of(runlayout::double_at(run, 3));
    if runlayout::is_sampled(run) {
        let initial = little::double_of(runlayout::double_at(run, 5));
        return SamplerPlusTree::new(dimensions, capacity, share, initial, store, sample);
    }
    let tree = RCFTree::new(dimensions, capacity, share, store)?;
    Ok(as_sampled(tree))
}

// A run in its layout, with what its calls' answers need lent or not.
// Never in line: what a tree takes is then made here first of all, and a run out of the layout does not pay for it (docs/DECISIONS.md, 69).
#[inline(never)]
fn run_made(run: &[u8], answers: &mut [u8], enough: bool) -> usize
    requires making { begins_with_making run.now ≡ true }
    requires calls { Checks run.now enough answers.old }
    ensures { (q : Checks run.now enough answers.old) → (result, answers.new) ≡ given (answered run.now (made run.now) q.calls) answers.old }
{
    let mut store = treestore::no_nodes();
    let mut table = PointStore::new();
    let mut sample = Sample::new();
    match make(run, &mut store, &mut sample) {
        Err(refusal) => tell_refusal(answers, refusal),
        Ok(tree) => {
            if !enough {
                return Refusal::FewRows.number();
            }
            run_tree(tree, &mut store, &mut table, &mut sample, run, answers)
        }
    }
}

// Carries out a whole run, and writes its answers to the lent bytes; or refuses it, and writes nothing: by the number of a text out of form where it is
// out of the layout, and by that of too few rows where too few bytes are lent.
// Rules out a run taken that ends inside a call, and a byte written beyond the answers.
pub fn sicklephlox_run(run: &[u8], answers: &mut [u8]) -> usize
    ensures { (result, answers.new) ≡ outcome run.now answers.old }
{
    if !runlayout::begins_with_making(run) {
        return Refusal::OutOfForm.number();
    }
    match runlayout::check_calls(run, answers.len() / 4) {
        None => Refusal::OutOfForm.number(),
        Some(enough) => run_made(run, answers, enough),
    }
}
