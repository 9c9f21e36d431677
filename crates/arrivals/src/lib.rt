// An arrival of a sampled tree with its words in a lent list, carried out on the lent state, its answer as numbers; and the sample as numbers.
#![tactic(auto)]

ghost use Rattle.std.specs.Prelude.{◌≡◌, List, [], ◌∷◌, ℕ, ◌+◌, ◌*◌, ◌≤◌, length, take};
ghost use Rattle.std.proofs.lemmas.List.Edits.{sets};
ghost use Rattle.limits.specs.Limits.{capacity_limit};
ghost use Rattle.little.specs.Little.{bytes_of};
ghost use Rattle.sampler.specs.Sample.{entries_in};
ghost use Rattle.samplerplustree.specs.State.{SomeSampled};
ghost use Rattle.samplerplustree.specs.Updates.{head_updated};
ghost use Rattle.samplerplustree.specs.Offers.{OfferTold};
ghost use Rattle.samplerplustree.specs.Entering.{SomeEntering, EnterDone};
ghost use Rattle.answers.specs.Said.{filled, reply_width};
ghost use Rattle.arrivals.specs.Arrived.{accepted_numbers, arrival_numbers, Arrives, EntersBy};
ghost use Rattle.arrivals.specs.Sample.{entry_numbers, SampleWritten};

use answers::{REPLY, Reply};
use limits::{CAPACITY, Path, Points};
use pointstore::PointStore;
use refusals::Refusal;
use samplerplustree::{Accepted, Offer, Remaining, Sample, SamplerPlusTree};
use treestore::{Found, NodeStore};

// The numbers of an arrival that is accepted: with an eviction, and without.
fn tell_accepted(accepted: Accepted, reply: &mut Reply)
    ensures { reply.new ≡ filled reply_width (accepted_numbers accepted.leaf accepted.evicted) }
{
    *reply = [0; REPLY];
    reply[2] = accepted.leaf;
    match accepted.evicted {
        None => {
            reply[1] = 1;
        }
        Some(evicted) => {
            reply[1] = 2;
            reply[3] = evicted;
        }
    }
}

// The numbers of an arrival's answer, with 0 after them.
// Rules out the evicted index told as the leaf's, and a number remaining in the reply from the call before.
pub fn tell_update(answer: Result<Option<Accepted>, Refusal>, reply: &mut Reply)
    ensures { reply.new ≡ filled reply_width (arrival_numbers answer) }
{
    match answer {
        Ok(Some(accepted)) => tell_accepted(accepted, reply),
        Ok(None) => {
            *reply = [0; REPLY];
        }
        Err(refusal) => {
            *reply = [0; REPLY];
            reply[0] = refusal.number();
        }
    }
}

// The header after an arrival: one that is refused or not accepted leaves it as it was.
fn head_updated(tree: SamplerPlusTree, answer: Result<Option<Accepted>, Refusal>) -> SamplerPlusTree
    ensures { result ≡ head_updated tree answer }
{
    match answer {
        Ok(Some(accepted)) => accepted.tree,
        Ok(None) | Err(_) => tree,
    }
}

// The second step of an arrival, by as many of its words as a tree has leaves at most, and the header after it. A list is short if it has fewer than
// the capacity, and no walk takes more. Of the lent words only those that are looked at have to be the arrival's.
// Rules out an arrival that is short of words where the list has enough, and the old header given back for one that is accepted.
pub fn enter(
    remaining: Remaining,
    offer: Result<Offer, Refusal>,
    store: &mut NodeStore,
    points: &Points,
    sample: &mut Sample,
    index: usize,
    weight: f32,
    path: &Path,
    found: Found,
    words: &[u64],
    reply: &mut Reply,
) -> SamplerPlusTree
    requires { SomeEntering remaining offer store.old points.now sample.old.weights sample.old.held index weight path.now found (length words.now) }
    ensures { (x : ℕ) (ws marks : List ℕ) → length (take capacity_limit ws) ≡ length words.now
        → EntersBy offer (length words.now) index weight x words.now ws remaining store.old points.now marks sample.old.weights sample.old.held
        result store.new sample.new.weights sample.new.held reply.new }
{
    let answer = remaining.enter(
        offer, store, points, sample, index, weight, path, found, words,
    );
    let next = head_updated(remaining.tree, answer);
    tell_update(answer, reply);
    next
}

// An arrival with a list by as many of its words as a tree has leaves at most, and the header after it: the test, and the two steps.
// Rules out an arrival told by one list of words and carried out with another, and one that is not accepted that moves the tree.
pub fn arrive(
    tree: SamplerPlusTree,
    store: &mut NodeStore,
    table: &PointStore,
    sample: &mut Sample,
    index: usize,
    weight: f32,
    chance: u64,
    words: &[u64],
    reply: &mut Reply,
) -> SamplerPlusTree
    requires { SomeSampled tree store.old table.now.points table.now.written sample.old.weights sample.old.held }
    ensures { (ws : List ℕ) → words.now ≡ take capacity_limit ws
        → Arrives index weight chance ws tree store.old table.now.points table.now.written sample.old.weights sample.old.held
        result store.new sample.new.weights sample.new.held reply.new }
{
    let points = &table.points;
    let offer = tree.test_arrival(
        &table.written,
        &sample.weights,
        index,
        weight,
        chance,
        words,
    );
    let mut path = [[0u16; 2]; CAPACITY];
    let remaining = tree.leave(offer, store, points, sample, &mut path);
    let found = remaining.find(offer, store, points, index, &mut path);
    enter(
        remaining, offer, store, points, sample, index, weight, &path, found, words, reply,
    )
}

// Writes two numbers, from the answer number `out` on.
fn put_two(answers: &mut [u8], out: usize, first: usize, second: usize)
    requires { 4 * (out + 2) ≤ length answers.old }
    ensures { answers.new ≡ sets answers.old (4 * out) (bytes_of (first ∷ second ∷ [])) }
{
    little::put_u32(answers, 4 * out, first);
    little::put_u32(answers, 4 * out + 4, second);
}

// Writes the first n slots, two numbers each, from the answer number `out` on.
fn write_slots(sample: &Sample, n: usize, answers: &mut [u8], out: usize)
    requires { (n ≤ capacity_limit) × (4 * (out + 2 * n) ≤ length answers.old) }
    ensures { answers.new ≡ sets answers.old (4 * out) (bytes_of (entry_numbers (entries_in n sample.now.weights sample.now.held))) }
{
    for i in 0..n {
        let bits = casts::wide32(little::pattern_of(sample.weights[i]));
        put_two(answers, out + 2 * i, bits, casts::wide16(sample.held[i]));
    }
}

// Writes the sample's numbers, from the answer number `out` on. The slots beyond those kept are cleared, so that each is written as it stands.
// Rules out a point index before its weight, and a place for each arrival kept in place of one for each that can be.
pub fn write_sample(tree: SamplerPlusTree, sample: &Sample, answers: &mut [u8], out: usize)
    requires { (tree.sampler.capacity ≤ capacity_limit) × (4 * (out + 2 + 2 * tree.sampler.capacity) ≤ length answers.old) }
    ensures { SampleWritten tree sample.now.weights sample.now.held answers.old out answers.new }
{
    let sampler = tree.sampler;
    put_two(answers, out, 0, casts::wide16(sampler.current_size));
    write_slots(sample, casts::wide16(sampler.capacity), answers, out + 2);
}
