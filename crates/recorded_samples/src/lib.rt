// What the port answers to a recorded sequence of a sample by itself: an initial share and a capacity, then arrivals and evictions, each answered with what
// it does and the starting chance before it; at some places the whole heap is looked at. They are read and answered as crates/replay/RECORDED.md says.
#![tactic(auto)]

ghost use Rattle.std.specs.Prelude.{◌≡◌, List, ◌+◌, ◌*◌, ◌≤◌, ◌<◌, length};
ghost use Rattle.limits.specs.Limits.{capacity_limit};
ghost use Rattle.lines.specs.Lines.{Wrote};
ghost use Rattle.sampler.specs.Sample.{Entry};
ghost use Rattle.sampledtree.specs.Sampled.{offer};
ghost use Rattle.recorded_samples.specs.Samples.{Roomy, Kept, chance_at, is_initial, left_of, admitted_of, sample_admitted, dropped, left_by, arrived_at, Does, slots_to, told, Told, Turned, sample_answer};

use limits::CAPACITY;
use sampler::{Evicted, Sample, Sampler};

// The bytes of the share and the capacity, of an arrival, of an eviction and of a look.
const ITEM: usize = 16;

// The index of a look at the whole heap, and of an eviction; any other is an arrival's.
const LOOK: u16 = 65535;

const EVICT: u16 = 65534;

// What an arrival or an eviction does.
#[derive(Clone, Copy)]
pub enum Done {
    Nothing,
    // The arrival starts.
    Start,
    // The entry of this index and this weight goes.
    Gone(u16, f32),
}

// What an arrival or an eviction does, and the sampler after it.
#[derive(Clone, Copy)]
pub struct Arrived {
    pub done: Done,
    pub sampler: Sampler,
}

// The sampler after an item of the sequence, and the next place to write to.
#[derive(Clone, Copy)]
pub struct Reached {
    pub sampler: Sampler,
    pub place: usize,
}

// The chance of an arrival to start.
fn chance_of(sampler: Sampler, share: f64) -> f64
    ensures { result ≡ chance_at sampler.current_size sampler.capacity share }
{
    startingchance::initial_accept_probability(
        startingchance::get_fill_fraction(sampler.current_size, sampler.capacity),
        share,
    )
}

// Whether an arrival starts: at a full sample none does.
fn is_initial(sampler: Sampler, share: f64, word: u64) -> bool
    ensures { result ≡ is_initial sampler.current_size sampler.capacity share word }
{
    let full = sampler.is_full();
    let starts = startingchance::starts(word, sampler.current_size, sampler.capacity, share);
    !full & starts
}

// What an accepted arrival evicts, and the sampler that its point is added to.
fn left_of(sampler: Sampler, accepted: Option<Evicted>) -> Arrived
    ensures { result ≡ left_of sampler accepted }
{
    match accepted {
        None => Arrived {
            done: Done::Start,
            sampler,
        },
        Some(evicted) => Arrived {
            done: Done::Gone(evicted.index, evicted.weight),
            sampler: evicted.sampler,
        },
    }
}

// An accepted arrival: what it evicts goes, and its point is added.
fn admit(sampler: Sampler, initial: bool, weight: f32, index: u16, sample: &mut Sample) -> Arrived
    requires { Roomy sampler initial }
    ensures answer { result ≡ admitted_of sampler initial sample.old.weights sample.old.held }
    ensures slots { (ks : List Entry) → Kept sampler.current_size ks sample.old.weights sample.old.held
        → Kept result.sampler.current_size (sample_admitted initial ks weight index) sample.new.weights sample.new.held }
{
    let accepted = sampler.accept_point(initial, sample);
    let left = left_of(sampler, accepted);
    let room = left.sampler;
    let after = room.add_point(weight, index, sample);
    Arrived {
        done: left.done,
        sampler: after,
    }
}

// Any arrival. At an empty sample one that does not start is not accepted, whatever its weight.
fn arrive(
    sampler: Sampler,
    share: f64,
    word: u64,
    weight: f32,
    index: u16,
    sample: &mut Sample,
) -> Arrived
    requires { (sampler.current_size ≤ sampler.capacity) × (sampler.capacity ≤ capacity_limit) }
    ensures { (ks : List Entry) → Kept sampler.current_size ks sample.old.weights sample.old.held
        → Does sampler.capacity ks (offer sampler.capacity share ks weight word) (arrived_at sampler.capacity share ks word weight index) result sample.new.weights sample.new.held }
{
    let initial = is_initial(sampler, share, word);
    let holds = sampler.current_size > 0;
    let accepts = sampler.accepts(initial, weight, &sample.weights);
    if (initial | holds) & accepts {
        return admit(sampler, initial, weight, index, sample);
    }
    Arrived {
        done: Done::Nothing,
        sampler,
    }
}

// An eviction by itself. At an empty sample it does nothing.
fn evict(sampler: Sampler, sample: &mut Sample) -> Arrived
    requires { (sampler.current_size ≤ sampler.capacity) × (sampler.capacity ≤ capacity_limit) }
    ensures { (ks : List Entry) → Kept sampler.current_size ks sample.old.weights sample.old.held
        → Does sampler.capacity ks (dropped ks) (left_by ks (dropped ks)) result sample.new.weights sample.new.held }
{
    if sampler.current_size == 0 {
        return Arrived {
            done: Done::Nothing,
            sampler,
        };
    }
    let evicted = sampler.evict_max(sample);
    Arrived {
        done: Done::Gone(evicted.index, evicted.weight),
        sampler: evicted.sampler,
    }
}

// Writes a kind and the index that goes, the size after it, the weight that goes, and the chance before it.
fn put_done(out: &mut [u8], at: usize, pair: [u16; 2], size: u16, weight: f32, chance: f64) -> usize
    requires { at < 10000000000 }
    ensures wrote { Wrote out.old at (told pair size weight chance) result out.new }
    ensures next { result ≡ at + 20 }
{
    let p = recorded::put_pair(out, at, pair);
    let q = recorded::put_word(out, p, casts::wide16(size));
    let s = recorded::put_word(out, q, casts::wide32(little::pattern_of(weight)));
    recorded::put_double(out, s, casts::wide64(little::pattern_of_double(chance)))
}

// Writes what an arrival or an eviction did, the size after it, and the chance before it.
fn put_arrived(out: &mut [u8], at: usize, arrived: Arrived, chance: f64) -> Reached
    requires { at < 10000000000 }
    ensures { Told arrived chance at out.old result out.new }
{
    let sampler = arrived.sampler;
    let size = sampler.current_size;
    match arrived.done {
        Done::Nothing => Reached {
            sampler,
            place: put_done(out, at, [0, 0], size, 0.0, chance),
        },
        Done::Start => Reached {
            sampler,
            place: put_done(out, at, [1, 0], size, 0.0, chance),
        },
        Done::Gone(index, weight) => Reached {
            sampler,
            place: put_done(out, at, [2, index], size, weight, chance),
        },
    }
}

// Writes the weights' bits and the indices in the first slots.
fn put_heap(out: &mut [u8], at: usize, size: usize, sample: &Sample) -> usize
    requires { (at < 10000000000) × (size ≤ capacity_limit) }
    ensures wrote { Wrote out.old at (slots_to sample.now.weights sample.now.held size) result out.new }
    ensures next { result ≡ at + 8 * size }
{
    let mut p = at;
    for k in 0..size {
        p = recorded::put_word(out, p, casts::wide32(little::pattern_of(sample.weights[k])));
        p = recorded::put_word(out, p, casts::wide16(sample.held[k]));
    }
    p
}

// One item more of a sequence: a look at the heap, an eviction, or an arrival.
fn turn(
    out: &mut [u8],
    state: Reached,
    share: f64,
    word: u64,
    weight: f32,
    index: u16,
    sample: &mut Sample,
) -> Reached
    requires { (state.place < 10000000000) × (state.sampler.current_size ≤ state.sampler.capacity) × (state.sampler.capacity ≤ capacity_limit) }
    ensures { (ks : List Entry) → Kept state.sampler.current_size ks sample.old.weights sample.old.held
        → Turned state.sampler.capacity share ks word weight index state.place out.old result sample.new.weights sample.new.held out.new }
{
    let sampler = state.sampler;
    if index == LOOK {
        return Reached {
            sampler,
            place: put_heap(
                out,
                state.place,
                casts::wide16(sampler.current_size),
                sample,
            ),
        };
    }
    let chance = chance_of(sampler, share);
    if index == EVICT {
        return put_arrived(out, state.place, evict(sampler, sample), chance);
    }
    let arrived = arrive(sampler, share, word, weight, index, sample);
    put_arrived(out, state.place, arrived, chance)
}

// The whole sequence: share and capacity, then arrivals, evictions and looks in turn. A capacity above the largest has no answer.
// Rules out an arrival left out, an entry told without its index, and a refused arrival that changes the heap.
pub fn answer_sample(given: &[u8], out: &mut [u8]) -> usize
    requires { length given.now ≤ 1048576 }
    ensures { Wrote out.old 0 (sample_answer given.now) result out.new }
{
    let n = given.len() / ITEM;
    if n == 0 {
        return 0;
    }
    let share = little::double_of(little::u64_at(given, 0));
    let capacity = little::u16_at(given, 8);
    if casts::wide16(capacity) > CAPACITY {
        return 0;
    }
    let mut sample = Sample::new();
    let sampler = Sampler::new(capacity, &mut sample);
    let mut state = Reached { sampler, place: 0 };
    for i in 1..n {
        let word = little::u64_at(given, ITEM * i);
        let weight = little::float_of(little::u32_at(given, ITEM * i + 8));
        let index = little::u16_at(given, ITEM * i + 12);
        state = turn(out, state, share, word, weight, index, &mut sample);
    }
    state.place
}
