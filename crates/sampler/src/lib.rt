// The sample of a tree: a heap of weights, each with its point index, the largest weight first. A port of sampler.rs.
// The slots are lent by the caller, and the header of them is passed and returned by value. What the Rust keeps from `accept_point` to
// `add_point` is the caller's. A slot that an eviction vacates is cleared, where the Rust leaves what stood there. Attributes, `reheap`,
// `get_references` and `get_size` are left out, and `get_fill_fraction` stands in `startingchance`.
// The contracts hold for every float. Entries, their slots and the heap are said in specs/Sample.antt and specs/Heap.antt.
#![tactic(auto)]

ghost use Rattle.std.specs.Prelude.{◌≡◌, false, cond, ◌||◌, List, ◌∷◌, ℕ, ◌+◌, ◌*◌, ◌<◌, ◌≤◌, eqb, get_or, replicate, Float};
ghost use Rattle.std.specs.Float.{nan};
ghost use Rattle.std.specs.Float.Ieee.{lt};
ghost use Rattle.limits.specs.Limits.{capacity_limit};
ghost use Rattle.readings.specs.Number.{nought};
ghost use Rattle.sampler.specs.Heap.{swapped, raised, pushed, heavier, sunk};
ghost use Rattle.sampler.specs.Sample.{Entry, above, beyond, Slots, evicted_of, Evicts, Accepts};

use limits::{CAPACITY, Held, Weights};

// The sample's slots: the weights that it keeps, and the point index that goes with each.
#[derive(Drop)]
pub struct Sample {
    pub weights: Weights,
    pub held: Held,
}

impl Sample {
    // Slots of zeros, for a making to clear.
    // Rules out minus zeros among the weights, and an index left in a slot.
    pub fn new() -> Self
        ensures weights { result.weights ≡ replicate capacity_limit nought }
        ensures held { result.held ≡ replicate capacity_limit 0 }
    {
        Self {
            weights: [0.0; CAPACITY],
            held: [0; CAPACITY],
        }
    }
}

// The first `current_size` slots of the sample that goes with this are a heap.
#[derive(Clone, Copy)]
pub struct Sampler {
    pub capacity: u16,
    pub current_size: u16,
}

// The entry that went, and the sampler without it.
#[derive(Clone, Copy)]
pub struct Evicted {
    pub sampler: Sampler,
    pub index: u16,
    pub weight: f32,
}

// The entries at a and b change places.
fn swap_weights(sample: &mut Sample, a: usize, b: usize)
    requires { (a < capacity_limit) × (b < capacity_limit) }
    ensures weights_after { sample.new.weights ≡ swapped nan sample.old.weights a b }
    ensures points_after { sample.new.held ≡ swapped 0 sample.old.held a b }
{
    sample.held.swap(a, b);
    sample.weights.swap(a, b);
}

// 1 where the right one weighs more, else 0. A number and no branch, so that none has to be guessed.
fn more(left: f32, right: f32) -> usize
    ensures { result ≡ cond (lt left right) 1 0 }
{
    if left < right { 1 } else { 0 }
}

// `swap_down`'s choice: the child of `current` that weighs more, the left one where neither does.
fn max_child(weights: &Weights, current: usize, size: usize) -> usize
    requires { (2 * current + 1 < size) × (size ≤ capacity_limit) }
    ensures range { (current < result) × (result < size) }
    ensures is { (ks : List Entry) (ws : List Float) (ps points : List ℕ) → Slots size ks ws ps weights.now points → result ≡ heavier above beyond ks current }
{
    let left = 2 * current + 1;
    if left + 1 < size {
        return left + more(weights[left], weights[left + 1]);
    }
    left
}

// `add_point`'s loop: the last entry goes up past each parent that weighs less.
fn swap_up(sample: &mut Sample, start_index: usize)
    requires { start_index < capacity_limit }
    ensures { (ks : List Entry) (ws : List Float) (ps : List ℕ) → Slots (start_index + 1) ks ws ps sample.old.weights sample.old.held
        → Slots (start_index + 1) (raised above beyond ks start_index) ws ps sample.new.weights sample.new.held }
{
    let mut current = start_index;
    while current > 0 {
        let tmp = (current - 1) / 2;
        if sample.weights[tmp] < sample.weights[current] {
            swap_weights(sample, current, tmp);
            current = tmp;
        } else {
            break;
        }
    }
}

impl Sampler {
    // An empty sampler, with every slot cleared.
    // Rules out slots left as they were lent, and a size that counts cleared slots.
    pub fn new(capacity: u16, sample: &mut Sample) -> Self
        ensures made { result ≡ record { capacity = capacity; current_size = 0 } }
        ensures weights_after { sample.new.weights ≡ replicate capacity_limit nought }
        ensures points_after { sample.new.held ≡ replicate capacity_limit 0 }
    {
        *sample = Sample::new();
        Self {
            capacity,
            current_size: 0,
        }
    }

    // The entry at `start_index` goes down past each child that weighs more.
    fn swap_down(self, start_index: usize, sample: &mut Sample)
        requires { (start_index ≤ capacity_limit) × (self.current_size ≤ capacity_limit) }
        ensures { (ks : List Entry) (ws : List Float) (ps : List ℕ) → Slots self.current_size ks ws ps sample.old.weights sample.old.held
            → Slots self.current_size (sunk above beyond ks start_index) ws ps sample.new.weights sample.new.held }
    {
        let size = self.current_size as usize;
        let mut current = start_index;
        while 2 * current + 1 < size {
            let max_index = max_child(&sample.weights, current, size);
            if sample.weights[max_index] > sample.weights[current] {
                swap_weights(sample, current, max_index);
                current = max_index;
            } else {
                break;
            }
        }
    }

    // The entry is pushed: it stands in the slot after the last, and goes up. Those beyond stay.
    // Rules out going up past a parent of equal weight, and a weight that goes up without its index.
    pub fn add_point(self, weight: f32, index: u16, sample: &mut Sample) -> Self
        requires { self.current_size < capacity_limit }
        ensures answer { result ≡ record { capacity = self.capacity; current_size = self.current_size + 1 } }
        ensures slots { (ks : List Entry) (w : Float) (ws : List Float) (p : ℕ) (ps : List ℕ) → Slots self.current_size ks (w ∷ ws) (p ∷ ps) sample.old.weights sample.old.held
            → Slots (self.current_size + 1) (pushed above beyond ks (record { weight = weight; index = index })) ws ps sample.new.weights sample.new.held }
    {
        let current = self.current_size as usize;
        sample.weights[current] = weight;
        sample.held[current] = index;
        swap_up(sample, current);
        Self {
            capacity: self.capacity,
            current_size: self.current_size + 1,
        }
    }

    // `accept_point`'s test: whether an arrival is accepted. One that starts is, at any weight; any other only below the first weight.
    // Rules out an equal weight accepted, and a started arrival refused for its weight.
    pub fn accepts(self, initial: bool, weight: f32, weights: &Weights) -> bool
        ensures { result ≡ (initial || lt weight (get_or weights.now 0 nan)) }
    {
        initial || weight < weights[0]
    }

    // What `accept_point` does of an accepted arrival before its point is added: one that did not start evicts the first entry. At one that started nothing is
    // evicted, and the sampler is as it was.
    // Rules out an eviction for a started arrival, and an answer that names the arrival as evicted.
    pub fn accept_point(self, initial: bool, sample: &mut Sample) -> Option<Evicted>
        requires current_size_nonzero { initial ≡ false → 0 < self.current_size }
        requires current_size_bound { self.current_size ≤ capacity_limit }
        ensures { Accepts self initial result sample.old.weights sample.old.held sample.new.weights sample.new.held }
    {
        if initial {
            return None;
        }
        Some(self.evict_max(sample))
    }

    // The first entry goes; the last takes its place and goes down, and the slot that it leaves is cleared.
    // Rules out a child taken at equal weight, and the right child of two that weigh the same.
    pub fn evict_max(self, sample: &mut Sample) -> Evicted
        requires { (0 < self.current_size) × (self.current_size ≤ capacity_limit) }
        ensures answer { result ≡ evicted_of self sample.old.weights sample.old.held }
        ensures slots { Evicts self.current_size sample.old.weights sample.old.held sample.new.weights sample.new.held }
    {
        let index = sample.held[0];
        let weight = sample.weights[0];
        let last = (self.current_size as usize) - 1;
        sample.held[0] = sample.held[last];
        sample.weights[0] = sample.weights[last];
        sample.held[last] = 0;
        sample.weights[last] = 0.0;
        let sampler = Self {
            capacity: self.capacity,
            current_size: self.current_size - 1,
        };
        sampler.swap_down(0, sample);
        Evicted {
            sampler,
            index,
            weight,
        }
    }

    // Rules out the test turned round, and true while one slot is left.
    pub fn is_full(self) -> bool
        ensures { result ≡ eqb self.current_size self.capacity }
    {
        self.current_size == self.capacity
    }
}
