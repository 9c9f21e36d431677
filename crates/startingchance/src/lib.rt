// The starting chance of an arrival (sampler.rs, samplerplustree.rs): how full the sample is, and whether a word starts an arrival.
#![tactic(auto)]

ghost use Rattle.std.specs.Prelude.{◌≡◌};
ghost use Rattle.startingchance.specs.Chance.{fill_fraction, chance_of, starts_by};

// How full a sample is: its size over its capacity, rounded once, and 1 where they are equal, also at capacity 0.
// Rules out 0 / 0 at capacity 0, and a quotient of whole numbers, which is 0 until the sample is full.
pub fn get_fill_fraction(current_size: u16, capacity: u16) -> f64
    ensures { result ≡ fill_fraction current_size capacity }
{
    if current_size == capacity {
        return 1.0;
    }
    (current_size as f64) / (capacity as f64)
}

// The chance of an arrival to start: 1 below the initial share, and from there down to 0 at a full sample, each operation rounded.
// Rules out a full sample that starts at share 1, and a fall that begins at an empty sample in place of the share.
pub fn initial_accept_probability(fill_fraction: f64, initial_accept_fraction: f64) -> f64
    ensures { result ≡ chance_of fill_fraction initial_accept_fraction }
{
    if fill_fraction < initial_accept_fraction {
        return 1.0;
    }
    if initial_accept_fraction >= 1.0 {
        return 0.0;
    }
    1.0 - (fill_fraction - initial_accept_fraction) / (1.0 - initial_accept_fraction)
}

// Whether the word starts an arrival at a sample: its factor is below the chance.
// Rules out word 0 starting at a full sample, whose chance is 0, and a chance taken from the size and not from the fill.
pub fn starts(word: u64, current_size: u16, capacity: u16, initial_accept_fraction: f64) -> bool
    ensures { result ≡ starts_by word current_size capacity initial_accept_fraction }
{
    let fill_fraction = get_fill_fraction(current_size, capacity);
    let chance = initial_accept_probability(fill_fraction, initial_accept_fraction);
    readings::factor(word) < chance
}
