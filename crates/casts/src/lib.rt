// Numbers as wider ones, and numbers held to bounds. A cast asks that what is read fits, which an array's type does not tell a proof; a call of one of these asks nothing, and tells the bound.
#![tactic(auto)]

ghost use Rattle.std.specs.Prelude.{◌≡◌, ◌&&◌, ◌<◌, min, leb};

// Not one function over `Into<usize>`: the library has it of u8 and u16 alone, and it tells no bound.
// Each to `usize`. Each of these rules out the lower bits alone, and any bound that a number of the narrower type breaks.
pub fn wide8(x: u8) -> usize
    ensures { (result ≡ x) × (x < 256) }
{
    x as usize
}

pub fn wide16(x: u16) -> usize
    ensures { (result ≡ x) × (x < 65536) }
{
    x as usize
}

pub fn wide32(x: u32) -> usize
    ensures { (result ≡ x) × (x < 4294967296) }
{
    x as usize
}

pub fn wide64(x: u64) -> usize
    ensures { result ≡ x }
{
    x as usize
}

// Whether a number is from `low` to `high`, both counted.
// Rules out a bound left out, and a number below `low` taken.
pub fn within(x: usize, low: usize, high: usize) -> bool
    ensures { result ≡ (leb low x && leb x high) }
{
    (low <= x) & (x <= high)
}

// The lesser of two numbers.
// Rules out the greater one, and a sum in its place.
pub fn at_most(n: usize, most: usize) -> usize
    ensures { result ≡ min n most }
{
    n.min(most)
}
