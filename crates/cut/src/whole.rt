// The side that a word cuts, of a box and a point of coordinates: told by sums of whole sides, first of four channels each and then within one four.
// Sums of integers over lent rows are compiled to few instructions, and no branch but those on the tree's channels has to be guessed.
ghost use Rattle.std.specs.Prelude.{◌≡◌, ℕ, ◌+◌, ◌-◌, ◌*◌, ◌≤◌, false, T, if◌then◌else◌, nat_lt, slice_index};
ghost use Rattle.std.specs.Float.Ieee.Exact.{HasValue};
ghost use Rattle.std.specs.Float.Ieee.Positive.{num, den};
ghost use Rattle.limits.specs.Limits.{width};
ghost use Rattle.readings.specs.Coordinate.{is_coordinate, rank};
ghost use Rattle.boundingbox.specs.Ends.{channel, least, greatest};
ghost use Rattle.boundingbox.specs.Contained.{count_of};
ghost use Rattle.boundingbox.specs.Wholes.{Box, side, sum_to};
ghost use Rattle.boundingbox.specs.Padding.{Padded as PaddedRow};
ghost use Rattle.cut.specs.Laws.{Readings, Padded};
ghost use Rattle.cut.specs.Sums.{grown, side_in, FirstSides, Sides, SmallSides, PaddedSides, side_cut, Fours, fours, Bound, UnderIn};

use crate::Side;
use limits::{CHANNELS, Row};

// The sums of no side, of the first four, and so on to all.
type FourSums = [u32; 9];

// The sides of a box with a point in it.
type Wholes = [u32; CHANNELS];

// How many more channels a number lies past, and the sum of the sides of all that it does.
#[derive(Clone, Copy)]
struct Under {
    count: usize,
    sum: u32,
}

// The side that is cut and the amount before it; none where the box holds the point, whose sides then grow by nothing.
// Rules out a side of padding, and a rest from another four's sums.
pub fn side_cut(low: &Row, high: &Row, word: u64, point: &Row, dimensions: usize) -> Option<Side>
    requires readings { Readings low.now high.now point.now width }
    requires padded { Padded low.now high.now point.now dimensions width }
    ensures { result ≡ side_cut low.now high.now point.now width word }
{
    let sides = wholes(low, high, point, dimensions);
    let sums = four_sums(&sides, dimensions);
    let all = sums[8];
    if all == side_sum(low, high, dimensions) {
        return None;
    }
    let range = (all as f64) * readings::factor(word);
    let bound = whole_bound(range);
    let four = fours_below(sums, bound, dimensions);
    let under = under_in(&sides, 4 * four, sums[four], bound);
    Some(Side {
        dimension: 4 * four + under.count,
        rest: range - (under.sum as f64),
    })
}

// A whole sum is 0 or lies below x exactly where it lies below this.
fn whole_bound(x: f64) -> u32
    requires { (HasValue x false (num x) (den x)) × (num x ≤ 67108864 * den x) }
    ensures { Bound x result }
{
    if x < 1.0 {
        return 1;
    }
    let whole = std::num::truncating_f64_to_u64(x) as u32;
    if (whole as f64) < x { whole + 1 } else { whole }
}

// 1 where x lies below the bound, else 0. A number and no branch, so that none has to be guessed.
fn whole_below(x: u32, bound: u32) -> usize
    ensures few { result ≤ 1 }
    ensures told { result ≡ (if nat_lt x bound then 1 else 0) }
{
    if x < bound { 1 } else { 0 }
}

// The sums of the sides by fours. Past the tree's channels they stay as they are.
fn four_sums(sides: &Wholes, dimensions: usize) -> FourSums
    requires small { SmallSides sides.now }
    requires padded { PaddedSides dimensions sides.now }
    ensures { Fours (side_in sides.now) result }
{
    let a = sum_four(sides, 0);
    let b = a + sum_four(sides, 4);
    if dimensions <= 8 {
        return [0, a, b, b, b, b, b, b, b];
    }
    let c = b + sum_four(sides, 8);
    let d = c + sum_four(sides, 12);
    if dimensions <= 16 {
        return [0, a, b, c, d, d, d, d, d];
    }
    let e = d + sum_four(sides, 16);
    let f = e + sum_four(sides, 20);
    let g = f + sum_four(sides, 24);
    let h = g + sum_four(sides, 28);
    [0, a, b, c, d, e, f, g, h]
}

// The first n sides of the box with the point in it, and 0 after them.
fn wholes_to(low: &Row, high: &Row, point: &Row, n: usize) -> Wholes
    requires { (Readings low.now high.now point.now width) × (n ≤ width) }
    ensures { FirstSides (grown low.now high.now point.now) n result }
{
    let mut sides = [0u32; CHANNELS];
    for i in 0..n {
        sides[i] = stretched_side(low[i], high[i], point[i]);
    }
    sides
}

// All sides of it, those of padding 0. The number of turns of each loop is known to the compiler, which so makes vectors of it.
fn wholes(low: &Row, high: &Row, point: &Row, dimensions: usize) -> Wholes
    requires readings { Readings low.now high.now point.now width }
    requires padded { Padded low.now high.now point.now dimensions width }
    ensures { Sides (grown low.now high.now point.now) result }
{
    if dimensions <= 8 {
        return wholes_to(low, high, point, 8);
    }
    if dimensions <= 16 {
        return wholes_to(low, high, point, 16);
    }
    wholes_to(low, high, point, CHANNELS)
}

// By how much the sum of the sides grows in four channels.
fn sum_four(sides: &Wholes, at: usize) -> u32
    requires { (SmallSides sides.now) × (at + 4 ≤ width) }
    ensures few { result ≤ 8388608 }
    ensures grows { sum_to (side_in sides.now) at + result ≡ sum_to (side_in sides.now) (at + 4) }
{
    boundingbox::sum_of(at, 4, &|i| sides[i])
}

// The sum of the sides of the box.
fn side_sum(low: &Row, high: &Row, dimensions: usize) -> u32
    requires sides { Box (channel low.now) (channel high.now) width }
    requires padded { (PaddedRow low.now dimensions width) × (PaddedRow high.now dimensions width) }
    ensures { result ≡ sum_to (side (channel low.now) (channel high.now)) width }
{
    boundingbox::sum_by_fours(dimensions, |i| boundingbox::whole_side(low[i], high[i]))
}

// How many of the sums by fours lie below the bound. As many are counted as tell the four of a channel of the tree.
fn fours_below(sums: FourSums, bound: u32, dimensions: usize) -> usize
    ensures { result ≡ count_of (λ (j : ℕ). nat_lt (slice_index sums (j + 1)) bound) (fours dimensions) }
{
    let one = whole_below(sums[1], bound);
    if dimensions <= 8 {
        return one;
    }
    let three = one + whole_below(sums[2], bound) + whole_below(sums[3], bound);
    if dimensions <= 16 {
        return three;
    }
    let five = three + whole_below(sums[4], bound) + whole_below(sums[5], bound);
    five + whole_below(sums[6], bound) + whole_below(sums[7], bound)
}

// How many of the four sums from a channel on lie below the bound, and the last of them that does.
fn under_in(sides: &Wholes, at: usize, base: u32, bound: u32) -> Under
    requires small { SmallSides sides.now }
    requires start { (at + 4 ≤ width) × (base ≡ sum_to (side_in sides.now) at) }
    ensures { UnderIn (side_in sides.now) at bound result.«count» result.«sum» }
{
    let mut sum = base;
    let mut before = base;
    let mut count: usize = 0;
    for i in 0..4 {
        sum = sum + sides[at + i];
        before = picked(sum < bound, sum, before);
        count = count + whole_below(sum, bound);
    }
    Under { count, sum: before }
}

// The side from low to high with x in it, as an integer.
// Rules out the side without x, and one that x narrows.
pub fn stretched_side(low: f32, high: f32, x: f32) -> u32
    requires { (T (is_coordinate (least low x))) × (T (is_coordinate (greatest high x))) × (rank (least low x) ≤ rank (greatest high x)) }
    ensures { result ≡ rank (greatest high x) - rank (least low x) }
{
    boundingbox::whole_side(
        boundingbox::least_of(low, x),
        boundingbox::greatest_of(high, x),
    )
}

// `either` of `walk`, which stands above this crate; a crate for one line would be no plainer.
fn picked(first: bool, x: u32, y: u32) -> u32
    ensures { result ≡ (if first then x else y) }
{
    if first { x } else { y }
}
