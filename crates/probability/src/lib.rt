// The chance that a random cut of a box with a point in it parts the point from the box. After `probability_of_cut` of boundingbox.rs.
#![tactic(auto)]

ghost use Rattle.std.specs.Prelude.{◌≡◌, false, ◌+◌, ◌≤◌, max};
ghost use Rattle.std.specs.Float.{binary64};
ghost use Rattle.std.specs.Float.Ieee.{round};
ghost use Rattle.limits.specs.Limits.{width};
ghost use Rattle.boundingbox.specs.Ends.{channel};
ghost use Rattle.boundingbox.specs.Wholes.{Box, side, sum_to};
ghost use Rattle.cut.specs.Draw.{low_end, high_end};
ghost use Rattle.cut.specs.Laws.{Readings, Padded};
ghost use Rattle.probability.specs.Probability.{past_by, outside, probability};
ghost use Rattle.probability.specs.Laws.{S, W};

use boundingbox::BoundingBox;
use limits::{CHANNELS, Row};

// Up to this every whole number is an f32.
const EXACT: u32 = 16777216;

// What lies outside a box, and the sides and it.
#[derive(Clone, Copy)]
struct Sums {
    part: u32,
    all: u32,
}

// The chance that a cut of the box with the point in it parts the two: what lies outside over the sides and it, 0 where nothing does.
// Rules out what lies above measured from the lower ends, and a quotient by the sides alone, which passes 1.
pub fn probability_of_cut(bounding_box: BoundingBox, point: &Row) -> f64
    ensures { result ≡ probability bounding_box.min_values bounding_box.max_values point.now width }
{
    let lower = bounding_box.min_values;
    let upper = bounding_box.max_values;
    let sum = summed_distance(&lower, &upper, point);
    let range_sum = bounding_box.get_range_sum();
    if sum == 0.0 {
        return 0.0;
    }
    if range_sum == 0.0 {
        return 1.0;
    }
    let outside = sum as f64;
    outside / (range_sum + outside)
}

// How far the point lies outside the box, as the Rust adds it up in f32: the distances below it and those above it apart, each in channel order, then the two sums.
// Rules out one sum over both, which rounds otherwise once it passes 2^24.
fn summed_distance(low: &Row, high: &Row, point: &Row) -> f32
    ensures { result ≡ outside low.now high.now point.now width }
{
    let mut minsum: f32 = 0.0;
    let mut maxsum: f32 = 0.0;
    for i in 0..CHANNELS {
        minsum = minsum + past_by(low[i], point[i]);
        maxsum = maxsum + past_by(point[i], high[i]);
    }
    maxsum + minsum
}

// How far x lies past y, and 0 where it does not. The Rust tests the difference.
fn past_by(x: f32, y: f32) -> f32
    ensures { result ≡ past_by x y }
{
    if x - y > 0.0 { x - y } else { 0.0 }
}

// The same chance, of a box and a point of coordinates, from its ends where they lie, and no further than a tree's channels in blocks of 8: beyond them all is +0.0.
// All sides are whole numbers: what lies outside is what the sides grow by as the point is taken in, and integers are added up side by side, where the sums above
// wait for one addition after another. Up to 8 channels the f32 sum is this integer, and no test is made.
// Where the box holds the point nothing lies outside, and 0 over any whole number from 1 on is 0: no branch has to be guessed.
// Rules out what lies outside over the sides without it, and a division by zero at a box that is the point.
pub fn whole_probability_of_cut(low: &Row, high: &Row, point: &Row, dimensions: usize) -> f64
    requires readings { Readings low.now high.now point.now width }
    requires padded { Padded low.now high.now point.now dimensions width }
    ensures { result ≡ probability low.now high.now point.now width }
{
    if dimensions <= 8 {
        return part_of(sums_to(low, high, point, 8));
    }
    if dimensions <= 16 {
        return part_or_rounded(sums_to(low, high, point, 16), low, high, point);
    }
    part_or_rounded(sums_to(low, high, point, CHANNELS), low, high, point)
}

// The integers divided where the part is an f32, else the chance of the sums as the Rust adds them up, which may be rounded.
fn part_or_rounded(sums: Sums, low: &Row, high: &Row, point: &Row) -> f64
    requires readings { Readings low.now high.now point.now width }
    requires sums { (sums.part ≡ S low.now high.now point.now width) × (sums.all ≡ W low.now high.now width + S low.now high.now point.now width) }
    ensures { result ≡ probability low.now high.now point.now width }
{
    if sums.part <= EXACT {
        return part_of(sums);
    }
    let bounding_box = BoundingBox {
        min_values: *low,
        max_values: *high,
    };
    probability_of_cut(bounding_box, point)
}

// The sums of the first n channels: the sides of the box with the point in it, and by how much they are more than those of the box alone.
fn sums_to(low: &Row, high: &Row, point: &Row, n: usize) -> Sums
    requires { (Readings low.now high.now point.now width) × (n ≤ width) }
    ensures { (result.part ≡ S low.now high.now point.now n) × (result.all ≡ W low.now high.now n + S low.now high.now point.now n) }
{
    let all = boundingbox::sum_of(0, n, &|i| cut::stretched_side(low[i], high[i], point[i]));
    let sides = boundingbox::sum_of(0, n, &|i| boundingbox::whole_side(low[i], high[i]));
    Sums {
        part: all - sides,
        all,
    }
}

// The part over all, in one rounded division; over 1 where there is nothing.
fn part_of(sums: Sums) -> f64
    requires { (sums.part ≤ sums.all) × (sums.all ≤ 67108864) }
    ensures { result ≡ round binary64 false sums.part (max sums.all 1) }
{
    (sums.part as f64) / (at_least_one(sums.all) as f64)
}

fn at_least_one(x: u32) -> u32
    ensures { result ≡ max x 1 }
{
    if x < 1 { 1 } else { x }
}
