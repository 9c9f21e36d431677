// The boxes of a random cut tree: their ends, growing, the sum of their sides, and what lies inside. After boundingbox.rs, and `check_strictly_contains` of nodestore.rs.
#![tactic(auto)]

ghost use Rattle.std.specs.Prelude.{◌≡◌, ◌&&◌, ◌||◌, cond, ℕ, ◌+◌, ◌-◌, ◌*◌, ◌≤◌, ◌<◌, min, T, Float};
ghost use Rattle.readings.specs.Coordinate.{is_coordinate, rank};
ghost use Rattle.limits.specs.Limits.{width};
ghost use Rattle.boundingbox.specs.Ends.{least, greatest, joined};
ghost use Rattle.boundingbox.specs.Sides.{gap_of, range_sum};
ghost use Rattle.boundingbox.specs.Contained.{stays, contains, inside, strictly_contains};
ghost use Rattle.boundingbox.specs.Wholes.{sum_to};
ghost use Rattle.boundingbox.specs.Padding.{Padded};

use limits::{CHANNELS, Row};

// A box: its lower and its upper end in each channel. Channels from the tree's number on hold +0.0.
#[derive(Clone, Copy)]
pub struct BoundingBox {
    pub min_values: Row,
    pub max_values: Row,
}

// A box that was grown, and whether it held before what it was grown by: whether no end moved.
#[derive(Clone, Copy)]
pub struct Grown {
    pub bounding_box: BoundingBox,
    pub contained: bool,
}

impl BoundingBox {
    // The smallest box around two points; that of one point is `new(p, p)`.
    // Rules out ends kept from the first point alone, and the two lists of ends swapped.
    pub fn new(first_values: &Row, second_values: &Row) -> Self
        ensures lower { result.min_values ≡ joined least first_values.now second_values.now }
        ensures upper { result.max_values ≡ joined greatest second_values.now first_values.now }
    {
        let min_values = moved(*first_values, second_values, least_of);
        let max_values = moved(*second_values, first_values, greatest_of);
        BoundingBox {
            min_values,
            max_values,
        }
    }

    // The box grown by a point.
    // Rules out an answer of false for a point on a face, and a box left as it was by a point outside.
    pub fn check_contains_and_add_point(self, values: &Row) -> Grown
        ensures lower { result.bounding_box.min_values ≡ joined least self.min_values values.now }
        ensures upper { result.bounding_box.max_values ≡ joined greatest self.max_values values.now }
        ensures held { result.contained ≡ contains self.min_values self.max_values values.now values.now width }
    {
        self.add_two_arrays(values, values)
    }

    // The box grown by another box.
    // Rules out growing both ends by x's lower ends, and an answer about the grown box in place of this one.
    pub fn add_box(self, x: BoundingBox) -> Grown
        ensures lower { result.bounding_box.min_values ≡ joined least self.min_values x.min_values }
        ensures upper { result.bounding_box.max_values ≡ joined greatest self.max_values x.max_values }
        ensures held { result.contained ≡ contains self.min_values self.max_values x.min_values x.max_values width }
    {
        let minvalues = x.min_values;
        let maxvalues = x.max_values;
        self.add_two_arrays(&minvalues, &maxvalues)
    }

    // The box grown by lower and upper ends.
    // Rules out an end that moves inward, and an answer from rounded range sums, which a small side beside a large one leaves as they were.
    pub fn add_two_arrays(self, minvalues: &Row, maxvalues: &Row) -> Grown
        ensures lower { result.bounding_box.min_values ≡ joined least self.min_values minvalues.now }
        ensures upper { result.bounding_box.max_values ≡ joined greatest self.max_values maxvalues.now }
        ensures held { result.contained ≡ contains self.min_values self.max_values minvalues.now maxvalues.now width }
    {
        let contained = self.unmoved(minvalues, maxvalues);
        let lower = self.min_values;
        let upper = self.max_values;
        let min_values = moved(lower, minvalues, least_of);
        let max_values = moved(upper, maxvalues, greatest_of);
        let bounding_box = BoundingBox {
            min_values,
            max_values,
        };
        Grown {
            bounding_box,
            contained,
        }
    }

    // Whether growing by `minvalues` and `maxvalues` moves no end. No turn leaves the loop, so that the channels are tested side by side.
    fn unmoved(self, minvalues: &Row, maxvalues: &Row) -> bool
        ensures { result ≡ contains self.min_values self.max_values minvalues.now maxvalues.now width }
    {
        let lower = self.min_values;
        let upper = self.max_values;
        let mut held = true;
        for i in 0..CHANNELS {
            held = and_stays(held, lower[i], upper[i], minvalues[i], maxvalues[i]);
        }
        held
    }

    // Whether the point lies in the box, its faces with it.
    // Rules out a point on a face taken for outside, and a channel left out.
    pub fn contains(self, point: &Row) -> bool
        ensures { result ≡ contains self.min_values self.max_values point.now point.now width }
    {
        self.unmoved(point, point)
    }

    // The sum of the sides, in channel order.
    // Rules out a sum over one channel fewer, and one added up in another order, which rounds otherwise.
    pub fn get_range_sum(self) -> f64
        ensures { result ≡ range_sum self.min_values self.max_values width }
    {
        let lower = self.min_values;
        let upper = self.max_values;
        let mut sum: f64 = 0.0;
        for i in 0..CHANNELS {
            sum = sum + gap(lower[i], upper[i]);
        }
        sum
    }

    // Whether the point lies strictly inside in each of the first `dimensions` channels: in padding nothing does. No turn leaves the loop, as in `unmoved`.
    // Rules out a point on a face taken for inside, and padding counted as a channel.
    pub fn strictly_contains(self, point: &Row, dimensions: usize) -> bool
        ensures { result ≡ strictly_contains self.min_values self.max_values point.now (min dimensions width) }
    {
        let lower = self.min_values;
        let upper = self.max_values;
        let mut held = true;
        for i in 0..CHANNELS {
            held = and_inside(held, dimensions <= i, lower[i], upper[i], point[i]);
        }
        held
    }
}

// How far b lies above a, and 0 where it does not. The test picks one of two f32s, so that no branch has to be guessed.
// Rules out the difference the other way round, and a negative one where b lies below a.
pub fn rise(a: f32, b: f32) -> f32
    ensures { result ≡ gap_of a b }
{
    if a < b { b - a } else { 0.0 }
}

// The same as an f64.
// Rules out the difference taken in f64, which in f32 may be rounded, and a negative one.
pub fn gap(a: f32, b: f32) -> f64
    ensures { result ≡ gap_of a b }
{
    rise(a, b) as f64
}

// The lower of two. It and the greater stay two: one body would take the comparison as a closure, and be no shorter.
// Rules out the greater, and the first whichever is lower.
pub fn least_of(x: f32, y: f32) -> f32
    ensures { result ≡ least x y }
{
    if x < y { x } else { y }
}

// The greater of two.
// Rules out the lower, and the second whichever is greater.
pub fn greatest_of(x: f32, y: f32) -> f32
    ensures { result ≡ greatest x y }
{
    if x < y { y } else { x }
}

// The ends in each channel as `pick` gives them of the old end and the new value.
fn moved<F: Fn(f32, f32) -> f32>(mut ends: Row, values: &Row, pick: F) -> Row
    requires { F.IsAlwaysCallable pick }
    ensures { (f : Float → Float → Float) → ((x y r : Float) → F.post pick x y r → r ≡ f x y) → result ≡ joined f ends values.now }
{
    for i in 0..CHANNELS {
        ends[i] = pick(ends[i], values[i]);
    }
    ends
}

// `held`, and whether growing a side from lo to hi by one from newlo to newhi moves neither end. `&` and not `&&`, so that there is no branch.
fn and_stays(held: bool, lo: f32, hi: f32, newlo: f32, newhi: f32) -> bool
    ensures { result ≡ (held && stays lo hi newlo newhi) }
{
    held & (!(newlo < lo) & !(hi < newhi))
}

// `held`, and whether p lies above lo and below hi, or the channel is padding.
fn and_inside(held: bool, padding: bool, lo: f32, hi: f32, p: f32) -> bool
    ensures { result ≡ (held && (padding || inside lo hi p)) }
{
    held & (padding | ((lo < p) & (p < hi)))
}

// The same as `strictly_contains`, of lent rows, told by a count: a sum of integers over many channels is compiled to few instructions, a test of each is not.
// Rules out a point on a face taken for inside, and the channels of all rows counted for those of the tree.
pub fn strictly_holds(low: &Row, high: &Row, point: &Row, dimensions: usize) -> bool
    requires padded { (dimensions ≤ width) × (Padded low.now dimensions width) × (Padded point.now dimensions width) }
    ensures { result ≡ strictly_contains low.now high.now point.now (min dimensions width) }
{
    let count = sum_by_fours(dimensions, |i| inside_one(low[i], high[i], point[i]));
    count as usize == dimensions
}

// The sum of what `of` gives of all channels. A tree of few channels is told by the first, as in padding it gives 0.
// Rules out a channel below `dimensions` left out, and one counted twice.
pub fn sum_by_fours<F: Fn(usize) -> u32>(dimensions: usize, of: F) -> u32
    requires callable { (i : ℕ) → i < width → F.pre of i }
    requires small { (i r : ℕ) → i < width → F.post of i r → r ≤ 2097152 }
    ensures { (g : ℕ → ℕ) → ((i r : ℕ) → i < width → F.post of i r → r ≡ g i) → ((i : ℕ) → dimensions ≤ i → i < width → g i ≡ 0) → result ≡ sum_to g width }
{
    let eight = sum_of(0, 4, &of) + sum_of(4, 4, &of);
    if dimensions <= 8 {
        return eight;
    }
    let sixteen = eight + sum_of(8, 4, &of) + sum_of(12, 4, &of);
    if dimensions <= 16 {
        return sixteen;
    }
    let most = sixteen + sum_of(16, 4, &of) + sum_of(20, 4, &of);
    most + sum_of(24, 4, &of) + sum_of(28, 4, &of)
}

// The sum of what `of` gives of `count` channels from `from` on: by how much the sum grows in them.
// Rules out a channel before `from` added, and the last of them left out.
pub fn sum_of<F: Fn(usize) -> u32>(from: usize, count: usize, of: &F) -> u32
    requires room { from + count ≤ width }
    requires callable { (i : ℕ) → i < width → F.pre of.now i }
    requires small { (i r : ℕ) → i < width → F.post of.now i r → r ≤ 2097152 }
    ensures few { result ≤ 2097152 * count }
    ensures grows { (g : ℕ → ℕ) → ((i r : ℕ) → i < width → F.post of.now i r → r ≡ g i) → sum_to g from + result ≡ sum_to g (from + count) }
{
    let mut sum: u32 = 0;
    for i in 0..count {
        sum = sum + of(from + i);
    }
    sum
}

// 1 where p lies above lo and below hi, else 0.
fn inside_one(lo: f32, hi: f32, p: f32) -> u32
    ensures few { result ≤ 1 }
    ensures told { result ≡ cond (inside lo hi p) 1 0 }
{
    if (lo < p) & (p < hi) { 1 } else { 0 }
}

// The side between two coordinates as an integer. The cast to i32 is one instruction for four floats, that to u32 is not.
// Rules out the difference the other way round, and one taken of the ends' bits.
pub fn whole_side(a: f32, b: f32) -> u32
    requires { (T (is_coordinate a)) × (T (is_coordinate b)) × (rank a ≤ rank b) }
    ensures { result ≡ rank b - rank a }
{
    ((b - a) as i32) as u32
}
