// The cut of a box by a random word (cut.rs): the channel that is cut and where, and whether the cut parts a point from the box.
#![tactic(auto)]

mod whole;

ghost use Rattle.std.specs.Prelude.{◌≡◌, ◌<◌};
ghost use Rattle.limits.specs.Limits.{width};
ghost use Rattle.boundingbox.specs.Ends.{least, greatest};
ghost use Rattle.boundingbox.specs.Sides.{gap_of};
ghost use Rattle.cut.specs.Laws.{Readings, Padded};
ghost use Rattle.cut.specs.Draw.{outside_of, outside_sum, side_of, reaches, left_of, side_from, placed, between, parts, drawn_at, separation};

use boundingbox::BoundingBox;
use limits::{CHANNELS, Row};
pub use whole::stretched_side;

// A cut: a channel and an f32 value, handed about as one record (document 01, 'Which form goes where').
#[derive(Clone, Copy)]
pub struct Cut {
    pub dimension: usize,
    pub value: f32,
}

// A cut that a word draws for a box and a point, and whether it parts the point from the box.
#[derive(Clone, Copy)]
pub struct Separation {
    pub cut: Cut,
    pub parts: bool,
}

// The channel whose side is cut, and the amount before that side.
#[derive(Clone, Copy)]
pub struct Side {
    pub dimension: usize,
    pub rest: f64,
}

// How far x lies outside the side from low to high. The tests pick an f32, so that no branch has to be guessed.
fn outside_by(low: f32, high: f32, x: f32) -> f32
    ensures { result ≡ outside_of low high x }
{
    let above = boundingbox::rise(high, x);
    if x < low { low - x } else { above }
}

// The same as an f64.
fn outside_of(low: f32, high: f32, x: f32) -> f64
    ensures { result ≡ outside_of low high x }
{
    outside_by(low, high, x) as f64
}

// How far the point lies outside the box, summed in channel order.
fn outside_sum(bounding_box: BoundingBox, point: &Row) -> f64
    ensures { result ≡ outside_sum bounding_box.min_values bounding_box.max_values point.now width }
{
    let low = bounding_box.min_values;
    let high = bounding_box.max_values;
    let mut sum: f64 = 0.0;
    for i in 0..CHANNELS {
        sum = sum + outside_of(low[i], high[i], point[i]);
    }
    sum
}

// The side from low to high with x in it.
fn side_with(low: f32, high: f32, x: f32) -> f64
    ensures { result ≡ gap_of (least low x) (greatest high x) }
{
    boundingbox::gap(
        boundingbox::least_of(low, x),
        boundingbox::greatest_of(high, x),
    )
}

// Whether a side that is not zero leaves nothing of the rest above zero.
fn side_reaches(rest: f64, side: f64) -> bool
    ensures { result ≡ reaches rest side }
{
    if side > 0.0 {
        rest - side <= 0.0
    } else {
        false
    }
}

// The rest less a side that is not zero.
fn left_of(rest: f64, side: f64) -> f64
    ensures { result ≡ left_of rest side }
{
    if 0.0 < side { rest - side } else { rest }
}

// The first side, of the box with the point in it, that leaves nothing of the range above zero; none where each leaves some.
fn side_cut(bounding_box: BoundingBox, point: &Row, range: f64) -> Option<Side>
    ensures { result ≡ side_from (side_of bounding_box.min_values bounding_box.max_values point.now) width 0 range }
{
    let low = bounding_box.min_values;
    let high = bounding_box.max_values;
    let mut rest = range;
    for i in 0..CHANNELS {
        let side = side_with(low[i], high[i], point[i]);
        if side_reaches(rest, side) {
            return Some(Side { dimension: i, rest });
        }
        rest = left_of(rest, side);
    }
    None
}

// The rest narrowed and added to the lower end; where that isn't above the lower end and below the upper end, the lower end.
fn place(low: f32, high: f32, rest: f64) -> f32
    ensures { result ≡ placed low high rest }
{
    let cut = low + readings::narrow(rest);
    if low < cut {
        if cut < high {
            return cut;
        }
    }
    low
}

// Whether from ≤ cut < to.
fn cuts_between(from: f32, cut: f32, to: f32) -> bool
    ensures { result ≡ between from cut to }
{
    if from <= cut { cut < to } else { false }
}

// Whether the cut parts x from the side from low to high.
fn separates(x: f32, low: f32, high: f32, cut: f32) -> bool
    ensures { result ≡ parts x low high cut }
{
    if cuts_between(x, cut, low) {
        return true;
    }
    cuts_between(high, cut, x)
}

impl Cut {
    // The cut that the word draws for the box and the point, and whether it parts them; no cut where the box holds the point.
    // Rules out a cut drawn for a box that holds the point, and the first side taken where only a later one reaches the range.
    pub fn random_cut_and_separation(
        bounding_box: BoundingBox,
        word: u64,
        point: &Row,
    ) -> Option<Separation>
        ensures { result ≡ separation width bounding_box.min_values bounding_box.max_values point.now word }
    {
        let outside = outside_sum(bounding_box, point);
        if outside == 0.0 {
            return None;
        }
        let range = (outside + bounding_box.get_range_sum()) * readings::factor(word);
        let side = side_cut(bounding_box, point, range)?;
        let low = bounding_box.min_values;
        let high = bounding_box.max_values;
        Some(drawn(&low, &high, point, side))
    }

    // The same cut, of a box and a point of coordinates in lent rows, of which the channels from `dimensions` on are padding. Their sides are whole numbers, and the
    // sums of these are exact; so each sum by itself tells whether it reaches the range, where `side_cut` waits for one subtraction after another.
    // Rules out a side told by a sum that falls short of the range, and a rest from the sum with the side in it.
    pub fn whole_cut_and_separation(
        low: &Row,
        high: &Row,
        word: u64,
        point: &Row,
        dimensions: usize,
    ) -> Option<Separation>
        requires readings { Readings low.now high.now point.now width }
        requires padded { Padded low.now high.now point.now dimensions width }
        ensures { result ≡ separation width low.now high.now point.now word }
    {
        let side = whole::side_cut(low, high, word, point, dimensions)?;
        Some(drawn(low, high, point, side))
    }
}

// The cut on a side, and whether it parts the point from the box.
fn drawn(lows: &Row, highs: &Row, point: &Row, side: Side) -> Separation
    requires { side.dimension < width }
    ensures { result ≡ drawn_at lows.now highs.now point.now side }
{
    let dimension = side.dimension;
    let low = lows[dimension];
    let high = highs[dimension];
    let x = point[dimension];
    let value = place(
        boundingbox::least_of(low, x),
        boundingbox::greatest_of(high, x),
        side.rest,
    );
    let cut = Cut { dimension, value };
    let parts = separates(x, low, high, value);
    Separation { cut, parts }
}
