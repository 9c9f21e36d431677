// A recorded cut choice: the cut that a word draws for a box and a point, drawn in both of the port's ways.
ghost use Rattle.std.specs.Prelude.{◌≡◌, ◌++◌, ◌+◌, ◌≤◌, ◌<◌, length};
ghost use Rattle.limits.specs.Limits.{width};
ghost use Rattle.lines.specs.Lines.{Wrote};
ghost use Rattle.cut.specs.Draw.{separation};
ghost use Rattle.cut.specs.Laws.{Readings};
ghost use Rattle.little.specs.Little.{bytes32};
ghost use Rattle.recorded.specs.Cuts.{row_bytes, row_at, is_reading, are_readings, told_cut, cut_answer};

use boundingbox::BoundingBox;
use cut::{Cut, Separation};
use limits::{CHANNELS, Row};

// The bytes of a row of f32, and where what is given lies: the lower ends of the box, its upper ends, the point and the word.
const ROW: usize = 4 * CHANNELS;

const LOW: usize = 0;

const HIGH: usize = ROW;

const POINT: usize = 2 * ROW;

const WORD: usize = 3 * ROW;

const GIVEN: usize = WORD + 8;

// The floats of all channels, from byte `at` on.
fn row_at(bytes: &[u8], at: usize) -> Row
    requires { at + row_bytes ≤ length bytes.now }
    ensures { result ≡ row_at bytes.now at width }
{
    let mut row = [0.0f32; CHANNELS];
    for i in 0..CHANNELS {
        row[i] = little::float_of(little::u32_at(bytes, at + 4 * i));
    }
    row
}

// Whether the ends of a side and a point's channel are coordinates, and the ends in order.
fn is_reading(low: f32, high: f32, x: f32) -> bool
    ensures { result ≡ is_reading low high x }
{
    let lower = readings::is_coordinate(low);
    let upper = readings::is_coordinate(high);
    let inner = readings::is_coordinate(x);
    lower & (upper & (inner & (low <= high)))
}

// The same of all channels.
fn are_readings(low: Row, high: Row, point: Row) -> bool
    ensures { result ≡ are_readings low high point width }
{
    let mut all = true;
    for i in 0..CHANNELS {
        let is = is_reading(low[i], high[i], point[i]);
        all = all & is;
    }
    all
}

// Writes three words, one after another.
fn put_three(out: &mut [u8], at: usize, x: usize, y: usize, z: usize) -> usize
    requires { at < 100000000000 }
    ensures wrote { Wrote out.old at (bytes32 x ++ bytes32 y ++ bytes32 z) result out.new }
    ensures next { result ≡ at + 12 }
{
    let p = crate::words::put_word(out, at, x);
    let q = crate::words::put_word(out, p, y);
    crate::words::put_word(out, q, z)
}

// Writes whether there is a cut and whether it parts, its channel and its bits.
fn put_cut(out: &mut [u8], at: usize, drawn: Option<Separation>) -> usize
    requires { at < 100000000000 }
    ensures wrote { Wrote out.old at (told_cut drawn) result out.new }
    ensures next { result ≡ at + 12 }
{
    let Some(drawn) = drawn else {
        return put_three(out, at, 0, 0, 0);
    };
    let cut = drawn.cut;
    let kind = 1 + crate::words::bit(drawn.parts);
    let bits = casts::wide32(little::pattern_of(cut.value));
    put_three(out, at, kind, cut.dimension, bits)
}

// The cut in the way that serves every float, and in the way that serves readings.
fn put_both(out: &mut [u8], bounding_box: BoundingBox, word: u64, point: Row) -> usize
    requires { Readings bounding_box.min_values bounding_box.max_values point width }
    ensures { Wrote out.old 0 (told_cut (separation width bounding_box.min_values bounding_box.max_values point word) ++ told_cut (separation width bounding_box.min_values bounding_box.max_values point word)) result out.new }
{
    let any = Cut::random_cut_and_separation(bounding_box, word, &point);
    let p = put_cut(out, 0, any);
    let low = bounding_box.min_values;
    let high = bounding_box.max_values;
    let whole = Cut::whole_cut_and_separation(&low, &high, word, &point, CHANNELS);
    put_cut(out, p, whole)
}

// What is no cut choice of readings has no answer.
// Rules out one way's cut left out, and a box whose ends are swapped.
pub fn answer_cut(given: &[u8], out: &mut [u8]) -> usize
    ensures { Wrote out.old 0 (cut_answer given.now) result out.new }
{
    if given.len() != GIVEN {
        return 0;
    }
    let low = row_at(given, LOW);
    let high = row_at(given, HIGH);
    let point = row_at(given, POINT);
    if !are_readings(low, high, point) {
        return 0;
    }
    let bounding_box = BoundingBox {
        min_values: low,
        max_values: high,
    };
    put_both(out, bounding_box, little::u64_at(given, WORD), point)
}
