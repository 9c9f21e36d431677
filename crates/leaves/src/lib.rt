// The leaves of the port, each by itself, for the harness to call through C: the tests on floats, narrowing, the cached part, and boxes. Nothing of the port
// calls these. Each promises what its leaf does, and asks for nothing. A box is lent as its lower and its upper ends.
#![tactic(auto)]

ghost use Rattle.std.specs.Prelude.{◌≡◌, min};
ghost use Rattle.limits.specs.Limits.{width};
ghost use Rattle.readings.specs.Coordinate.{is_coordinate};
ghost use Rattle.readings.specs.Weight.{is_weight};
ghost use Rattle.readings.specs.Share.{is_share, cached_part};
ghost use Rattle.readings.specs.Word.{factor_of};
ghost use Rattle.readings.specs.Narrow.{narrowed};
ghost use Rattle.boundingbox.specs.Ends.{least, greatest, joined};
ghost use Rattle.boundingbox.specs.Sides.{range_sum};
ghost use Rattle.boundingbox.specs.Contained.{contains, strictly_contains};

use boundingbox::BoundingBox;
use limits::Row;

// Rules out a half taken, and −0.0.
#[unsafe(no_mangle)]
pub extern "C" fn sicklephlox_is_coordinate(x: f32) -> bool
    ensures { result ≡ is_coordinate x }
{
    readings::is_coordinate(x)
}

// Rules out an infinity taken, and −0.0.
#[unsafe(no_mangle)]
pub extern "C" fn sicklephlox_is_weight(x: f32) -> bool
    ensures { result ≡ is_weight x }
{
    readings::is_weight(x)
}

// Rules out a share of 1 refused, and NaN taken.
#[unsafe(no_mangle)]
pub extern "C" fn sicklephlox_is_share(x: f64) -> bool
    ensures { result ≡ is_share x }
{
    readings::is_share(x)
}

// Rules out the lower bits of the word, and a factor of 1.
#[unsafe(no_mangle)]
pub extern "C" fn sicklephlox_factor(w: u64) -> f64
    ensures { result ≡ factor_of w }
{
    readings::factor(w)
}

// Rules out a tie that goes up whatever is next to it, and digits cut off.
#[unsafe(no_mangle)]
pub extern "C" fn sicklephlox_narrow(x: f64) -> f32
    ensures { result ≡ narrowed x }
{
    readings::narrow(x)
}

// Rules out the product's nearest number, and the capacity less 1 in the capacity's place.
#[unsafe(no_mangle)]
pub extern "C" fn sicklephlox_cached_part(share: f64, capacity: u16) -> usize
    ensures { result ≡ cached_part share capacity }
{
    readings::cached_part(share, capacity)
}

// Writes the ends of the smallest box around two points.
// Rules out the ends of one point for both, and the lower ends written as the upper.
#[unsafe(no_mangle)]
pub extern "C" fn sicklephlox_box_around(
    lower: &mut Row,
    upper: &mut Row,
    first_values: &Row,
    second_values: &Row,
)
    ensures lower { lower.new ≡ joined least first_values.now second_values.now }
    ensures upper { upper.new ≡ joined greatest second_values.now first_values.now }
{
    let around = BoundingBox::new(first_values, second_values);
    let low = around.min_values;
    let high = around.max_values;
    *lower = low;
    *upper = high;
}

// Grows a box by a point, and gives whether it held the point.
// Rules out whether the grown box holds the point, which it always does, and ends left as they were.
#[unsafe(no_mangle)]
pub extern "C" fn sicklephlox_add_point(lower: &mut Row, upper: &mut Row, values: &Row) -> bool
    ensures lower { lower.new ≡ joined least lower.old values.now }
    ensures upper { upper.new ≡ joined greatest upper.old values.now }
    ensures held { result ≡ contains lower.old upper.old values.now values.now width }
{
    let bounding_box = BoundingBox {
        min_values: *lower,
        max_values: *upper,
    };
    let grown = bounding_box.check_contains_and_add_point(values);
    let after = grown.bounding_box;
    let low = after.min_values;
    let high = after.max_values;
    *lower = low;
    *upper = high;
    grown.contained
}

// Grows a box by another, and gives whether it held the other.
// Rules out growth by the other's lower ends alone, and whether the other held this one.
#[unsafe(no_mangle)]
pub extern "C" fn sicklephlox_add_box(
    lower: &mut Row,
    upper: &mut Row,
    minvalues: &Row,
    maxvalues: &Row,
) -> bool
    ensures lower { lower.new ≡ joined least lower.old minvalues.now }
    ensures upper { upper.new ≡ joined greatest upper.old maxvalues.now }
    ensures held { result ≡ contains lower.old upper.old minvalues.now maxvalues.now width }
{
    let bounding_box = BoundingBox {
        min_values: *lower,
        max_values: *upper,
    };
    let other = BoundingBox {
        min_values: *minvalues,
        max_values: *maxvalues,
    };
    let grown = bounding_box.add_box(other);
    let after = grown.bounding_box;
    let low = after.min_values;
    let high = after.max_values;
    *lower = low;
    *upper = high;
    grown.contained
}

// Whether a box holds a point.
// Rules out a point on a face refused, and one channel alone looked at.
#[unsafe(no_mangle)]
pub extern "C" fn sicklephlox_contains(lower: &Row, upper: &Row, point: &Row) -> bool
    ensures { result ≡ contains lower.now upper.now point.now point.now width }
{
    let bounding_box = BoundingBox {
        min_values: *lower,
        max_values: *upper,
    };
    bounding_box.contains(point)
}

// Whether a box holds a point strictly inside, in the first channels.
// Rules out a point on a face taken, and the channels beyond those asked for looked at.
#[unsafe(no_mangle)]
pub extern "C" fn sicklephlox_strictly_contains(
    lower: &Row,
    upper: &Row,
    point: &Row,
    dimensions: usize,
) -> bool
    ensures { result ≡ strictly_contains lower.now upper.now point.now (min dimensions width) }
{
    let bounding_box = BoundingBox {
        min_values: *lower,
        max_values: *upper,
    };
    bounding_box.strictly_contains(point, dimensions)
}

// The sum of a box's sides, in channel order.
// Rules out sums in f32, which round, and a side taken twice.
#[unsafe(no_mangle)]
pub extern "C" fn sicklephlox_range_sum(lower: &Row, upper: &Row) -> f64
    ensures { result ≡ range_sum lower.now upper.now width }
{
    let bounding_box = BoundingBox {
        min_values: *lower,
        max_values: *upper,
    };
    bounding_box.get_range_sum()
}
