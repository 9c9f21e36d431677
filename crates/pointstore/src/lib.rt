// The readings table, which stands in for the Rust's `PointStore`: a row of coordinates for each point index, and a mark where it is written.
#![tactic(auto)]

ghost use Rattle.std.specs.Prelude.{◌≡◌, replicate};
ghost use Rattle.limits.specs.Limits.{width, point_limit};
ghost use Rattle.layout.specs.Layout.{no_ends};
ghost use Rattle.wholetree.specs.Reading.{padded};
ghost use Rattle.wholetree.specs.Whole.{all_coordinates};
ghost use Rattle.pointstore.specs.Puts.{or_nought, point_checked, put_checked, Puts};

use limits::{CHANNELS, Copies, Marks, POINTS, Points, Row};
use refusals::Refusal;

// The table, lent to the calls of a tree.
#[derive(Drop)]
pub struct PointStore {
    pub points: Points,
    pub written: Marks,
}

impl PointStore {
    // A table with nothing written.
    // Rules out a row that is not zero, also of minus zeros, which equal zeros but are not them, and a mark that is set, at the first index or the last.
    pub fn new() -> Self
        ensures points { result.points ≡ replicate point_limit no_ends }
        ensures written { result.written ≡ replicate point_limit 0 }
    {
        Self {
            points: [[0.0; CHANNELS]; POINTS],
            written: [0; POINTS],
        }
    }

    // Writes the coordinates for a point index, as its row and its mark; or refuses, in document 01's order, and writes nothing.
    // Public for the crates above: callers use `RCFTree::put`, which takes the channels from the header.
    // Rules out a put over a leaf's index, and a mark set by a put that is refused.
    pub fn put(
        &mut self,
        dimensions: usize,
        copies: &Copies,
        index: usize,
        coordinates: &[f32],
    ) -> Result<(), Refusal>
        ensures { Puts dimensions copies.now index coordinates.now self.old.points self.old.written self.new.points self.new.written result }
    {
        check_put(dimensions, copies, index, coordinates)?;
        self.points[index] = row_of(coordinates);
        self.written[index] = 1;
        Ok(())
    }
}

// The coordinate of channel i, +0.0 beyond those given.
fn coordinate_at(coordinates: &[f32], i: usize) -> f32
    ensures { result ≡ or_nought coordinates.now i }
{
    if i < coordinates.len() {
        coordinates[i]
    } else {
        0.0
    }
}

// The coordinates as a row of the table.
// Rules out padding that is not +0.0, and a row that ends at the first coordinate that is 0.
pub fn row_of(coordinates: &[f32]) -> Row
    ensures { result ≡ padded width coordinates.now }
{
    let mut row = [0.0f32; CHANNELS];
    for i in 0..CHANNELS {
        row[i] = coordinate_at(coordinates, i);
    }
    row
}

// Whether each is one of document 01's coordinates.
fn all_coordinates(coordinates: &[f32]) -> bool
    ensures { result ≡ all_coordinates coordinates.now }
{
    for x in coordinates {
        if !readings::is_coordinate(*x) {
            return false;
        }
    }
    true
}

// Whether coordinates are a reading of so many channels; or document 01's refusal, 6 before 7. Every call that is given a point asks this.
// Rules out a bad coordinate refused as a wrong count, and a list taken for its count alone.
pub fn check_point(dimensions: usize, coordinates: &[f32]) -> Result<(), Refusal>
    ensures { result ≡ point_checked dimensions coordinates.now }
{
    if coordinates.len() != dimensions {
        return Err(Refusal::CoordinateCount);
    }
    if !all_coordinates(coordinates) {
        return Err(Refusal::BadCoordinate);
    }
    Ok(())
}

// The refusal of a put, in document 01's order, if there is one.
fn check_put(
    dimensions: usize,
    copies: &Copies,
    index: usize,
    coordinates: &[f32],
) -> Result<(), Refusal>
    ensures { result ≡ put_checked dimensions copies.now index coordinates.now }
{
    if POINTS <= index {
        return Err(Refusal::IndexAbove);
    }
    check_point(dimensions, coordinates)?;
    if 0 < copies[index] {
        return Err(Refusal::IndexIsLeaf);
    }
    Ok(())
}
