// The boxes of a walk's branches, in lent rows: grown by a new point, and repaired after one is gone. After the boxes of nodestore.rs.
#![tactic(auto)]

ghost use Rattle.std.specs.Prelude.{◌≡◌, ◌≤◌, ◌<◌, min};
ghost use Rattle.limits.specs.Limits.{width, capacity_limit, branch_limit};
ghost use Rattle.boundingbox.specs.Contained.{strictly_contains};
ghost use Rattle.boxstore.specs.Written.{low_in, high_in};
ghost use Rattle.boxstore.specs.Grown.{SomeSides, Rebuilt};
ghost use Rattle.boxstore.specs.Edited.{SomeGrafted, GrownAbove, SomeForgotten, RepairedAbove};
ghost use Rattle.rowboxes.specs.Rows.{PaddedRow, PaddedTable, PaddedBoxes};
ghost use Rattle.walkboxes.specs.Held.{HoldBefore};

use boundingbox::strictly_holds;
use branchboxes::rebuild_box;
use casts::wide16;
use limits::{Boxes, Nodes, Path, Points, Row};
use rowboxes::{Sizes, widen};
use walk::node_at;

// The cached boxes of the rows `from` to `n` of a path grown by a point, from the lowest up. Those of the rows before hold it. The path is lent whole: which walk
// it is, its rows from n on tell.
// Rules out the row `from` itself left out, and the slot of a branch that is not cached written.
pub fn grow_ancestors(
    boxes: &mut Boxes,
    path: &Path,
    from: usize,
    n: usize,
    point: &Row,
    cached: usize,
    channels: usize,
)
    requires few { (n ≤ capacity_limit) × (cached ≤ branch_limit) × (channels ≤ width) }
    requires stands { SomeGrafted cached n path.now point.now boxes.old × HoldBefore cached from path.now point.now boxes.old }
    requires padded { PaddedRow channels point.now × PaddedBoxes channels boxes.old }
    ensures grown { GrownAbove cached n path.now point.now boxes.old boxes.new }
    ensures padded { PaddedBoxes channels boxes.new }
{
    // No leaf is told from a branch here, so that the tree's capacity is neither asked for nor looked at.
    let sizes = Sizes {
        capacity: 0,
        cached,
        channels,
    };
    for row in (from..n).rev() {
        let index = wide16(node_at(path, row));
        if index < cached {
            widen(&mut boxes[index], point, point, &sizes);
        }
    }
}

// Whether a branch's box holds a point strictly inside, in each of the tree's channels. Two rows of boxes that are lent to be written cannot be lent to one call.
fn holds(boxes: &Boxes, index: usize, point: &Row, sizes: &Sizes) -> bool
    requires slot { index < branch_limit }
    requires padded { PaddedRow sizes.now.channels point.now × PaddedBoxes sizes.now.channels boxes.now }
    ensures { result ≡ strictly_contains (low_in boxes.now index) (high_in boxes.now index) point.now (min sizes.now.channels width) }
{
    strictly_holds(&boxes[index][0], &boxes[index][1], point, sizes.channels)
}

// The branch's box worked out again from its sides, if the branch is cached and its box does not hold the point strictly inside; whether it is cached and does.
// Rules out a box kept though the point lies on a face, where it may have been the end.
fn check_contains_and_rebuild_box(
    boxes: &mut Boxes,
    nodes: &Nodes,
    points: &Points,
    index: usize,
    point: &Row,
    sizes: &Sizes,
) -> bool
    requires stands { index < sizes.now.cached → SomeSides sizes.now.capacity sizes.now.cached index nodes.now points.now boxes.old }
    requires padded { PaddedRow sizes.now.channels point.now × PaddedTable sizes.now.channels points.now × PaddedBoxes sizes.now.channels boxes.old }
    ensures rebuilt { Rebuilt sizes.now.capacity sizes.now.cached index sizes.now.channels point.now nodes.now points.now boxes.old boxes.new result }
    ensures padded { PaddedBoxes sizes.now.channels boxes.new }
{
    if sizes.cached <= index {
        return false;
    }
    if holds(boxes, index, point, sizes) {
        return true;
    }
    rebuild_box(boxes, nodes, points, index, sizes);
    false
}

// The cached boxes of the first `n` nodes of a path worked out again, from the lowest up, without a point that is gone. Ends at a cached box that held the
// point strictly inside: that box and all above it are the same without it.
// Rules out an end where the point lies on a face, and one at a branch that is not cached.
pub fn repair_ancestors(
    boxes: &mut Boxes,
    nodes: &Nodes,
    points: &Points,
    path: &Path,
    n: usize,
    point: &Row,
    sizes: &Sizes,
)
    requires few { n ≤ capacity_limit }
    requires stands { SomeForgotten sizes.now.capacity sizes.now.cached n sizes.now.channels path.now point.now nodes.now points.now boxes.old }
    requires padded { PaddedRow sizes.now.channels point.now × PaddedTable sizes.now.channels points.now × PaddedBoxes sizes.now.channels boxes.old }
    ensures repaired { RepairedAbove sizes.now.capacity sizes.now.cached n sizes.now.channels path.now point.now nodes.now points.now boxes.old boxes.new }
    ensures padded { PaddedBoxes sizes.now.channels boxes.new }
{
    for row in (0..n).rev() {
        let index = wide16(node_at(path, row));
        if check_contains_and_rebuild_box(boxes, nodes, points, index, point, sizes) {
            return;
        }
    }
}
