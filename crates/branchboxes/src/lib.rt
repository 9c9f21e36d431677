// The box of a branch from its two sides, in lent rows: set into ends, or kept in its slot. A side whose box is at hand is read where it lies, any other worked
// out in the ends, so that no box is handed by value.
#![tactic(auto)]

ghost use Rattle.std.specs.Prelude.{◌≡◌, false, ◌||◌, [], ◌∷◌, ◌<◌, leb, ltb, set};
ghost use Rattle.limits.specs.Limits.{branch_limit};
ghost use Rattle.boundingbox.specs.Ends.{least, greatest, joined};
ghost use Rattle.boxstore.specs.Grown.{SomeSides};
ghost use Rattle.rowboxes.specs.Rows.{PaddedEnds, PaddedTable, PaddedBoxes, Lies, hand_low, hand_high, box_of};
ghost use Rattle.rowboxes.specs.Boxings.{Stands, SidesStand, OfSides, OfNode};
ghost use Rattle.branchboxes.specs.Pairs.{OfPair, SidesKept};

use boundingbox::{greatest_of, least_of};
use boxstore::side_of;
use limits::{Boxes, CHANNELS, Nodes, Points};
use rowboxes::{Boxing, Ends, LANES, Sizes, block_of, end_of, keep_ends, put_ends};
use walk::either;

// The ends of the box of a branch's two sides, whatever is kept for the branch itself. A side that is not at hand comes first, so that the ends are set by it and
// only moved out by the other.
// Rules out the ends that were lent mixed in, and one side left out.
pub fn set_branch(ends: &mut Ends, node: usize, boxing: &Boxing)
    requires stands { SidesStand boxing.now node }
    requires padded { PaddedEnds boxing.now.sizes.channels ends.old }
    ensures sides { OfSides boxing.now node (box_of ends.new) }
    ensures padded { PaddedEnds boxing.now.sizes.channels ends.new }
{
    let left = side_of(boxing.nodes, node, 0);
    let right = side_of(boxing.nodes, node, 1);
    let given = boxing.sizes.at_hand(left);
    if given & boxing.sizes.at_hand(right) {
        boxing.join(ends, left, right);
        return;
    }
    let first = either(given, right, left);
    let second = either(given, left, right);
    set_branch(ends, first, boxing);
    boxing.grow_ends(ends, second);
}

// The ends of the box of a node and its sibling, from those of the node: these are read only where its box is not at hand.
// Rules out the sibling left out, and lent ends that are not the node's mixed in.
pub fn ends_above(ends: &mut Ends, below: usize, sibling: usize, boxing: &Boxing)
    requires stands { Stands boxing.now below × Stands boxing.now sibling }
    requires given { (leb boxing.now.sizes.capacity below || ltb below boxing.now.sizes.cached) ≡ false → OfNode boxing.now below (box_of ends.old) }
    requires padded { PaddedEnds boxing.now.sizes.channels ends.old }
    ensures pair { OfPair boxing.now below sibling (box_of ends.new) }
    ensures padded { PaddedEnds boxing.now.sizes.channels ends.new }
{
    let given = boxing.sizes.at_hand(below);
    if given & boxing.sizes.at_hand(sibling) {
        boxing.join(ends, below, sibling);
        return;
    }
    if given {
        set_branch(ends, sibling, boxing);
    }
    let other = either(given, below, sibling);
    boxing.grow_ends(ends, other);
}

// The box of two nodes at hand kept for a branch, in place. A node that has the slot itself is read in each block before that block is written.
fn keep_join(boxes: &mut Boxes, index: usize, a: usize, b: usize, points: &Points, sizes: &Sizes)
    requires hand { (index < branch_limit) × Lies sizes.now.capacity sizes.now.cached a × Lies sizes.now.capacity sizes.now.cached b }
    requires padded { PaddedTable sizes.now.channels points.now × PaddedBoxes sizes.now.channels boxes.old }
    ensures kept { boxes.new ≡ set boxes.old index (joined least (hand_low sizes.now.capacity a points.now boxes.old) (hand_low sizes.now.capacity b points.now boxes.old) ∷ joined greatest (hand_high sizes.now.capacity a points.now boxes.old) (hand_high sizes.now.capacity b points.now boxes.old) ∷ []) }
    ensures padded { PaddedBoxes sizes.now.channels boxes.new }
{
    for k in 0..sizes.blocks() {
        let at = k * LANES;
        let low_a = end_of(points, boxes, a, 0, sizes.capacity);
        let low_b = end_of(points, boxes, b, 0, sizes.capacity);
        let low = block_of(at, |i| least_of(low_a[i], low_b[i]));
        let high_a = end_of(points, boxes, a, 1, sizes.capacity);
        let high_b = end_of(points, boxes, b, 1, sizes.capacity);
        let high = block_of(at, |i| greatest_of(high_a[i], high_b[i]));
        put_ends(&mut boxes[index], at, low, high);
    }
}

// The box of a cached branch worked out again from its two sides and kept in its slot: at once where both are at hand.
// Rules out the stale box kept, and another branch's slot written.
pub fn rebuild_box(boxes: &mut Boxes, nodes: &Nodes, points: &Points, index: usize, sizes: &Sizes)
    requires stands { (index < sizes.now.cached) × SomeSides sizes.now.capacity sizes.now.cached index nodes.now points.now boxes.old }
    requires padded { PaddedTable sizes.now.channels points.now × PaddedBoxes sizes.now.channels boxes.old }
    ensures kept { SidesKept sizes.now.capacity sizes.now.cached index nodes.now points.now boxes.old boxes.new }
    ensures padded { PaddedBoxes sizes.now.channels boxes.new }
{
    let left = side_of(nodes, index, 0);
    let right = side_of(nodes, index, 1);
    if sizes.at_hand(left) & sizes.at_hand(right) {
        keep_join(boxes, index, left, right, points, sizes);
        return;
    }
    let mut ends: Ends = [[0.0; CHANNELS]; 2];
    let boxing = Boxing {
        nodes,
        points,
        boxes,
        sizes: *sizes,
    };
    set_branch(&mut ends, index, &boxing);
    keep_ends(boxes, index, &ends, sizes);
}
