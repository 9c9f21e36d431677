// The boxes of a tree's branches, worked on in lent rows and only as far as the tree's own channels: what a call costs goes with these, not with the width of
// a row.
#![tactic(auto)]

ghost use Rattle.std.specs.Prelude.{◌≡◌, ◌||◌, [], ◌∷◌, ℕ, ◌+◌, ◌*◌, ◌≤◌, ◌<◌, leb, ltb, length, get_or, set, Float};
ghost use Rattle.limits.specs.Limits.{width, capacity_limit, branch_limit};
ghost use Rattle.boundingbox.specs.Ends.{least, greatest, joined};
ghost use Rattle.layout.specs.Layout.{no_box_ends};
ghost use Rattle.boxstore.specs.Written.{written};
ghost use Rattle.rowboxes.specs.Rows.{lanes, PaddedRow, PaddedEnds, PaddedTable, PaddedBoxes, BlockOf, Put, PutEnds, SetEnds, Lies, hand_end};

use boundingbox::{greatest_of, least_of};
use boxstore::side_of;
use limits::{Boxes, CHANNELS, Nodes, Points, Row};

// A row is worked on in blocks of so many channels, each held in registers.
pub const LANES: usize = 8;

pub type Lanes = [f32; LANES];

// The ends of a box: lower ends, then upper ends.
pub type Ends = [Row; 2];

// What a tree's boxes are worked out by: its capacity, how many of its branches are cached, and its channels.
#[derive(Clone, Copy)]
pub struct Sizes {
    pub capacity: usize,
    pub cached: usize,
    pub channels: usize,
    pub ghost few: { (capacity ≤ capacity_limit) × (cached ≤ branch_limit) × (channels ≤ width) },
}

impl Sizes {
    // Whether a node's box lies in an array: that of a leaf, its point, or of a cached branch.
    // Rules out a cached branch worked out anew, and one that is not cached read from its slot.
    pub fn at_hand(&self, node: usize) -> bool
        ensures { result ≡ (leb self.now.capacity node || ltb node self.now.cached) }
    {
        (self.capacity <= node) | (node < self.cached)
    }

    // How many blocks the tree's channels take.
    // Rules out a last block left out, and one beyond the channels.
    pub fn blocks(&self) -> usize
        ensures { (self.now.channels ≤ result * lanes) × (result * lanes < self.now.channels + lanes) }
    {
        self.channels.div_ceil(LANES)
    }
}

// What the box of a node of a tree is worked out from: the rows of its branches, the readings table, the cached boxes and the sizes. Beyond the tree's channels
// each reading and each box has +0.0.
#[derive(Clone, Copy)]
pub struct Boxing<'a> {
    pub nodes: &'a Nodes,
    pub points: &'a Points,
    pub boxes: &'a Boxes,
    pub sizes: Sizes,
    pub ghost padded: { PaddedTable sizes.channels points.now × PaddedBoxes sizes.channels boxes.now },
}

// A block of a row: in each channel from `at` on what the call gives for it. In line, so that the call becomes the block's own code.
// Rules out the first block in the place of a later one, and a block in another order.
#[inline(always)]
pub fn block_of<F: Fn(usize) -> f32>(at: usize, of: F) -> Lanes
    requires room { at + lanes ≤ width }
    requires callable { (i : ℕ) → i < width → F.pre of i }
    ensures { BlockOf (F.post of) at result }
{
    let mut block = [0.0f32; LANES];
    for j in 0..LANES {
        block[j] = of(at + j);
    }
    block
}

// Not by `copy_from_slice`: with it the blocks are worked out channel by channel, and an add where no box is cached takes up to a quarter longer.
fn put_at(row: &mut Row, at: usize, block: Lanes)
    requires { (at + lanes ≤ width) × (length row.old ≡ width) }
    ensures { Put at block row.old row.new }
{
    for j in 0..LANES {
        row[at + j] = block[j];
    }
}

// Writes a block of lower ends and one of upper ends.
// Rules out a channel outside the blocks written, and the two blocks swapped.
#[inline(always)]
pub fn put_ends(ends: &mut Ends, at: usize, low: Lanes, high: Lanes)
    requires room { at + lanes ≤ width }
    requires rows { (length ends.old ≡ 2) × (length (get_or ends.old 0 []) ≡ width) × (length (get_or ends.old 1 []) ≡ width) }
    ensures { PutEnds at low high ends.old ends.new }
{
    put_at(&mut ends[0], at, low);
    put_at(&mut ends[1], at, high);
}

// Ends set in place, block by block as far as the tree's channels: each to what a call gives for the end that was there and its channel.
// Rules out lower and upper ends swapped, and a channel of a later block left out.
#[inline(always)]
pub fn set_ends<F: Fn(f32, usize) -> f32, G: Fn(f32, usize) -> f32>(
    ends: &mut Ends,
    low: F,
    high: G,
    sizes: &Sizes,
)
    requires callable { ((x : Float) (i : ℕ) → i < width → F.pre low x i) × ((x : Float) (i : ℕ) → i < width → G.pre high x i) }
    requires padded { PaddedEnds sizes.now.channels ends.old }
    ensures { SetEnds sizes.now.channels (F.post low) (G.post high) ends.old ends.new }
{
    for k in 0..sizes.blocks() {
        let at = k * LANES;
        let lower = block_of(at, |i| low(ends[0][i], i));
        let upper = block_of(at, |i| high(ends[1][i], i));
        put_ends(ends, at, lower, upper);
    }
}

// Ends moved out to other ends, in place.
// Rules out lower and upper ends swapped, and a channel of a later block left out.
pub fn widen(ends: &mut Ends, lower: &Row, upper: &Row, sizes: &Sizes)
    requires padded { PaddedEnds sizes.now.channels ends.old × PaddedRow sizes.now.channels lower.now × PaddedRow sizes.now.channels upper.now }
    ensures { ends.new ≡ joined least (get_or ends.old 0 []) lower.now ∷ joined greatest (get_or ends.old 1 []) upper.now ∷ [] }
{
    set_ends(
        ends,
        |x, i| least_of(x, lower[i]),
        |x, i| greatest_of(x, upper[i]),
        sizes,
    );
}

// The ends of a box at hand: the lower ones where `side` is 0, the upper ones where it is 1. A leaf's point is both.
// Rules out a leaf's point taken for another's, and the ends of the other side.
pub fn end_of<'a>(
    points: &'a Points,
    boxes: &'a Boxes,
    node: usize,
    side: usize,
    capacity: usize,
) -> &'a Row
    requires { Lies capacity branch_limit node × (side < 2) }
    ensures { result.now ≡ hand_end capacity node side points.now boxes.now }
{
    if capacity <= node {
        return &points[node - capacity];
    }
    &boxes[node][side]
}

// Ends moved out to two points, in place. These meet first, so that the ends wait for one of them less.
fn widen_by_two(ends: &mut Ends, a: &Row, b: &Row, sizes: &Sizes)
    requires padded { PaddedEnds sizes.now.channels ends.old × PaddedRow sizes.now.channels a.now × PaddedRow sizes.now.channels b.now }
    ensures { ends.new ≡ joined least (get_or ends.old 0 []) (joined least a.now b.now) ∷ joined greatest (get_or ends.old 1 []) (joined greatest a.now b.now) ∷ [] }
{
    set_ends(
        ends,
        |x, i| least_of(x, least_of(a[i], b[i])),
        |x, i| greatest_of(x, greatest_of(a[i], b[i])),
        sizes,
    );
}

impl<'a> Boxing<'a> {
    ghost use Rattle.rowboxes.specs.Boxings.{AtHand, Stands, Grown, low_at, high_at};

    // The ends of a box at hand: the lower ones where `side` is 0, the upper ones where it is 1. A leaf's point is both.
    // Rules out a leaf's point taken for another's, and the ends of the other side.
    pub fn end_of(&self, node: usize, side: usize) -> &'a Row
        requires { AtHand self.now node × (side < 2) }
        ensures { result.now ≡ hand_end self.now.sizes.capacity node side self.now.points.now self.now.boxes.now }
    {
        end_of(self.points, self.boxes, node, side, self.sizes.capacity)
    }

    // Ends moved out to a box at hand.
    // Rules out a leaf's point left out, and the slot of another branch taken.
    fn widen_by(&self, ends: &mut Ends, node: usize)
        requires hand { AtHand self.now node }
        requires padded { PaddedEnds self.now.sizes.channels ends.old }
        ensures wide { ends.new ≡ joined least (get_or ends.old 0 []) (low_at self.now node) ∷ joined greatest (get_or ends.old 1 []) (high_at self.now node) ∷ [] }
        ensures padded { PaddedEnds self.now.sizes.channels ends.new }
    {
        let lower = self.end_of(node, 0);
        let upper = self.end_of(node, 1);
        widen(ends, lower, upper, &self.sizes);
    }

    // Ends moved out to hold the box of a branch that is not cached, in place: a box handed from call to call would be copied in each. They are moved by its
    // left side, then its right; by both at once where these are leaves, which saves two calls.
    // Rules out one side moved by twice, and a side left out.
    #[cycle(grow_branch_grow_ends)]
    fn grow_branch(&self, ends: &mut Ends, node: usize)
        requires branch { node < self.now.sizes.capacity }
        requires stands { Stands self.now node }
        requires padded { PaddedEnds self.now.sizes.channels ends.old }
        ensures grown { Grown self.now node ends.old ends.new }
        ensures padded { PaddedEnds self.now.sizes.channels ends.new }
    {
        let left = side_of(self.nodes, node, 0);
        let right = side_of(self.nodes, node, 1);
        let capacity = self.sizes.capacity;
        if (capacity <= left) & (capacity <= right) {
            let first = &self.points[left - capacity];
            let second = &self.points[right - capacity];
            widen_by_two(ends, first, second, &self.sizes);
            return;
        }
        self.grow_ends(ends, left);
        self.grow_ends(ends, right);
    }

    // Ends moved out to hold the box of a node, in place.
    // Rules out a node left out, and ends moved in.
    #[cycle(grow_branch_grow_ends)]
    pub fn grow_ends(&self, ends: &mut Ends, node: usize)
        requires stands { Stands self.now node }
        requires padded { PaddedEnds self.now.sizes.channels ends.old }
        ensures grown { Grown self.now node ends.old ends.new }
        ensures padded { PaddedEnds self.now.sizes.channels ends.new }
    {
        if self.sizes.at_hand(node) {
            self.widen_by(ends, node);
        } else {
            self.grow_branch(ends, node);
        }
    }

    // The ends of the box of two nodes at hand.
    // Rules out the ends that were lent mixed in, and one node's box alone.
    pub fn join(&self, ends: &mut Ends, a: usize, b: usize)
        requires hand { AtHand self.now a × AtHand self.now b }
        requires padded { PaddedEnds self.now.sizes.channels ends.old }
        ensures joined { ends.new ≡ joined least (low_at self.now a) (low_at self.now b) ∷ joined greatest (high_at self.now a) (high_at self.now b) ∷ [] }
        ensures padded { PaddedEnds self.now.sizes.channels ends.new }
    {
        let low_a = self.end_of(a, 0);
        let low_b = self.end_of(b, 0);
        let high_a = self.end_of(a, 1);
        let high_b = self.end_of(b, 1);
        set_ends(
            ends,
            |_, i| least_of(low_a[i], low_b[i]),
            |_, i| greatest_of(high_a[i], high_b[i]),
            &self.sizes,
        );
    }
}

// Ends kept for a branch.
// Rules out another branch's slot written, and the lower ends kept in the place of the upper ones.
pub fn keep_ends(boxes: &mut Boxes, index: usize, ends: &Ends, sizes: &Sizes)
    requires slot { index < branch_limit }
    requires padded { PaddedBoxes sizes.now.channels boxes.old × PaddedEnds sizes.now.channels ends.now }
    ensures kept { boxes.new ≡ set boxes.old index ends.now }
    ensures padded { PaddedBoxes sizes.now.channels boxes.new }
{
    set_ends(
        &mut boxes[index],
        |_, i| ends[0][i],
        |_, i| ends[1][i],
        sizes,
    );
}

// The box of a branch that is gone cleared, if the branch was cached.
// Rules out a box left behind where no branch is, and another slot cleared.
pub fn clear_box(boxes: &mut Boxes, index: usize, sizes: &Sizes)
    requires padded { PaddedBoxes sizes.now.channels boxes.old }
    ensures cleared { boxes.new ≡ written sizes.now.cached index no_box_ends boxes.old }
    ensures padded { PaddedBoxes sizes.now.channels boxes.new }
{
    if index < sizes.cached {
        keep_ends(boxes, index, &[[0.0; CHANNELS]; 2], sizes);
    }
}
