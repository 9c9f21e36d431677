// The leaf-to-root loop of `RCFTree::add`: a word for each node of the walk, and the highest cut that parts the new point from a node's box.
#![tactic(auto)]

ghost use Rattle.std.specs.Prelude.{◌≡◌, false, not, [], ℕ, ◌<◌, T, get_or};
ghost use Rattle.std.specs.Float.{binary32};
ghost use Rattle.std.specs.Float.Ieee.{nan_bits};
ghost use Rattle.limits.specs.Limits.{width, branch_limit, point_limit};
ghost use Rattle.readings.specs.Number.{is_number};
ghost use Rattle.cut.specs.Draw.{separation};
ghost use Rattle.cut.specs.Laws.{Readings, Padded};
ghost use Rattle.cuttree.specs.Tree.{Tree};
ghost use Rattle.wholetree.specs.Reading.{Reading};
ghost use Rattle.wholetree.specs.Whole.{whole};
ghost use Rattle.rowboxes.specs.Rows.{PaddedRow};
ghost use Rattle.drawing.specs.Choice.{ends_for, Numbered, none_chosen, chosen_at, chosen_by, highest_of};
ghost use Rattle.drawing.specs.Drawing.{Drawing, SomeDrawing, Kept};

use branchboxes::ends_above;
use casts::wide16;
use cut::{Cut, Separation};
use limits::{Boxes, Path, Points, Row};
use rowboxes::{Boxing, Ends};
use walk::{either, node_at, sibling_at};

// The cut that is kept: the height of its node on the walk, the leaf's being 0; and the cut. From the height `top` on, every box of the walk holds the point.
#[derive(Clone, Copy)]
pub struct Highest {
    pub height: usize,
    pub cut: Cut,
    pub top: usize,
}

// The same on the way: numbers, each of which is picked of two without a branch, the value by its bits.
#[derive(Clone, Copy)]
struct Chosen {
    height: usize,
    dimension: usize,
    bits: u32,
}

// The cut of a node where it parts, else what was chosen before.
fn chosen_at(before: Chosen, m: usize, cut: Cut, parts: bool) -> Chosen
    requires { T (is_number cut.value) }
    ensures { result ≡ chosen_at before m cut parts }
{
    Chosen {
        height: either(parts, m, before.height),
        dimension: either(parts, cut.dimension, before.dimension),
        bits: either(parts, f32::to_bits(cut.value), before.bits),
    }
}

// What is chosen at the leaf, whose box is its point.
fn chosen_first(points: &Points, leaf: usize, word: u64, point: &Row, dimensions: usize) -> Chosen
    requires row { leaf < point_limit }
    requires readings { Readings (get_or points.now leaf []) (get_or points.now leaf []) point.now width }
    requires padded { Padded (get_or points.now leaf []) (get_or points.now leaf []) point.now dimensions width }
    requires number { Numbered (separation width (get_or points.now leaf []) (get_or points.now leaf []) point.now word) }
    ensures { result ≡ chosen_by none_chosen 0 (separation width (get_or points.now leaf []) (get_or points.now leaf []) point.now word) }
{
    let none = Chosen {
        height: 0,
        dimension: 0,
        bits: 0,
    };
    let first = Cut::whole_cut_and_separation(
        &points[leaf],
        &points[leaf],
        word,
        point,
        dimensions,
    );
    let Some(drawn) = first else {
        return none;
    };
    chosen_at(none, 0, drawn.cut, drawn.parts)
}

fn highest_of(chosen: Chosen, top: usize) -> Highest
    requires { T (not (nan_bits binary32 chosen.bits)) }
    ensures { result ≡ highest_of chosen top }
{
    Highest {
        height: chosen.height,
        cut: Cut {
            dimension: chosen.dimension,
            value: f32::from_bits(chosen.bits),
        },
        top,
    }
}

// The draw of a branch of the walk: from its slot where it is cached, else from the ends that were worked out.
fn drawn_of<'a>(
    partly: bool,
    branch: usize,
    ends: &'a Ends,
    boxes: &'a Boxes,
    word: u64,
    point: &Row,
    dimensions: usize,
) -> Option<Separation>
    requires slot { partly ≡ false → branch < branch_limit }
    requires readings { Readings (get_or (ends_for partly branch ends.now boxes.now) 0 []) (get_or (ends_for partly branch ends.now boxes.now) 1 []) point.now width }
    requires padded { Padded (get_or (ends_for partly branch ends.now boxes.now) 0 []) (get_or (ends_for partly branch ends.now boxes.now) 1 []) point.now dimensions width }
    ensures { result ≡ separation width (get_or (ends_for partly branch ends.now boxes.now) 0 []) (get_or (ends_for partly branch ends.now boxes.now) 1 []) point.now word }
{
    let low = if partly { &ends[0] } else { &boxes[branch][0] };
    let high = if partly { &ends[1] } else { &boxes[branch][1] };
    Cut::whole_cut_and_separation(low, high, word, point, dimensions)
}

// The highest cut that parts the point from a node's box, of one drawn at each node of the walk, from the leaf to the root. Once a box
// holds the point, every box above does, and the words there change nothing. The path is lent whole beside `len`, as what is told of the walk speaks of both.
// Rules out the lowest cut that parts, and a `top` with a box above it that does not hold the point.
pub fn highest_cut(
    boxing: &Boxing,
    path: &Path,
    len: usize,
    leaf: usize,
    words: &[u64],
    point: &Row,
) -> Highest
    requires walked { SomeDrawing boxing.now.sizes.capacity boxing.now.sizes.cached boxing.now.nodes.now boxing.now.points.now boxing.now.boxes.now path.now len leaf words.now point.now }
    requires padded { PaddedRow boxing.now.sizes.channels point.now }
    ensures { (d : ℕ) (t : Tree (whole d)) (p : Reading) → Drawing d boxing.now.sizes.capacity t p boxing.now.sizes.cached boxing.now.nodes.now boxing.now.points.now boxing.now.boxes.now path.now len leaf words.now point.now
        → Kept d boxing.now.sizes.capacity t p words.now len result }
{
    let dimensions = boxing.sizes.channels;
    let mut chosen = chosen_first(boxing.points, leaf, words[0], point, dimensions);
    let mut ends: Ends = [*point, *point];
    for m in 1..len {
        let branch = wide16(node_at(path, len - 1 - m));
        let partly = boxing.sizes.cached <= branch;
        if partly {
            let below = wide16(node_at(path, len - m));
            let sibling = wide16(sibling_at(path, len - m));
            ends_above(&mut ends, below, sibling, boxing);
        }
        let draw = drawn_of(
            partly,
            branch,
            &ends,
            boxing.boxes,
            words[m],
            point,
            dimensions,
        );
        let Some(drawn) = draw else {
            return highest_of(chosen, m);
        };
        chosen = chosen_at(chosen, m, drawn.cut, drawn.parts);
    }
    highest_of(chosen, len)
}
