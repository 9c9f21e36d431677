// The walk of a point through a cut tree's rows, from the root to its leaf, and whether two readings are the same. After nodestore.rs, and `is_equal` of pointstore.rs.
// A path is lent, as the Rust's vector of node and sibling is.
#![tactic(auto)]

ghost use Rattle.std.specs.Prelude.{◌≡◌, cond, [], ◌∷◌, ℕ, ◌+◌, ◌*◌, ◌<◌, ◌≤◌, length, drop, set};
ghost use Rattle.limits.specs.Limits.{width, capacity_limit, branch_limit};
ghost use Rattle.boundingbox.specs.Padding.{Padded};
ghost use Rattle.cuttree.specs.Tree.{Tree, ending};
ghost use Rattle.wholetree.specs.Reading.{Reading, same_row};
ghost use Rattle.wholetree.specs.Whole.{whole};
ghost use Rattle.layout.specs.Slots.{field};
ghost use Rattle.layout.specs.Stands.{no_sibling};
ghost use Rattle.walk.specs.Walks.{cut_read, step_of, Walks, SomeWalks, Walked, SomeWalked};

use casts::wide16;
use cut::Cut;
use limits::{Cuts, Nodes, Path, Row};

// The root stands in a path with this in place of a sibling.
const NO_SIBLING: u16 = 65535;

// Two u16s as one number.
fn together(low: u16, high: u16) -> u32
    ensures { (result ≡ low + 65536 * high) × (low < 65536) × (high < 65536) }
{
    (low as u32) + 65536 * (high as u32)
}

// One of two values, picked with no branch to be guessed.
// Rules out the other one, and one of the two whatever the test says.
pub fn either<T: Copy>(first: bool, x: T, y: T) -> T
    ensures { result ≡ cond first x y }
{
    if first { x } else { y }
}

// Two ids, in turn or turned round. The test picks one number of two, so that no branch has to be guessed.
fn in_turn(straight: bool, a: u16, b: u16) -> [u16; 2]
    ensures { result ≡ cond straight (a ∷ b ∷ []) (b ∷ a ∷ []) }
{
    let both = either(straight, together(a, b), together(b, a));
    [(both % 65536) as u16, (both / 65536) as u16]
}

// The cut of a branch. It lies in two arrays (decision 1), and is read here alone.
// Rules out the mass taken for the channel, and the value of another branch's cut.
pub fn cut_at(nodes: &Nodes, cuts: &Cuts, i: usize) -> Cut
    requires { i < branch_limit }
    ensures { result ≡ cut_read nodes.now cuts.now i }
{
    Cut {
        dimension: wide16(nodes[i][3]),
        value: cuts[i],
    }
}

// The side that the point goes to, and the other.
// Rules out a point that equals the cut's value on the right, and the sides with the point's own second.
pub fn step_at(nodes: &Nodes, cuts: &Cuts, point: &Row, i: usize) -> [u16; 2]
    requires i_lt_branch_limit { i < branch_limit }
    requires i_bound { field nodes.now i 3 < width }
    ensures { result ≡ step_of nodes.now cuts.now point.now i }
{
    let cut = cut_at(nodes, cuts, i);
    let d = cut.dimension;
    let left = nodes[i][0];
    let right = nodes[i][1];
    in_turn(point[d] <= cut.value, left, right)
}

// A path begins with the root, which has no sibling.
// Rules out the root in place of its sibling, and a row beyond the first written.
pub fn begin(path: &mut Path, root: u16)
    ensures whole { length path.old ≡ capacity_limit }
    ensures root { path.new ≡ set path.old 0 (root ∷ no_sibling ∷ []) }
{
    path[0] = [root, NO_SIBLING];
}

// The nodes from the root to the leaf, each with its sibling; the root has none. The rows after the walk's stay as they are.
// Rules out a walk that ends one node early, and rows after the walk's cleared.
pub fn set_path(
    nodes: &Nodes,
    cuts: &Cuts,
    point: &Row,
    root: u16,
    capacity: u16,
    path: &mut Path,
) -> usize
    requires capacity_le_capacity_limit { capacity ≤ capacity_limit }
    requires some_walks { SomeWalks capacity nodes.now cuts.now point.now root }
    ensures walked { (d : ℕ) (t : Tree (whole d)) (p : Reading) → Walks d capacity nodes.now cuts.now point.now root t p → Walked d capacity path.new result t p }
    ensures rest { drop result path.new ≡ drop result path.old }
{
    begin(path, root);
    let mut n: usize = 1;
    let mut node = root;
    // A walk is over at a leaf, and not after a number of turns that is known before.
    while node < capacity {
        let s = step_at(nodes, cuts, point, wide16(node));
        path[n] = s;
        node = s[0];
        n += 1;
    }
    n
}

// The id of a node of the path. The two fields of a row are told by name; a number for the field would be none.
// Rules out the sibling in its place, and the node of another row.
pub fn node_at(path: &Path, i: usize) -> u16
    requires { i < capacity_limit }
    ensures { result ≡ field path.now i 0 }
{
    path[i][0]
}

// The id of its sibling.
// Rules out the node itself, and the sibling of another row.
pub fn sibling_at(path: &Path, i: usize) -> u16
    requires { i < capacity_limit }
    ensures { result ≡ field path.now i 1 }
{
    path[i][1]
}

// The point index of the leaf that the path ends in.
// Rules out the leaf's id in place of its point index, and the index of the node above.
pub fn leaf_at(path: &Path, n: usize, capacity: u16) -> usize
    requires { SomeWalked capacity path.now n }
    ensures { (d : ℕ) (t : Tree (whole d)) (p : Reading) → Walked d capacity path.now n t p → result ≡ (ending (whole d) t p).index }
{
    wide16(node_at(path, n - 1)) - wide16(capacity)
}

// Equal coordinates in every channel. Beyond the tree's both have +0.0, so that those are not looked at.
// Rules out one equal channel that is enough, and the last channel left out.
pub fn same_point(a: &Row, b: &Row, dimensions: usize) -> bool
    requires narrow { dimensions ≤ width }
    requires padded { Padded a.now dimensions width × Padded b.now dimensions width }
    ensures { result ≡ same_row a.now b.now }
{
    (0..dimensions).all(|i| a[i] == b[i])
}
