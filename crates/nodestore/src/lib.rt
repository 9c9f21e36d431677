// The rows, cuts and copies of a cut tree's nodes: the edits of a tree, written into the arrays that hold it. After nodestore.rs, its walk and its boxes left
// to other crates.
#![tactic(auto)]

ghost use Rattle.std.specs.Prelude.{◌≡◌, Bool, cond, List, ℕ, ◌+◌, ◌-◌, ◌<◌, ◌≤◌, eqb, length, get_or, set, Float};
ghost use Rattle.std.proofs.Math.Option.{none, some};
ghost use Rattle.limits.specs.Limits.{width, capacity_limit, branch_limit, point_limit, total_limit};
ghost use Rattle.readings.specs.Number.{nought};
ghost use Rattle.cuttree.specs.Tree.{Tree, leaf, id, add_copy, forget, freed};
ghost use Rattle.cuttree.specs.Setting.{Cut as CutOf};
ghost use Rattle.cuttree.specs.Walk.{graft};
ghost use Rattle.wholetree.specs.Reading.{Reading};
ghost use Rattle.wholetree.specs.Whole.{whole};
ghost use Rattle.layout.specs.Layout.{no_row, root_of};
ghost use Rattle.layout.specs.Slots.{field};
ghost use Rattle.nodestore.specs.Rows.{mass_over, heavier, lighter, counted, fewest, most, Countable, Climb, redirect, relink, row_for, mass_at};
ghost use Rattle.nodestore.specs.Stored.{Arrays, Reached, SomeReached, Graft, SomeGraft};
ghost use Rattle.cut.specs.declared.Cut.{Cut};

use casts::wide16;
use cut::Cut;
use limits::{Copies, Cuts, Nodes, Path};
use walk::{node_at, sibling_at};

// One more where `MORE` is true, else one less.
fn counted<const MORE: bool>(x: u16) -> u16
    requires { Countable MORE x }
    ensures { result ≡ counted MORE x }
{
    if MORE { x + 1 } else { x - 1 }
}

// The masses of the rows of a path, from the last to the root: `manage_ancestors_add` and `manage_ancestors_delete` of nodestore.rs.
fn manage_ancestors<const MORE: bool>(nodes: &mut Nodes, above: &[[u16; 2]])
    requires { Climb (fewest MORE) (most MORE) nodes.old above.now }
    ensures { nodes.new ≡ mass_over (counted MORE) above.now nodes.old }
{
    for k in (0..above.len()).rev() {
        let i = wide16(above[k][0]);
        nodes[i][2] = counted::<MORE>(nodes[i][2]);
    }
}

// The side that `old` is on, taken to be one of the branch a's two. A number and no branch, so that none has to be guessed.
fn side_with(nodes: &Nodes, a: usize, old: u16) -> usize
    requires { a < branch_limit }
    ensures { (result ≡ cond (eqb (field nodes.now a 0) old) 0 1) × (result < 2) }
{
    if nodes[a][0] == old { 0 } else { 1 }
}

// The side `old` of the branch a is made `new`.
fn replace_node(nodes: &mut Nodes, a: usize, old: u16, new: u16)
    requires { a < branch_limit }
    ensures { nodes.new ≡ redirect nodes.old a old new }
{
    let side = side_with(nodes, a, old);
    nodes[a][side] = new;
}

// The node `old` below the rows of a path is made `new`.
fn relink_at(nodes: &mut Nodes, above: &[[u16; 2]], old: u16, new: u16)
    requires { 0 < length above.now → field above.now (length above.now - 1) 0 < branch_limit }
    ensures { nodes.new ≡ relink nodes.old above.now (length above.now) old new }
{
    let k = above.len();
    if k == 0 {
        return;
    }
    replace_node(nodes, wide16(above[k - 1][0]), old, new);
}

// The row and the cut of a branch.
fn put_cell(nodes: &mut Nodes, cuts: &mut Cuts, b: usize, row: [u16; 4], cut: f32)
    requires { b < branch_limit }
    ensures { (nodes.new ≡ set nodes.old b row) × (cuts.new ≡ set cuts.old b cut) }
{
    nodes[b] = row;
    cuts[b] = cut;
}

// The branch b, below those rows of a path, goes; the node s takes its place.
fn lift(nodes: &mut Nodes, cuts: &mut Cuts, above: &[[u16; 2]], b: u16, s: u16)
    requires b_lt_branch_limit { b < branch_limit }
    requires last { 0 < length above.now → field above.now (length above.now - 1) 0 < branch_limit }
    requires climb { Climb 1 total_limit (relink (set nodes.old b no_row) above.now (length above.now) b s) above.now }
    ensures linked { nodes.new ≡ mass_over lighter above.now (relink (set nodes.old b no_row) above.now (length above.now) b s) }
    ensures cut_after { cuts.new ≡ set cuts.old b nought }
{
    put_cell(nodes, cuts, wide16(b), [0, 0, 0, 0], 0.0);
    relink_at(nodes, above, b, s);
    manage_ancestors::<false>(nodes, above);
}

// The branch b comes, below those rows of a path and above the node `old`.
fn insert(
    nodes: &mut Nodes,
    cuts: &mut Cuts,
    above: &[[u16; 2]],
    b: u16,
    row: [u16; 4],
    value: f32,
    old: u16,
)
    requires b_lt_branch_limit { b < branch_limit }
    requires last { 0 < length above.now → field above.now (length above.now - 1) 0 < branch_limit }
    requires climb { Climb 0 (total_limit - 1) (relink (set nodes.old b row) above.now (length above.now) old b) above.now }
    ensures linked { nodes.new ≡ mass_over heavier above.now (relink (set nodes.old b row) above.now (length above.now) old b) }
    ensures cut_after { cuts.new ≡ set cuts.old b value }
{
    put_cell(nodes, cuts, wide16(b), row, value);
    relink_at(nodes, above, old, b);
    manage_ancestors::<true>(nodes, above);
}

fn put_copies(copies: &mut Copies, index: usize, n: u16)
    requires { index < point_limit }
    ensures { copies.new ≡ set copies.old index n }
{
    copies[index] = n;
}

fn recount<const MORE: bool>(copies: &mut Copies, index: usize)
    requires index_lt_point_limit { index < point_limit }
    requires countable { Countable MORE (get_or copies.old index 0) }
    ensures { copies.new ≡ set copies.old index (counted MORE (get_or copies.old index 0)) }
{
    copies[index] = counted::<MORE>(copies[index]);
}

// One copy more of the leaf that the path ends in.
// Rules out masses above that stay as they were, and a copy of the leaf beside it.
pub fn add_copy(nodes: &mut Nodes, copies: &mut Copies, path: &Path, n: usize, index: usize)
    requires { SomeReached nodes.old copies.old path.now n index (total_limit - 1) }
    ensures { (d c : ℕ) (cuts : List Float) (t : Tree (whole d)) (p : Reading) → Reached d c nodes.old cuts copies.old path.now n index t p
        → Arrays d c nodes.new cuts copies.new (some (add_copy (whole d) p t)) }
{
    recount::<true>(copies, index);
    manage_ancestors::<true>(nodes, &path[..n - 1]);
}

// One copy less of that leaf, where copies are left.
// Rules out masses above that still count the copy, and the branch above freed while a copy is left.
pub fn drop_copy(nodes: &mut Nodes, copies: &mut Copies, path: &Path, n: usize, index: usize)
    requires some_reached { SomeReached nodes.old copies.old path.now n index total_limit }
    requires bound { 2 ≤ get_or copies.old index 0 }
    ensures { (d c : ℕ) (cuts : List Float) (t : Tree (whole d)) (p : Reading) → Reached d c nodes.old cuts copies.old path.now n index t p
        → Arrays d c nodes.new cuts copies.new (forget (whole d) p t) × (freed (whole d) p t ≡ none) }
{
    recount::<false>(copies, index);
    manage_ancestors::<false>(nodes, &path[..n - 1]);
}

// The first leaf of an empty tree.
// Rules out a copy added to those of before, and one of another index.
pub fn add_root(copies: &mut Copies, index: usize)
    requires { index < point_limit }
    ensures put { copies.new ≡ set copies.old index 1 }
    ensures arrays { (d c : ℕ) (nodes : List (List ℕ)) (cuts : List Float) (p : Reading) → Arrays d c nodes cuts copies.old none
        → Arrays d c nodes cuts copies.new (some (leaf index p 1)) }
{
    put_copies(copies, index, 1);
}

// The last copy of a lone leaf.
// Rules out a copy left, and the other leaves' copies cleared.
pub fn remove_root(copies: &mut Copies, index: usize)
    requires index_lt_point_limit { index < point_limit }
    requires index_value { get_or copies.old index 0 ≡ 1 }
    ensures put { copies.new ≡ set copies.old index 0 }
    ensures arrays { (d c : ℕ) (nodes : List (List ℕ)) (cuts : List Float) (path : List (List ℕ)) (t : Tree (whole d)) (p : Reading) → Reached d c nodes cuts copies.old path 1 index t p
        → Arrays d c nodes cuts copies.new (forget (whole d) p t) × (freed (whole d) p t ≡ none) }
{
    put_copies(copies, index, 0);
}

// The last copy of a leaf below a branch: the sibling takes the branch's place. The number of that branch, which is free again.
// Rules out the leaf's parent left in its place, and another branch's number answered.
pub fn remove_leaf(
    nodes: &mut Nodes,
    cuts: &mut Cuts,
    copies: &mut Copies,
    path: &Path,
    n: usize,
    index: usize,
) -> u16
    requires some_reached { SomeReached nodes.old copies.old path.now n index total_limit }
    requires index_value { get_or copies.old index 0 ≡ 1 }
    requires le_n { 2 ≤ n }
    ensures { (d c : ℕ) (t : Tree (whole d)) (p : Reading) → Reached d c nodes.old cuts.old copies.old path.now n index t p
        → Arrays d c nodes.new cuts.new copies.new (forget (whole d) p t) × (freed (whole d) p t ≡ some result) }
{
    let b = node_at(path, n - 2);
    let s = sibling_at(path, n - 1);
    put_copies(copies, index, 0);
    lift(nodes, cuts, &path[..n - 2], b, s);
    b
}

// The root's id where the node below k others is made `new`.
fn root_of(root: u16, k: usize, new: u16) -> u16
    ensures { result ≡ cond (eqb k 0) new root }
{
    if k == 0 {
        return new;
    }
    root
}

// The id of the root after that: the sibling's where the branch was the root.
// Rules out the branch that is gone, and the sibling's id where the branch was below another.
pub fn lifted_root(root: u16, path: &Path, n: usize) -> u16
    requires le_n { 2 ≤ n }
    requires n_le_capacity_limit { n ≤ capacity_limit }
    ensures is { result ≡ cond (eqb (n - 2) 0) (field path.now (n - 1) 1) root }
    ensures root { (d c : ℕ) (nodes : List (List ℕ)) (cuts : List Float) (copies : List ℕ) (index : ℕ) (t : Tree (whole d)) (p : Reading) → Reached d c nodes cuts copies path.now n index t p
        → get_or copies index 0 ≡ 1 → root ≡ id (whole d) c t → result ≡ root_of d c 0 (forget (whole d) p t) }
{
    root_of(root, n - 2, sibling_at(path, n - 1))
}

// The mass of the node of an id: a branch's row has it, and a leaf's copies are it.
// Rules out a leaf of two copies counted once, and a branch's mass read for a leaf.
pub fn mass_of(nodes: &Nodes, copies: &Copies, node: u16, capacity: u16) -> u16
    requires node_lt_branch_limit { node < capacity → node < branch_limit }
    requires capacity_bound { node - capacity < point_limit }
    ensures { result ≡ mass_at capacity nodes.now copies.now node }
{
    if node < capacity {
        return nodes[wide16(node)][2];
    }
    copies[wide16(node) - wide16(capacity)]
}

fn leaf_id(index: usize, capacity: u16) -> u16
    requires index_lt_point_limit { index < point_limit }
    requires capacity_le_capacity_limit { capacity ≤ capacity_limit }
    ensures { result ≡ index + capacity }
{
    (index as u16) + capacity
}

// The row of a new branch over `old`, with the leaf `new` on its side of the cut.
fn row_for(left: bool, new: u16, old: u16, mass: u16, dimension: usize) -> [u16; 4]
    requires mass_bound { mass ≤ total_limit - 1 }
    requires dimension_lt_width { dimension < width }
    ensures { result ≡ row_for left new old mass dimension }
{
    if left {
        return [new, old, mass + 1, dimension as u16];
    }
    [old, new, mass + 1, dimension as u16]
}

// A new value: its leaf, and the branch b above the node below the first k of the path, with the cut given.
// Rules out the new leaf on the other side of the cut, and masses above that do not count it.
pub fn place_branch(
    nodes: &mut Nodes,
    cuts: &mut Cuts,
    copies: &mut Copies,
    path: &Path,
    k: usize,
    b: u16,
    index: usize,
    cut: Cut,
    left: bool,
    capacity: u16,
)
    requires { SomeGraft capacity nodes.old cuts.old copies.old path.now k b index cut left }
    ensures { (d n : ℕ) (t : Tree (whole d)) (p : Reading) (h : ℕ) (x : CutOf (whole d)) → Graft d capacity nodes.old cuts.old copies.old path.now k b index cut left n t p h x
        → Arrays d capacity nodes.new cuts.new copies.new (some (graft (whole d) b index p (h, x) t)) }
{
    let old = node_at(path, k);
    let m = mass_of(nodes, copies, old, capacity);
    let row = row_for(left, leaf_id(index, capacity), old, m, cut.dimension);
    put_copies(copies, index, 1);
    insert(nodes, cuts, &path[..k], b, row, cut.value, old);
}

// The id of the root after that: the new branch's where nothing is above it.
// Rules out the old root's id where the new branch is above it, and the new branch's where it is below.
pub fn placed_root(root: u16, k: usize, b: u16) -> u16
    ensures is { result ≡ cond (eqb k 0) b root }
    ensures root { (d c : ℕ) (nodes : List (List ℕ)) (cuts : List Float) (copies : List ℕ) (path : List (List ℕ)) (index : ℕ) (cut : Cut) (left : Bool) (n : ℕ) (t : Tree (whole d)) (p : Reading) (h : ℕ) (x : CutOf (whole d))
        → Graft d c nodes cuts copies path k b index cut left n t p h x → root ≡ id (whole d) c t → result ≡ id (whole d) c (graft (whole d) b index p (h, x) t) }
{
    root_of(root, k, b)
}
