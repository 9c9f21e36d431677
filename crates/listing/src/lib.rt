// The printed tree of `treelist`: a line of names, then a line for each node, branch before left before right, read from the arrays that a tree stands in.
#![tactic(auto)]

ghost use Rattle.std.specs.Prelude.{◌≡◌, ◌≤◌, ◌<◌, get_or};
ghost use Rattle.limits.specs.Limits.{capacity_limit, branch_limit, point_limit};
ghost use Rattle.lines.specs.Lines.{Wrote};
ghost use Rattle.layout.specs.Slots.{field};
ghost use Rattle.listing.specs.Listing.{row_line, PrintsNode, SomeListed};
ghost use Rattle.listing.specs.Printed.{PrintsTree, SomeRead};

use casts::{wide16, wide32};
use limits::{BRANCHES, CAPACITY, Copies, Cuts, Nodes};
use randomcuttree::RCFTree;
use treestore::NodeStore;

// A buffer of so many bytes has room for what any tree prints: `tree_limit`.
pub const TREE: usize = 33 + BRANCHES * 32 + CAPACITY * 19;

// A number of a branch's row: 0 is its left side, 1 its right, 2 its mass and 3 its channel.
fn number_of(nodes: &Nodes, node: usize, i: usize) -> usize
    requires { (node < branch_limit) × (i < 4) }
    ensures { result ≡ field nodes.now node i }
{
    wide16(nodes[node][i])
}

// The mass of a leaf: its copies.
fn mass_of(copies: &Copies, index: usize) -> usize
    requires { index < point_limit }
    ensures { result ≡ get_or copies.now index 0 }
{
    wide16(copies[index])
}

// A branch's line.
// Rules out left and right swapped, and the mass where the channel stands.
fn print_branch(id: usize, nodes: &Nodes, cuts: &Cuts, out: &mut [u8], at: usize) -> usize
    requires { (id < branch_limit) × (at < 100000000000) }
    ensures { Wrote out.old at (row_line nodes.now cuts.now id) result out.new }
{
    let cut = walk::cut_at(nodes, cuts, id);
    let value = wide32(little::pattern_of(cut.value));
    let left = number_of(nodes, id, 0);
    let right = number_of(nodes, id, 1);
    let mass = number_of(nodes, id, 2);
    lines::put_branch(out, at, id, cut.dimension, value, left, right, mass)
}

// The lines of a node and of all below it. A leaf's id is at least the capacity.
// Rules out the right side before the left, and a leaf of two copies printed with mass 1.
pub fn print_node(
    id: usize,
    nodes: &Nodes,
    cuts: &Cuts,
    copies: &Copies,
    capacity: usize,
    out: &mut [u8],
    at: usize,
) -> usize
    requires few { capacity ≤ capacity_limit }
    requires stands { SomeListed capacity id at nodes.now cuts.now copies.now }
    ensures { PrintsNode capacity id nodes.now cuts.now copies.now at out.old result out.new }
{
    if capacity <= id {
        let mass = mass_of(copies, id - capacity);
        return lines::put_leaf(out, at, id, mass);
    }
    let left_side = number_of(nodes, id, 0);
    let right_side = number_of(nodes, id, 1);
    let below = print_branch(id, nodes, cuts, out, at);
    let between = print_node(left_side, nodes, cuts, copies, capacity, out, below);
    print_node(right_side, nodes, cuts, copies, capacity, out, between)
}

// The printed tree: the line of names, and the lines of the root and of all below it if there is one.
// Rules out an empty tree with no line of names, and a lone leaf left out.
pub fn print_tree(tree: RCFTree, store: &NodeStore, out: &mut [u8], at: usize) -> usize
    requires near { at < 10000000000 }
    requires stands { SomeRead tree store.now.nodes store.now.cuts store.now.copies }
    ensures { PrintsTree tree store.now.nodes store.now.cuts store.now.copies at out.old result out.new }
{
    let below = lines::put_names(out, at);
    if tree.total == 0 {
        return below;
    }
    print_node(
        wide16(tree.root),
        &store.nodes,
        &store.cuts,
        &store.copies,
        wide16(tree.capacity),
        out,
        below,
    )
}
