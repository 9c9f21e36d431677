// The boxes of a tree's branches in its arrays: definitions and laws of a cached box, of a box worked out from the branch's sides, and of both through an edit,
// for the crates that work on boxes in lent rows. And the id of a branch's side, which its row has.
#![tactic(auto)]

ghost use Rattle.std.specs.Prelude.{◌≡◌, ◌<◌};
ghost use Rattle.limits.specs.Limits.{branch_limit};
ghost use Rattle.boxstore.specs.Boxed.{side_in};

use limits::Nodes;

// The id of a branch's side: 0 is the left one, 1 the right one.
// Rules out the sides swapped, and the side of another branch.
pub fn side_of(nodes: &Nodes, node: usize, side: usize) -> usize
    requires { (node < branch_limit) × (side < 2) }
    ensures { result ≡ side_in nodes.now node side }
{
    casts::wide16(nodes[node][side])
}
