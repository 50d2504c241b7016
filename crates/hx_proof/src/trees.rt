//! What right nodes and valid trees show.

ghost use Rattle.std.specs.Prelude.{ℕ, slice_get, IfSome};
ghost use Rattle.hx_tree.specs.declared.nodes.Node.{Node};
ghost use Rattle.hx_tree.specs.Rules.{IsRightNode};
ghost use Rattle.hx_tree.specs.Trees.{IsValidTree, IsRoot};
ghost use Rattle.hx_proof.specs.Winners.{HeadingWins, OnlyWinner, AllWin};

use hx_tree::{Heading, Node};

/// The winner of a right node wins, where the winners of the headings before it do.
pub fn node_sound(before: &[Heading], node: &Node)
    requires right { IsRightNode before.now node.now }
    requires earlier { (k : ℕ) → IfSome (slice_get before.now k) HeadingWins }
    ensures { HeadingWins node.now.heading }
{}

/// The winner of each node of a valid tree wins, and so the winner of the root. The other player does not.
pub fn tree_sound(nodes: &[Node])
    requires { IsValidTree nodes.now }
    ensures all { AllWin nodes.now }
    ensures root { (root : Node) → IsRoot nodes.now root → OnlyWinner root.heading }
{}
