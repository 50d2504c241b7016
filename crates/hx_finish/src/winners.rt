//! Who wins by the tree that a search came to: the winner that its root names.

ghost use Rattle.std.specs.Prelude.{◌≡◌};
ghost use Rattle.hx_board.specs.Colours.{other_of};
ghost use Rattle.hx_board.specs.Game.{Wins};
ghost use Rattle.hx_tree.specs.declared.nodes.Node.{Node as TreeNode};
ghost use Rattle.hx_tree.specs.Trees.{IsValidTree, IsRoot};

use hx_board::Colour;
use hx_proof::tree_sound;
use hx_tree::Node;

/// The winner of the root of a tree. It wins the root's position, and the other player does not.
pub fn root_winner(nodes: &[Node]) -> Colour
    requires { IsValidTree nodes.now }
    ensures named { (root : TreeNode) → IsRoot nodes.now root → result ≡ root.heading.winner }
    ensures wins { (root : TreeNode) → IsRoot nodes.now root
        → Wins result root.heading.position root.heading.to_move }
    ensures other_does_not { (root : TreeNode) → IsRoot nodes.now root
        → ¬ Wins (other_of result) root.heading.position root.heading.to_move }
{
    tree_sound(nodes);
    match nodes.last() {
        Some(root) => root.heading.winner,
        None => unreachable!(),
    }
}
