//! What right steps for links show.

ghost use Rattle.hx_board.specs.Colours.{other_of};
ghost use Rattle.hx_board.specs.Game.{Wins};
ghost use Rattle.hx_link.specs.declared.links.Kind.TheVariants.{Full};
ghost use Rattle.hx_proof.specs.Links.{EndInChainLink, ShowChain};

use hx_board::{Colour, Position};
use hx_link::Step;

/// Where the last link of right steps joins the player's two sides, the player wins with the move, and where that link
/// is Full with the opponent's move too.
pub fn link_sound(position: &Position, colour: Colour, steps: &[Step])
    requires { ShowChain position.now colour steps.now }
    ensures with_the_move { Wins colour position.now colour }
    ensures without_it { EndInChainLink position.now colour Full steps.now
        → Wins colour position.now (other_of colour) }
{}
