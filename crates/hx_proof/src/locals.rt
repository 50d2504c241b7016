//! The local game: each link that steps give is a claim about it that is so, and between a player's two sides it gives
//! the win.
//!
//! Anshelevich calls the claim of a Full link a virtual connection, that of a Semi link a virtual semi-connection, and
//! has rules by which larger ones are made of smaller ones ("A hierarchical approach to computer Hex", 2002). Steps are
//! these rules.

ghost use Rattle.hx_board.specs.declared.vertices.Vertex.TheVariants.{First, Last};
ghost use Rattle.hx_board.specs.Game.{Wins};
ghost use Rattle.hx_link.specs.declared.links.Link.{Link as Claim};
ghost use Rattle.hx_proof.specs.Links.{AreEmpty, EndInLink};
ghost use Rattle.hx_proof.specs.Local.{LinkHolds, Secures};

use hx_board::{Colour, Mask, Position};
use hx_link::Step;

/// What the last link of right steps says is so: the player has the local game between its ends on its carrier, with
/// the opponent to move where it is Full, which is Anshelevich's virtual connection, and with the player to move where
/// it is Semi, his virtual semi-connection. And the carrier has empty cells alone.
///
/// So whoever has made a link by steps may play the local game on its carrier, and whoever decides a local game in
/// another way needs no steps for it.
pub fn link_local(position: &Position, colour: Colour, steps: &[Step])
    requires { (link : Claim) × EndInLink position.now colour steps.now link }
    ensures holds { (link : Claim) → EndInLink position.now colour steps.now link
        → LinkHolds position.now colour link }
    ensures empty { (link : Claim) → EndInLink position.now colour steps.now link
        → AreEmpty position.now link.carrier }
{}

/// Who has the local game between the own two sides, on whatever carrier, wins the position with the same player to
/// move.
///
/// So a virtual connection of the two sides, or with the move a semi-connection, decides the game, though both may then
/// move outside the carrier too. It may be one that no steps give.
pub fn local_wins(position: &Position, colour: Colour, carrier: Mask, to_move: Colour)
    requires { Secures colour carrier First Last position.now to_move }
    ensures { Wins colour position.now to_move }
{}
