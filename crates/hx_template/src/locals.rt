//! The question that is asked, and the memory that its answer takes.
//!
//! A local game is what Anshelevich calls a virtual connection where the opponent moves first, and a virtual
//! semi-connection where the player does ("A hierarchical approach to computer Hex", 2002). His rules make large ones
//! of small ones, and not every one that there is can be made so. Here none is made: the game is played out.

ghost use Rattle.std.specs.Prelude.{◌≡◌, ℕ, ◌≤◌, ◌↔◌, IfOk, IsTrue, true};
ghost use Rattle.hx_board.specs.Graph.{IsVertex};
ghost use Rattle.hx_board.specs.Positions.{IsEmpty};
ghost use Rattle.hx_board.specs.Sets.{has, count_below};
ghost use Rattle.hx_proof.specs.Local.{Secures};
ghost use Rattle.hx_template.specs.Limits.{most_cells};

use crate::games::LocalGame;
use crate::searches::secures;
use hx_board::{Colour, Mask, Memory, Position, Vertex};
use std::alloc::Global;

/// Whether a player can join two vertices by moves to the cells of a carrier alone, whatever the opponent plays there,
/// where `to_move` moves first. So it tells whether a link between the vertices on this carrier holds: a Full one with
/// the opponent to move, a Semi one with the player.
///
/// The carrier has empty cells alone, and not more than `MOST_CELLS`. The vertices may be any two of the board: one may
/// be in the carrier, or a stone of the opponent's, and they may be the same.
///
/// Memory is asked for once, before the search: a table with an entry for each way to fill the carrier, 3^12 of them at
/// most, of three bytes each. An error comes only where it is refused. The search goes down a move for each cell of the
/// carrier.
///
/// Each way to fill the carrier is judged once, by at most one look at the groups of `position` for each of the
/// player's new stones. The worst carriers of twelve cells have about a fifth of all ways judged, most have far fewer.
pub fn local(
    alloc: Global,
    position: &Position,
    colour: Colour,
    a: Vertex,
    b: Vertex,
    carrier: Mask,
    to_move: Colour,
) -> Result<bool, Memory>
    requires few { count_below 128 carrier ≤ most_cells }
    requires empty { (cell : ℕ) → has carrier cell ≡ true → IsEmpty position.now cell }
    // The ends of a link differ, are no stones of the opponent's, and are outside the carrier where they are empty
    // cells. The answer is exact without that, so a caller has less to show; a text may ask for more.
    requires a_vertex { IsVertex position.now.size a }
    requires b_vertex { IsVertex position.now.size b }
    ensures { IfOk result (λ answer.
        IsTrue answer ↔ Secures colour carrier a b position.now to_move) }
{
    let game = LocalGame::new(position, colour, a, b, carrier);
    let Ok(mut table) = vec![in alloc; None; game.fillings()] else {
        return Err(Memory);
    };
    // Where no move was made every digit is 0.
    Ok(secures(&game, &mut table, position, 0, to_move))
}
