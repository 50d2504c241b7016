//! The entry of a position that a list of proofs has.

ghost use Rattle.hx_book.specs.Sights.{Grows};
ghost use Rattle.hx_tree.specs.Entries.{IsFirstFound};
ghost use Rattle.hx_nodes.specs.Stored.{HasEntry};

use hx_board::{Colour, Position};
use hx_book::Proofs;
use hx_tree::Found;
use std::sync::Wait;

/// The first entry of the position and mover, where the list was seen to have one.
pub(crate) fn entry_of<P: Proofs, R: Wait>(
    rt: &R,
    proofs: &mut P,
    position: &Position,
    to_move: Colour,
) -> Found
    requires { HasEntry (P.sight proofs.old).list position.now to_move }
    ensures grew { Grows (P.sight proofs.old) (P.sight proofs.new) }
    ensures found { IsFirstFound (P.sight proofs.new).list position.now to_move result }
{
    match proofs.look(rt, position, to_move) {
        Some(found) => found,
        // An entry that was seen is found.
        None => unreachable!(),
    }
}
