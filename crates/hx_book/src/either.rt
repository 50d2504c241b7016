//! A look in both orientations.
//!
//! Who wins a position wins the one turned by 180 degrees. So where the position itself has no entry, that of the
//! turned one serves. The position is turned only then.

ghost use Rattle.hx_book.specs.EitherEntry.{FindsEither};
ghost use Rattle.hx_book.specs.Sights.{Grows};

use crate::growing::Proofs;
use hx_board::{Colour, Position};
use hx_tree::Found;
use hx_turn::turned;
use std::sync::Wait;

/// The entry of a position, or of the turned one where `turned` says so.
#[derive(Clone, Copy, PartialEq, Eq, Debug)]
pub struct Either {
    pub found: Found,
    pub turned: bool,
}

/// The first entry of a position and mover, or, where there is none, that of the turned position and the same mover.
/// None only where neither has one.
pub fn look_either<P: Proofs, R: Wait>(
    rt: &R,
    proofs: &mut P,
    position: &Position,
    to_move: Colour,
) -> Option<Either>
    ensures grew { Grows (P.sight proofs.old) (P.sight proofs.new) }
    ensures found { FindsEither (P.sight proofs.old).list (P.sight proofs.new).list position.now
        to_move result }
{
    if let Some(found) = proofs.look(rt, position, to_move) {
        let turned = false;
        return Some(Either { found, turned });
    }
    let other = turned(position);
    match proofs.look(rt, &other, to_move) {
        Some(found) => Some(Either {
            found,
            turned: true,
        }),
        None => None,
    }
}
