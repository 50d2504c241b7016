//! A zone, and which zones stand together.

ghost use Rattle.std.specs.Prelude.{◌<◌};

use hx_board::{Colour, Mask};

/// What a win needs: stones of the winner's, and cells on which the opponent has none. It serves each position that has
/// both.
#[derive(Clone, Copy)]
pub struct Zone {
    /// Cells on which the winner has stones.
    pub needed: Mask,

    /// Cells on which the opponent has no stone. The winner may have stones there.
    pub free: Mask,
}

/// Who is to move, and who wins.
#[derive(Clone, Copy)]
pub struct Kind {
    pub to_move: Colour,
    pub winner: Colour,
}

/// How many kinds there are.
pub(crate) const KINDS: usize = 4;

/// A player's number.
fn side(player: Colour) -> usize
    ensures { result < 2 }
{
    match player {
        Colour::Black => 0,
        Colour::White => 1,
    }
}

impl Kind {
    /// The kind's place among all.
    pub(crate) fn place(self) -> usize {
        side(self.to_move) * 2 + side(self.winner)
    }

    /// Whether the player to move loses.
    pub(crate) fn is_loss(self) -> bool {
        match (self.to_move, self.winner) {
            (Colour::Black, Colour::White) | (Colour::White, Colour::Black) => true,
            (Colour::Black, Colour::Black) | (Colour::White, Colour::White) => false,
        }
    }
}
