//! The two players, who go by the colour of their stones.

ghost use Rattle.std.specs.Prelude.{◌≡◌};
ghost use Rattle.hx_board.specs.Colours.{other_of};

/// A player, and the colour of a stone. Black owns the top and the bottom side of the board, White the left and the
/// right one.
#[derive(Clone, Copy, PartialEq, Eq, Debug, Default)]
pub enum Colour {
    #[default]
    Black,
    White,
}

impl Colour {
    /// The opponent.
    pub fn other(self) -> Colour
        ensures { result ≡ other_of self }
    {
        match self {
            Colour::Black => Colour::White,
            Colour::White => Colour::Black,
        }
    }
}
