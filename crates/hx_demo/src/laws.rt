//! What holds of counts of wins. The call does nothing; what it says stands in its contract.

ghost use Rattle.std.specs.Prelude.{◌≡◌, ℕ, List};
ghost use Rattle.hx_board.specs.declared.colours.Colour.{Colour};
ghost use Rattle.hx_board.specs.Positions.{Board};
ghost use Rattle.hx_demo.specs.WinCounts.{WinsSoMany};

/// A player does not win two numbers of the same positions.
pub fn one_count()
    ensures { (player : Colour) (boards : List Board) (m n : ℕ)
        → WinsSoMany player boards m → WinsSoMany player boards n → m ≡ n }
{}
