//! Which cells are left to try, where some have lines.

ghost use Rattle.std.specs.Prelude.{◌≡◌, ℕ, true};
ghost use Rattle.hx_board.specs.Sets.{has, IsSubset};
ghost use Rattle.hx_fill.specs.Unders.{HasLineFor};

use hx_board::Mask;
use hx_tree::Line;

/// The cells without those of these lines.
pub fn without_lines(cells: Mask, lines: &[Line]) -> Mask
    ensures inside { IsSubset result cells }
    ensures kept { (cell : ℕ) → has cells cell ≡ true → ¬ HasLineFor lines.now cell
        → has result cell ≡ true }
{
    let mut left = cells;
    for line in lines {
        left = left.without(line.cell());
    }
    left
}
