//! Small positions: those of which a full search has no more nodes than the budget has units.

ghost use Rattle.std.specs.Prelude.{◌≡◌, ◌≤◌, ◌↔◌, IsTrue};
ghost use Rattle.hx_board.specs.Counts.{sweep_size, IsSmall};

use hx_board::Position;

/// The most empty cells of a small position.
const MOST_EMPTIES: u32 = 9;

/// Whether the position is small under the budget: it has at most nine empty cells, and a full search of it has no more
/// nodes than the budget has units.
pub fn is_small(position: &Position, budget: u64) -> bool
    ensures { IsTrue result ↔ IsSmall position.now budget }
{
    let empties = position.empty_count();
    if empties > MOST_EMPTIES {
        return false;
    }
    sweep_size(empties) <= budget
}

/// The most nodes that a full search of a position with so many empty cells may have.
fn sweep_size(empties: u32) -> u64
    requires { empties ≤ 9 }
    ensures { result ≡ sweep_size empties }
{
    let mut size = 1;
    for fewer in 0..empties {
        size = 1 + (u64::from(fewer) + 1) * size;
    }
    size
}
