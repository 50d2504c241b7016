//! What the limit of a local game is. The call does nothing; what it says stands in its contract.

ghost use Rattle.std.specs.Prelude.{◌≡◌};
ghost use Rattle.hx_template.specs.Limits.{most_cells};

use crate::games::MOST_CELLS;

/// The constant by which a caller goes is the limit that the definitions have.
pub fn most_cells_are_twelve()
    ensures { MOST_CELLS ≡ most_cells }
{}
