//! Fill-in: each step and each cell is judged by itself, with what is joined found anew for each question.

use hx_board::{CELLS, Cell, Colour, Position};
use hx_fill::Fill;
use hx_inferior::{FillStep, dead, fill_one, pair};

/// The position after the steps. None where one is not right for its own player on the board where it is done.
pub(crate) fn filled(position: &Position, steps: &[Fill]) -> Option<Position> {
    let mut now = *position;
    for fill in steps {
        let Some(next) = fill_one(&now, fill.colour, fill.step) else {
            return None;
        };
        now = next;
    }
    Some(now)
}

/// The position after steps for the winner. None where one may not be done.
pub(crate) fn filled_for(
    position: &Position,
    winner: Colour,
    steps: &[FillStep],
) -> Option<Position> {
    let mut now = *position;
    for step in steps {
        let Some(next) = fill_one(&now, winner, *step) else {
            return None;
        };
        now = next;
    }
    Some(now)
}

/// Whether a cell is dead for the player, or a captured pair with some other cell.
fn can_be_filled(position: &Position, player: Colour, cell: Cell) -> bool {
    if dead(position, player, cell) {
        return true;
    }
    for place in 0..CELLS as u8 {
        if let Some(other) = position.size().cell(place / 11, place % 11)
            && pair(position, player, cell, other)
        {
            return true;
        }
    }
    false
}

fn can_be_filled_for_some(position: &Position, cell: Cell) -> bool {
    can_be_filled(position, Colour::Black, cell) || can_be_filled(position, Colour::White, cell)
}

/// Whether no cell is dead and no two are a captured pair, for either player.
pub(crate) fn has_nothing_to_fill(position: &Position) -> bool {
    for place in 0..CELLS as u8 {
        if let Some(cell) = position.size().cell(place / 11, place % 11)
            && can_be_filled_for_some(position, cell)
        {
            return false;
        }
    }
    true
}
