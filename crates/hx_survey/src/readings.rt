//! The table, read from a closed book. What the book has no entry of, a full search solves where it is small.

ghost use Rattle.std.specs.Prelude.{◌≡◌, MatchOption};
ghost use Rattle.hx_board.specs.declared.colours.Colour.TheVariants.{White};
ghost use Rattle.hx_board.specs.Cells.{OnBoard};
ghost use Rattle.hx_board.specs.Counts.{IsSmall};
ghost use Rattle.hx_board.specs.Game.{Wins};
ghost use Rattle.hx_tree.specs.Entries.{HasNoEntry};
ghost use Rattle.hx_openings.specs.Openings.{WinsOpening};
ghost use Rattle.hx_survey.specs.Readings.{marked, IsUnlisted, IsOpen, HasOpen, IsTable};

use crate::openings::opening;
use crate::tables::Table;
use hx_board::{Cell, Colour, Mask, Position, Size};
use hx_book::Book;
use hx_cells::each_cell;
use hx_share::book_names_winners;
use hx_sweep::{is_small, winner};
use hx_turn::{turned, turned_keeps};

/// The table of all openings. None where one of them has no entry, nor has the turned one, and it is not small.
pub(crate) fn table_of(size: Size, budget: u64, book: &Book) -> Option<Table>
    ensures { MatchOption result (HasOpen book.now.nodes size budget) (IsTable size) }
{
    let mut black = Mask::empty();
    for cell in each_cell(size.all(), size) {
        let Some(winner) = winner_after(size, budget, book, cell) else {
            return None;
        };
        black = marked(black, cell, winner);
    }
    Some(Table::new(size, black))
}

/// The set with the cell of an opening in it where Black wins after it.
fn marked(black: Mask, cell: Cell, winner: Colour) -> Mask
    ensures { result ≡ marked black cell winner }
{
    match winner {
        Colour::Black => black.with(cell),
        Colour::White => black,
    }
}

/// Who wins after an opening, by the book or by a full search.
fn winner_after(size: Size, budget: u64, book: &Book, cell: Cell) -> Option<Colour>
    requires { OnBoard size cell }
    ensures { MatchOption result (IsOpen book.now.nodes size budget cell) (WinsOpening size cell) }
{
    let position = opening(size, cell);
    match winner_in(book, &position) {
        Some(winner) => Some(winner),
        None => winner_if_small(budget, &position),
    }
}

/// Who wins a position with White to move by the book, where it has an entry of it or of the turned one.
fn winner_in(book: &Book, position: &Position) -> Option<Colour>
    ensures { MatchOption result (IsUnlisted book.now.nodes position.now)
        (λ winner. Wins winner position.now White) }
{
    book_names_winners(book);
    match book.find(position, Colour::White) {
        Some(found) => Some(found.winner),
        None => winner_by_turned(book, position),
    }
}

/// The same by an entry of the turned position, where the position itself has none.
fn winner_by_turned(book: &Book, position: &Position) -> Option<Colour>
    requires { HasNoEntry book.now.nodes position.now White }
    ensures { MatchOption result (IsUnlisted book.now.nodes position.now)
        (λ winner. Wins winner position.now White) }
{
    book_names_winners(book);
    let other = turned(position);
    match book.find(&other, Colour::White) {
        Some(found) => {
            turned_keeps(position, Colour::White, found.winner);
            Some(found.winner)
        }
        None => None,
    }
}

/// Who wins a position with White to move by a full search, where it is small.
fn winner_if_small(budget: u64, position: &Position) -> Option<Colour>
    ensures { MatchOption result (¬ IsSmall position.now budget)
        (λ winner. Wins winner position.now White) }
{
    if is_small(position, budget) {
        let mut tried = *position;
        return Some(winner(&mut tried, Colour::White));
    }
    None
}
