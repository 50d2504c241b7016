//! The search of a local game, from its start down, in which each filling is judged once.
//!
//! What was found of a filling is kept in a table, at the filling's number: a transposition table with a place for each
//! position, so that nothing in it is ever replaced. Without it one filling would be judged again for each order of the
//! moves that lead to it. An entry names the player to move, so nothing is asked of how many stones there are.
//!
//! From the bottom up there would be no recursion: all 3^12 fillings of twelve cells in falling order of their numbers,
//! each from those with one stone more. But play comes to few of them: from the top one in eighty was judged, on the
//! mean.

ghost use Rattle.std.specs.Prelude.{◌≡◌, ℕ, ◌↔◌, IsTrue, false, not};
ghost use Rattle.hx_board.specs.Colours.{other_of};
ghost use Rattle.hx_board.specs.Positions.{put};
ghost use Rattle.hx_board.specs.Sets.{has};
ghost use Rattle.hx_law.specs.Play.{IsFree};
ghost use Rattle.hx_proof.specs.Local.{IsJoined};
ghost use Rattle.hx_template.specs.Fillings.{IsFilling, number_of};
ghost use Rattle.hx_template.specs.Entries.{HasVertices, AreRight, SecuredIn, IsSo};

use crate::games::LocalGame;
use crate::reaches::joined_in;
use hx_board::{Cell, Colour, Position};
use hx_cells::each_cell;

/// What was found of a filling: whether the player of the game secures the vertices, with this player to move.
#[derive(Clone, Copy, Debug, PartialEq, Eq)]
pub(crate) struct Entry {
    pub to_move: Colour,
    pub secures: bool,
}

/// Whether the player of the game secures the vertices in the filling of this number, with `to_move` to move. What is
/// found is kept in the table.
#[cycle(searches)]
pub(crate) fn secures(
    game: &LocalGame,
    table: &mut [Option<Entry>],
    position: &Position,
    number: usize,
    to_move: Colour,
) -> bool
    requires vertices { HasVertices game.now }
    requires filling { IsFilling game.now.start game.now.carrier position.now }
    requires number { number ≡ number_of game.now.player game.now.carrier position.now }
    requires table { AreRight game.now table.old }
    ensures table { AreRight game.now table.new }
    ensures answer { IsTrue result ↔ SecuredIn game.now position.now to_move }
{
    if let Some(entry) = table[number] {
        if entry.to_move == to_move {
            return entry.secures;
        }
    }
    let secures = decided(game, table, position, number, to_move);
    table[number] = Some(Entry { to_move, secures });
    secures
}

/// The same, by what is joined and by the moves that there are, where the table has nothing of the filling.
#[cycle(searches)]
fn decided(
    game: &LocalGame,
    table: &mut [Option<Entry>],
    position: &Position,
    number: usize,
    to_move: Colour,
) -> bool
    requires vertices { HasVertices game.now }
    requires filling { IsFilling game.now.start game.now.carrier position.now }
    requires number { number ≡ number_of game.now.player game.now.carrier position.now }
    requires table { AreRight game.now table.old }
    ensures table { AreRight game.now table.new }
    ensures answer { IsTrue result ↔ SecuredIn game.now position.now to_move }
{
    if joins(game, position) {
        return true;
    }
    if !game.carrier.meets(position.empties()) {
        return false;
    }
    // The player moves to secure the vertices, the opponent so that they are not.
    let wanted = game.is_player(to_move);
    if some_move(game, table, position, number, to_move, wanted) {
        wanted
    } else {
        !wanted
    }
}

/// Whether a move to some cell of the carrier leads to a filling in which the player of the game secures the vertices,
/// or does not, as is wanted.
#[cycle(searches)]
fn some_move(
    game: &LocalGame,
    table: &mut [Option<Entry>],
    position: &Position,
    number: usize,
    to_move: Colour,
    wanted: bool,
) -> bool
    requires vertices { HasVertices game.now }
    requires filling { IsFilling game.now.start game.now.carrier position.now }
    requires number { number ≡ number_of game.now.player game.now.carrier position.now }
    requires table { AreRight game.now table.old }
    ensures table { AreRight game.now table.new }
    ensures some { IsTrue result → (cell : ℕ) × IsFree (has game.now.carrier) position.now cell
        × IsSo wanted (SecuredIn game.now (put position.now to_move cell) (other_of to_move)) }
    ensures none { result ≡ false → (cell : ℕ) → IsFree (has game.now.carrier) position.now cell
        → IsSo (not wanted)
        (SecuredIn game.now (put position.now to_move cell) (other_of to_move)) }
{
    let size = position.size();
    for cell in each_cell(game.carrier.meet(position.empties()), size) {
        let next = position.with(to_move, cell);
        let later = number_after(game, position, number, to_move, cell);
        if secures(game, table, &next, later, to_move.other()) == wanted {
            return true;
        }
    }
    false
}

/// The number of a filling after a move to a free cell, whose digit was 0.
fn number_after(
    game: &LocalGame,
    position: &Position,
    number: usize,
    to_move: Colour,
    cell: Cell,
) -> usize
    requires filling { IsFilling game.now.start game.now.carrier position.now }
    requires number { number ≡ number_of game.now.player game.now.carrier position.now }
    requires free { IsFree (has game.now.carrier) position.now cell }
    ensures { result ≡ number_of game.now.player game.now.carrier (put position.now to_move cell) }
{
    let once = game.weight(cell);
    if game.is_player(to_move) {
        number + once
    } else {
        let twice = 2 * once;
        number + twice
    }
}

/// Whether the two vertices are joined in a filling.
fn joins(game: &LocalGame, position: &Position) -> bool
    requires vertices { HasVertices game.now }
    requires filling { IsFilling game.now.start game.now.carrier position.now }
    ensures { IsTrue result ↔ IsJoined game.now.player game.now.a game.now.b position.now }
{
    joined_in(
        &game.groups,
        game.carrier,
        position,
        game.player,
        game.a,
        game.b,
    )
}
