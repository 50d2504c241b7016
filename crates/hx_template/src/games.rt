//! A local game, and the number of each position that it can come to.
//!
//! Play fills the cells of the carrier: each is empty, or has a stone of the player or of the opponent. So such a
//! position, a **filling**, has a number in base three, in which each cell of the carrier is a digit, the first cell
//! the lowest. It is the place at which a search keeps what it found, so no position is looked for, and none is
//! compared.

ghost use Rattle.std.specs.Prelude.{◌≡◌, ℕ, ◌+◌, ◌^◌, ◌<◌, ◌≤◌, ◌↔◌, IsTrue, true, slice_index};
ghost use Rattle.hx_board.specs.Cells.{OnBoard};
ghost use Rattle.hx_board.specs.Sets.{has, count_below};
ghost use Rattle.hx_template.specs.Limits.{most_cells};

use hx_board::{CELLS, Cell, Colour, Groups, Mask, Position, Vertex};

/// How many cells the carrier of a local game may have. There are 3^12 fillings of so many, which a table holds in 1.6
/// MB.
pub const MOST_CELLS: u32 = 12;

/// A player wants two vertices joined by moves to the cells of a carrier.
#[derive(Drop)]
pub(crate) struct LocalGame {
    /// The position on which play begins.
    pub start: Position,

    /// Who wants the two vertices joined.
    pub player: Colour,
    pub a: Vertex,
    pub b: Vertex,

    /// The cells that are played on.
    pub carrier: Mask,

    /// What is joined at the start.
    pub groups: Groups,

    /// What the digit of each cell counts. The cells of the carrier are not listed, so no place in a list has to be
    /// shown.
    weights: [usize; CELLS],

    /// How many fillings there are.
    fillings: usize,
    ghost grouped: { groups ≡ record { board = start; player = player } },
    ghost inside: { (n : ℕ) → has carrier n ≡ true → n < 121 },
    ghost few: { count_below 128 carrier ≤ most_cells },
    ghost powers: { (n : ℕ) → n < 121 → slice_index weights n ≡ 3 ^ count_below n carrier },
    ghost all: { fillings ≡ 3 ^ count_below 121 carrier },
}

impl LocalGame {
    /// The game that begins on a position. It takes no memory.
    pub(crate) fn new(
        position: &Position,
        player: Colour,
        a: Vertex,
        b: Vertex,
        carrier: Mask,
    ) -> LocalGame
        requires inside { (n : ℕ) → has carrier n ≡ true → OnBoard position.now.size n }
        requires few { count_below 128 carrier ≤ most_cells }
        ensures start { result.start ≡ position.now }
        ensures player { result.player ≡ player }
        ensures a { result.a ≡ a }
        ensures b { result.b ≡ b }
        ensures carrier { result.carrier ≡ carrier }
    {
        // The proof takes from here that the cells of the board are below 121.
        let _size = position.size();
        let mut weights = [0; CELLS];
        let mut fillings = 1;
        for index in 0..CELLS {
            weights[index] = fillings;
            fillings = next_weight(carrier, index, fillings);
        }
        let groups = Groups::of(position, player);
        LocalGame {
            start: *position,
            player,
            a,
            b,
            carrier,
            groups,
            weights,
            fillings,
        }
    }

    /// Whether this is the player of the game.
    pub(crate) fn is_player(&self, mover: Colour) -> bool
        ensures { IsTrue result ↔ (mover ≡ self.now.player) }
    {
        mover == self.player
    }

    /// How many fillings there are.
    pub(crate) fn fillings(&self) -> usize
        ensures { result ≡ 3 ^ count_below 121 self.now.carrier }
    {
        self.fillings
    }

    /// What the digit of a cell counts.
    pub(crate) fn weight(&self, cell: Cell) -> usize
        ensures { result ≡ 3 ^ count_below cell self.now.carrier }
    {
        self.weights[cell.index() as usize]
    }
}

/// What the digit of the next cell counts, where that of this one counts so much: as many as there are fillings of the
/// cells before it.
fn next_weight(carrier: Mask, index: usize, weight: usize) -> usize
    requires few { count_below 128 carrier ≤ most_cells }
    requires small { index < 121 }
    requires weight { weight ≡ 3 ^ count_below index carrier }
    ensures { result ≡ 3 ^ count_below (index + 1) carrier }
{
    if holds(carrier, index) {
        weight * 3
    } else {
        weight
    }
}

/// Whether a number is in a set.
fn holds(set: Mask, index: usize) -> bool
    requires { index < 121 }
    ensures { result ≡ has set index }
{
    (set.bits() >> index) & 1 == 1
}
