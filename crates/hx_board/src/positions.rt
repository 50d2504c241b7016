//! Positions: a board of some size and the stones on it.
//!
//! A position does not say who is to move, nor how its stones came: it may have any number of each colour.

ghost use Rattle.std.specs.Prelude.{◌≡◌, ℕ, ◌≤◌, ◌↔◌, SomeIff, IsTrue, true};
ghost use Rattle.hx_board.specs.Sets.{has};
ghost use Rattle.hx_board.specs.Positions.{IsPosition, IsBoard, IsEmpty, IsHeld, Board, stones_of, stone_at, put, lifted};
ghost use Rattle.hx_board.specs.Counts.{empty_count};
ghost use Rattle.hx_board.specs.Graph.{IsOwn};

use crate::cells::{CELLS, Cell};
use crate::colours::Colour;
use crate::masks::Mask;
use crate::sizes::Size;
use crate::vertices::Vertex;
use std::marker::Model;

/// A board of some size, and the black and the white stones on it. Contracts see it as its size and two sets of cells.
#[derive(Clone, Copy, PartialEq, Eq, Debug)]
pub struct Position {
    size: Size,
    black: Mask,
    white: Mask,
}

impl Model for Position {
    ghost use Rattle.hx_board.specs.Positions.{Board, IsPosition};

    ghost Value = { Board };

    ghost view = { λ p. record { size = p.size; black = p.black; white = p.white } };

    ghost invariant = { λ p. IsPosition p.size p.black p.white };

    ghost inverse = { λ b. record { size = b.size; black = b.black; white = b.white } };
}

impl Position {
    /// The board of this size without a stone.
    pub fn empty(size: Size) -> Position
        ensures { result ≡ record { size = size; black = 0; white = 0 } }
    {
        Position {
            size,
            black: Mask::empty(),
            white: Mask::empty(),
        }
    }

    /// The position with these stones. None exactly where a cell would hold two stones or a stone would stand off
    /// the board.
    pub fn from_masks(size: Size, black: Mask, white: Mask) -> Option<Position>
        ensures { SomeIff result (IsPosition size black white)
            (record { size = size; black = black; white = white }) }
    {
        if !black.meets(white) && black.union(white).inside(size.all()) {
            Some(Position { size, black, white })
        } else {
            None
        }
    }

    /// The size of the board.
    pub fn size(&self) -> Size
        ensures value { result ≡ self.now.size }
        ensures valid { IsBoard self.now }
    {
        let size = self.size;
        // The proof takes from here that the size is one of a board.
        let _rows = size.rows();
        size
    }

    /// The cells that hold a stone of this colour.
    pub fn stones(&self, colour: Colour) -> Mask
        ensures value { result ≡ stones_of self.now colour }
        ensures valid { IsPosition self.now.size self.now.black self.now.white }
    {
        match colour {
            Colour::Black => self.black,
            Colour::White => self.white,
        }
    }

    /// The cells without a stone.
    pub fn empties(&self) -> Mask
        ensures { (cell : ℕ) → (has result cell ≡ true) ↔ IsEmpty self.now cell }
    {
        let held = self.black.union(self.white);
        self.size.all().minus(held)
    }

    /// How many cells have no stone, from 0 to 121.
    pub fn empty_count(&self) -> u32
        ensures value { result ≡ empty_count self.now }
        ensures small { result ≤ CELLS }
    {
        // The proof takes from here that the board is one, which has at most 121 cells.
        let _size = self.size();
        self.empties().count()
    }

    /// The colour of the stone on a cell. None where the cell is empty, and where it lies off the board.
    pub fn at(&self, cell: Cell) -> Option<Colour>
        ensures { result ≡ stone_at self.now cell }
    {
        if self.black.has(cell) {
            Some(Colour::Black)
        } else if self.white.has(cell) {
            Some(Colour::White)
        } else {
            None
        }
    }

    /// Whether a vertex is the player's own: a stone or a side of the player.
    pub fn owns(&self, player: Colour, vertex: &Vertex) -> bool
        ensures { IsTrue result ↔ IsOwn self.now player vertex.now }
    {
        match vertex {
            Vertex::Of(cell) => self.stones(player).has(*cell),
            Vertex::First | Vertex::Last => true,
        }
    }

    /// The position with a stone of this colour more, on an empty cell.
    pub fn with(&self, colour: Colour, cell: Cell) -> Position
        requires { IsEmpty self.now cell }
        ensures { result ≡ put self.now colour cell }
    {
        let mut next = *self;
        next.play(colour, cell);
        next
    }

    /// Puts a stone of this colour on an empty cell. Nothing else changes.
    pub fn play(&mut self, colour: Colour, cell: Cell)
        requires { IsEmpty self.old cell }
        ensures { self.new ≡ put self.old colour cell }
    {
        match colour {
            Colour::Black => self.black = self.black.with(cell),
            Colour::White => self.white = self.white.with(cell),
        }
    }

    /// Takes the stone off a cell that holds one. Nothing else changes, so lifting the stone that was put last gives
    /// the position before it.
    #[tactic(auto, using(crate::proofs::PositionLaws::lifted_back))]
    pub fn lift(&mut self, cell: Cell)
        requires { IsHeld self.old cell }
        ensures value { self.new ≡ lifted self.old cell }
        ensures back { (before : Board) (colour : Colour) → IsEmpty before cell
            → self.old ≡ put before colour cell → self.new ≡ before }
    {
        self.black = self.black.without(cell);
        self.white = self.white.without(cell);
    }
}
