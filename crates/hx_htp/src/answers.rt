//! What a session answers, before it is spelled.

use hx_board::{Cell, Colour, Position};

/// An answer to a request.
#[derive(Clone, Copy, Debug, PartialEq, Eq)]
pub enum Answer {
    /// It was done, and there is nothing to be said.
    Empty,
    /// The version of the protocol.
    Protocol,
    /// The name of the program.
    Program,
    /// The version of the commands.
    Release,
    /// Whether a command is known.
    Known(bool),
    /// The names of all commands.
    Names,
    /// The cell that was played.
    Cell(Cell),
    /// The board as it stands.
    Shown(Position),
    /// The player who wins.
    Winner(Colour),
    /// The winner is not known, since this many units were used up.
    UnknownBudget(u64),
    /// The winner is not known, since this many slots were used up.
    UnknownProofs(u32),
}

/// Why there is no answer.
#[derive(Clone, Copy, Debug, PartialEq, Eq)]
pub enum Refusal {
    /// The words name no command.
    UnknownCommand,
    /// An argument is missing, or not of its form.
    SyntaxError,
    /// No board has so many columns and rows.
    UnacceptableSize,
    /// The cell lies off the board, or has a stone.
    IllegalMove,
    /// No move is left to take away.
    CannotUndo,
    /// No cell is left to play.
    NoEmptyCell,
    /// Memory was wanting.
    OutOfMemory,
}
