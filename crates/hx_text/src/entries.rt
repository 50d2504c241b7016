//! The entries of a node: its lines after the first, each a step, a threat, an answer to a move of the opponent, or a
//! fill step. How many of each kind there are, and so which kind is due at which place, the node's first line says.

use hx_inferior::FillStep;
use hx_link::Step;
use hx_tree::Line;

/// What an entry says.
#[derive(Clone, Copy, PartialEq, Eq, Debug)]
pub enum EntryKind {
    Step,
    Threat,
    Answer,
    Fill,
}

/// A line of a node after its first.
#[derive(PartialEq, Eq, Debug, Drop)]
pub enum Entry {
    Step(Step),
    /// The place of a threat among the steps.
    Threat(u32),
    Answer(Line),
    Fill(FillStep),
}
