//! What the table of the counts is told once, and what a seat knows of it. Of a view no value is made: views stand in
//! the rule of the table and in contracts.

use crate::events::CountEvent;
use std::collections::LinkedList;

/// The bounds that a table of counts is made with.
#[derive(Clone, Copy)]
pub struct Limits {
    /// How many units there are.
    pub budget: u64,

    /// How many loss words there are.
    pub words: u32,

    /// How many workers there are, and so seats.
    pub workers: u32,
}

/// A worker's part in the counts: which worker it is, and the history as far as it has seen it.
pub struct Part {
    pub limits: Limits,
    pub worker: u32,
    pub seen: LinkedList<CountEvent>,
}

/// The parts of a seat: one, but while seats are dealt out at the start and gathered at the end.
pub struct View {
    pub parts: LinkedList<Part>,
}
