//! What the table of a shared book is told once, and what a seat knows of it. Of a view no value is made: views stand
//! in the rule of the table and in contracts.

use hx_tree::Node;
use std::collections::LinkedList;

/// The bounds that a shared book is made with.
#[derive(Clone, Copy)]
pub struct Limits {
    /// How many nodes there is room for.
    pub slots: u32,

    /// How many seats there are.
    pub seats: u32,
}

/// What a part of a view is.
pub enum Role {
    /// A note of what a seat has seen.
    Note,

    /// A seat that does not have the book.
    Waiting,

    /// The seat that has the book.
    Acting,
}

/// A part in the shared book: what it is, and the nodes that it has seen.
pub struct Part {
    /// How many nodes there is room for.
    pub slots: u32,
    pub role: Role,
    pub seen: LinkedList<Node>,
}

/// The parts of a seat: one, but while seats are dealt out at the start and gathered at the end, and while a seat
/// learns.
pub struct View {
    pub parts: LinkedList<Part>,
}
