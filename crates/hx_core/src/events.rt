//! What workers ask of the machine, and what it answers.

use hx_board::{Colour, Position};
use hx_tree::{Found, Node};

/// What a worker does. Workers go by their numbers, from 0 on, and so do loss words.
#[derive(PartialEq, Eq, Debug, Drop)]
pub enum Event {
    /// The worker looks for the proof of a position and mover.
    Look {
        worker: u32,
        position: Position,
        to_move: Colour,
    },

    /// The worker stores a node that is right after those that it has seen.
    Store {
        worker: u32,
        node: Node,
    },

    /// One worker tells another what it has seen.
    Tell {
        from: u32,
        to: u32,
    },

    /// The worker asks for a unit of the budget.
    Spend {
        worker: u32,
    },

    /// The worker holds a loss word once more. It holds fewer than `MOST_HELD` in all before.
    Hold {
        worker: u32,
        word: u32,
    },

    /// The worker holds a loss word, which it holds, once less.
    Release {
        worker: u32,
        word: u32,
    },

    /// The worker asks how often all workers together hold a loss word.
    LookAtWord {
        worker: u32,
        word: u32,
    },
}

/// What a worker is answered.
#[derive(Clone, Copy, PartialEq, Eq, Debug)]
pub enum Reply {
    /// To a look: the first entry of the position and mover, if there is one.
    Looked(Option<Found>),

    /// To a store: the index of the first entry of the node's position and mover, which may be the node.
    Stored(u32),

    /// To a store: there is no such entry, and each slot is taken; how many that are.
    NoSlot(u32),

    /// The other worker was told.
    Told,

    /// To a spend: a unit was granted.
    Granted,

    /// To a spend: each unit was granted before; how many that are.
    Spent(u64),

    /// The word is held once more.
    Held,

    /// The word is held once less.
    Released,

    /// How often all workers together hold the word.
    Losses(u64),
}
