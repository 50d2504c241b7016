//! A node's first line, which tells its position, its mover, its winner, how its rule begins and how many entries
//! follow.

ghost use Rattle.std.specs.Prelude.{◌≡◌};
ghost use Rattle.hx_text.specs.Entries.{steps_told, threats_told, answers_told, fills_told};

use hx_board::Cell;
use hx_tree::Heading;

/// How a rule begins: what a node's first line tells of it.
#[derive(Clone, Copy, PartialEq, Eq, Debug)]
pub enum Opening {
    Chain,
    /// So many steps follow.
    Links {
        steps: u32,
    },
    Move {
        cell: Cell,
        child: u32,
    },
    /// So many steps, then threats, then answers follow.
    All {
        steps: u32,
        threats: u32,
        lines: u32,
    },
    /// So many fill steps follow.
    Fill {
        fills: u32,
        child: u32,
    },
    Turned {
        child: u32,
    },
}

impl Opening {
    /// How many steps follow.
    pub fn steps(&self) -> u32
        ensures { result ≡ steps_told self.now }
    {
        match self {
            Opening::Links { steps } | Opening::All { steps, .. } => *steps,
            _ => 0,
        }
    }

    /// How many threats follow them.
    pub fn threats(&self) -> u32
        ensures { result ≡ threats_told self.now }
    {
        match self {
            Opening::All { threats, .. } => *threats,
            _ => 0,
        }
    }

    /// How many answers follow those.
    pub fn answers(&self) -> u32
        ensures { result ≡ answers_told self.now }
    {
        match self {
            Opening::All { lines, .. } => *lines,
            _ => 0,
        }
    }

    /// How many fill steps follow, where they are all that follows.
    pub fn fills(&self) -> u32
        ensures { result ≡ fills_told self.now }
    {
        match self {
            Opening::Fill { fills, .. } => *fills,
            _ => 0,
        }
    }
}

/// The first line of a node.
#[derive(Clone, Copy, PartialEq, Eq, Debug)]
pub struct Head {
    pub heading: Heading,
    pub opening: Opening,
}
