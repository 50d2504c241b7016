//! The nodes of a strategy tree. Each says who wins a position, and by which rule. A tree is a list of nodes, in which
//! a node names its children by their places before it. The lines that answer the opponent's moves are part of a node,
//! and so is their list.
//!
//! Hayward, van Rijswijck, Arneson and Henderson call the cells that all threats share the mustplay region: only a move
//! there has a line, and without a threat each move has one.

ghost use Rattle.std.specs.Prelude.{◌≡◌};
ghost use Rattle.std.specs.Cmp.Lexicographic.{pointwise, lists_per, lists_equiv};
ghost use Rattle.hx_tree.specs.Answers.{cell_of};
ghost use Rattle.hx_tree.specs.contracts.nodes.LinePartialEq.TheImpl.Laws.{laws-law as line_per};
ghost use Rattle.hx_tree.specs.contracts.nodes.LineEq.TheImpl.Laws.{laws-law as line_equiv};

use crate::lists::{FillSteps, Threats};
use hx_board::{Cell, Colour, Position};
use hx_inferior::Kill;
use hx_link::Steps;
use std::marker::Model;

/// What a node says: in this position, with this player to move, this player wins.
#[derive(Clone, Copy, PartialEq, Eq, Debug)]
pub struct Heading {
    pub position: Position,
    pub to_move: Colour,
    pub winner: Colour,
}

/// Why the winner wins. A child is an earlier node of the tree, named by its place.
#[derive(PartialEq, Eq, Debug, Drop)]
pub enum Rule {
    /// The winner has a chain.
    Chain,

    /// The steps make links of the winner's, and the last one joins the two sides, by itself or with the winner's move.
    Links {
        steps: Steps,
    },

    /// The winner moves to the cell, and then wins by the child.
    Move {
        cell: Cell,
        child: u32,
    },

    /// The opponent is to move. The threats are places of links that join the winner's two sides: a move that leaves
    /// one whole loses. Each other move has a line, which says why the winner wins after it.
    All {
        steps: Steps,
        threats: Threats,
        lines: Lines,
    },

    /// The steps fill cells, one after the other, and then the winner wins by the child, with the same player to move.
    Fill {
        steps: FillSteps,
        child: u32,
    },

    /// The winner wins the position turned by 180 degrees by the child, with the same player to move.
    Turned {
        child: u32,
    },
}

/// Why the winner wins after the opponent's move to the cell.
#[derive(Clone, Copy, PartialEq, Eq, Debug)]
pub enum Line {
    /// By the child, an earlier node of the tree.
    Child {
        cell: Cell,
        child: u32,
    },

    /// The better cell dominates it, in the way of the kill, and has a Child line or leaves a threat whole.
    Under {
        cell: Cell,
        better: Cell,
        kill: Kill,
    },
}

impl Line {
    /// The cell that the opponent moves to.
    pub fn cell(&self) -> Cell
        ensures { result ≡ cell_of self.now }
    {
        match self {
            Line::Child { cell, .. } | Line::Under { cell, .. } => *cell,
        }
    }
}

/// The lines of a node, in the order in which they are given.
#[derive(Debug, Drop)]
pub struct Lines {
    items: Vec<Line>,
}

impl Model for Lines {
    ghost use Rattle.std.specs.Prelude.{List};
    ghost use Rattle.hx_tree.specs.declared.nodes.Line.{Line};

    ghost Value = { List Line };

    ghost view = { λ l. l.items.items };
}

impl Lines {
    /// The list of these lines.
    pub fn new(items: Vec<Line>) -> Lines
        ensures { result ≡ items.items }
    {
        Lines { items }
    }

    /// The lines, in their order.
    pub fn items(&self) -> &[Line]
        ensures { result.now ≡ self.now }
    {
        self.items.as_slice()
    }

    /// The vector of the lines.
    pub fn into_inner(self) -> Vec<Line>
        ensures { result.items ≡ self }
    {
        self.items
    }
}

impl PartialEq for Lines {
    ghost eq = { pointwise ⟦<Line as PartialEq>⟧.eq };

    ghost laws = { lists_per line_per };

    fn eq(&self, other: &Lines) -> bool {
        self.items() == other.items()
    }
}

impl Eq for Lines {
    ghost laws = { lists_equiv line_equiv };
}

/// A node of a strategy tree.
#[derive(PartialEq, Eq, Debug, Drop)]
pub struct Node {
    pub heading: Heading,
    pub rule: Rule,
}
