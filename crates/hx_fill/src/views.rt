//! A position as one player sees it: what is joined in the player's graph, there or after one stone more.
//!
//! A stone of the opponent's on an empty cell changes nothing of that. An own stone joins all that was joined with its
//! cell, and changes nothing else. So after a stone more no group is flooded again.

ghost use Rattle.std.specs.Prelude.{◌≡◌, ◌≢◌};
ghost use Rattle.hx_board.specs.Positions.{IsEmpty, put};
ghost use Rattle.hx_board.specs.Graph.{IsVertex, Joined};
ghost use Rattle.hx_board.specs.VertexSets.{IsSetOf};

use hx_board::{Cell, Colour, Groups, Position, Vertex, VertexSet};
use std::marker::Model;

/// A position and a player. Contracts see it as these two.
#[derive(Drop)]
pub(crate) struct View<'a> {
    position: Position,
    colour: Colour,

    /// The player's groups on the position, or on that before the last stone.
    groups: &'a Groups,

    /// Where a stone of the player's was put after the groups were found.
    stone: Option<Cell>,

    /// What that stone's cell was joined with before.
    joint: VertexSet,
}

impl<'a> Model for View<'a> {
    ghost use Rattle.hx_board.specs.Graph.{Grouped};
    ghost use Rattle.hx_fill.specs.Views.{TellsJoined};

    ghost Value = { Grouped };

    ghost view = { λ v. record { board = v.position; player = v.colour } };

    ghost invariant = { λ v. TellsJoined v.groups.now v.position v.colour v.stone v.joint };
}

impl<'a> View<'a> {
    /// The position with these groups.
    pub(crate) fn of(position: &Position, colour: Colour, groups: &'a Groups) -> View<'a>
        requires { groups.now ≡ record { board = position.now; player = colour } }
        ensures { result ≡ record { board = position.now; player = colour } }
    {
        View {
            position: *position,
            colour,
            groups,
            stone: None,
            joint: VertexSet::empty(),
        }
    }

    /// The position after a stone of either player on an empty cell, with the groups before it.
    pub(crate) fn after(
        position: &Position,
        colour: Colour,
        groups: &'a Groups,
        who: Colour,
        cell: Cell,
    ) -> View<'a>
        requires groups { groups.now ≡ record { board = position.now; player = colour } }
        requires empty { IsEmpty position.now cell }
        ensures { result ≡ record { board = put position.now who cell; player = colour } }
    {
        let joint = groups.joined_with(Vertex::Of(cell));
        View {
            position: position.with(who, cell),
            colour,
            groups,
            stone: own_stone(colour, who, cell),
            joint,
        }
    }

    pub(crate) fn position(&self) -> &Position
        ensures { result.now ≡ self.now.board }
    {
        &self.position
    }

    pub(crate) fn colour(&self) -> Colour
        ensures { result ≡ self.now.player }
    {
        self.colour
    }

    /// All that a vertex is joined with.
    pub(crate) fn joined_with(&self, vertex: Vertex) -> VertexSet
        requires { IsVertex self.now.board.size vertex }
        ensures { IsSetOf self.now.board.size
            (Joined self.now.board self.now.player vertex) result }
    {
        let joined = self.groups.joined_with(vertex);
        match self.stone {
            None => joined,
            Some(cell) => {
                let is_joined = joined.has(Vertex::Of(cell));
                if is_joined {
                    joined.union(self.joint)
                } else {
                    joined
                }
            }
        }
    }
}

/// The cell of a stone, where it is the player's.
fn own_stone(colour: Colour, who: Colour, cell: Cell) -> Option<Cell>
    ensures own { who ≡ colour → result ≡ Some cell }
    ensures others { who ≢ colour → result ≡ None }
{
    if who == colour { Some(cell) } else { None }
}
