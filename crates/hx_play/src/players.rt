//! Playing by a valid tree of plain nodes, for its winner.
//!
//! The player follows the tree as long as its nodes say which move to make, and then moves in links. Whenever it is
//! asked, the winner wins from the board that it has, so there is a move to answer with, and no game ends without a
//! chain.

ghost use Rattle.std.specs.Prelude.{◌≡◌, ◌↔◌, IsTrue, IsNone, IfOk, IfSome, IfNone};
ghost use Rattle.hx_board.specs.Colours.{other_of};
ghost use Rattle.hx_board.specs.Game.{Wins};
ghost use Rattle.hx_board.specs.Graph.{HasChain};
ghost use Rattle.hx_board.specs.Positions.{IsEmpty, put};
ghost use Rattle.hx_tree.specs.declared.nodes.Node.{Node as TreeNode};
ghost use Rattle.hx_tree.specs.Trees.{IsValidTree, IsRoot};
ghost use Rattle.hx_tree.specs.Plain.{ArePlain};
ghost use Rattle.hx_play.specs.Games.{Game, game_of, NeedsNoMove, PlaysMove};

use crate::stands::{Stage, Stand, move_at_node, reply};
use hx_board::{Cell, Colour, Memory, Position, chain};
use hx_tree::{MOST_STEPS, Node};
use std::alloc::Global;
use std::marker::Model;

/// A player of one tree, on the side of the tree's winner. Contracts see it as the game that it plays.
#[derive(Debug, Drop)]
pub struct Player {
    nodes: Vec<Node>,
    stand: Stand,
}

impl Model for Player {
    ghost use Rattle.hx_play.specs.Games.{Game};
    ghost use Rattle.hx_play.specs.Standings.{StandsAt};

    ghost Value = { Game };

    ghost view = { λ p. record {
      position = p.stand.position;
      winner = p.stand.winner;
      to_move = p.stand.to_move;
    } };

    ghost invariant = { λ p. StandsAt p.nodes.items p.stand };
}

impl Player {
    /// A player at the root of a tree, whose nodes all tell what to play (`plain` of hx_tree). It takes all the memory
    /// that play needs, so no later call can want any.
    pub fn new(alloc: Global, nodes: Vec<Node>) -> Result<Player, Memory>
        requires valid { IsValidTree nodes.items }
        requires plain { ArePlain nodes.items }
        ensures root { IfOk result (λ player. (root : TreeNode) → IsRoot nodes.items root
            → player ≡ game_of root.heading) }
    {
        let Some(root) = nodes.last() else {
            unreachable!()
        };
        let heading = root.heading;
        let place = nodes.len() - 1;
        let Ok(links) = Vec::with_capacity(alloc, MOST_STEPS) else {
            return Err(Memory);
        };
        let Ok(marks) = vec![in alloc; false; MOST_STEPS] else {
            return Err(Memory);
        };
        Ok(Player {
            nodes,
            stand: Stand {
                position: heading.position,
                winner: heading.winner,
                to_move: heading.to_move,
                node: place,
                stage: Stage::AtNode,
                links,
                marks,
            },
        })
    }

    /// The board.
    pub fn position(&self) -> &Position
        ensures { result.now ≡ self.now.position }
    {
        &self.stand.position
    }

    /// Whom the tree names, and for whom it moves. At any time this one wins from the board.
    pub fn winner(&self) -> Colour
        ensures named { result ≡ self.now.winner }
        ensures wins { Wins self.now.winner self.now.position self.now.to_move }
    {
        self.stand.winner
    }

    /// Whether the winner has a chain, which ends the game.
    pub fn done(&self) -> bool
        ensures { IsTrue result ↔ HasChain self.now.position self.now.winner }
    {
        chain(&self.stand.position, self.stand.winner)
    }

    /// Makes the game's first move where the winner is to move at the root. None where there is none to make: the
    /// opponent is to move, as after each call of `first` and `answer`, or the winner has a chain.
    pub fn first(&mut self) -> Option<Cell>
        ensures none { IsNone result ↔ NeedsNoMove self.old }
        ensures same { IfNone result (self.new ≡ self.old) }
        ensures plays { IfSome result (PlaysMove self.old.winner self.old.position self.new) }
    {
        if self.stand.to_move != self.stand.winner || self.done() {
            return None;
        }
        move_at_node(self.nodes.as_slice(), &mut self.stand)
    }

    /// Puts the opponent's stone on an empty cell, and answers it by a move of the winner's.
    pub fn answer(&mut self, cell: Cell) -> Cell
        requires going { ¬ HasChain self.old.position self.old.winner }
        requires turn { self.old.to_move ≡ other_of self.old.winner }
        requires empty { IsEmpty self.old.position cell }
        ensures { PlaysMove self.old.winner
            (put self.old.position (other_of self.old.winner) cell) self.new result }
    {
        match reply(self.nodes.as_slice(), &mut self.stand, cell) {
            Some(answer) => answer,
            None => unreachable!(),
        }
    }
}
