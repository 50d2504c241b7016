//! A book of plain nodes. Its trees tell what to play, since no node of them leads on by fill steps or by a turned
//! position, and each move of the opponent has an answer.

ghost use Rattle.std.specs.Prelude.{◌≡◌, ◌<◌, ◌≤◌, ◌↔◌, IsTrue, true, [], length, IfOk};
ghost use Rattle.hx_tree.specs.Plain.{IsPlain, ArePlain};
ghost use Rattle.hx_tree.specs.Rules.{IsRightNode};
ghost use Rattle.hx_tree.specs.Trees.{headings_of};
ghost use Rattle.hx_book.specs.Entries.{contents, IsBook};
ghost use Rattle.hx_book.specs.Trees.{IsTreeOf};

use crate::books::{Book, MOST_SLOTS};
use crate::growing::Proofs;
use crate::refusals::NoSlot;
use crate::wider::Wider;
use hx_board::{Colour, Memory, Position};
use hx_packed::{Entry, Offer};
use hx_tree::{Found, Node};
use std::alloc::Global;
use std::marker::Model;
use std::sync::Wait;

/// A book whose nodes are all plain.
#[derive(Drop)]
pub struct PlainBook {
    book: Book,
}

impl Model for PlainBook {
    ghost use Rattle.hx_book.specs.Entries.{Contents};
    ghost use Rattle.hx_tree.specs.Plain.{ArePlain};

    ghost Value = { Contents };

    ghost view = { λ b. b.book };

    ghost invariant = { λ b. ArePlain b.book.nodes };
}

impl PlainBook {
    /// An empty book that has room for so many nodes.
    pub fn with_slots(alloc: Global, slots: u32) -> Result<PlainBook, Memory>
        requires { slots ≤ MOST_SLOTS }
        ensures { IfOk result (λ book. book ≡ contents slots []) }
    {
        let book = Book::with_slots(alloc, slots)?;
        Ok(PlainBook { book })
    }

    /// What is true of every plain book. The call does nothing.
    pub fn keeps(&self)
        ensures book { IsBook self.now }
        ensures plain { ArePlain self.now.nodes }
    {
        self.book.keeps();
    }

    /// The entries of all nodes, in their order.
    pub fn into_entries(self) -> Vec<Entry>
        ensures { result.items ≡ self.nodes }
    {
        self.book.into_entries()
    }

    /// The tree of an entry: the nodes that it needs, in their order, with new numbers for their children. Each of them
    /// is plain.
    pub fn into_tree(self, index: u32) -> Result<Vec<Node>, Memory>
        requires { index < length self.nodes }
        ensures tree { IfOk result (λ tree. IsTreeOf self.nodes index tree.items) }
        ensures plain { IfOk result (λ tree. ArePlain tree.items) }
    {
        self.book.into_tree(index)
    }
}

impl Proofs for PlainBook {
    ghost use Rattle.std.specs.Prelude.{None, true};

    ghost is_plain = { true };

    ghost sight = { λ b. record { list = b.nodes; slots = b.slots; over = None } };

    fn plain(&self) -> bool {
        true
    }

    fn keeps(&self) {
        // To read the field brings the type's invariant to the proof.
        let _book = &self.book;
    }

    fn look<R: Wait>(&mut self, _rt: &R, position: &Position, to_move: Colour) -> Option<Found> {
        self.book.find(position, to_move)
    }

    fn look_wider<R: Wait>(
        &mut self,
        _rt: &R,
        position: &Position,
        to_move: Colour,
        winner: Colour,
    ) -> Option<Wider> {
        // The proof takes from here that a position and mover have one entry alone.
        self.book.keeps();
        let Some(found) = self.book.find(position, to_move) else {
            return None;
        };
        if found.winner != winner {
            return None;
        }
        let position = *position;
        Some(Wider { found, position })
    }

    fn store<R: Wait>(&mut self, _rt: &R, offer: Offer) -> Result<u32, NoSlot> {
        self.book.put(offer)
    }
}
