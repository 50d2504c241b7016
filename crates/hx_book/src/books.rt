//! A book of proofs.
//!
//! The nodes stand in the order in which they came. So that a position is found fast, each node has a bucket, computed
//! from its position and mover, and a second one, from its winner's stones and mover; the entries of a bucket are
//! chained. What `find` answers does not depend on the buckets, nor does whether `find_wider` answers. All memory is
//! taken at the start, but for what `into_tree` takes.
//!
//! A full book with as many slots as buckets has the longest chains: a hit visits 1.5 entries and a miss 1, as numbers
//! as good as random give them. An entry takes 112 bytes besides the lists of its rule: 96 for the node in little room,
//! and in each of the two sets of chains 4 for its link and 4 for a bucket; with twice as many buckets 120.

ghost use Rattle.std.specs.Prelude.{◌≡◌, ◌≢◌, ◌<◌, ◌≤◌, ◌↔◌, IsTrue, false, [], length, IfOk};
ghost use Rattle.hx_tree.specs.Rules.{IsRightNode};
ghost use Rattle.hx_tree.specs.Trees.{headings_of, IsValidTree};
ghost use Rattle.hx_tree.specs.Entries.{FindsFirst};
ghost use Rattle.hx_tree.specs.Plain.{ArePlain};
ghost use Rattle.hx_book.specs.Entries.{contents, IsBook};
ghost use Rattle.hx_book.specs.WiderEntry.{FindsWider};
ghost use Rattle.hx_book.specs.Puts.{Puts};
ghost use Rattle.hx_book.specs.Trees.{IsTreeOf};

use crate::buckets::{bucket, stones_bucket};
use crate::chains::Chains;
use crate::refusals::NoSlot;
use crate::trees::tree_of;
use crate::wider::{Wider, is_wider};
use hx_board::{Colour, Memory, Position};
use hx_packed::{Entry, Offer};
use hx_tree::{Found, Heading, Node};
use std::alloc::Global;
use std::marker::Model;

/// The most slots of a book.
pub const MOST_SLOTS: u32 = 1048576;

/// The most buckets of a book.
pub const MOST_BUCKETS: u32 = 2097152;

/// Nodes, each right after those before it, and no two of one position and mover. A node keeps its index for as long as
/// the book lasts.
#[derive(Drop)]
pub struct Book {
    nodes: Vec<Entry>,

    /// The entries, chained by their position and mover.
    by_position: Chains,

    /// The entries, chained by their winner's stones and mover.
    by_stones: Chains,
    slots: u32,
}

impl Model for Book {
    ghost use Rattle.std.specs.Prelude.{vec_capacity};
    ghost use Rattle.hx_book.specs.Entries.{Contents};

    ghost Value = { Contents };

    ghost use Rattle.hx_book.specs.Entries.{contents};
    ghost use Rattle.hx_book.specs.Buckets.{FieldsKeep};

    ghost view = { λ b. contents b.slots b.nodes.items };

    ghost invariant = { λ b. FieldsKeep b.slots b.nodes.items b.by_position b.by_stones
        (vec_capacity b.nodes) };
}

impl Book {
    /// An empty book that has room for so many nodes.
    pub fn with_slots(alloc: Global, slots: u32) -> Result<Book, Memory>
        requires { slots ≤ MOST_SLOTS }
        ensures { IfOk result (λ book. book ≡ contents slots []) }
    {
        Book::with_buckets(alloc, slots, slots.next_power_of_two())
    }

    /// The same, with a number of buckets of the caller's choice, from 1 to 2,097,152, by position and as many by
    /// stones. More buckets make shorter chains.
    pub fn with_buckets(alloc: Global, slots: u32, buckets: u32) -> Result<Book, Memory>
        requires slots { slots ≤ MOST_SLOTS }
        requires some { 0 < buckets }
        requires few { buckets ≤ MOST_BUCKETS }
        ensures { IfOk result (λ book. book ≡ contents slots []) }
    {
        let Ok(nodes) = Vec::with_capacity(alloc, slots as usize) else {
            return Err(Memory);
        };
        let by_position = Chains::with_buckets(alloc, slots, buckets)?;
        let by_stones = Chains::with_buckets(alloc, slots, buckets)?;
        Ok(Book {
            nodes,
            by_position,
            by_stones,
            slots,
        })
    }

    /// How many nodes are held.
    pub fn held(&self) -> u32
        ensures { result ≡ length self.now.nodes }
    {
        self.nodes.len() as u32
    }

    /// How many nodes it has room for.
    pub fn slots(&self) -> u32
        ensures { result ≡ self.now.slots }
    {
        self.slots
    }

    /// What is true of every book, and that its nodes, if there are any, are a valid tree. The call does nothing.
    pub fn keeps(&self)
        ensures book { IsBook self.now }
        ensures tree { self.now.nodes ≢ [] → IsValidTree self.now.nodes }
    {
        // To read a field brings the type's invariant to the proof.
        let _slots = self.slots;
    }

    /// The entry of a position and mover, which is the first and only one. None exactly where there is none.
    pub fn find(&self, position: &Position, to_move: Colour) -> Option<Found>
        ensures { FindsFirst self.now.nodes position.now to_move result }
    {
        let number = bucket(self.by_position.buckets(), position, to_move);
        let mut link = self.by_position.newest(number);
        while link != 0 {
            let index = link - 1;
            let heading = self.nodes[index as usize].heading();
            if is_of(heading, position, to_move) {
                let winner = heading.winner;
                return Some(Found { index, winner });
            }
            link = self.by_position.older(index);
        }
        None
    }

    /// An entry of this mover and winner that serves the position: its winner has the same stones, and the opponent's
    /// stones of the position are all in the entry's. None exactly where there is no such entry.
    pub fn find_wider(&self, position: &Position, to_move: Colour, winner: Colour) -> Option<Wider>
        ensures { FindsWider false self.now.nodes position.now to_move winner result }
    {
        let number = stones_bucket(self.by_stones.buckets(), position, to_move, winner);
        let mut link = self.by_stones.newest(number);
        while link != 0 {
            let index = link - 1;
            let heading = self.nodes[index as usize].heading();
            if is_wider(heading, position, to_move, winner) {
                let position = heading.position;
                let found = Found { index, winner };
                return Some(Wider { found, position });
            }
            link = self.by_stones.older(index);
        }
        None
    }

    /// Puts in a node that is right after those that are held. Its index, or that of the entry which its position and
    /// mover have already: then nothing changes. The node comes back exactly where there is no such entry and each slot
    /// is taken.
    pub fn put(&mut self, offer: Offer) -> Result<u32, NoSlot>
        requires { IsRightNode (headings_of self.old.nodes) offer }
        ensures slots { self.new.slots ≡ self.old.slots }
        ensures nodes { Puts self.old.slots self.old.nodes offer result self.new.nodes }
    {
        let heading = *offer.heading();
        if let Some(found) = self.find(&heading.position, heading.to_move) {
            return Ok(found.index);
        }
        let held = self.nodes.len() as u32;
        if held == self.slots {
            return Err(NoSlot::new(held, offer));
        }
        let place = bucket(
            self.by_position.buckets(),
            &heading.position,
            heading.to_move,
        );
        self.by_position.add(place);
        let stones = stones_bucket(
            self.by_stones.buckets(),
            &heading.position,
            heading.to_move,
            heading.winner,
        );
        self.by_stones.add(stones);
        self.nodes.push_reserved(offer.into_entry());
        Ok(held)
    }

    /// The entries of all nodes, in their order.
    pub fn into_entries(self) -> Vec<Entry>
        ensures { result.items ≡ self.nodes }
    {
        self.nodes
    }

    /// The tree of an entry: the nodes that it needs, in their order, with new numbers for their children. Where all
    /// nodes of the book are plain those of the tree are.
    pub fn into_tree(self, index: u32) -> Result<Vec<Node>, Memory>
        requires { index < length self.nodes }
        ensures tree { IfOk result (λ tree. IsTreeOf self.nodes index tree.items) }
        ensures plain { ArePlain self.nodes → IfOk result (λ tree. ArePlain tree.items) }
    {
        let alloc = *self.nodes.allocator();
        tree_of(alloc, self.nodes, index)
    }
}

/// Whether a heading has this position and mover.
fn is_of(heading: &Heading, position: &Position, to_move: Colour) -> bool
    ensures { IsTrue result
        ↔ (heading.now.position ≡ position.now) × (heading.now.to_move ≡ to_move) }
{
    heading.position == *position && heading.to_move == to_move
}
