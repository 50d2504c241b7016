//! A list of proofs that only grows, over a book of one's own or one that is shared.
//!
//! That a list is plain is a fact of its type: `is_plain` takes no value of the type, so no contract has to say that it
//! stays the same. `plain` has no body in the trait: one that answers false would have to be proved of every type.
//!
//! That the nodes of a plain list are plain is a clause of `keeps`, and no law of the trait. A law would speak of each
//! value that contracts may see of the type, and of a book they see slots and nodes alone, and not what is true of
//! every book.

ghost use Rattle.std.specs.Prelude.{◌≡◌, Bool, true};
ghost use Rattle.hx_tree.specs.Plain.{IsPlain, ArePlain};
ghost use Rattle.hx_tree.specs.Rules.{IsRightNode};
ghost use Rattle.hx_tree.specs.Trees.{headings_of};
ghost use Rattle.hx_tree.specs.Entries.{FindsFirst};
ghost use Rattle.hx_book.specs.Puts.{PutsLater};
ghost use Rattle.hx_book.specs.Sights.{Sight, Grows};
ghost use Rattle.hx_book.specs.WiderEntry.{FindsWider};

use crate::books::Book;
use crate::refusals::NoSlot;
use crate::wider::Wider;
use hx_board::{Colour, Position};
use hx_packed::Offer;
use hx_tree::Found;
use std::sync::Wait;

/// Where proofs are looked for and stored. Others may store theirs in the same place: each call sees a list of nodes
/// that begins with what was seen before.
pub trait Proofs {
    /// Whether the list holds plain nodes alone.
    ghost is_plain: { Bool };

    /// The nodes that were seen, how many there is room for, and the shared object that they are in.
    ghost sight: { Self → Sight };

    /// Whether the list holds plain nodes alone. It does so or not for as long as it lasts.
    fn plain(&self) -> bool
        ensures { result ≡ is_plain };

    /// That a plain list holds plain nodes alone. The call does nothing.
    fn keeps(&self)
        ensures { is_plain ≡ true → ArePlain (sight self.now).list };

    /// The first entry of a position and mover, of the nodes that are now seen. None exactly where there is none.
    fn look<R: Wait>(&mut self, rt: &R, position: &Position, to_move: Colour) -> Option<Found>
        ensures grew { Grows (sight self.old) (sight self.new) }
        ensures found { FindsFirst (sight self.new).list position.now to_move result };

    /// An entry of this mover and winner that serves the position, of the nodes that are now seen: where the list is
    /// plain, the position's own, and else one whose winner has the same stones, and which has all of the opponent's
    /// stones of the position. None exactly where there is none.
    fn look_wider<R: Wait>(
        &mut self,
        rt: &R,
        position: &Position,
        to_move: Colour,
        winner: Colour,
    ) -> Option<Wider>
        ensures grew { Grows (sight self.old) (sight self.new) }
        ensures found { FindsWider is_plain (sight self.new).list
            position.now to_move winner result };

    /// Stores a node that is right after those that were seen, and plain where the list is. The index of the entry of
    /// its position and mover, of the nodes that are now seen. The node comes back exactly where there is no such entry
    /// and each slot is taken.
    fn store<R: Wait>(&mut self, rt: &R, offer: Offer) -> Result<u32, NoSlot>
        requires right { IsRightNode (headings_of (sight self.old).list) offer }
        requires plain { is_plain ≡ true → IsPlain offer }
        ensures grew { Grows (sight self.old) (sight self.new) }
        ensures stored { PutsLater (sight self.new).slots (sight self.old).list offer result
            (sight self.new).list };
}

impl Proofs for Book {
    ghost use Rattle.std.specs.Prelude.{None, false};

    ghost is_plain = { false };

    ghost sight = { λ b. record { list = b.nodes; slots = b.slots; over = None } };

    fn plain(&self) -> bool {
        false
    }

    fn keeps(&self) {}

    fn look<R: Wait>(&mut self, _rt: &R, position: &Position, to_move: Colour) -> Option<Found> {
        self.find(position, to_move)
    }

    fn look_wider<R: Wait>(
        &mut self,
        _rt: &R,
        position: &Position,
        to_move: Colour,
        winner: Colour,
    ) -> Option<Wider> {
        self.find_wider(position, to_move, winner)
    }

    fn store<R: Wait>(&mut self, _rt: &R, offer: Offer) -> Result<u32, NoSlot> {
        self.put(offer)
    }
}
