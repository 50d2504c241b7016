//! Want of a slot.

ghost use Rattle.std.specs.Prelude.{◌≡◌};

use hx_packed::Offer;
use hx_tree::Node;
use std::marker::Model;
use thiserror::Error;

/// The answer of a book whose slots are all taken, with the node that found no room.
#[derive(Debug, Drop, Error)]
#[error("each of the {held} slots is taken")]
pub struct NoSlot {
    held: u32,
    offer: Offer,
}

impl Model for NoSlot {
    ghost use Rattle.hx_book.specs.Puts.{Refusal};

    ghost Value = { Refusal };

    ghost view = { λ r. record { held = r.held; node = r.offer } };
}

impl NoSlot {
    /// The refusal of a node by a book that holds so many.
    pub(crate) fn new(held: u32, offer: Offer) -> NoSlot
        ensures { result ≡ record { held = held; node = offer } }
    {
        NoSlot { held, offer }
    }

    /// How many nodes the book held.
    pub fn held(&self) -> u32
        ensures { result ≡ self.now.held }
    {
        self.held
    }

    /// The node that was refused. It takes no memory.
    pub fn into_node(self) -> Node
        ensures { result ≡ self.node }
    {
        self.offer.into_node()
    }
}
