//! The log of the links that the plays dropped.
//!
//! Their places stand on it in the order in which they were dropped, each once. Beside them a bit for each place tells
//! which are not on the log. A link is live where its place is not on it, and else it is not. So the pass of a play,
//! which looks for live links, reads off a word which links of a block to look at.

ghost use Rattle.std.specs.Prelude.{◌≡◌, ◌≢◌, ◌-◌, ◌<◌, [], ◌∷◌, ◌++◌, length, take, slice_index, IfOk};
ghost use Rattle.hx_linkset.specs.Held.{IsIn};
ghost use Rattle.hx_linkset.specs.Logs.{AreOthers};

use crate::blocks::{BLOCK, MOST_BLOCKS};
use crate::limits::MOST_LINKS;
use hx_board::Memory;
use std::alloc::Global;
use std::marker::Model;

/// The places of the dropped links, and which are not among them. Contracts see it as the list of the places.
#[derive(Drop)]
pub(crate) struct Log {
    places: Vec<u16>,

    /// For each block of links the numbers of those that are not on the log. They are a table, and stand behind a
    /// pointer, so that to move a set takes little.
    others: Box<[u64; MOST_BLOCKS]>,
}

impl Model for Log {
    ghost use Rattle.std.specs.Prelude.{List, ℕ, vec_capacity};

    ghost Value = { List ℕ };

    ghost use Rattle.hx_linkset.specs.Logs.{IsLog};

    ghost view = { λ l. l.places.items };

    ghost invariant = { λ l. IsLog l.places.items l.others.value (vec_capacity l.places) };
}

impl Log {
    /// No link. All the memory that it will need is taken here.
    pub(crate) fn new(alloc: Global) -> Result<Log, Memory>
        ensures { IfOk result (λ log. log ≡ []) }
    {
        let Ok(places) = Vec::with_capacity(alloc, MOST_LINKS) else {
            return Err(Memory);
        };
        let Ok(others) = Box::new(alloc, [u64::MAX; MOST_BLOCKS]) else {
            return Err(Memory);
        };
        Ok(Log { places, others })
    }

    /// The places, in their order.
    #[inline(always)]
    pub(crate) fn as_slice(&self) -> &[u16]
        ensures { result.now ≡ self.now }
    {
        self.places.as_slice()
    }

    /// How many there are.
    #[inline(always)]
    pub(crate) fn len(&self) -> usize
        ensures { result ≡ length self.now }
    {
        self.places.len()
    }

    /// Puts a place after the others.
    #[inline(always)]
    pub(crate) fn push(&mut self, place: u16)
        requires room { length self.old < MOST_LINKS }
        requires small { place < MOST_LINKS }
        requires off { IsIn self.old place → ⊥ }
        ensures { self.new ≡ self.old ++ place ∷ [] }
    {
        let block = place as usize / BLOCK;
        let one = 1 << (place as usize % BLOCK);
        self.others[block] ^= self.others[block] & one;
        self.places.push_reserved(place);
    }

    /// Takes the last place away.
    #[inline(always)]
    pub(crate) fn pop(&mut self) -> u16
        requires { self.old ≢ [] }
        ensures last { result ≡ slice_index self.old (length self.old - 1) }
        ensures rest { self.new ≡ take (length self.old - 1) self.old }
    {
        let last = self.places.len() - 1;
        let place = self.places[last];
        let block = place as usize / BLOCK;
        let one = 1 << (place as usize % BLOCK);
        self.others[block] |= one;
        self.places.truncate(last);
        place
    }

    /// The numbers of the links of a block that are not on the log.
    #[inline(always)]
    pub(crate) fn others(&self, block: usize) -> u64
        requires { block < MOST_BLOCKS }
        ensures { AreOthers self.now block result }
    {
        self.others[block]
    }
}
