//! Chains of entries by their buckets.
//!
//! Each bucket has a link to its newest entry, and each entry a link to the next older one of its bucket. So a new
//! entry is linked in by two writes, and a look walks its bucket alone, the newest first. All memory is taken at the
//! start.

ghost use Rattle.std.specs.Prelude.{◌≡◌, ◌<◌, ◌≤◌, [], length, replicate, slice_index, IfOk};
ghost use Rattle.hx_book.specs.declared.books.TheConstants.{MOST_SLOTS};
ghost use Rattle.hx_book.specs.Chains.{IsLinked};

use hx_board::Memory;
use std::alloc::Global;
use std::marker::Model;

/// The links of the entries. A link is one more than an entry's index, or 0 where there is none.
#[derive(Drop)]
pub(crate) struct Chains {
    heads: Vec<u32>,
    next: Vec<u32>,
}

impl Model for Chains {
    ghost use Rattle.std.specs.Prelude.{◌<◌, ◌≤◌, length, vec_capacity};
    ghost use Rattle.hx_book.specs.Chains.{Links, links};

    ghost Value = { Links };

    ghost view = { λ c. links c.heads.items c.next.items (vec_capacity c.next) };
}

impl Chains {
    /// So many empty buckets, with room for so many entries.
    pub(crate) fn with_buckets(alloc: Global, slots: u32, buckets: u32) -> Result<Chains, Memory>
        ensures heads { IfOk result (λ chains. chains.heads ≡ replicate buckets 0) }
        ensures next { IfOk result (λ chains. chains.next ≡ []) }
        ensures room { IfOk result (λ chains. slots ≤ chains.room) }
    {
        let Ok(heads) = vec![in alloc; 0u32; buckets as usize] else {
            return Err(Memory);
        };
        let Ok(next) = Vec::with_capacity(alloc, slots as usize) else {
            return Err(Memory);
        };
        Ok(Chains { heads, next })
    }

    /// How many buckets there are.
    pub(crate) fn buckets(&self) -> usize
        ensures { result ≡ length self.now.heads }
    {
        self.heads.len()
    }

    /// The link to a bucket's newest entry.
    pub(crate) fn newest(&self, bucket: usize) -> u32
        requires { bucket < length self.now.heads }
        ensures { result ≡ slice_index self.now.heads bucket }
    {
        self.heads[bucket]
    }

    /// The link from an entry to the next older one of its bucket.
    pub(crate) fn older(&self, index: u32) -> u32
        requires { index < length self.now.next }
        ensures { result ≡ slice_index self.now.next index }
    {
        self.next[index as usize]
    }

    /// One more entry, which becomes the newest of its bucket.
    pub(crate) fn add(&mut self, bucket: usize)
        requires bucket { bucket < length self.old.heads }
        requires room { length self.old.next < self.old.room }
        requires small { length self.old.next < MOST_SLOTS }
        ensures { IsLinked self.old bucket self.new }
    {
        let link = self.next.len() as u32 + 1;
        self.next.push_reserved(self.heads[bucket]);
        self.heads[bucket] = link;
    }
}
