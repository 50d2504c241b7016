//! The live links of two ends.
//!
//! Those of one kind stand in one chain, in rising order, so a walk along both chains at once, at each step in the one
//! whose node is lower, gives all of them in rising order, and looks at no other link.

ghost use Rattle.std.specs.Prelude.{◌≡◌, ◌≤◌, length, slice_index};
ghost use Rattle.hx_board.specs.VertexSets.{IsSomeVertex};
ghost use Rattle.hx_link.specs.declared.links.Kind.TheVariants.{Full, Semi};
ghost use Rattle.hx_linkset.specs.Held.{AreLowAndHigh, head_for};
ghost use Rattle.hx_linkset.specs.LivePairs.{lower_of, pairs_from};

use crate::chains::{Chains, FIRST_NODE, head_for};
use hx_board::Vertex;
use hx_link::Kind;
use std::marker::Model;

/// The indices of the live links of two ends, in rising order. Contracts see it as the list of those that are left.
#[derive(Drop)]
pub struct PairIter<'a> {
    chains: &'a Chains,
    full: u16,
    semi: u16,

    /// No more come than this.
    left: usize,
}

impl<'a> Model for PairIter<'a> {
    ghost use Rattle.std.specs.Prelude.{List, ℕ};
    ghost use Rattle.hx_linkset.specs.LivePairs.{pairs_from};

    ghost Value = { List ℕ };

    ghost view = { λ p. pairs_from p.chains.now.next p.left p.full p.semi };
}

impl<'a> PairIter<'a> {
    /// From the heads of these ends, the lower one first.
    pub(crate) fn new(chains: &'a Chains, low: &Vertex, high: &Vertex, most: usize) -> PairIter<'a>
        requires { FIRST_NODE ≤ length chains.now.next }
        ensures { result ≡ pairs_from chains.now.next most
            (slice_index chains.now.next (head_for Full low.now high.now))
            (slice_index chains.now.next (head_for Semi low.now high.now)) }
    {
        let full = chains.after(head_for(Kind::Full, low, high));
        let semi = chains.after(head_for(Kind::Semi, low, high));
        PairIter {
            chains,
            full,
            semi,
            left: most,
        }
    }
}

impl<'a> Iterator for PairIter<'a> {
    ghost use Rattle.std.specs.Iterator.{YieldsFirst, item_count};

    type Item = u32;

    ghost next_gives = { YieldsFirst (λ left. left) };

    ghost remaining = { item_count (λ left. left) };

    fn next(&mut self) -> Option<u32> {
        if self.left == 0 {
            return None;
        }
        let Some(kind) = lower_of(self.full, self.semi) else {
            return None;
        };
        self.left -= 1;
        match kind {
            Kind::Full => {
                let place = self.full - FIRST_NODE;
                self.full = self.chains.after_any(self.full);
                Some(place as u32)
            }
            Kind::Semi => {
                let place = self.semi - FIRST_NODE;
                self.semi = self.chains.after_any(self.semi);
                Some(place as u32)
            }
        }
    }
}

/// The kind whose node is next: none where both are heads.
fn lower_of(full: u16, semi: u16) -> Option<Kind>
    ensures { result ≡ lower_of full semi }
{
    match (full < FIRST_NODE, semi < FIRST_NODE) {
        (true, true) => None,
        (false, true) => Some(Kind::Full),
        (true, false) => Some(Kind::Semi),
        (false, false) => Some(if full < semi { Kind::Full } else { Kind::Semi }),
    }
}

/// Two ends with the lower one first, as links have them.
pub(crate) fn in_order(a: &Vertex, b: &Vertex) -> (Vertex, Vertex)
    ensures order { AreLowAndHigh a.now b.now result.0 result.1 }
    ensures low { IsSomeVertex result.0 }
    ensures high { IsSomeVertex result.1 }
{
    let first = a.code();
    let second = b.code();
    if first <= second { (*a, *b) } else { (*b, *a) }
}
