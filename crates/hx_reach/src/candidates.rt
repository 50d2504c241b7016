//! Links that may be added, the smallest first.
//!
//! What a step gives is never smaller than its parts. So where a link is added only when it is taken out of here, all
//! that could cover it has been added before, and the set holds no link that a later one makes idle.
//!
//! Most candidates are covered when they are taken out. So one is small and copied about, and its
//! step, which may need memory, is made only for those that are wanted.

use crate::covers::{Caps, shared_where_wanted};
use hx_board::{CELLS, Mask, Memory, Vertex};
use hx_link::{Kind, Parts, Step};
use hx_linkset::LinkSet;
use smallvec::SmallVec;
use std::alloc::Global;

/// The most cells of a carrier.
pub(crate) const MOST_CELLS: usize = CELLS;

/// By what rule a candidate comes, and of which links.
#[derive(Clone, Copy)]
pub(crate) enum Rule {
    Base,
    AndStone { left: u32, right: u32 },
    AndCell { left: u32, right: u32 },

    /// So many parts, from a place on in the list of all parts.
    Or { from: u32, count: u32 },
}

/// A link, and the rule that gives it. Its ends are in either order.
#[derive(Clone, Copy)]
pub(crate) struct Candidate {
    carrier: Mask,
    a: Vertex,
    b: Vertex,
    rule: Rule,
}

impl Candidate {
    fn kind(&self) -> Kind {
        match self.rule {
            Rule::AndCell { .. } => Kind::Semi,
            Rule::Base | Rule::AndStone { .. } | Rule::Or { .. } => Kind::Full,
        }
    }

    /// The cells that it shares with all live links of its kind and ends. None where one of them covers it, or there is
    /// no room for it among them.
    pub(crate) fn shared_where_wanted(&self, set: &LinkSet, caps: &Caps) -> Option<Mask> {
        shared_where_wanted(set, caps, self.kind(), &self.a, &self.b, self.carrier)
    }
}

/// Candidates by the number of their cells.
#[derive(Drop)]
pub(crate) struct Candidates {
    buckets: Vec<Vec<Candidate>>,

    /// The most cells of a candidate that came.
    largest: usize,

    /// The parts of all Ors, one Or after the other.
    parts: Vec<u32>,
}

impl Candidates {
    pub(crate) fn new(alloc: Global) -> Result<Candidates, Memory> {
        let Ok(mut buckets) = Vec::with_capacity(alloc, MOST_CELLS + 1) else {
            return Err(Memory);
        };
        for _ in 0..=MOST_CELLS {
            if buckets.push(Vec::new(alloc)).is_err() {
                return Err(Memory);
            }
        }
        Ok(Candidates {
            buckets,
            largest: 0,
            parts: Vec::new(alloc),
        })
    }

    /// Takes all out, and keeps their memory.
    pub(crate) fn clear(&mut self) {
        for cells in 0..=self.largest {
            if let Some(bucket) = self.buckets.get_mut(cells) {
                bucket.clear();
            }
        }
        self.largest = 0;
        self.parts.clear();
    }

    /// The most cells of a candidate that came.
    pub(crate) fn largest(&self) -> usize {
        self.largest
    }

    /// How many have so many cells.
    pub(crate) fn count(&self, cells: usize) -> usize {
        match self.buckets.get(cells) {
            Some(bucket) => bucket.len(),
            None => 0,
        }
    }

    /// Adds the link of these ends and this carrier, which a rule gives.
    pub(crate) fn push(
        &mut self,
        rule: Rule,
        a: &Vertex,
        b: &Vertex,
        carrier: Mask,
    ) -> Result<(), Memory> {
        let cells = carrier.count() as usize;
        if self.largest < cells {
            self.largest = cells;
        }
        if self.buckets.len() <= cells {
            return Ok(());
        }
        let candidate = Candidate {
            carrier,
            a: *a,
            b: *b,
            rule,
        };
        if self.buckets[cells].push(candidate).is_err() {
            return Err(Memory);
        }
        Ok(())
    }

    /// Adds the Or of these parts.
    pub(crate) fn push_or(
        &mut self,
        a: &Vertex,
        b: &Vertex,
        carrier: Mask,
        parts: &[u32],
    ) -> Result<(), Memory> {
        let from = u32::try_from(self.parts.len()).map_err(|_| Memory)?;
        let count = u32::try_from(parts.len()).map_err(|_| Memory)?;
        self.parts.extend_from_slice(parts).map_err(|_| Memory)?;
        self.push(Rule::Or { from, count }, a, b, carrier)
    }

    /// Takes one out that has so many cells.
    pub(crate) fn pop(&mut self, cells: usize) -> Option<Candidate> {
        self.buckets.get_mut(cells)?.pop()
    }

    /// The step that gives a candidate.
    pub(crate) fn step(&self, alloc: Global, candidate: &Candidate) -> Result<Step, Memory> {
        match candidate.rule {
            Rule::Base => Ok(Step::Base {
                a: candidate.a,
                b: candidate.b,
            }),
            Rule::AndStone { left, right } => Ok(Step::AndStone { left, right }),
            Rule::AndCell { left, right } => Ok(Step::AndCell { left, right }),
            Rule::Or { from, count } => {
                let end = (from as usize).saturating_add(count as usize);
                let parts = self.parts.get(from as usize..end).unwrap_or(&[]);
                let items = SmallVec::from_slice(alloc, parts).map_err(|_| Memory)?;
                let parts = Parts::new(items);
                Ok(Step::Or { parts })
            }
        }
    }
}
