//! The Ors that a new Semi link makes possible, of few parts.
//!
//! Parts are looked at in the order in which they came. Since links are added by their size, that is nearly the order
//! by size, and no sort is wanted.

use crate::candidates::Candidates;
use crate::covers::is_covered;
use hx_board::{CELLS, Mask, Memory, Vertex};
use hx_link::{Kind, Link};
use hx_linkset::LinkSet;
use std::alloc::Global;

/// The most Ors for a new Semi link.
const MOST_FOUND: u32 = 8;

/// The most parts that are looked at for a new Semi link. One that takes nothing away counts too.
const MOST_VISITS: u32 = 60;

/// The most parts of an Or that is searched for. Where no such Or is found, one of more parts is tried, up to the most
/// that an Or unites.
const MOST_SEARCHED: usize = 4;

/// Room for the Semi links of most two ends.
const ROOM: usize = 80;

/// A Semi link.
#[derive(Clone, Copy)]
struct Part {
    link: u32,
    carrier: Mask,
}

/// Lists that are kept from one search to the next.
#[derive(Drop)]
pub(crate) struct OrLists {
    /// The live Semi links of two ends, and the cells that all of them have. Where there are such cells there is no Or.
    parts: Vec<Part>,
    shared: Mask,

    /// Those of them that lack a cell of the first part.
    others: Vec<Part>,

    /// The parts of an Or of as many parts as it takes.
    wide: Vec<u32>,
}

impl OrLists {
    pub(crate) fn new(alloc: Global) -> Result<OrLists, Memory> {
        Ok(OrLists {
            parts: Vec::with_capacity(alloc, ROOM).map_err(|_| Memory)?,
            shared: Mask::empty(),
            others: Vec::with_capacity(alloc, ROOM).map_err(|_| Memory)?,
            wide: Vec::new(alloc),
        })
    }

    /// Finds the live Semi links of two ends, and what they share.
    fn find_parts(&mut self, set: &LinkSet, a: &Vertex, b: &Vertex) -> Result<(), Memory> {
        self.parts.clear();
        self.shared = set.position().size().all();
        let mut next = set.first_of(Kind::Semi, *a, *b);
        for _ in 0..set.count() {
            let Some(index) = next else {
                break;
            };
            next = set.next_of(index);
            if let Some(link) = set.held(index) {
                let part = Part {
                    link: index,
                    carrier: link.carrier,
                };
                self.shared = self.shared.meet(link.carrier);
                self.parts.push(part).map_err(|_| Memory)?;
            }
        }
        Ok(())
    }

    /// Finds the parts that can take a cell away from what a first part and others share.
    fn find_others(&mut self, start: &Part) -> Result<(), Memory> {
        self.others.clear();
        for part in self.parts.iter() {
            if !start.carrier.inside(part.carrier) {
                self.others.push(*part).map_err(|_| Memory)?;
            }
        }
        Ok(())
    }
}

/// How many parts are chosen, the cells that they all have, and those that some of them have.
#[derive(Clone, Copy)]
struct Chosen {
    count: usize,
    shared: Mask,
    carrier: Mask,
}

impl Chosen {
    fn one(part: &Part) -> Chosen {
        Chosen {
            count: 1,
            shared: part.carrier,
            carrier: part.carrier,
        }
    }

    fn with(&self, part: &Part) -> Chosen {
        Chosen {
            count: self.count.saturating_add(1),
            shared: self.shared.meet(part.carrier),
            carrier: self.carrier.union(part.carrier),
        }
    }
}

/// A search for Ors of one part with others, and the parts that are chosen so far.
#[derive(Clone, Copy)]
struct OrSearch {
    a: Vertex,
    b: Vertex,
    links: [u32; MOST_SEARCHED],
    visits: u32,
    found: u32,
}

impl OrSearch {
    fn is_over(&self) -> bool {
        self.found >= MOST_FOUND || self.visits >= MOST_VISITS
    }

    /// Chooses a part after so many.
    fn choose(&mut self, count: usize, part: &Part) {
        if let Some(link) = self.links.get_mut(count) {
            *link = part.link;
        }
    }

    /// Adds the Or of the chosen parts, unless a live link covers it.
    fn push(
        &mut self,
        set: &LinkSet,
        candidates: &mut Candidates,
        chosen: &Chosen,
    ) -> Result<(), Memory> {
        // An Or that a live link covers ends the search as a new one does.
        self.found = self.found.saturating_add(1);
        if is_covered(set, Kind::Full, &self.a, &self.b, chosen.carrier) {
            return Ok(());
        }
        let links = self.links.get(..chosen.count).unwrap_or(&[]);
        candidates.push_or(&self.a, &self.b, chosen.carrier, links)
    }

    /// Adds the Ors of the chosen parts with so many more of these. Each part takes a cell away
    /// from what those before it share.
    fn widen(
        &mut self,
        set: &LinkSet,
        candidates: &mut Candidates,
        chosen: &Chosen,
        parts: &[Part],
        left: usize,
    ) -> Result<(), Memory> {
        for (place, part) in parts.iter().enumerate() {
            if self.is_over() {
                break;
            }
            self.visits = self.visits.saturating_add(1);
            let rest = parts.get(place + 1..).unwrap_or(&[]);
            let shared = chosen.shared.meet(part.carrier);
            if shared.is_empty() {
                self.choose(chosen.count, part);
                self.push(set, candidates, &chosen.with(part))?;
            } else if left > 1 && !rest.is_empty() && shared != chosen.shared {
                self.choose(chosen.count, part);
                self.widen(set, candidates, &chosen.with(part), rest, left - 1)?;
            }
        }
        Ok(())
    }
}

/// Adds one Or of as many parts as it takes: at each step the part that leaves the least shared and brings the fewest
/// cells.
fn push_wide(
    candidates: &mut Candidates,
    lists: &mut OrLists,
    a: &Vertex,
    b: &Vertex,
    start: &Part,
) -> Result<(), Memory> {
    let mut chosen = Chosen::one(start);
    lists.wide.clear();
    lists.wide.push(start.link).map_err(|_| Memory)?;
    for _ in 0..CELLS as u8 {
        if chosen.shared.is_empty() {
            break;
        }
        let Some(part) = best_of(lists.others.as_slice(), &chosen) else {
            return Ok(());
        };
        chosen = chosen.with(&part);
        lists.wide.push(part.link).map_err(|_| Memory)?;
    }
    candidates.push_or(a, b, chosen.carrier, lists.wide.as_slice())
}

/// The part that leaves the least shared, and of these the one that brings the fewest cells. None where none takes a
/// cell away.
fn best_of(parts: &[Part], chosen: &Chosen) -> Option<Part> {
    let mut best = None;
    let mut least = (chosen.shared.count(), 0);
    for part in parts {
        let left = chosen.shared.meet(part.carrier).count();
        let brought = part.carrier.minus(chosen.carrier).count();
        if left < least.0 || (best.is_some() && left == least.0 && brought < least.1) {
            best = Some(*part);
            least = (left, brought);
        }
    }
    best
}

/// Adds the Ors of one of the live Semi links of two ends, which share no cell, with others of them.
fn push_ors_of(
    set: &LinkSet,
    candidates: &mut Candidates,
    lists: &mut OrLists,
    a: &Vertex,
    b: &Vertex,
    start: &Part,
) -> Result<(), Memory> {
    lists.find_others(start)?;
    let mut search = OrSearch {
        a: *a,
        b: *b,
        links: [start.link; MOST_SEARCHED],
        visits: 0,
        found: 0,
    };
    let chosen = Chosen::one(start);
    for count in 2..=MOST_SEARCHED {
        search.widen(set, candidates, &chosen, lists.others.as_slice(), count - 1)?;
        if search.found > 0 {
            return Ok(());
        }
    }
    if set.first_of(Kind::Full, *a, *b).is_some() {
        return Ok(());
    }
    push_wide(candidates, lists, a, b, start)
}

/// Adds the Ors of a Semi link with others of its ends.
pub(crate) fn push_ors(
    set: &LinkSet,
    candidates: &mut Candidates,
    lists: &mut OrLists,
    index: u32,
    link: &Link,
) -> Result<(), Memory> {
    lists.find_parts(set, &link.a, &link.b)?;
    if !lists.shared.is_empty() {
        return Ok(());
    }
    let start = Part {
        link: index,
        carrier: link.carrier,
    };
    push_ors_of(set, candidates, lists, &link.a, &link.b, &start)
}

/// Adds the Ors of all live Semi links of two ends. Each has a part that is not the first link, and
/// is found from that part.
pub(crate) fn push_ors_between(
    set: &LinkSet,
    candidates: &mut Candidates,
    lists: &mut OrLists,
    a: &Vertex,
    b: &Vertex,
) -> Result<(), Memory> {
    lists.find_parts(set, a, b)?;
    if !lists.shared.is_empty() {
        return Ok(());
    }
    for place in 1..lists.parts.len() {
        let Some(start) = lists.parts.get(place).copied() else {
            break;
        };
        push_ors_of(set, candidates, lists, a, b, &start)?;
    }
    Ok(())
}
