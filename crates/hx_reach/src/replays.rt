//! The steps that reaches added, for the next reach from the same state of a set.
//!
//! A search comes back to positions that it left, by the same moves, and then its sets stand as they stood there
//! before. A reach adds the same links again. So its steps are kept, and the next reach from that state adds them one
//! after the other, and looks for no others.
//!
//! A state is known by its key alone. Where two states share one, steps may be added that a reach would not have found,
//! and others left out; the set judges each step as ever, so no claim rests on a key.
//!
//! The steps stand in a ring: once it is full the oldest ones make room. Its memory is taken a bit at a time, and
//! without memory for it nothing is kept.

ghost use Rattle.hx_reach.specs.Growth.{IsGrown};

use hx_board::{Colour, Memory, Size};
use hx_link::{Parts, Step};
use hx_linkset::{Added, LinkSet};
use smallvec::SmallVec;
use std::alloc::Global;

/// How many records there are.
const PLACES: u64 = 8192;

/// How many steps and parts of Ors are kept.
const ROOM: u64 = 524288;

/// A step, in little room: vertices by their codes, and links by indices that are no larger, since a set has few.
#[derive(Clone, Copy)]
enum Kept {
    Base { a: u8, b: u8 },
    AndStone { left: u16, right: u16 },
    AndCell { left: u16, right: u16 },

    /// An Or of so many parts, which come next.
    Or { count: u16 },
    Part { link: u16 },
}

/// Memory is wanting, or something does not fit.
#[derive(Clone, Copy)]
struct Unkept;

/// What a reach added: the key of the state that it began with, and its steps, from one place to before another. Places
/// count all that was ever kept.
#[derive(Clone, Copy)]
struct Record {
    key: u64,
    from: u64,
    end: u64,
}

/// The steps that reaches added.
#[derive(Drop)]
pub(crate) struct Replays {
    /// A record by its key's last digits. None before the first is kept.
    records: Vec<Option<Record>>,
    ring: Vec<Kept>,

    /// How many were ever kept.
    end: u64,
}

impl Replays {
    /// No steps.
    pub(crate) fn none(alloc: Global) -> Replays {
        Replays {
            records: Vec::new(alloc),
            ring: Vec::new(alloc),
            end: 0,
        }
    }

    /// Adds the steps that a reach added to a set in the state of this key, where they are kept, until one gives no
    /// link. Whether all were there and gave links.
    pub(crate) fn replay(&self, set: &mut LinkSet, key: u64) -> Result<bool, Memory>
        ensures { IsGrown set.old set.new }
    {
        let Some(record) = self.find(key) else {
            return Ok(false);
        };
        for place in record.from..record.end {
            match self.add_at(set, place) {
                Ok(true) => {}
                Ok(false) => return Ok(false),
                Err(Memory) => return Err(Memory),
            }
        }
        Ok(true)
    }

    /// Adds the step at a place. Whether it gave a link, or there is none.
    fn add_at(&self, set: &mut LinkSet, place: u64) -> Result<bool, Memory>
        ensures { IsGrown set.old set.new }
    {
        let step = match self.step_at(set.allocator(), set.position().size(), place) {
            Ok(Some(step)) => step,
            Ok(None) => return Ok(true),
            Err(Memory) => return Err(Memory),
        };
        match set.add_unlooked(step) {
            Ok(Added::New(_)) => Ok(true),
            Ok(Added::Covered(_)) => Ok(false),
            Ok(Added::Refused) => Ok(false),
            Ok(Added::Limit) => Ok(false),
            Err(Memory) => Err(Memory),
        }
    }

    /// Keeps the steps of the links that a reach added to a set in the state of this key, those from an index on.
    pub(crate) fn keep(&mut self, key: u64, set: &LinkSet, first: u32) {
        let from = self.end;
        for step in set.steps().get(first as usize..).unwrap_or(&[]) {
            if self.push_step(step).is_err() {
                return;
            }
        }
        let record = Record {
            key,
            from,
            end: self.end,
        };
        self.enter(set.allocator(), record);
    }

    /// The record of a state, where all its steps are still there.
    fn find(&self, key: u64) -> Option<Record> {
        let place = (key % PLACES) as usize;
        match self.records.get(place).copied() {
            Some(Some(record)) if record.key == key && self.has_all(&record) => Some(record),
            _ => None,
        }
    }

    /// Whether no later step took the place of one of a record.
    fn has_all(&self, record: &Record) -> bool {
        self.end.saturating_sub(record.from) <= ROOM
    }

    /// Enters a record in its place.
    fn enter(&mut self, alloc: Global, record: Record) {
        if self.records.is_empty() {
            let Ok(records) = vec![in alloc; None; PLACES as usize] else {
                return;
            };
            self.records = records;
        }
        let place = (record.key % PLACES) as usize;
        if let Some(old) = self.records.get_mut(place) {
            *old = Some(record);
        }
    }

    /// What is kept at a place.
    fn at(&self, place: u64) -> Option<Kept> {
        self.ring.get((place % ROOM) as usize).copied()
    }

    /// Puts one thing more into the ring, in the place of the oldest one where there is no more room.
    fn push(&mut self, kept: Kept) -> Result<(), Unkept> {
        let place = (self.end % ROOM) as usize;
        if place < self.ring.len() {
            self.ring[place] = kept;
        } else {
            self.ring.push(kept).map_err(|_| Unkept)?;
        }
        self.end = self.end.wrapping_add(1);
        Ok(())
    }

    /// Puts a step into the ring.
    fn push_step(&mut self, step: &Step) -> Result<(), Unkept> {
        match step {
            Step::Base { a, b } => self.push(Kept::Base {
                a: a.code(),
                b: b.code(),
            }),
            Step::AndStone { left, right } => self.push(Kept::AndStone {
                left: small(*left)?,
                right: small(*right)?,
            }),
            Step::AndCell { left, right } => self.push(Kept::AndCell {
                left: small(*left)?,
                right: small(*right)?,
            }),
            Step::Or { parts } => self.push_or(parts.items()),
        }
    }

    /// Puts an Or into the ring.
    fn push_or(&mut self, parts: &[u32]) -> Result<(), Unkept> {
        let count = u16::try_from(parts.len()).map_err(|_| Unkept)?;
        self.push(Kept::Or { count })?;
        for part in parts {
            self.push(Kept::Part {
                link: small(*part)?,
            })?;
        }
        Ok(())
    }

    /// The step at a place, on a board of this size. None where there is none of its own, but a part of an Or.
    fn step_at(&self, alloc: Global, size: Size, place: u64) -> Result<Option<Step>, Memory> {
        match self.at(place) {
            Some(Kept::Base { a, b }) => Ok(base_of(size, a, b)),
            Some(Kept::AndStone { left, right }) => Ok(Some(Step::AndStone {
                left: u32::from(left),
                right: u32::from(right),
            })),
            Some(Kept::AndCell { left, right }) => Ok(Some(Step::AndCell {
                left: u32::from(left),
                right: u32::from(right),
            })),
            Some(Kept::Or { count }) => Ok(Some(self.or_at(alloc, place, count)?)),
            Some(Kept::Part { .. }) | None => Ok(None),
        }
    }

    /// The Or of so many parts at a place.
    fn or_at(&self, alloc: Global, place: u64, count: u16) -> Result<Step, Memory> {
        let mut items = SmallVec::<u32, 8>::new(alloc);
        for further in 1..=u64::from(count) {
            if let Some(Kept::Part { link }) = self.at(place.wrapping_add(further)) {
                items.push(u32::from(link)).map_err(|_| Memory)?;
            }
        }
        let parts = Parts::new(items);
        Ok(Step::Or { parts })
    }
}

/// The key of the state that a reach begins from, with this player to move.
pub(crate) fn key_of(set: &LinkSet, to_move: Colour) -> u64 {
    match to_move {
        Colour::Black => set.key(),
        Colour::White => !set.key(),
    }
}

/// An index in little room.
fn small(index: u32) -> Result<u16, Unkept> {
    u16::try_from(index).map_err(|_| Unkept)
}

/// The Base of the vertices with these codes. None where the board lacks one of them.
fn base_of(size: Size, a: u8, b: u8) -> Option<Step> {
    let a = size.vertex(a)?;
    let b = size.vertex(b)?;
    Some(Step::Base { a, b })
}
