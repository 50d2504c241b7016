//! The links of a node's steps, as a set.

use hx_board::{Colour, Memory, Position};
use hx_link::{Parts, Step};
use hx_linkset::{Added, LinkSet};
use smallvec::SmallVec;
use std::alloc::Global;

/// The links that steps give on a position. A step that gives none there is left out, and so is each that names it.
/// None where memory is wanting.
pub(crate) fn set_of(
    alloc: Global,
    position: &Position,
    player: Colour,
    steps: &[Step],
) -> Option<LinkSet> {
    let Ok(mut set) = LinkSet::new(alloc, position, player) else {
        return None;
    };
    let Ok(mut places) = Vec::with_capacity(alloc, steps.len()) else {
        return None;
    };
    for step in steps {
        let place = add_step(alloc, &mut set, places.as_slice(), step);
        if places.push(place).is_err() {
            return None;
        }
    }
    Some(set)
}

/// Adds what a step gives, and answers its index in the set. `places` are the indices of the steps before it.
fn add_step(alloc: Global, set: &mut LinkSet, places: &[Option<u32>], step: &Step) -> Option<u32> {
    let Some(step) = with_places(alloc, places, step) else {
        return None;
    };
    match set.add(step) {
        Ok(Added::New(index)) => Some(index),
        Ok(Added::Covered(index)) => Some(index),
        Ok(Added::Refused) => None,
        Ok(Added::Limit) => None,
        Err(Memory) => None,
    }
}

/// The step with the indices of the links that it names.
fn with_places(alloc: Global, places: &[Option<u32>], step: &Step) -> Option<Step> {
    match step {
        Step::Base { a, b } => Some(Step::Base { a: *a, b: *b }),
        Step::AndStone { left, right } => {
            let left = place_of(places, *left)?;
            let right = place_of(places, *right)?;
            Some(Step::AndStone { left, right })
        }
        Step::AndCell { left, right } => {
            let left = place_of(places, *left)?;
            let right = place_of(places, *right)?;
            Some(Step::AndCell { left, right })
        }
        Step::Or { parts } => {
            let parts = parts_with_places(alloc, places, parts.items())?;
            Some(Step::Or { parts })
        }
    }
}

/// The indices of all parts of an Or.
fn parts_with_places(alloc: Global, places: &[Option<u32>], parts: &[u32]) -> Option<Parts> {
    let mut items: SmallVec<u32, 8> = SmallVec::new(alloc);
    for part in parts {
        let place = place_of(places, *part)?;
        if items.push(place).is_err() {
            return None;
        }
    }
    Some(Parts::new(items))
}

/// The index of an earlier step's link. None where it gave none.
fn place_of(places: &[Option<u32>], step: u32) -> Option<u32> {
    match places.get(step as usize) {
        Some(place) => *place,
        None => None,
    }
}
