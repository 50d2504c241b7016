//! The steps that some links of a set need, as one list of their own.
//!
//! A step names links that stand before it. So one pass from the last link down to the first marks what is needed, and
//! one pass up takes the marked steps, each with the new numbers of the links that it names.

ghost use Rattle.std.specs.Prelude.{◌≡◌, ℕ, ◌≤◌, length, IfOk};
ghost use Rattle.hx_board.specs.Lists.{StandsIn};
ghost use Rattle.hx_linkset.specs.States.{IsLiveAt, IsRight};
ghost use Rattle.hx_linkset.specs.Derivations.{IsDerived, AreClosedFrom, AreMarkedUnder, AreKeptBelow};

use crate::limits::MOST_LINKS;
use crate::marks::{first_from, last_below, mark_all, mark_parts, no_marks};
use crate::renaming::{names_of, renamed_step};
use hx_board::{Colour, Memory, Position};
use hx_link::{Link, Step, Steps};
use std::alloc::Global;

/// Steps that are right in themselves, and the places of those that give the named links.
#[derive(Debug, Drop)]
pub struct Derived {
    pub steps: Steps,

    /// For each named link, in their order, the place of the step that gives it.
    // It is no `Threats`, since those are of hx_tree, on which this crate does not stand.
    pub places: Vec<u32>,
}

/// Which links are needed, and how many at most.
#[derive(Drop)]
struct Wanted {
    marks: Vec<u8>,
    count: usize,
}

/// The steps of the wanted links, and the new number of each of these links.
#[derive(Drop)]
struct Kept {
    steps: Vec<Step>,
    names: Vec<u16>,
}

/// The named links, and those that they were made from.
fn wanted_for(
    alloc: Global,
    position: &Position,
    player: Colour,
    links: &[Link],
    steps: &[Step],
    named: &[u32],
) -> Result<Wanted, Memory>
    requires right { IsRight player
        record { board = position.now; links = links.now; steps = steps.now } }
    requires live { (place : ℕ) → StandsIn named.now place
        → IsLiveAt position.now player links.now place }
    ensures closed { IfOk result (λ wanted. AreClosedFrom player
        record { board = position.now; links = links.now; steps = steps.now } 0
        wanted.marks.items) }
    ensures named { IfOk result (λ wanted. AreMarkedUnder named.now wanted.marks.items) }
{
    let Ok(mut marks) = no_marks(alloc, links.len()) else {
        return Err(Memory);
    };
    mark_all(&mut marks, named);
    let mut count = 0;
    let mut bound = links.len();
    while let Some(place) = last_below(marks.as_slice(), bound) {
        mark_parts(&mut marks, &steps[place]);
        count += 1;
        bound = place;
    }
    Ok(Wanted { marks, count })
}

/// The steps of the wanted links, renamed.
fn kept_for(
    alloc: Global,
    position: &Position,
    player: Colour,
    links: &[Link],
    steps: &[Step],
    wanted: &Wanted,
) -> Result<Kept, Memory>
    requires right { IsRight player
        record { board = position.now; links = links.now; steps = steps.now } }
    requires few { length links.now ≤ MOST_LINKS }
    requires closed { AreClosedFrom player
        record { board = position.now; links = links.now; steps = steps.now } 0
        wanted.now.marks.items }
    ensures { IfOk result (λ kept. AreKeptBelow player
        record { board = position.now; links = links.now; steps = steps.now }
        wanted.now.marks.items (length links.now) kept.steps.items kept.names.items) }
{
    let Ok(mut names) = vec![in alloc; 0u16; links.len()] else {
        return Err(Memory);
    };
    let Ok(mut kept) = Vec::with_capacity(alloc, wanted.count) else {
        return Err(Memory);
    };
    let mut bound = 0;
    while let Some(place) = first_from(wanted.marks.as_slice(), bound) {
        let Ok(step) = renamed_step(alloc, names.as_slice(), &steps[place]) else {
            return Err(Memory);
        };
        names[place] = kept.len() as u16;
        if kept.push(step).is_err() {
            return Err(Memory);
        }
        bound = place + 1;
    }
    Ok(Kept { steps: kept, names })
}

/// The steps that these live links need, as one list of their own, where the links of a player on a position are right.
/// Of one link alone the last step gives it.
pub(crate) fn derivation_of(
    alloc: Global,
    position: &Position,
    player: Colour,
    links: &[Link],
    steps: &[Step],
    named: &[u32],
) -> Result<Derived, Memory>
    requires right { IsRight player
        record { board = position.now; links = links.now; steps = steps.now } }
    requires few { length links.now ≤ MOST_LINKS }
    requires live { (place : ℕ) → StandsIn named.now place
        → IsLiveAt position.now player links.now place }
    ensures { IfOk result (λ derived.
        IsDerived position.now player links.now named.now derived.steps derived.places.items) }
{
    let Ok(wanted) = wanted_for(alloc, position, player, links, steps, named) else {
        return Err(Memory);
    };
    let Ok(kept) = kept_for(alloc, position, player, links, steps, &wanted) else {
        return Err(Memory);
    };
    let Kept { steps, names } = kept;
    let steps = Steps::new(steps);
    let Ok(places) = names_of(alloc, names.as_slice(), named) else {
        return Err(Memory);
    };
    Ok(Derived { steps, places })
}
