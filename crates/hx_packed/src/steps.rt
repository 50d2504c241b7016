//! Steps in little room.
//!
//! A step takes 6 bytes here, and a `Step` has room for eight parts of an Or in itself. The parts of all Ors stand in
//! one list, one after the other, and an Or says where its own begin and how many they are. The list only grows, so an
//! Or stays what it is while further steps are put in.

ghost use Rattle.std.specs.Prelude.{◌≡◌, ◌≤◌, ◌++◌, ℕ, List, [], ◌∷◌, length, IfOk, OnOk, OnErr, IfSome};
ghost use Rattle.hx_link.specs.declared.steps.Step.TheVariants.{Or};
ghost use Rattle.hx_packed.specs.KeptSteps.{step_of, HasParts};

use hx_board::{Memory, Vertex};
use hx_link::{Parts, Step, Steps};
use smallvec::SmallVec;
use std::alloc::Global;
use std::marker::Model;

/// A step, in little room: earlier links go by places of two bytes, and the parts of an Or stand elsewhere.
#[derive(Clone, Copy, Debug)]
pub(crate) enum KeptStep {
    Base { a: Vertex, b: Vertex },
    AndStone { left: u16, right: u16 },
    AndCell { left: u16, right: u16 },

    /// An Or of so many parts, from a place in the list of parts on.
    Or { from: u16, count: u16 },
}

const _: () = prove!(size_of::<KeptStep>() == 6);

/// Memory is wanting, or a place is too far on.
#[derive(Clone, Copy)]
struct Unkept;

/// Steps, and the parts of all Ors among them, in the order of these.
#[derive(Debug, Drop)]
pub(crate) struct KeptSteps {
    steps: Vec<KeptStep>,
    parts: Vec<u16>,
}

impl Model for KeptSteps {
    ghost use Rattle.std.specs.Prelude.{List, length};
    ghost use Rattle.hx_link.specs.declared.steps.Step.{Step};

    ghost Value = { List Step };

    ghost use Rattle.hx_packed.specs.KeptSteps.{steps_of, HaveParts};

    ghost view = { λ s. steps_of s.parts.items s.steps.items };

    ghost invariant = { λ s. HaveParts (length s.parts.items) s.steps.items };
}

impl KeptSteps {
    /// These steps. None where memory is wanting or a place is too far on.
    pub(crate) fn of(alloc: Global, steps: &[Step]) -> Option<KeptSteps>
        ensures { IfSome result (λ kept. kept ≡ steps.now) }
    {
        let Ok(mut kept) = KeptSteps::with_room(alloc, steps.len(), parts_in(steps)) else {
            return None;
        };
        for step in steps {
            if kept.push(step).is_err() {
                return None;
            }
        }
        Some(kept)
    }

    /// No steps, with room for so many steps and parts.
    fn with_room(alloc: Global, steps: usize, parts: usize) -> Result<KeptSteps, Memory>
        ensures { IfOk result (λ kept. kept ≡ []) }
    {
        let Ok(steps) = Vec::with_capacity(alloc, steps) else {
            return Err(Memory);
        };
        let Ok(parts) = Vec::with_capacity(alloc, parts) else {
            return Err(Memory);
        };
        Ok(KeptSteps { steps, parts })
    }

    /// Puts in one step more.
    fn push(&mut self, step: &Step) -> Result<(), Unkept>
        ensures { OnOk result (self.new ≡ self.old ++ step.now ∷ []) }
    {
        match step {
            Step::Base { a, b } => put(&mut self.steps, KeptStep::Base { a: *a, b: *b }),
            Step::AndStone { left, right } => {
                let left = small(*left)?;
                let right = small(*right)?;
                put(&mut self.steps, KeptStep::AndStone { left, right })
            }
            Step::AndCell { left, right } => {
                let left = small(*left)?;
                let right = small(*right)?;
                put(&mut self.steps, KeptStep::AndCell { left, right })
            }
            Step::Or { parts } => self.push_or(parts.items()),
        }
    }

    /// Puts in an Or of these parts.
    fn push_or(&mut self, parts: &[u32]) -> Result<(), Unkept>
        ensures { OnOk result (self.new ≡ self.old ++ Or parts.now ∷ []) }
    {
        let from = small_count(self.parts.len())?;
        let count = small_count(parts.len())?;
        add_parts(&mut self.parts, parts)?;
        put(&mut self.steps, KeptStep::Or { from, count })
    }

    /// The steps as they were.
    pub(crate) fn steps(&self) -> Result<Steps, Memory>
        ensures { IfOk result (λ steps. steps ≡ self.now) }
    {
        let alloc = *self.steps.allocator();
        let Ok(mut made) = Vec::with_capacity(alloc, self.steps.len()) else {
            return Err(Memory);
        };
        for kept in self.steps.as_slice() {
            let step = step_of(alloc, self.parts.as_slice(), kept)?;
            if made.push(step).is_err() {
                return Err(Memory);
            }
        }
        Ok(Steps::new(made))
    }
}

/// How many parts the Ors of these steps have.
fn parts_in(steps: &[Step]) -> usize {
    let mut count = 0usize;
    for step in steps {
        if let Step::Or { parts } = step {
            count = count.saturating_add(parts.items().len());
        }
    }
    count
}

/// Puts in a step.
fn put(steps: &mut Vec<KeptStep>, kept: KeptStep) -> Result<(), Unkept>
    ensures put { OnOk result (steps.new.items ≡ steps.old.items ++ kept ∷ []) }
    ensures same { OnErr result (steps.new.items ≡ steps.old.items) }
{
    // The proof of the borrow takes from here what a step's vertices are.
    let _vertex = Vertex::First;
    if steps.push(kept).is_err() {
        return Err(Unkept);
    }
    Ok(())
}

/// A place in little room.
fn small(place: u32) -> Result<u16, Unkept>
    ensures { IfOk result (λ small. small ≡ place) }
{
    u16::try_from(place).map_err(|_| Unkept)
}

/// A count in little room.
fn small_count(count: usize) -> Result<u16, Unkept>
    ensures { IfOk result (λ small. small ≡ count) }
{
    u16::try_from(count).map_err(|_| Unkept)
}

/// Adds the parts of an Or to those of the Ors before it. However it ends, there are no fewer than before.
fn add_parts(all: &mut Vec<u16>, parts: &[u32]) -> Result<(), Unkept>
    ensures added { OnOk result (all.new.items ≡ all.old.items ++ parts.now) }
    ensures more { length all.old.items ≤ length all.new.items }
{
    for part in parts {
        let part = small(*part)?;
        if all.push(part).is_err() {
            return Err(Unkept);
        }
    }
    Ok(())
}

/// The step that is kept, where its parts are among these.
fn step_of(alloc: Global, parts: &[u16], kept: &KeptStep) -> Result<Step, Memory>
    requires { HasParts (length parts.now) kept.now }
    ensures { IfOk result (λ step. step ≡ step_of parts.now kept.now) }
{
    match kept {
        KeptStep::Base { a, b } => Ok(Step::Base { a: *a, b: *b }),
        KeptStep::AndStone { left, right } => Ok(Step::AndStone {
            left: u32::from(*left),
            right: u32::from(*right),
        }),
        KeptStep::AndCell { left, right } => Ok(Step::AndCell {
            left: u32::from(*left),
            right: u32::from(*right),
        }),
        KeptStep::Or { from, count } => {
            let from = *from as usize;
            let end = from + *count as usize;
            or_of(alloc, &parts[from..end])
        }
    }
}

/// The Or of these parts.
fn or_of(alloc: Global, parts: &[u16]) -> Result<Step, Memory>
    ensures { IfOk result (λ step. step ≡ Or parts.now) }
{
    let mut items = SmallVec::<u32, 8>::new(alloc);
    for part in parts {
        if items.push(u32::from(*part)).is_err() {
            return Err(Memory);
        }
    }
    let parts = Parts::new(items);
    Ok(Step::Or { parts })
}
