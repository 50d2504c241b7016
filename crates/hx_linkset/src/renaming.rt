//! Steps with other numbers for the links that they name.

ghost use Rattle.std.specs.Prelude.{◌≡◌, ℕ, ◌<◌, map, length, slice_index, IfOk};
ghost use Rattle.hx_board.specs.Lists.{StandsIn};
ghost use Rattle.hx_linkset.specs.States.{Names};
ghost use Rattle.hx_linkset.specs.Derivations.{renamed};

use hx_board::Memory;
use hx_link::{Parts, Step};
use smallvec::SmallVec;
use std::alloc::Global;

/// The parts of an Or, each under its new name.
fn renamed_parts(alloc: Global, names: &[u16], parts: &[u32]) -> Result<Parts, Memory>
    requires { (place : ℕ) → StandsIn parts.now place → place < length names.now }
    ensures { IfOk result (λ new.
        new ≡ map (λ (place : ℕ). slice_index names.now place) parts.now) }
{
    let mut items: SmallVec<u32, 8> = SmallVec::new(alloc);
    for place in parts {
        let name = names[*place as usize] as u32;
        if items.push(name).is_err() {
            return Err(Memory);
        }
    }
    Ok(Parts::new(items))
}

/// The step with each link that it names under its new name.
pub(crate) fn renamed_step(alloc: Global, names: &[u16], step: &Step) -> Result<Step, Memory>
    requires { (place : ℕ) → Names step.now place → place < length names.now }
    ensures { IfOk result (λ new.
        new ≡ renamed (λ (place : ℕ). slice_index names.now place) step.now) }
{
    match step {
        Step::Base { a, b } => Ok(Step::Base { a: *a, b: *b }),
        Step::AndStone { left, right } => {
            let left = names[*left as usize] as u32;
            let right = names[*right as usize] as u32;
            Ok(Step::AndStone { left, right })
        }
        Step::AndCell { left, right } => {
            let left = names[*left as usize] as u32;
            let right = names[*right as usize] as u32;
            Ok(Step::AndCell { left, right })
        }
        Step::Or { parts } => {
            let Ok(parts) = renamed_parts(alloc, names, parts.items()) else {
                return Err(Memory);
            };
            Ok(Step::Or { parts })
        }
    }
}

/// The new names of these places.
pub(crate) fn names_of(alloc: Global, names: &[u16], places: &[u32]) -> Result<Vec<u32>, Memory>
    requires { (place : ℕ) → StandsIn places.now place → place < length names.now }
    ensures { IfOk result (λ new.
        new.items ≡ map (λ (place : ℕ). slice_index names.now place) places.now) }
{
    let Ok(mut new) = Vec::with_capacity(alloc, places.len()) else {
        return Err(Memory);
    };
    for place in places {
        let number = names[*place as usize] as u32;
        if new.push(number).is_err() {
            return Err(Memory);
        }
    }
    Ok(new)
}
