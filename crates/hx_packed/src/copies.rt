//! Copies of rules, for whoever reads a node and leaves its entry where it is.

ghost use Rattle.std.specs.Prelude.{◌≡◌, IfOk};

use hx_board::Memory;
use hx_inferior::FillStep;
use hx_link::{Parts, Step, Steps};
use hx_tree::{FillSteps, Line, Lines, Rule, Threats};
use smallvec::SmallVec;
use std::alloc::Global;

/// The same rule once more.
pub(crate) fn copied_rule(alloc: Global, rule: &Rule) -> Result<Rule, Memory>
    ensures { IfOk result (λ copy. copy ≡ rule.now) }
{
    match rule {
        Rule::Chain => Ok(Rule::Chain),
        Rule::Links { steps } => {
            let steps = copied_steps(alloc, steps)?;
            Ok(Rule::Links { steps })
        }
        Rule::Move { cell, child } => Ok(Rule::Move {
            cell: *cell,
            child: *child,
        }),
        Rule::All {
            steps,
            threats,
            lines,
        } => {
            let steps = copied_steps(alloc, steps)?;
            let threats = copied_threats(alloc, threats)?;
            let lines = copied_lines(alloc, lines)?;
            Ok(Rule::All {
                steps,
                threats,
                lines,
            })
        }
        Rule::Fill { steps, child } => {
            let steps = copied_fills(alloc, steps)?;
            Ok(Rule::Fill {
                steps,
                child: *child,
            })
        }
        Rule::Turned { child } => Ok(Rule::Turned { child: *child }),
    }
}

/// The same fill steps once more.
pub(crate) fn copied_fills(alloc: Global, steps: &FillSteps) -> Result<FillSteps, Memory>
    ensures { IfOk result (λ copy. copy ≡ steps.now) }
{
    let mut items: Vec<FillStep> = Vec::new(alloc);
    if items.extend_from_slice(steps.items()).is_err() {
        return Err(Memory);
    }
    Ok(FillSteps::new(items))
}

/// The same threats once more.
pub(crate) fn copied_threats(alloc: Global, threats: &Threats) -> Result<Threats, Memory>
    ensures { IfOk result (λ copy. copy ≡ threats.now) }
{
    let mut places: Vec<u32> = Vec::new(alloc);
    if places.extend_from_slice(threats.items()).is_err() {
        return Err(Memory);
    }
    Ok(Threats::new(places))
}

/// The same lines once more.
pub(crate) fn copied_lines(alloc: Global, lines: &Lines) -> Result<Lines, Memory>
    ensures { IfOk result (λ copy. copy ≡ lines.now) }
{
    let mut items: Vec<Line> = Vec::new(alloc);
    if items.extend_from_slice(lines.items()).is_err() {
        return Err(Memory);
    }
    Ok(Lines::new(items))
}

/// The same steps once more.
fn copied_steps(alloc: Global, steps: &Steps) -> Result<Steps, Memory>
    ensures { IfOk result (λ copy. copy ≡ steps.now) }
{
    let Ok(mut copies) = Vec::with_capacity(alloc, steps.items().len()) else {
        return Err(Memory);
    };
    for step in steps.items() {
        let copy = copied_step(alloc, step)?;
        if copies.push(copy).is_err() {
            return Err(Memory);
        }
    }
    Ok(Steps::new(copies))
}

/// The same step once more.
fn copied_step(alloc: Global, step: &Step) -> Result<Step, Memory>
    ensures { IfOk result (λ copy. copy ≡ step.now) }
{
    match step {
        Step::Base { a, b } => Ok(Step::Base { a: *a, b: *b }),
        Step::AndStone { left, right } => Ok(Step::AndStone {
            left: *left,
            right: *right,
        }),
        Step::AndCell { left, right } => Ok(Step::AndCell {
            left: *left,
            right: *right,
        }),
        Step::Or { parts } => {
            let parts = copied_parts(alloc, parts)?;
            Ok(Step::Or { parts })
        }
    }
}

/// The same parts once more.
fn copied_parts(alloc: Global, parts: &Parts) -> Result<Parts, Memory>
    ensures { IfOk result (λ copy. copy ≡ parts.now) }
{
    match SmallVec::from_slice(alloc, parts.items()) {
        Ok(items) => Ok(Parts::new(items)),
        Err(_) => Err(Memory),
    }
}
