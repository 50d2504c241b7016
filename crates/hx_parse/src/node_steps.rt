//! A node whose lines come one by one. Its first line tells how many entries of each kind follow, and it is handed out
//! with the last of them.

ghost use Rattle.std.specs.Prelude.{◌≡◌, ◌<◌, ◌≤◌, [], IsTrue, IfSome, IfNone, false, vec_capacity};
ghost use Rattle.hx_parse.specs.EntryReads.{rule_for};
ghost use Rattle.hx_parse.specs.Places.{Goes, GoesOn, BeginsNode, EndsNode, AddsEntry, SettlesNode, kind_due};

use crate::answer_lines::read_answer;
use crate::begun_nodes::Begun;
use crate::entry_lines::read_entry;
use crate::fill_lines::read_fill;
use crate::places::{Fed, Next, Place, Stop};
use crate::so_far::SoFar;
use crate::step_lines::{read_step, read_threat};
use crate::whole_nodes::whole_node;
use hx_board::Memory;
use hx_inferior::FillStep;
use hx_link::Step;
use hx_text::{Entry, EntryKind, Head, Opening};
use hx_tree::{FillSteps, Line, Lines, Node, Rule, Steps, Threats};
use std::alloc::{AllocError, Global};

/// What comes after a node's first line.
pub(crate) fn begin(alloc: Global, so_far: SoFar, head: Head) -> Result<Next, Stop>
    ensures { BeginsNode so_far head result }
{
    match whole_node(&head) {
        Some(node) => Ok(with_node(so_far, node)),
        None => begin_lists(alloc, so_far, head),
    }
}

/// What comes after the first line of a node that as many entries follow as the line tells.
fn begin_lists(alloc: Global, so_far: SoFar, head: Head) -> Result<Next, Stop>
    ensures { BeginsNode so_far head result }
{
    let opening = &head.opening;
    let steps_told = opening.steps();
    let threats_told = opening.threats();
    let answers_told = opening.answers();
    let fills_told = opening.fills();
    let Some(steps) = list_for(alloc, steps_told) else {
        return Err(Stop::Memory);
    };
    let Some(threats) = list_for(alloc, threats_told) else {
        return Err(Stop::Memory);
    };
    let Some(lines) = list_for(alloc, answers_told) else {
        return Err(Stop::Memory);
    };
    let Some(fills) = list_for(alloc, fills_told) else {
        return Err(Stop::Memory);
    };
    let missing = u64::from(steps_told)
        + u64::from(threats_told)
        + u64::from(answers_told)
        + u64::from(fills_told);
    Ok(settled(Begun {
        so_far,
        head,
        missing,
        steps,
        threats,
        lines,
        fills,
    }))
}

/// An empty list with room for so many entries. It takes memory where there are some.
fn list_for<T>(alloc: Global, entries: u32) -> Option<Vec<T>>
    ensures empty { IfSome result (λ list. list.items ≡ []) }
    ensures room { IfSome result (λ list. entries ≤ vec_capacity list) }
    ensures memory { IfNone result (0 < entries) }
{
    match Vec::with_capacity(alloc, entries as usize) {
        Ok(list) => Some(list),
        Err(AllocError) => None,
    }
}

/// Takes an entry that more entries follow, and says whether it did. Where it did not, the node is as it was.
pub(crate) fn goes_on(alloc: Global, begun: &mut Begun, line: &[u8]) -> bool
    ensures yes { IsTrue result
        → GoesOn (Place.Inside begun.old) line.now (Place.Inside begun.new) }
    ensures no { result ≡ false → begun.new ≡ begun.old }
{
    if begun.missing < 2 {
        return false;
    }
    match begun.kind_due() {
        EntryKind::Step => step_goes_on(alloc, begun, line),
        EntryKind::Threat => threat_goes_on(begun, line),
        EntryKind::Answer => answer_goes_on(begun, line),
        EntryKind::Fill => fill_goes_on(begun, line),
    }
}

// Most lines of a text are entries that more entries follow. Each kind has a function of its own, since an entry of any
// kind would be handed over through memory.

/// Takes the line of a step, where one is due and more entries follow.
fn step_goes_on(alloc: Global, begun: &mut Begun, line: &[u8]) -> bool
    requires more { 1 < begun.old.missing }
    requires due { kind_due begun.old ≡ EntryKind.Step }
    ensures yes { IsTrue result
        → GoesOn (Place.Inside begun.old) line.now (Place.Inside begun.new) }
    ensures no { result ≡ false → begun.new ≡ begun.old }
{
    match read_step(alloc, begun.size(), line) {
        Ok(Some(step)) => begun.takes(Entry::Step(step)),
        Ok(None) | Err(Memory) => false,
    }
}

/// Takes the line of a threat, where one is due and more entries follow.
fn threat_goes_on(begun: &mut Begun, line: &[u8]) -> bool
    requires more { 1 < begun.old.missing }
    requires due { kind_due begun.old ≡ EntryKind.Threat }
    ensures yes { IsTrue result
        → GoesOn (Place.Inside begun.old) line.now (Place.Inside begun.new) }
    ensures no { result ≡ false → begun.new ≡ begun.old }
{
    match read_threat(line) {
        Some(place) => begun.takes(Entry::Threat(place)),
        None => false,
    }
}

/// Takes the line of an answer, where one is due and more entries follow.
fn answer_goes_on(begun: &mut Begun, line: &[u8]) -> bool
    requires more { 1 < begun.old.missing }
    requires due { kind_due begun.old ≡ EntryKind.Answer }
    ensures yes { IsTrue result
        → GoesOn (Place.Inside begun.old) line.now (Place.Inside begun.new) }
    ensures no { result ≡ false → begun.new ≡ begun.old }
{
    match read_answer(begun.size(), line) {
        Some(answer) => begun.takes(Entry::Answer(answer)),
        None => false,
    }
}

/// Takes the line of a fill step, where one is due and more entries follow.
fn fill_goes_on(begun: &mut Begun, line: &[u8]) -> bool
    requires more { 1 < begun.old.missing }
    requires due { kind_due begun.old ≡ EntryKind.Fill }
    ensures yes { IsTrue result
        → GoesOn (Place.Inside begun.old) line.now (Place.Inside begun.new) }
    ensures no { result ≡ false → begun.new ≡ begun.old }
{
    match read_fill(begun.size(), line) {
        Some(fill) => begun.takes(Entry::Fill(fill)),
        None => false,
    }
}

/// Takes a line of a node after its first.
pub(crate) fn inside(alloc: Global, begun: Begun, line: &[u8]) -> Result<Next, Stop>
    ensures { Goes (Place.Inside begun) line.now result }
{
    match read_entry(alloc, begun.size(), begun.kind_due(), line) {
        Ok(Some(entry)) => add_entry(begun, entry),
        Ok(None) => Err(Stop::Wrong),
        Err(Memory) => Err(Stop::Memory),
    }
}

/// What comes after an entry.
fn add_entry(mut begun: Begun, entry: Entry) -> Result<Next, Stop>
    ensures { AddsEntry begun entry result }
{
    if begun.takes(entry) {
        Ok(settled(begun))
    } else {
        Err(Stop::Memory)
    }
}

/// What comes after the lines of a node, which may be all of them.
fn settled(begun: Begun) -> Next
    ensures { SettlesNode begun result }
{
    if begun.missing > 0 {
        return Next {
            fed: Fed::More,
            place: Place::Inside(begun),
        };
    }
    let heading = begun.head.heading;
    let rule = rule_of(
        begun.head.opening,
        begun.steps,
        begun.threats,
        begun.lines,
        begun.fills,
    );
    with_node(begun.so_far, Node { heading, rule })
}

/// The rule that begins so and has these entries.
fn rule_of(
    opening: Opening,
    steps: Vec<Step>,
    threats: Vec<u32>,
    lines: Vec<Line>,
    fills: Vec<FillStep>,
) -> Rule
    ensures { result ≡ rule_for opening steps.items threats.items lines.items fills.items }
{
    let steps = Steps::new(steps);
    match opening {
        Opening::Chain => Rule::Chain,
        Opening::Links { .. } => Rule::Links { steps },
        Opening::Move { cell, child } => Rule::Move { cell, child },
        Opening::All { .. } => Rule::All {
            steps,
            threats: Threats::new(threats),
            lines: Lines::new(lines),
        },
        Opening::Fill { child, .. } => Rule::Fill {
            steps: FillSteps::new(fills),
            child,
        },
        Opening::Turned { child } => Rule::Turned { child },
    }
}

/// What comes after a node's last line.
fn with_node(so_far: SoFar, node: Node) -> Next
    ensures { EndsNode so_far node result }
{
    let next = SoFar {
        preamble: so_far.preamble,
        count: so_far.count.saturating_add(1),
        winner: Some(node.heading.winner),
    };
    Next {
        fed: Fed::Node(node),
        place: Place::Between(next),
    }
}
