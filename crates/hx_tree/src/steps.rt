//! The steps of a node: the links that they give, and what these show.
//!
//! The winner's groups are made once for a node. Then a Base costs a look-up in their table, an And a comparison of
//! four ends and a few operations on masks; of both, the most is the test of the result's ends. The links of 8,000
//! steps take 256 kilobytes, until the node is judged.

ghost use Rattle.std.specs.Prelude.{◌≡◌, ◌↔◌, IsTrue, IfOk, IsOk, MatchOption, [], ℕ, List, true};
ghost use Rattle.hx_board.specs.Sets.{has};
ghost use Rattle.hx_link.specs.declared.links.Link.{Link as LinkOf};
ghost use Rattle.hx_tree.specs.Steps.{GiveLinks, AreRightLinks, ShowWin, AreThreats, IsThreat, IsThreatOn};
ghost use Rattle.hx_tree.specs.Answers.{IsToAnswer};

use crate::nodes::Heading;
use hx_board::{Colour, Groups, Mask, Memory, Position};
use hx_link::{Kind, Link, Step, result_of};
use std::alloc::Global;

/// The most steps of a node that give links.
pub const MOST_STEPS: usize = 8192;

/// The most threats of a node.
pub const MOST_THREATS: usize = 128;

/// The links that steps of the player give, one after the other. None where there are too many steps, or where one of
/// them gives no link.
pub(crate) fn links_of(
    alloc: Global,
    position: &Position,
    colour: Colour,
    steps: &[Step],
) -> Result<Option<Vec<Link>>, Memory>
    // No memory is taken for no steps.
    ensures answers { steps.now ≡ [] → IsOk result }
    ensures links { IfOk result (λ links. MatchOption links
        ((all : List LinkOf) → GiveLinks position.now colour steps.now all → ⊥)
        (λ found. GiveLinks position.now colour steps.now found.items)) }
{
    if steps.is_empty() {
        return Ok(Some(Vec::new(alloc)));
    }
    if MOST_STEPS < steps.len() {
        return Ok(None);
    }
    let groups = Groups::of(position, colour);
    let mut links = Vec::with_capacity(alloc, steps.len()).map_err(|_| Memory)?;
    for step in steps {
        match result_of(position, colour, &groups, links.as_slice(), step) {
            Some(link) => links.push_reserved(link),
            None => return Ok(None),
        }
    }
    Ok(Some(links))
}

/// Whether the last of the links that the steps give joins the winner's two sides, in time.
pub(crate) fn check_links(alloc: Global, heading: &Heading, steps: &[Step]) -> Result<bool, Memory>
    ensures answers { steps.now ≡ [] → IsOk result }
    ensures right { IfOk result (λ answer. IsTrue answer ↔ AreRightLinks heading.now steps.now) }
{
    match links_of(alloc, &heading.position, heading.winner, steps)? {
        Some(links) => Ok(shows_win(heading, links.as_slice())),
        None => Ok(false),
    }
}

/// Whether the last link joins the winner's two sides, and is Full or comes with the move.
fn shows_win(heading: &Heading, links: &[Link]) -> bool
    ensures { IsTrue result ↔ ShowWin heading.now links.now }
{
    match links.last() {
        Some(last) => {
            let in_time = last.kind == Kind::Full || heading.to_move == heading.winner;
            last.joins_sides() && in_time
        }
        None => false,
    }
}

/// The cells that the opponent's moves are to be answered on: those of the empty cells that are in the carriers of all
/// threats. None where there are too many threats, or where one is no link between the two sides.
pub(crate) fn cells_to_answer(position: &Position, links: &[Link], threats: &[u32]) -> Option<Mask>
    ensures { MatchOption result (AreThreats links.now threats.now → ⊥)
        (λ cells. AreThreats links.now threats.now
        × ((cell : ℕ) → (has cells cell ≡ true)
        ↔ IsToAnswer position.now links.now threats.now cell)) }
{
    if MOST_THREATS < threats.len() {
        return None;
    }
    let mut shared = position.empties();
    for place in threats {
        match threat_at(links, *place) {
            Some(carrier) => shared = shared.meet(carrier),
            None => return None,
        }
    }
    Some(shared)
}

/// The carrier of the link at a place, where it joins the two sides.
fn threat_at(links: &[Link], place: u32) -> Option<Mask>
    ensures { MatchOption result (¬ IsThreat links.now place)
        (λ carrier. IsThreatOn links.now place carrier) }
{
    match links.get(place as usize) {
        Some(link) => {
            if link.joins_sides() {
                Some(link.carrier)
            } else {
                None
            }
        }
        None => None,
    }
}
