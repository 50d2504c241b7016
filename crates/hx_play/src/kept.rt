//! Links that a player keeps, by marks on the places of a node's links.
//!
//! The rules are Anshelevich's: a Full link joins its two ends even where the opponent moves first, and a Semi link
//! does where the player moves first. An Or unites Semi links of the same ends, no cell of which is in all, so the
//! opponent's stone leaves one of them alone. What is kept are Full links that share no cell and on whose cells the
//! opponent has no stone. When the opponent has moved, the player moves in the link that the stone touches: it takes
//! the cell over which a part that the stone leaves alone goes. The two links of that part are Full, and are kept in
//! place of the Or.
//!
//! A list of places would want a bound on its length, which only a count of carriers that share no cell gives.
//!
//! A call that moves in links answers a cell, or None where the player has a chain. So none of them requires that there
//! is no chain; `answer` of players.rt alone does, with a branch that is never taken.

ghost use Rattle.std.specs.Prelude.{◌≡◌, ◌+◌, ◌<◌, ◌≤◌, ℕ, List, [], length, false, Some, None, Option, MatchOption, Contains, slice_get};
ghost use Rattle.hx_board.specs.Positions.{Board};
ghost use Rattle.hx_board.specs.Graph.{HasChain};
ghost use Rattle.hx_link.specs.declared.links.Link.{Link as LinkOf};
ghost use Rattle.hx_link.specs.Steps.{AreRightSteps, IsChainLink};
ghost use Rattle.hx_play.specs.Kept.{AreKept, IsKept, IsMarked, ArePartedFrom, IsChosen, IsSpared, IsDueAt, IsOver, HasMoved, touches};

use hx_board::{Cell, Colour, Mask, Position, Size};
use hx_link::{Kind, Link, Step};
use hx_tree::Heading;

/// Moves in the link at a place, which joins the two sides and on whose cells there is no stone yet. None only where
/// the player has a chain.
pub(crate) fn move_in_link(
    heading: &Heading,
    steps: &[Step],
    links: &[Link],
    marks: &mut [bool],
    position: &mut Position,
    place: usize,
) -> Option<Cell>
    requires right { AreRightSteps heading.now.position heading.now.winner [] steps.now links.now }
    requires room { length steps.now ≤ length marks.old }
    requires due { (link : LinkOf) × (slice_get links.now place ≡ Some link)
        × AreKept heading.now.position heading.now.winner links.now marks.old (Some link) None
        position.old }
    ensures { MatchOption result (HasChain position.old heading.now.winner)
        (HasMoved heading.now.position heading.now.winner links.now marks.new
        position.old position.new) }
{
    match links[place].kind {
        Kind::Semi => Some(take_cell(heading, steps, links, marks, position, place)),
        Kind::Full => {
            marks[place] = true;
            move_in_kept(heading, steps, links, marks, position, None)
        }
    }
}

/// Moves in the kept links, where the stone is the opponent's last one. None only where the player has a chain.
pub(crate) fn move_in_kept(
    heading: &Heading,
    steps: &[Step],
    links: &[Link],
    marks: &mut [bool],
    position: &mut Position,
    stone: Option<Cell>,
) -> Option<Cell>
    requires right { AreRightSteps heading.now.position heading.now.winner [] steps.now links.now }
    requires room { length steps.now ≤ length marks.old }
    requires kept { AreKept heading.now.position heading.now.winner links.now marks.old None stone
        position.old }
    ensures { MatchOption result (HasChain position.old heading.now.winner)
        (HasMoved heading.now.position heading.now.winner links.now marks.new
        position.old position.new) }
{
    take_all_apart(&heading.position, heading.winner, steps, links, marks);
    let Some(chosen) = next_link(links, marks, &stone) else {
        return None;
    };
    let Step::Or { parts } = &steps[chosen] else {
        unreachable!()
    };
    marks[chosen] = false;
    let Some(part) = spared_part(links, parts.items(), &stone) else {
        unreachable!()
    };
    Some(take_cell(heading, steps, links, marks, position, part as usize))
}

/// Takes the kept links apart until each that is left is an Or.
fn take_all_apart(
    position: &Position,
    player: Colour,
    steps: &[Step],
    links: &[Link],
    marks: &mut [bool],
)
    requires right { AreRightSteps position.now player [] steps.now links.now }
    requires room { length steps.now ≤ length marks.old }
    ensures { (stone : Option ℕ) (board : Board)
        → AreKept position.now player links.now marks.old None stone board
        → ArePartedFrom position.now player steps.now links.now marks.new stone board 0 }
{
    for place in (0..steps.len()).rev() {
        if marks[place] {
            take_apart(position, player, steps, links, marks, place);
        }
    }
}

/// Takes a kept link apart: one over a stone gives way to its two parts, and one whose ends are joined to nothing.
fn take_apart(
    position: &Position,
    player: Colour,
    steps: &[Step],
    links: &[Link],
    marks: &mut [bool],
    place: usize,
)
    requires right { AreRightSteps position.now player [] steps.now links.now }
    requires room { length steps.now ≤ length marks.old }
    requires within { place < length steps.now }
    requires marked { IsMarked marks.old place }
    ensures { (stone : Option ℕ) (board : Board)
        → ArePartedFrom position.now player steps.now links.now marks.old stone board (place + 1)
        → ArePartedFrom position.now player steps.now links.now marks.new stone board place }
{
    match &steps[place] {
        Step::Base { .. } => marks[place] = false,
        Step::AndStone { left, right } => {
            marks[place] = false;
            marks[*left as usize] = true;
            marks[*right as usize] = true;
        }
        Step::AndCell { .. } => {}
        Step::Or { .. } => {}
    }
}

/// The kept link to move in: the one that the stone touches, else the first.
fn next_link(links: &[Link], marks: &[bool], stone: &Option<Cell>) -> Option<usize>
    requires { length links.now ≤ length marks.now }
    ensures { MatchOption result
        ((place : ℕ) (link : LinkOf) → IsKept links.now marks.now place link → ⊥)
        (IsChosen links.now marks.now stone.now) }
{
    match touched_link(links, marks, stone) {
        Some(place) => Some(place),
        None => first_link(links, marks),
    }
}

/// The first kept link that the stone touches.
fn touched_link(links: &[Link], marks: &[bool], stone: &Option<Cell>) -> Option<usize>
    requires { length links.now ≤ length marks.now }
    ensures { MatchOption result
        ((place : ℕ) (link : LinkOf) → IsKept links.now marks.now place link
        → touches stone.now link.carrier ≡ false)
        (IsChosen links.now marks.now stone.now) }
{
    for (place, link) in links.iter().enumerate() {
        if marks[place] && is_touched(link.carrier, stone) {
            return Some(place);
        }
    }
    None
}

/// The first kept link.
fn first_link(links: &[Link], marks: &[bool]) -> Option<usize>
    requires { length links.now ≤ length marks.now }
    ensures { MatchOption result
        ((place : ℕ) (link : LinkOf) → IsKept links.now marks.now place link → ⊥)
        (λ place. (link : LinkOf) × IsKept links.now marks.now place link) }
{
    for (place, _) in links.iter().enumerate() {
        if marks[place] {
            return Some(place);
        }
    }
    None
}

/// The first part that the stone leaves alone.
fn spared_part(links: &[Link], parts: &[u32], stone: &Option<Cell>) -> Option<u32>
    ensures { MatchOption result
        ((place : ℕ) → IsSpared links.now parts.now stone.now place → ⊥)
        (IsSpared links.now parts.now stone.now) }
{
    for place in parts {
        if let Some(link) = links.get(*place as usize) {
            if !is_touched(link.carrier, stone) {
                return Some(*place);
            }
        }
    }
    None
}

/// Moves to the cell over which the Semi link at a place goes, and keeps its two parts.
fn take_cell(
    heading: &Heading,
    steps: &[Step],
    links: &[Link],
    marks: &mut [bool],
    position: &mut Position,
    place: usize,
) -> Cell
    requires right { AreRightSteps heading.now.position heading.now.winner [] steps.now links.now }
    requires room { length steps.now ≤ length marks.old }
    requires within { place < length steps.now }
    requires due { IsDueAt heading.now.position heading.now.winner links.now marks.old
        position.old place }
    ensures { HasMoved heading.now.position heading.now.winner links.now marks.new
        position.old position.new result }
{
    let Step::AndCell { left, right } = &steps[place] else {
        unreachable!()
    };
    let left = *left as usize;
    let right = *right as usize;
    let whole = carrier_at(links, place);
    let first = carrier_at(links, left);
    let second = carrier_at(links, right);
    let cell = cell_between(position.size(), whole, first, second);
    position.play(heading.winner, cell);
    marks[left] = true;
    marks[right] = true;
    cell
}

/// The cell of a set that is in neither of the two others.
fn cell_between(size: Size, whole: Mask, first: Mask, second: Mask) -> Cell
    requires { (cell : ℕ) × IsOver size whole first second cell }
    ensures { IsOver size whole first second result }
{
    // To find it by the ends of the links would ask which end of each is the common one.
    match whole.minus(first.union(second)).least(size) {
        Some(cell) => cell,
        None => unreachable!(),
    }
}

/// The carrier of the link at a place.
fn carrier_at(links: &[Link], place: usize) -> Mask
    requires { (link : LinkOf) × (slice_get links.now place ≡ Some link) }
    ensures { (link : LinkOf) → slice_get links.now place ≡ Some link → result ≡ link.carrier }
{
    match link_at(links, place) {
        Some(link) => link.carrier,
        None => unreachable!(),
    }
}

/// The link at a place.
fn link_at(links: &[Link], place: usize) -> Option<Link>
    ensures { result ≡ slice_get links.now place }
{
    links.get(place).copied()
}

/// Whether the stone, if there is one, is on a cell of the set.
fn is_touched(set: Mask, stone: &Option<Cell>) -> bool
    ensures { result ≡ touches stone.now set }
{
    match stone {
        Some(cell) => set.has(*cell),
        None => false,
    }
}
