//! Where a player stands in its tree, and how it moves there.
//!
//! It is at a node whose position is on the board, and follows the tree by moves and child lines. From a node by links,
//! or from a threat that the opponent's stone leaves alone, on it keeps links and reads no node any more.
//!
//! The links of a node's steps are made when play comes to the node, which is most of the time of an answer; an answer
//! in links that are kept looks at marks alone.

ghost use Rattle.std.specs.Prelude.{◌≡◌, ◌≤◌, ℕ, [], List, length, Some, MatchOption, slice_get, IfNone};
ghost use Rattle.std.specs.Vec.{vec_capacity};
ghost use Rattle.hx_board.specs.Colours.{other_of};
ghost use Rattle.hx_board.specs.Positions.{IsEmpty, put};
ghost use Rattle.hx_link.specs.Steps.{AreRightSteps, IsChainLink};
ghost use Rattle.hx_link.specs.declared.links.Link.{Link as LinkOf};
ghost use Rattle.hx_tree.specs.declared.steps.TheConstants.{MOST_STEPS};
ghost use Rattle.hx_tree.specs.declared.nodes.Node.{Node as TreeNode};
ghost use Rattle.hx_tree.specs.Answers.{HasChild};
ghost use Rattle.hx_tree.specs.Rules.{steps_of};
ghost use Rattle.hx_tree.specs.Steps.{GiveLinks};
ghost use Rattle.hx_play.specs.declared.stands.Stage.TheVariants.{AtNode, InLinks};
ghost use Rattle.hx_play.specs.Kept.{IsMarked};
ghost use Rattle.hx_play.specs.Standings.{StandsAt, IsIn, IsAtNode, FitsStage, KeepsLinksOf, StartsBy, IsAnswering, Moves};
ghost use Rattle.hx_play.specs.Chosen.{AnswersBy, IsThreatWithout};

use crate::kept::{move_in_kept, move_in_link};
use hx_board::{Cell, Colour, Groups, Mask, Position};
use hx_link::{Link, Step, result_of};
use hx_tree::{Heading, Line, Node, Rule};

/// By what a player moves.
#[derive(Clone, Copy, Debug, PartialEq, Eq)]
pub(crate) enum Stage {
    /// By a node whose position is on the board.
    AtNode,

    /// By the links that it keeps of a node that it came to.
    InLinks,
}

/// Where a player stands.
#[derive(Debug, Drop)]
pub(crate) struct Stand {
    pub(crate) position: Position,
    pub(crate) winner: Colour,
    pub(crate) to_move: Colour,

    /// The place of the node, or of the one whose links are kept.
    pub(crate) node: usize,
    pub(crate) stage: Stage,

    /// The node's links, in the order of its steps, and which of them are kept.
    pub(crate) links: Vec<Link>,
    pub(crate) marks: Vec<bool>,
}

/// Moves by the node that it is at. None only where it has a chain.
pub(crate) fn move_at_node(nodes: &[Node], stand: &mut Stand) -> Option<Cell>
    requires stands { StandsAt nodes.now stand.old }
    requires stage { stand.old.stage ≡ AtNode }
    requires turn { stand.old.to_move ≡ stand.old.winner }
    ensures { Moves nodes.now stand.old.winner stand.old.position stand.new result }
{
    let node = node_of(nodes, stand);
    match &node.rule {
        Rule::Chain => None,
        Rule::Move { cell, child } => {
            stand.position.play(stand.winner, *cell);
            stand.node = *child as usize;
            stand.to_move = stand.winner.other();
            Some(*cell)
        }
        Rule::Links { steps } => {
            let steps = steps.items();
            enter_links(&node.heading, steps, &mut stand.links, &mut stand.marks);
            start_by_link(nodes, node, stand, steps.len() - 1)
        }
        Rule::All { .. } => unreachable!(),
        Rule::Fill { .. } => unreachable!(),
        Rule::Turned { .. } => unreachable!(),
    }
}

/// Answers the opponent's move to a cell. None only where the player has a chain.
pub(crate) fn reply(nodes: &[Node], stand: &mut Stand, cell: Cell) -> Option<Cell>
    requires stands { StandsAt nodes.now stand.old }
    requires turn { stand.old.to_move ≡ other_of stand.old.winner }
    requires empty { IsEmpty stand.old.position cell }
    ensures { Moves nodes.now stand.old.winner
        (put stand.old.position (other_of stand.old.winner) cell) stand.new result }
{
    let node = node_of(nodes, stand);
    match stand.stage {
        Stage::AtNode => reply_at_node(nodes, node, stand, cell),
        Stage::InLinks => reply_in_links(nodes, node, stand, cell),
    }
}

/// Answers the opponent's move to a cell by the node that it is at. None only where the player has a chain.
fn reply_at_node(nodes: &[Node], node: &Node, stand: &mut Stand, cell: Cell) -> Option<Cell>
    requires is_in { IsIn nodes.now stand.old node.now }
    requires stage { stand.old.stage ≡ AtNode }
    requires is_at { IsAtNode node.now stand.old }
    requires turn { stand.old.to_move ≡ other_of stand.old.winner }
    requires empty { IsEmpty stand.old.position cell }
    ensures { Moves nodes.now stand.old.winner
        (put stand.old.position (other_of stand.old.winner) cell) stand.new result }
{
    match &node.rule {
        Rule::Chain => None,
        Rule::Links { steps } => {
            let steps = steps.items();
            enter_links(&node.heading, steps, &mut stand.links, &mut stand.marks);
            stand.marks[steps.len() - 1] = true;
            stand.stage = Stage::InLinks;
            reply_in_links(nodes, node, stand, cell)
        }
        Rule::All { threats, lines, .. } => {
            reply_at_answers(nodes, node, threats.items(), lines.items(), stand, cell)
        }
        Rule::Move { .. } => unreachable!(),
        Rule::Fill { .. } => unreachable!(),
        Rule::Turned { .. } => unreachable!(),
    }
}

/// Answers the opponent's move to a cell at a node with answers: by the line for the cell, or by a threat that leaves
/// it out. None only where the player has a chain.
fn reply_at_answers(
    nodes: &[Node],
    node: &Node,
    threats: &[u32],
    lines: &[Line],
    stand: &mut Stand,
    cell: Cell,
) -> Option<Cell>
    requires stands { IsAnswering nodes.now node.now threats.now lines.now stand.old }
    requires empty { IsEmpty stand.old.position cell }
    ensures { Moves nodes.now stand.old.winner
        (put stand.old.position (other_of stand.old.winner) cell) stand.new result }
{
    stand.position.play(stand.winner.other(), cell);
    if let Some(child) = child_for(lines, cell) {
        stand.node = child as usize;
        stand.to_move = stand.winner;
        return move_at_node(nodes, stand);
    }
    let steps = steps_in(&node.rule);
    enter_links(&node.heading, steps, &mut stand.links, &mut stand.marks);
    let Some(place) = threat_without(stand.links.as_slice(), threats, cell) else {
        unreachable!()
    };
    start_by_link(nodes, node, stand, place as usize)
}

/// Answers the opponent's move to a cell in the links that are kept. None only where the player has a chain.
fn reply_in_links(nodes: &[Node], node: &Node, stand: &mut Stand, cell: Cell) -> Option<Cell>
    requires is_in { IsIn nodes.now stand.old node.now }
    requires stage { stand.old.stage ≡ InLinks }
    requires keeps { KeepsLinksOf node.now stand.old }
    requires empty { IsEmpty stand.old.position cell }
    ensures { Moves nodes.now stand.old.winner
        (put stand.old.position (other_of stand.old.winner) cell) stand.new result }
{
    stand.position.play(stand.winner.other(), cell);
    let moved = move_in_kept(
        &node.heading,
        steps_in(&node.rule),
        stand.links.as_slice(),
        stand.marks.as_mut_slice(),
        &mut stand.position,
        Some(cell),
    );
    // The proof takes from here that the place is in links, as it was.
    stand.stage = Stage::InLinks;
    stand.to_move = stand.winner.other();
    moved
}

/// Moves in the link at a place, and is in links from here on. None only where the player has a chain.
fn start_by_link(nodes: &[Node], node: &Node, stand: &mut Stand, place: usize) -> Option<Cell>
    requires is_in { IsIn nodes.now stand.old node.now }
    requires starts { StartsBy node.now stand.old place }
    ensures { Moves nodes.now stand.old.winner stand.old.position stand.new result }
{
    let moved = move_in_link(
        &node.heading,
        steps_in(&node.rule),
        stand.links.as_slice(),
        stand.marks.as_mut_slice(),
        &mut stand.position,
        place,
    );
    stand.stage = Stage::InLinks;
    stand.to_move = stand.winner.other();
    moved
}

/// The node that the player is at, or in whose links it is.
fn node_of<'a>(nodes: &'a [Node], stand: &Stand) -> &'a Node
    requires { StandsAt nodes.now stand.now }
    ensures is_in { IsIn nodes.now stand.now result.now }
    ensures stage { FitsStage result.now stand.now stand.now.stage }
{
    &nodes[stand.node]
}

/// Comes to the links of a node, of which none is kept yet.
fn enter_links(heading: &Heading, steps: &[Step], links: &mut Vec<Link>, marks: &mut Vec<bool>)
    requires right { (all : List LinkOf)
        × GiveLinks heading.now.position heading.now.winner steps.now all }
    requires room { length steps.now ≤ vec_capacity links.old }
    ensures right { AreRightSteps heading.now.position heading.now.winner [] steps.now
        links.new.items }
    ensures none { (place : ℕ) → IsMarked marks.new.items place → ⊥ }
    ensures room { vec_capacity links.new ≡ vec_capacity links.old }
    ensures long { length marks.new.items ≡ length marks.old.items }
{
    read_links(heading, steps, links);
    clear_marks(marks.as_mut_slice());
}

/// Reads the links of a node's steps, which are right.
fn read_links(heading: &Heading, steps: &[Step], links: &mut Vec<Link>)
    requires right { (all : List LinkOf)
        × GiveLinks heading.now.position heading.now.winner steps.now all }
    requires room { length steps.now ≤ vec_capacity links.old }
    ensures right { AreRightSteps heading.now.position heading.now.winner [] steps.now
        links.new.items }
    ensures room { vec_capacity links.new ≡ vec_capacity links.old }
{
    links.clear();
    let groups = Groups::of(&heading.position, heading.winner);
    for step in steps {
        let before = links.as_slice();
        match result_of(&heading.position, heading.winner, &groups, before, step) {
            Some(link) => links.push_reserved(link),
            None => unreachable!(),
        }
    }
}

/// Takes all marks away.
fn clear_marks(marks: &mut [bool])
    ensures { (place : ℕ) → IsMarked marks.new place → ⊥ }
{
    for mark in marks.iter_mut() {
        *mark = false;
    }
}

/// The steps of a rule.
fn steps_in(rule: &Rule) -> &[Step]
    ensures { result.now ≡ steps_of rule.now }
{
    match rule {
        Rule::Links { steps } | Rule::All { steps, .. } => steps.items(),
        Rule::Chain | Rule::Move { .. } | Rule::Fill { .. } | Rule::Turned { .. } => &[],
    }
}

/// The child of the line for a cell.
fn child_for(lines: &[Line], cell: Cell) -> Option<u32>
    ensures { MatchOption result (HasChild lines.now cell → ⊥) (AnswersBy lines.now cell) }
{
    for line in lines {
        if let Line::Child {
            cell: answered,
            child,
        } = line
        {
            if *answered == cell {
                return Some(*child);
            }
        }
    }
    None
}

/// The first threat that leaves a cell out.
fn threat_without(links: &[Link], threats: &[u32], cell: Cell) -> Option<u32>
    ensures { MatchOption result
        ((place : ℕ) → IsThreatWithout links.now threats.now cell place → ⊥)
        (IsThreatWithout links.now threats.now cell) }
{
    for place in threats {
        if let Some(link) = links.get(*place as usize) {
            if !link.carrier.has(cell) {
                return Some(*place);
            }
        }
    }
    None
}
