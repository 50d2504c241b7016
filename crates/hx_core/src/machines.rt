//! One event after the other.
//!
//! `can_happen` is public beside `apply`, since a caller must be able to test what that requires of an event.

ghost use Rattle.std.specs.Prelude.{◌≡◌, ◌<◌, ◌↔◌, IsTrue, IfOk, length};
ghost use Rattle.hx_tree.specs.Rules.{IsRightNode};
ghost use Rattle.hx_tree.specs.Trees.{headings_of};
ghost use Rattle.hx_core.specs.declared.events.Event.TheVariants.{Store, Hold, Release, LookAtWord};
ghost use Rattle.hx_core.specs.Machine.{IsWorker, CanHappen, MachineStep};

use crate::events::{Event, Reply};
use crate::states::State;
use hx_board::Memory;
use hx_tree::{Heading, Node, check_node};
use std::alloc::Global;

/// What one event does, and what the worker is answered. It takes no memory.
pub fn apply(state: &mut State, event: Event) -> Reply
    requires { CanHappen state.old event }
    ensures { MachineStep state.old event result state.new }
{
    match event {
        Event::Look {
            worker,
            position,
            to_move,
        } => state.look(worker, &position, to_move),
        Event::Store { worker, node } => state.store(worker, node),
        Event::Tell { from, to } => state.tell(from, to),
        Event::Spend { worker } => state.spend(worker),
        Event::Hold { worker, word } => state.hold(worker, word),
        Event::Release { worker, word } => state.release(worker, word),
        Event::LookAtWord { word, .. } => Reply::Losses(state.losses(word)),
    }
}

/// Whether an event may happen. It takes memory for the headings of the nodes that a storing worker has seen, and to
/// check the node, and lets it go again.
pub fn can_happen(alloc: Global, state: &State, event: &Event) -> Result<bool, Memory>
    ensures { IfOk result (λ answer. IsTrue answer ↔ CanHappen state.now event.now) }
{
    match event {
        Event::Look { worker, .. } => Ok(state.is_worker(*worker)),
        Event::Store { worker, node } => state.can_store(alloc, *worker, node),
        Event::Tell { from, to } => Ok(state.is_worker(*from) && state.is_worker(*to)),
        Event::Spend { worker } => Ok(state.has_account(*worker)),
        Event::Hold { worker, word } => Ok(state.can_hold(*worker, *word)),
        Event::Release { worker, word } => Ok(state.can_release(*worker, *word)),
        Event::LookAtWord { worker, word } => Ok(state.can_look_at(*worker, *word)),
    }
}

impl State {
    fn is_worker(&self, worker: u32) -> bool
        ensures { IsTrue result ↔ IsWorker self.now worker }
    {
        (worker as usize) < self.seen.len()
    }

    fn has_account(&self, worker: u32) -> bool
        ensures { IsTrue result ↔ (worker < length self.now.counts.accounts) }
    {
        (worker as usize) < self.accounts.len()
    }

    fn can_store(&self, alloc: Global, worker: u32, node: &Node) -> Result<bool, Memory>
        ensures { IfOk result (λ answer. IsTrue answer
            ↔ CanHappen self.now (Store worker node.now)) }
    {
        if (worker as usize) >= self.seen.len() {
            return Ok(false);
        }
        let seen = self.seen[worker as usize] as usize;
        is_right_after(alloc, &self.nodes[..seen], node)
    }

    fn can_hold(&self, worker: u32, word: u32) -> bool
        ensures { IsTrue result ↔ CanHappen self.now (Hold worker word) }
    {
        if (worker as usize) >= self.accounts.len() {
            return false;
        }
        self.accounts[worker as usize].may_hold(word)
    }

    fn can_release(&self, worker: u32, word: u32) -> bool
        ensures { IsTrue result ↔ CanHappen self.now (Release worker word) }
    {
        if (worker as usize) >= self.accounts.len() {
            return false;
        }
        self.accounts[worker as usize].times(word) > 0
    }

    fn can_look_at(&self, worker: u32, word: u32) -> bool
        ensures { IsTrue result ↔ CanHappen self.now (LookAtWord worker word) }
    {
        if (worker as usize) >= self.accounts.len() {
            return false;
        }
        self.accounts[worker as usize].has(word)
    }
}

/// Whether a node is right after these.
fn is_right_after(alloc: Global, nodes: &[Node], node: &Node) -> Result<bool, Memory>
    ensures { IfOk result (λ answer. IsTrue answer ↔ IsRightNode (headings_of nodes.now) node.now) }
{
    let headings = headings(alloc, nodes)?;
    check_node(alloc, headings.as_slice(), node)
}

/// The headings of some nodes.
fn headings(alloc: Global, nodes: &[Node]) -> Result<Vec<Heading>, Memory>
    ensures { IfOk result (λ headings. headings.items ≡ headings_of nodes.now) }
{
    let mut headings = Vec::new(alloc);
    for node in nodes {
        if headings.push(node.heading).is_err() {
            return Err(Memory);
        }
    }
    Ok(headings)
}
