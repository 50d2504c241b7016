//! What workers do with the list of nodes: look, store, and tell each other. This is the plain way, which reads the
//! list from its front.

ghost use Rattle.std.specs.Prelude.{◌≡◌, ◌≤◌, ◌↔◌, IsTrue, length};
ghost use Rattle.hx_tree.specs.declared.checkers.TheConstants.{MOST_NODES};
ghost use Rattle.hx_tree.specs.Entries.{FindsFirst};
ghost use Rattle.hx_core.specs.declared.events.Event.TheVariants.{Look, Store, Tell};
ghost use Rattle.hx_core.specs.Machine.{CanHappen, MachineStep};

use crate::events::Reply;
use crate::states::State;
use hx_board::{Colour, Position};
use hx_tree::{Found, Heading, Node};

impl State {
    /// A worker looks for the first entry of a position and mover. It has seen all nodes then.
    pub(crate) fn look(&mut self, worker: u32, position: &Position, to_move: Colour) -> Reply
        requires { CanHappen self.old (Look worker position.now to_move) }
        ensures { MachineStep self.old (Look worker position.now to_move) result self.new }
    {
        let found = find(self.nodes.as_slice(), position, to_move);
        self.seen[worker as usize] = self.nodes.len() as u32;
        Reply::Looked(found)
    }

    /// A worker stores a node that is right after those that it has seen. It has seen all nodes then.
    pub(crate) fn store(&mut self, worker: u32, node: Node) -> Reply
        requires { CanHappen self.old (Store worker node) }
        ensures { MachineStep self.old (Store worker node) result self.new }
    {
        let heading = &node.heading;
        let held = self.nodes.len() as u32;
        if let Some(entry) = find(self.nodes.as_slice(), &heading.position, heading.to_move) {
            self.seen[worker as usize] = held;
            return Reply::Stored(entry.index);
        }
        if held == self.slots {
            self.seen[worker as usize] = held;
            return Reply::NoSlot(held);
        }
        self.nodes.push_reserved(node);
        self.seen[worker as usize] = held + 1;
        Reply::Stored(held)
    }

    /// A worker tells another what it has seen.
    pub(crate) fn tell(&mut self, from: u32, to: u32) -> Reply
        requires { CanHappen self.old (Tell from to) }
        ensures { MachineStep self.old (Tell from to) result self.new }
    {
        let told = self.seen[from as usize];
        let own = self.seen[to as usize];
        self.seen[to as usize] = told.max(own);
        Reply::Told
    }
}

/// The first entry of a position and mover. None exactly where there is none.
fn find(nodes: &[Node], position: &Position, to_move: Colour) -> Option<Found>
    requires { length nodes.now ≤ MOST_NODES }
    ensures { FindsFirst nodes.now position.now to_move result }
{
    for (index, node) in nodes.iter().enumerate() {
        if is_of(&node.heading, position, to_move) {
            let winner = node.heading.winner;
            let index = index as u32;
            return Some(Found { index, winner });
        }
    }
    None
}

/// Whether a heading has this position and mover.
fn is_of(heading: &Heading, position: &Position, to_move: Colour) -> bool
    ensures { IsTrue result
        ↔ ((heading.now.position ≡ position.now) × (heading.now.to_move ≡ to_move)) }
{
    heading.position == *position && heading.to_move == to_move
}
