//! A checker that is given the nodes of a tree one by one, as a reader of its text comes to them. Of a right node it
//! keeps the heading alone, which is all that a later node refers to, so its memory grows by 64 bytes a node and not by
//! its lists.

ghost use Rattle.std.specs.Prelude.{◌≡◌, ◌-◌, ◌<◌, ◌≤◌, ◌↔◌, ◌++◌, ◌∷◌, [], length, slice_get, IsTrue, IfOk, OnErr, MatchBool};
ghost use Rattle.hx_tree.specs.Rules.{IsRightNode};

use crate::nodes::{Heading, Node};
use crate::rules::check_node;
use hx_board::Memory;
use std::alloc::Global;
use std::marker::Model;

/// The most headings that a checker holds.
pub const MOST_NODES: u32 = 1_048_576;

/// The headings of nodes, each of which is right after those before it. Contracts see it as the list of the headings.
#[derive(Drop)]
pub struct Checker {
    headings: Vec<Heading>,
}

impl Model for Checker {
    ghost use Rattle.std.specs.Prelude.{List, ◌≤◌, length};
    ghost use Rattle.hx_tree.specs.declared.nodes.Heading.{Heading as Shown};
    ghost use Rattle.hx_tree.specs.declared.checkers.TheConstants.{MOST_NODES};

    ghost Value = { List Shown };

    ghost view = { λ c. c.headings.items };

    ghost invariant = { λ c. length c.headings.items ≤ MOST_NODES };
}

impl Checker {
    /// A checker that holds no heading. It takes no memory.
    pub fn new(alloc: Global) -> Checker
        ensures { result ≡ [] }
    {
        Checker {
            headings: Vec::new(alloc),
        }
    }

    /// Whether the node is right after the headings that are held. Only then its heading is held too, as the last one.
    pub fn take(&mut self, node: &Node) -> Result<bool, Memory>
        requires { length self.old < MOST_NODES }
        ensures right { IfOk result (λ answer. IsTrue answer ↔ IsRightNode self.old node.now) }
        ensures held { IfOk result (λ answer. MatchBool answer
            (self.new ≡ self.old ++ node.now.heading ∷ [])
            (self.new ≡ self.old)) }
        ensures unchanged { OnErr result (self.new ≡ self.old) }
    {
        let alloc = *self.headings.allocator();
        if !check_node(alloc, self.headings.as_slice(), node)? {
            return Ok(false);
        }
        match self.headings.push(node.heading) {
            Ok(()) => Ok(true),
            Err(_) => Err(Memory),
        }
    }

    /// How many headings are held.
    pub fn held(&self) -> u32
        ensures count { result ≡ length self.now }
        ensures few { result ≤ MOST_NODES }
    {
        self.headings.len() as u32
    }

    /// The heading that is held last, which is the root's where the nodes are a whole tree. None exactly where none is
    /// held.
    pub fn root(&self) -> Option<Heading>
        ensures { result ≡ slice_get self.now (length self.now - 1) }
    {
        self.headings.last().copied()
    }
}
