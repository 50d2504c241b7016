//! Entries of a book.

ghost use Rattle.std.specs.Prelude.{◌≡◌, IfOk};
ghost use Rattle.hx_packed.specs.Children.{child_of, lines_of};
ghost use Rattle.hx_packed.specs.KeptRules.{rule_of};

use crate::rules::KeptRule;
use hx_board::Memory;
use hx_tree::{Heading, Line, Node};
use std::alloc::Global;
use std::marker::Model;

/// A node, in little room.
#[derive(Debug, Drop)]
pub struct Entry {
    heading: Heading,
    rule: KeptRule,
}

/// What docs/performance.md tells of.
const _: () = prove!(size_of::<Entry>() == 96);

impl Model for Entry {
    ghost use Rattle.hx_tree.specs.declared.nodes.Node.{Node};

    ghost Value = { Node };

    ghost use Rattle.hx_packed.specs.KeptRules.{rule_of};

    ghost view = { λ e. record { heading = e.heading; rule = rule_of e.rule } };
}

impl Entry {
    /// The entry of a node with this rule.
    pub(crate) fn by_rule(heading: Heading, rule: KeptRule) -> Entry
        ensures { result ≡ record { heading = heading; rule = rule_of rule } }
    {
        Entry { heading, rule }
    }

    /// What the node says.
    pub fn heading(&self) -> &Heading
        ensures { result.now ≡ self.now.heading }
    {
        &self.heading
    }

    /// The one child that the node's rule leads to. None where it leads to none, or answers moves.
    pub fn child(&self) -> Option<u32>
        ensures { result ≡ child_of self.now.rule }
    {
        self.rule.child()
    }

    /// The lines of a node that answers moves. No line of another node.
    pub fn lines(&self) -> &[Line]
        ensures { result.now ≡ lines_of self.now.rule }
    {
        self.rule.lines()
    }

    /// The node, while the entry stays.
    pub fn to_node(&self, alloc: Global) -> Result<Node, Memory>
        ensures { IfOk result (λ node. node ≡ self.now) }
    {
        let rule = self.rule.to_rule(alloc)?;
        Ok(Node {
            heading: self.heading,
            rule,
        })
    }

    /// The node.
    pub fn into_node(self) -> Result<Node, Memory>
        ensures { IfOk result (λ node. node ≡ self) }
    {
        let Entry { heading, rule } = self;
        let rule = rule.into_rule()?;
        Ok(Node { heading, rule })
    }
}
