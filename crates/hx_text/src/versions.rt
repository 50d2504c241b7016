//! The versions of a tree's text, and what the lines before its nodes say.
//!
//! Version and size are one value, `Preamble`, since a node fits in a text by both: a text of
//! version 1 has no turned node. The places of the reader, the definitions of texts and the
//! laws over them take it whole.

ghost use Rattle.std.specs.Prelude.{◌≡◌, ◌↔◌, IsTrue};
ghost use Rattle.hx_text.specs.Versions.{IsTurnedNode, HasTurned};

use hx_board::Size;
use hx_tree::{Node, Rule};

/// The version of a tree's text, which its first line tells.
#[derive(Clone, Copy, PartialEq, Eq, Debug)]
pub enum Version {
    /// No node is turned.
    One,
    /// A node may be turned.
    Two,
}

/// What the two lines before the nodes say.
#[derive(Clone, Copy, PartialEq, Eq, Debug)]
pub struct Preamble {
    pub version: Version,
    pub size: Size,
}

/// The version in which these nodes are written: the second exactly where some node is turned.
pub fn version_of(nodes: &[Node]) -> Version
    ensures { (result ≡ Version.Two) ↔ HasTurned nodes.now }
{
    for node in nodes {
        if is_turned(node) {
            return Version::Two;
        }
    }
    Version::One
}

/// Whether a node stands on an earlier one at the turned position.
fn is_turned(node: &Node) -> bool
    ensures { IsTrue result ↔ IsTurnedNode node.now }
{
    match &node.rule {
        Rule::Turned { .. } => true,
        _ => false,
    }
}
