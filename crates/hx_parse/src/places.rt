//! The places in the text of a tree. A place holds all that the next line is judged by, so no earlier line is read
//! again.

ghost use Rattle.std.specs.Prelude.{◌≡◌};
ghost use Rattle.hx_parse.specs.Places.{version_at};

use crate::begun_nodes::Begun;
use crate::so_far::SoFar;
use hx_board::Colour;
use hx_text::{Preamble, Version};
use hx_tree::Node;
use thiserror::Error;

/// Why a text is not read on.
#[derive(Clone, Copy, PartialEq, Eq, Debug, Error)]
pub enum TreeFault {
    /// The line with this number, counted from 1, is not of the grammar in its place.
    #[error("line {line} is not of the grammar in its place")]
    Text { line: u64 },
    /// The line begins one node more than is read, which is this many.
    #[error("the text has more than {nodes} nodes")]
    TooMany { nodes: u32 },
    /// Memory for a node's lists was wanting.
    #[error("there is not enough memory")]
    Memory,
}

/// What a line brought.
#[derive(PartialEq, Eq, Debug, Drop)]
pub enum Fed {
    /// Nothing yet.
    More,
    /// A node, which ends with this line.
    Node(Node),
    /// The end of the text, with the winner of its last node.
    End(Colour),
}

/// Where the next line stands.
#[derive(Debug, Drop)]
pub enum Place {
    /// At the first line, the title.
    Title,
    /// At the line of the board's size, after the title of a text of this version.
    Size(Version),
    /// At the first line of a node, or at the last line.
    Between(SoFar),
    /// At a later line of a node.
    Inside(Begun),
    /// After the last line.
    After(Preamble),
    /// After a line that was not taken. The version is that of the text, if its first line was.
    Failed {
        fault: TreeFault,
        version: Option<Version>,
    },
}

impl Place {
    /// The version of the text, if its first line was read.
    pub(crate) fn version(&self) -> Option<Version>
        ensures { result ≡ version_at self.now }
    {
        match self {
            Place::Title => None,
            Place::Size(version) => Some(*version),
            Place::Between(so_far) => Some(so_far.preamble.version),
            Place::Inside(begun) => Some(begun.so_far.preamble.version),
            Place::After(preamble) => Some(preamble.version),
            Place::Failed { version, .. } => *version,
        }
    }
}

/// What a line brought, and the place after it.
#[derive(Drop)]
pub struct Next {
    pub fed: Fed,
    pub place: Place,
}

/// Why a line is not taken.
#[derive(Clone, Copy)]
pub enum Stop {
    /// It is not of the grammar in its place.
    Wrong,
    /// It begins one node more than is read.
    TooMany,
    /// Memory was wanting.
    Memory,
}
