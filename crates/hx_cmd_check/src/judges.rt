//! Reading the text of a tree from a source, line by line, up to the one that ends it. A node is judged when its last
//! line was read, and is handed on where it is right. Only its heading is kept, since a later node refers to no more
//! than that.

ghost use Rattle.std.specs.Prelude.{◌≡◌, ◌+◌, ◌<◌, ◌≤◌, ◌^◌, ◌-◌, ◌++◌, ◌∷◌, ℕ, true, [], List, Option, length, slice_get, IsOk, Result};
ghost use Rattle.hx_io.specs.Sources.{IsAtEnd, SomeReadFailed};
ghost use Rattle.hx_tree.specs.declared.nodes.Node.{Node as TreeNode};
ghost use Rattle.hx_tree.specs.Rules.{IsRightNode};
ghost use Rattle.hx_text.specs.Lengths.{most_nodes};
ghost use Rattle.hx_parse.specs.Reader.{lines_fed};
ghost use Rattle.hx_cmd_check.specs.Standings.{HasJudged, HasJudgedSome, JudgedUpTo, HasReadAll, Brings, AnswersNode};

use crate::faults::Fault;
use hx_board::Memory;
use hx_io::{Failed, Source};
use hx_lines::{Cut, LineCutter};
use hx_parse::{Fed, TreeFault, TreeReader};
use hx_tree::{Checker, Heading, Node};
use std::alloc::Global;

/// What one more line of a tree's text brought.
#[derive(Debug, Drop)]
pub enum Brought {
    /// A line behind which the text goes on, and which ends no node.
    Line,
    /// The last line of a node that is right after those before it.
    Node(Node),
    /// The last line of the text.
    End,
}

/// Judges the lines and nodes of one text of a tree in their order, up to the first fault. It keeps the node that is
/// being read and the headings of those before it.
#[derive(Drop)]
pub struct Judge {
    reader: TreeReader,
    checker: Checker,
}

impl Judge {
    /// A judge that was given no line. It takes no memory.
    pub fn new(alloc: Global) -> Judge
        ensures nothing { HasJudged result [] [] }
        ensures unended { ¬ HasReadAll result }
    {
        Judge {
            reader: TreeReader::new(alloc),
            checker: Checker::new(alloc),
        }
    }

    /// How many lines it was given, the last one with them.
    pub fn lines(&self) -> u64
        ensures { result ≡ lines_fed self.now.reader }
    {
        self.reader.lines()
    }

    /// The heading of the last node, which is the root's where the text has ended. None exactly where no node has
    /// ended.
    pub fn root(&self) -> Option<Heading>
        ensures { result ≡ slice_get self.now.checker (length self.now.checker - 1) }
    {
        self.checker.root()
    }

    /// Reads one more line and judges it, and the node that it ends.
    pub fn next<S: Source>(
        &mut self,
        cutter: &mut LineCutter,
        source: &mut S,
    ) -> Result<Brought, Fault>
        requires met_end { cutter.old.met_end ≡ true → IsAtEnd (S.reading source.old).left }
        requires judged { HasJudgedSome self.old }
        requires unended { ¬ HasReadAll self.old }
        ensures met_end { cutter.new.met_end ≡ true → IsAtEnd (S.reading source.new).left }
        // Behind whatever lines and nodes came before.
        ensures brings { (before : Option (List ℕ)) (nodes : List TreeNode) (lines : List (List ℕ))
            → JudgedUpTo before self.old nodes lines cutter.old.held (S.reading source.old).left
            → Brings before nodes lines self.new cutter.new (S.reading source.new).left
            (SomeReadFailed (S.reading source.old) (S.reading source.new)) result }
        ensures later { (S.reading source.old).faults ≤ (S.reading source.new).faults }
    {
        match cutter.next(source) {
            Ok(Cut::Line { ended }) => match self.reader.feed(cutter.line(), ended) {
                Ok(Fed::More) => Ok(Brought::Line),
                Ok(Fed::Node(node)) => judge_node(&mut self.checker, node),
                Ok(Fed::End(_)) => Ok(Brought::End),
                Err(TreeFault::Text { line }) => Err(Fault::NoText { line }),
                Err(TreeFault::TooMany { .. }) => Err(Fault::TooLong),
                Err(TreeFault::Memory) => Err(Fault::OutOfMemory),
            },
            Ok(Cut::TooLong) => Err(Fault::TooLong),
            Ok(Cut::Over) => Err(next_line_is_wrong(self.lines())),
            Err(Failed) => Err(Fault::ReadFault),
        }
    }
}

/// Judges a node, whose heading is kept where it is right.
fn judge_node(checker: &mut Checker, node: Node) -> Result<Brought, Fault>
    requires { length checker.old < most_nodes }
    ensures { AnswersNode checker.old node checker.new result }
{
    match checker.take(&node) {
        Ok(true) => Ok(Brought::Node(node)),
        Ok(false) => Err(Fault::NoNode {
            node: checker.held() as u64,
        }),
        Err(Memory) => Err(Fault::OutOfMemory),
    }
}

/// The fault where the line after so many lines is missing or may not stand there.
pub(crate) fn next_line_is_wrong(lines: u64) -> Fault
    ensures { lines < 2 ^ 64 - 1 → result ≡ Fault.NoText (lines + 1) }
{
    Fault::NoText {
        line: lines.saturating_add(1),
    }
}
