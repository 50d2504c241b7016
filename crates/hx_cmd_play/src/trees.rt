//! Reading the text of a tree that is to be played by. Its nodes are kept, each has to be plain, and the text may not
//! be large.

ghost use Rattle.std.specs.Prelude.{◌≡◌, ◌+◌, ◌<◌, ◌≤◌, ◌++◌, ◌∷◌, ℕ, true, [], List, Option, length, MatchResult, IfOk, false};
ghost use Rattle.hx_io.specs.Sources.{IsAtEnd, SomeReadFailed};
ghost use Rattle.hx_cmd_check.specs.Standings.{HasReadAll, JudgedUpTo};
ghost use Rattle.hx_tree.specs.declared.nodes.Node.{Node as TreeNode};
ghost use Rattle.hx_tree.specs.Plain.{ArePlain, IsPlain};
ghost use Rattle.hx_cmd_play.specs.Refusals.{IsDue};
ghost use Rattle.hx_cmd_play.specs.Trees.{HasReadTree};
ghost use Rattle.hx_cmd_play.specs.Standings.{HasTaken, IsGoing, KeepsBrought, KeepsNode, Takes};

use crate::refusals::Refusal;
use hx_cmd_check::{Brought, Fault, Judge};
use hx_io::Source;
use hx_lines::LineCutter;
use hx_tree::{Node, plain};
use std::alloc::Global;

/// The most bytes of the text of a tree that is played by.
pub(crate) const MOST_BYTES: usize = 16_777_216;

/// The text of a tree as far as it was read: the judge of its lines, its nodes, and how many bytes its lines have.
#[derive(Drop)]
pub(crate) struct TreeSoFar {
    judge: Judge,
    nodes: Vec<Node>,
    bytes: usize,
}

impl TreeSoFar {
    /// No line was read. It takes no memory.
    fn new(alloc: Global) -> TreeSoFar
        ensures going { IsGoing result }
        ensures nothing { (before : Option (List ℕ)) → HasTaken before result [] [] before }
        ensures none { result.bytes ≡ 0 }
    {
        TreeSoFar {
            judge: Judge::new(alloc),
            nodes: Vec::new(alloc),
            bytes: 0,
        }
    }

    /// Its nodes.
    fn into_nodes(self) -> Vec<Node>
        ensures { result.items ≡ self.nodes.items }
    {
        self.nodes
    }

    /// Reads one more line, and says whether it is the last one of the text.
    fn take_line<S: Source>(
        &mut self,
        lines: &mut LineCutter,
        source: &mut S,
    ) -> Result<bool, Refusal>
        requires met_end { lines.old.met_end ≡ true → IsAtEnd (S.reading source.old).left }
        requires going { IsGoing self.old }
        ensures met_end { lines.new.met_end ≡ true → IsAtEnd (S.reading source.new).left }
        ensures going { IfOk result (λ ended. ended ≡ false → IsGoing self.new) }
        ensures takes { (before : Option (List ℕ)) (so_far : List (List ℕ))
            → HasTaken before self.old so_far lines.old.held (S.reading source.old).left
            → Takes before so_far self.new lines.new (S.reading source.new).left
            (SomeReadFailed (S.reading source.old) (S.reading source.new)) result }
        ensures more { IfOk result (λ _. self.old.bytes < self.new.bytes) }
        ensures later { (S.reading source.old).faults ≤ (S.reading source.new).faults }
    {
        let brought = match self.judge.next(lines, source) {
            Ok(brought) => brought,
            Err(fault) => return Err(Refusal::NoTree(fault)),
        };
        self.bytes += lines.line().len() + 1;
        match self.keep(brought) {
            Ok(ended) => {
                if self.bytes > MOST_BYTES {
                    Err(Refusal::NoTree(Fault::TooLong))
                } else {
                    Ok(ended)
                }
            }
            Err(refusal) => Err(refusal),
        }
    }

    /// Keeps the node that a line ended, and says whether the line is the last one of the text.
    fn keep(&mut self, brought: Brought) -> Result<bool, Refusal>
        ensures keeps { KeepsBrought self.old brought self.new result }
    {
        match brought {
            Brought::Line => Ok(false),
            Brought::Node(node) => {
                self.keep_node(node)?;
                Ok(false)
            }
            Brought::End => Ok(true),
        }
    }

    /// Keeps a node, where it is plain.
    fn keep_node(&mut self, node: Node) -> Result<(), Refusal>
        ensures keeps { KeepsNode self.old node self.new result }
    {
        if !plain(&node) {
            return Err(Refusal::NoPlain {
                node: self.nodes.len() as u64,
            });
        }
        match self.nodes.push(node) {
            Ok(()) => Ok(()),
            Err(_) => Err(Refusal::NoTree(Fault::OutOfMemory)),
        }
    }
}

/// Reads the text of a valid tree of plain nodes, up to its last line. What the cutter holds then comes behind it.
pub(crate) fn read_tree<S: Source>(
    alloc: Global,
    lines: &mut LineCutter,
    source: &mut S,
) -> Result<Vec<Node>, Refusal>
    requires new { lines.old.held ≡ [] }
    requires met_end { lines.old.met_end ≡ true → IsAtEnd (S.reading source.old).left }
    ensures met_end { lines.new.met_end ≡ true → IsAtEnd (S.reading source.new).left }
    ensures read { MatchResult result
        (λ nodes. HasReadTree (S.reading source.old).left nodes.items lines.new.held
        (S.reading source.new).left)
        (IsDue (S.reading source.old).left (S.reading source.new).left
        (SomeReadFailed (S.reading source.old) (S.reading source.new))) }
    ensures later { (S.reading source.old).faults ≤ (S.reading source.new).faults }
{
    let mut so_far = TreeSoFar::new(alloc);
    // Each line has its LF at least, so there are no more lines than bytes.
    for _ in 0..=MOST_BYTES {
        match so_far.take_line(lines, source) {
            Ok(true) => return Ok(so_far.into_nodes()),
            Ok(false) => continue,
            Err(refusal) => return Err(refusal),
        }
    }
    unreachable!()
}
