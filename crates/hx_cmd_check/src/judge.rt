//! Judging an input: the text of a tree is read up to the first fault, and nothing may follow the line that ends it.

ghost use Rattle.std.specs.Prelude.{◌≡◌, ◌≤◌, ℕ, true, List, Option};
ghost use Rattle.hx_io.specs.Sources.{IsAtEnd, SomeReadFailed};
ghost use Rattle.hx_tree.specs.declared.nodes.Node.{Node as TreeNode};
ghost use Rattle.hx_cmd_check.specs.Judgements.{IsDue};
ghost use Rattle.hx_cmd_check.specs.Standings.{HasJudgedSome, JudgedUpTo, HasReadAll};

use crate::faults::Fault;
use crate::judgements::Judgement;
use crate::judges::{Brought, Judge, next_line_is_wrong};
use hx_io::{Failed, Source};
use hx_lines::{Cut, LineCutter};
use std::alloc::Global;

/// What is to be said of the input that a source gives.
pub(crate) fn judge<S: Source>(alloc: Global, source: &mut S) -> Judgement
    ensures { IsDue (S.reading source.old).left (S.reading source.new).left
        (SomeReadFailed (S.reading source.old) (S.reading source.new)) result }
{
    let mut cutter = LineCutter::new();
    let mut judge = Judge::new(alloc);
    for _ in 0..u64::MAX {
        match judge.next(&mut cutter, source) {
            Ok(Brought::Line) => continue,
            Ok(Brought::Node(_)) => continue,
            Ok(Brought::End) => return at_end(&mut cutter, source, &judge),
            Err(fault) => return Judgement::No(fault),
        }
    }
    // No text that has as many nodes as `check` accepts has so many lines.
    unreachable!()
}

/// The judgement after the last line of a text, which nothing may follow.
fn at_end<S: Source>(cutter: &mut LineCutter, source: &mut S, judge: &Judge) -> Judgement
    requires met_end { cutter.old.met_end ≡ true → IsAtEnd (S.reading source.old).left }
    requires judged { HasJudgedSome judge.now }
    requires whole { HasReadAll judge.now }
    ensures met_end { cutter.new.met_end ≡ true → IsAtEnd (S.reading source.new).left }
    ensures due { (before : Option (List ℕ)) (nodes : List TreeNode) (lines : List (List ℕ))
        → JudgedUpTo before judge.now nodes lines cutter.old.held (S.reading source.old).left
        → IsDue before (S.reading source.new).left
        (SomeReadFailed (S.reading source.old) (S.reading source.new)) result }
    ensures later { (S.reading source.old).faults ≤ (S.reading source.new).faults }
{
    match cutter.next(source) {
        Ok(Cut::Over) => match judge.root() {
            Some(root) => Judgement::Yes { root },
            // A whole text has a node.
            None => unreachable!(),
        },
        Ok(Cut::Line { .. }) => Judgement::No(next_line_is_wrong(judge.lines())),
        Ok(Cut::TooLong) => Judgement::No(Fault::TooLong),
        Err(Failed) => Judgement::No(Fault::ReadFault),
    }
}
