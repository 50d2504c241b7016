//! A position's winner, with a tree that proves it.

ghost use Rattle.std.specs.Prelude.{◌≤◌, length};
ghost use Rattle.std.specs.List.{All};
ghost use Rattle.hx_io.specs.Sinks.{WritesAll};
ghost use Rattle.hx_text.specs.TreeTexts.{ListsFit};
ghost use Rattle.hx_text.specs.Lengths.{most_nodes};
ghost use Rattle.hx_cmd_solve.specs.Answers.{nodes_text, solution_text};

use hx_board::{Colour, Size};
use hx_io::{Failed, Sink};
use hx_text::{Version, write_end, write_heading, write_node};
use hx_tree::Node;

/// The winner of a position, the nodes of a tree that proves it, the last of which is of that position, and the version
/// of the tree's text.
#[derive(Debug, Drop, PartialEq, Eq)]
pub struct Solution {
    pub version: Version,
    pub size: Size,
    pub winner: Colour,
    pub nodes: Vec<Node>,
}

/// Writes the text of the tree.
#[tactic(auto, using(hx_io::proofs::SinkLaws::several_writes))]
pub(crate) fn write_solution<K: Sink>(sink: &mut K, solution: &Solution) -> Result<(), Failed>
    requires count { length solution.now.nodes.items ≤ most_nodes }
    requires lists { All (λ node. ListsFit node.rule) solution.now.nodes.items }
    ensures { WritesAll (K.writing sink.old) (K.writing sink.new) result
        (solution_text solution.now) }
{
    match write_heading(sink, solution.version, solution.size) {
        Ok(()) => {}
        Err(Failed) => return Err(Failed),
    }
    match write_nodes(sink, &solution.nodes) {
        Ok(()) => write_end(sink, solution.nodes.len() as u32, solution.winner),
        Err(Failed) => Err(Failed),
    }
}

/// Writes each node.
fn write_nodes<K: Sink>(sink: &mut K, nodes: &[Node]) -> Result<(), Failed>
    requires { All (λ node. ListsFit node.rule) nodes.now }
    ensures { WritesAll (K.writing sink.old) (K.writing sink.new) result (nodes_text nodes.now) }
{
    for node in nodes {
        match write_node(sink, node) {
            Ok(()) => {}
            Err(Failed) => return Err(Failed),
        }
    }
    Ok(())
}
