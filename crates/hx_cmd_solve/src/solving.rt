//! The whole command, from the input to the exit status: a position is read, workers search it, and the tree that they
//! come to is written, or why there is none. Where the tree is to be plain, one worker searches.

ghost use Rattle.std.specs.Prelude.{◌≡◌, ◌<◌, true, IfOk, IfErr};
ghost use Rattle.hx_board.specs.Counts.{IsSmall};
ghost use Rattle.hx_board.specs.Graph.{HasNoChain};
ghost use Rattle.hx_io.specs.Sources.{SomeReadFailed};
ghost use Rattle.hx_tree.specs.declared.nodes.Node.{Node as TreeNode};
ghost use Rattle.hx_tree.specs.Plain.{ArePlain};
ghost use Rattle.hx_tree.specs.Trees.{IsValidTree, IsRoot};
ghost use Rattle.hx_limits.specs.Settings.{AreSettings};
ghost use Rattle.hx_limits.specs.Causes.{HasCause, LacksMemory, LacksUnit};
ghost use Rattle.hx_solve.specs.Solutions.{IsSolution};
ghost use Rattle.hx_answers.specs.Endings.{IsReadToEnd, IsWritten};
ghost use Rattle.hx_cmd_solve.specs.Answers.{CanBeWritten, IsDue, IsFound, IsSolveRun, IsVersionOf, answer_text, status_of, tally_of};
ghost use Rattle.hx_cmd_solve.specs.Promises.{KeepsPromises};

use crate::answers::{Answer, write_answer};
use crate::solutions::Solution;
use hx_answers::{Unread, WRITE_FAULT, read_all};
use hx_board::{Colour, Position};
use hx_finish::{Finding, Finish, Wanting, left_open, root_winner};
use hx_io::{Failed, Gate, Sink, Source};
use hx_limits::{RanOut, Settings};
use hx_lines::LONGEST;
use hx_parse::read_position;
use hx_solve::{solve_naming_move, solve_plain};
use hx_text::version_of;
use hx_tree::Node;
use std::alloc::Global;
use std::sync::Wait;
use std::thread::Threads;

/// Reads the text of a position, solves it with these settings, and writes the text of a tree that proves who wins it,
/// or why there is none.
///
/// It may wait for a worker. Before each of its turns a worker calls the gate.
pub fn run_solve<S: Source, K: Sink, G: Gate + Sync, R: Threads + Wait + Sync>(
    rt: &R,
    alloc: Global,
    settings: Settings,
    plain_tree: bool,
    source: &mut S,
    sink: &mut K,
    gate: &G,
) -> Finish
    requires { AreSettings settings }
    // Some answer is due, and it was written whole, or the sink failed before it took all of it.
    ensures run { IsSolveRun settings plain_tree
        (S.reading source.old) (S.reading source.new)
        (K.writing sink.old) (K.writing sink.new) result }

    // The tree that is written is a valid one of the input's position, and its winner alone wins; a small position is
    // not left open, unless a fault or want of memory comes in its place; and a refusal that is told was counted.
    ensures promises { KeepsPromises settings plain_tree
        (S.reading source.old) (S.reading source.new)
        (K.writing sink.old) (K.writing sink.new) result }
{
    let Finding { answer, tally } = settle(rt, alloc, settings, plain_tree, source, gate);
    let status = say(sink, &answer);
    Finish { status, tally }
}

/// Writes an answer, and gives the exit status.
fn say<K: Sink>(sink: &mut K, answer: &Answer) -> u8
    requires { CanBeWritten answer.now }
    ensures { IsWritten (K.writing sink.old) (K.writing sink.new)
        (answer_text answer.now) (status_of answer.now) result }
{
    match write_answer(sink, answer) {
        Ok(()) => answer.status(),
        Err(Failed) => WRITE_FAULT,
    }
}

/// What is to be said, before any of it is written.
fn settle<S: Source, G: Gate + Sync, R: Threads + Wait + Sync>(
    rt: &R,
    alloc: Global,
    settings: Settings,
    plain_tree: bool,
    source: &mut S,
    gate: &G,
) -> Finding<Answer>
    requires { AreSettings settings }
    ensures due { IsDue settings plain_tree (S.reading source.old).left
        (SomeReadFailed (S.reading source.old) (S.reading source.new)) result.answer }
    ensures read_to_end { status_of result.answer ≡ 0
        → IsReadToEnd (S.reading source.old).left (S.reading source.new).left }
    ensures counted { result.tally ≡ tally_of settings result.answer }
    ensures writable { CanBeWritten result.answer }
{
    match read_all(alloc, source, LONGEST) {
        Ok(bytes) => found(rt, alloc, settings, plain_tree, &bytes, gate),
        Err(Unread::Failed) => Finding::without_refusal(settings, Answer::ReadFault),
        Err(Unread::TooLong) => Finding::without_refusal(settings, Answer::TooLong),
        Err(Unread::OutOfMemory) => Finding::without_refusal(
            settings,
            Answer::LeftOpen(Wanting::OutOfMemory),
        ),
    }
}

/// What is to be said of an input.
fn found<G: Gate + Sync, R: Threads + Wait + Sync>(
    rt: &R,
    alloc: Global,
    settings: Settings,
    plain_tree: bool,
    input: &[u8],
    gate: &G,
) -> Finding<Answer>
    requires { AreSettings settings }
    ensures found { IsFound settings plain_tree input.now result.answer }
    ensures counted { result.tally ≡ tally_of settings result.answer }
    ensures writable { CanBeWritten result.answer }
{
    let (position, to_move) = match read_position(input) {
        Ok(found) => found,
        Err(fault) => {
            return Finding::without_refusal(settings, Answer::BadPosition { line: fault.line });
        }
    };
    match search(rt, alloc, &position, to_move, settings, plain_tree, gate) {
        Ok(nodes) => Finding::without_refusal(
            settings,
            Answer::Solved(solution_of(&position, nodes)),
        ),
        Err(why) => {
            let Finding { answer, tally } = left_open(settings, why);
            Finding {
                answer: Answer::LeftOpen(answer),
                tally,
            }
        }
    }
}

/// The tree of a position and mover, of plain nodes where it is to be plain, or what was wanting.
fn search<G: Gate + Sync, R: Threads + Wait + Sync>(
    rt: &R,
    alloc: Global,
    position: &Position,
    to_move: Colour,
    settings: Settings,
    plain_tree: bool,
    gate: &G,
) -> Result<Vec<Node>, RanOut>
    requires { AreSettings settings }
    ensures tree { IfOk result (λ tree. IsSolution position.now to_move tree.items) }
    ensures plain { plain_tree ≡ true → IfOk result (λ tree. ArePlain tree.items) }
    ensures cause { IfErr result (HasCause settings) }
    ensures no_chain { IfErr result
        (λ why. LacksUnit why → 0 < settings.budget → HasNoChain position.now) }
    ensures small { IsSmall position.now settings.budget → IfErr result LacksMemory }
{
    if plain_tree {
        solve_plain(
            rt,
            alloc,
            position,
            to_move,
            settings.budget,
            settings.slots,
            gate,
        )
    } else {
        solve_naming_move(rt, alloc, position, to_move, settings, gate)
    }
}

/// The solution that these nodes are.
fn solution_of(position: &Position, nodes: Vec<Node>) -> Solution
    requires { IsValidTree nodes.items }
    ensures nodes { result.nodes.items ≡ nodes.items }
    ensures size { result.size ≡ position.now.size }
    ensures version { IsVersionOf result.version nodes.items }
    ensures winner { (root : TreeNode) → IsRoot nodes.items root
        → result.winner ≡ root.heading.winner }
{
    Solution {
        version: version_of(&nodes),
        size: position.size(),
        winner: root_winner(&nodes),
        nodes,
    }
}
