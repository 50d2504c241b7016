//! The whole command, from the seed to the exit status: positions are drawn and solved, and each tree is checked before
//! the next position is drawn. It reads nothing.

ghost use Rattle.std.specs.Prelude.{◌≡◌, ◌+◌, ◌-◌, ◌≤◌, ◌<◌, ◌^◌, IfOk, IfErr};
ghost use Rattle.hx_board.specs.declared.colours.Colour.TheVariants.{Black};
ghost use Rattle.hx_board.specs.Counts.{IsSmall};
ghost use Rattle.hx_demo.specs.Draws.{first_positions};
ghost use Rattle.hx_limits.specs.Settings.{AreSettings};
ghost use Rattle.hx_limits.specs.Causes.{HasCause, LacksMemory};
ghost use Rattle.hx_answers.specs.Endings.{IsWritten};
ghost use Rattle.hx_cmd_demo.specs.Roots.{OnlyWins};
ghost use Rattle.hx_cmd_demo.specs.Answers.{positions, enough, answer_text, status_of, tally_of, one_win_more, AreCounts, IsDue, IsDemoRun};
ghost use Rattle.hx_cmd_demo.specs.Promises.{KeepsPromises};

use crate::answers::{DemoAnswer, POSITIONS, WinCounts, write_demo_answer};
use crate::roots::winner_by_check;
use hx_answers::WRITE_FAULT;
use hx_board::{Colour, Memory, Position};
use hx_demo::Draw;
use hx_finish::{Finding, Finish, left_open};
use hx_io::{Failed, Gate, Sink};
use hx_limits::{RanOut, Settings};
use hx_solve::solve;
use std::alloc::Global;
use std::sync::Wait;
use std::thread::Threads;

/// Draws positions with this seed, solves each of them with these settings, checks its tree, and writes how many each
/// player wins with Black to move, or why one was not solved.
///
/// It may wait for a worker. Before each of its turns a worker calls the gate.
pub fn run_demo<K: Sink, G: Gate + Sync, R: Threads + Wait + Sync>(
    rt: &R,
    alloc: Global,
    seed: u64,
    settings: Settings,
    sink: &mut K,
    gate: &G,
) -> Finish
    requires { AreSettings settings }
    // Some answer is due, and it was written whole, or the sink failed before it took all of it.
    ensures run { IsDemoRun seed settings (K.writing sink.old) (K.writing sink.new) result }

    // The counts that are written are the true ones; with units enough for each position they are written, unless the
    // sink failed or memory was wanting; and a refusal that is told was counted.
    ensures promises { KeepsPromises seed settings
        (K.writing sink.old) (K.writing sink.new) result }
{
    let Finding { answer, tally } = settle(rt, alloc, seed, settings, gate);
    let status = say(sink, &answer);
    Finish { status, tally }
}

/// Writes an answer, and gives the exit status.
fn say<K: Sink>(sink: &mut K, answer: &DemoAnswer) -> u8
    ensures { IsWritten (K.writing sink.old) (K.writing sink.new)
        (answer_text answer.now) (status_of answer.now) result }
{
    match write_demo_answer(sink, answer) {
        Ok(()) => answer.status(),
        Err(Failed) => WRITE_FAULT,
    }
}

/// What is to be said, before any of it is written.
fn settle<G: Gate + Sync, R: Threads + Wait + Sync>(
    rt: &R,
    alloc: Global,
    seed: u64,
    settings: Settings,
    gate: &G,
) -> Finding<DemoAnswer>
    requires { AreSettings settings }
    ensures due { IsDue seed settings result.answer }
    ensures counted { result.tally ≡ tally_of settings result.answer }
{
    match count_wins(rt, alloc, seed, settings, gate) {
        Ok(wins) => Finding::without_refusal(settings, DemoAnswer::Counted { seed, wins }),
        Err(why) => {
            let Finding { answer, tally } = left_open(settings, why);
            Finding {
                answer: DemoAnswer::LeftOpen(answer),
                tally,
            }
        }
    }
}

/// How many of the positions that a seed draws each player wins.
fn count_wins<G: Gate + Sync, R: Threads + Wait + Sync>(
    rt: &R,
    alloc: Global,
    seed: u64,
    settings: Settings,
    gate: &G,
) -> Result<WinCounts, RanOut>
    requires { AreSettings settings }
    ensures counts { IfOk result (λ wins.
        AreCounts (first_positions positions seed) wins positions) }
    ensures cause { IfErr result (HasCause settings) }
    ensures small { enough ≤ settings.budget → IfErr result LacksMemory }
{
    let mut draw = Draw::new(seed);
    let mut wins = WinCounts { black: 0, white: 0 };
    for _drawn in 0..POSITIONS {
        let position = draw.next();
        match checked_winner(rt, alloc, &position, settings, gate) {
            Ok(winner) => wins = wins.with(winner),
            Err(why) => return Err(why),
        }
    }
    Ok(wins)
}

/// Who wins a position with Black to move, by a tree that the checker accepts.
fn checked_winner<G: Gate + Sync, R: Threads + Wait + Sync>(
    rt: &R,
    alloc: Global,
    position: &Position,
    settings: Settings,
    gate: &G,
) -> Result<Colour, RanOut>
    requires { AreSettings settings }
    ensures wins { IfOk result (λ winner. OnlyWins winner position.now Black) }
    ensures cause { IfErr result (HasCause settings) }
    ensures small { IsSmall position.now settings.budget → IfErr result LacksMemory }
{
    let nodes = match solve(rt, alloc, position, Colour::Black, settings, gate) {
        Ok(nodes) => nodes,
        Err(why) => return Err(why),
    };
    match winner_by_check(alloc, &nodes) {
        Ok(Some(winner)) => Ok(winner),
        // A tree that `solve` gives is valid, and the checker accepts exactly the valid trees.
        Ok(None) => unreachable!(),
        Err(Memory) => Err(RanOut::Memory),
    }
}

impl WinCounts {
    /// The counts with one win more.
    fn with(self, winner: Colour) -> WinCounts
        requires { self.black + self.white < 2 ^ 64 - 1 }
        ensures { result ≡ one_win_more winner self }
    {
        match winner {
            Colour::Black => WinCounts {
                black: self.black + 1,
                ..self
            },
            Colour::White => WinCounts {
                white: self.white + 1,
                ..self
            },
        }
    }
}
