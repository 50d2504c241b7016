//! The whole command, from the bytes that come in to the exit status.

ghost use Rattle.std.specs.Prelude.{◌≡◌, ◌≤◌, ℕ, [], true, List, Option, MatchResult, Result, Ok, Err};
ghost use Rattle.hx_answers.specs.Endings.{IsWritten};
ghost use Rattle.hx_io.specs.Sources.{IsAtEnd, SomeReadFailed};
ghost use Rattle.hx_cmd_play.specs.Refusals.{IsDue, refusal_text, status_of_refusal};
ghost use Rattle.hx_cmd_play.specs.Promises.{KeepsPromises};
ghost use Rattle.hx_cmd_play.specs.Runs.{IsPlayRun, status_of};
ghost use Rattle.hx_cmd_play.specs.Standings.{HasSeated};

use crate::refusals::{Refusal, write_refusal};
use crate::trees::read_tree;
use hx_answers::{READ_FAULT, TOO_LONG, WRITE_FAULT};
use hx_board::Memory;
use hx_cmd_check::Fault;
use hx_io::{Failed, Sink, Source};
use hx_lines::LineCutter;
use hx_play::{Player, Served, serve};
use std::alloc::Global;

/// Reads the text of a tree, and then plays by it, for its winner, against the moves that follow, one cell a line.
/// Answers the exit status.
///
/// It keeps the tree, three lines of the longest, and what play needs; and it makes no read once the game has ended or
/// a fault of the tree is known.
pub fn run_play<S: Source, K: Sink>(alloc: Global, source: &mut S, sink: &mut K) -> u8
    // A game was served, or some refusal is due, and it was written whole, or the sink failed before it took all of it.
    ensures run { IsPlayRun
        (S.reading source.old) (S.reading source.new)
        (K.writing sink.old) (K.writing sink.new) result }

    // With status 0 the winner of the tree that the input begins with has played to a chain. Each input gets the game
    // or the refusal that is due to it, unless a fault or want of memory comes in its place; each fault has its cause,
    // and no other status comes.
    ensures promises { KeepsPromises
        (S.reading source.old) (S.reading source.new)
        (K.writing sink.old) (K.writing sink.new) result }
{
    let mut lines = LineCutter::new();
    match seat(alloc, &mut lines, source) {
        Ok(mut player) => status_of(serve(&mut lines, source, sink, &mut player)),
        Err(refusal) => say(sink, &refusal),
    }
}

/// A player of the tree whose text comes first.
fn seat<S: Source>(alloc: Global, lines: &mut LineCutter, source: &mut S) -> Result<Player, Refusal>
    requires new { lines.old.held ≡ [] }
    requires met_end { lines.old.met_end ≡ true → IsAtEnd (S.reading source.old).left }
    ensures met_end { lines.new.met_end ≡ true → IsAtEnd (S.reading source.new).left }
    ensures seats { MatchResult result
        (λ player. HasSeated (S.reading source.old).left player lines.new.held
        (S.reading source.new).left)
        (IsDue (S.reading source.old).left (S.reading source.new).left
        (SomeReadFailed (S.reading source.old) (S.reading source.new))) }
    ensures later { (S.reading source.old).faults ≤ (S.reading source.new).faults }
{
    match read_tree(alloc, lines, source) {
        Ok(nodes) => match Player::new(alloc, nodes) {
            Ok(player) => Ok(player),
            Err(Memory) => Err(Refusal::NoTree(Fault::OutOfMemory)),
        },
        Err(refusal) => Err(refusal),
    }
}

/// Writes a refusal, and gives the exit status.
fn say<K: Sink>(sink: &mut K, refusal: &Refusal) -> u8
    ensures { IsWritten (K.writing sink.old) (K.writing sink.new)
        (refusal_text refusal.now) (status_of_refusal refusal.now) result }
{
    match write_refusal(sink, refusal) {
        Ok(()) => refusal.status(),
        Err(Failed) => WRITE_FAULT,
    }
}

/// The exit status of an end.
fn status_of(served: Served) -> u8
    ensures { result ≡ status_of served }
{
    match served {
        Served::Chain => 0,
        Served::Unfinished => 1,
        Served::ReadFault => READ_FAULT,
        Served::WriteFault => WRITE_FAULT,
        Served::TooLong => TOO_LONG,
    }
}
