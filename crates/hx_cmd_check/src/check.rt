//! The whole command, from the bytes that come in to the exit status.

ghost use Rattle.hx_cmd_check.specs.Judgements.{IsCheckRun};
ghost use Rattle.hx_cmd_check.specs.Promises.{KeepsPromises};

use crate::judge::judge;
use crate::judgements::write_judgement;
use hx_answers::WRITE_FAULT;
use hx_io::{Failed, Sink, Source};
use std::alloc::Global;

/// Reads the text of a tree, judges its lines and nodes in their order and writes `yes` with the winner and the
/// position of the root, or where the first fault is. Answers the exit status.
///
/// It keeps no more than 12,288 bytes of the input, which are three lines of the longest, the node that is being read
/// and the headings of those before it; and it makes no read once the first fault is known.
pub fn run_check<S: Source, K: Sink>(alloc: Global, source: &mut S, sink: &mut K) -> u8
    // Some judgement is due, and it was written whole, or the sink failed before it took all of it.
    ensures run { IsCheckRun
        (S.reading source.old) (S.reading source.new)
        (K.writing sink.old) (K.writing sink.new) result }

    // With status 0 the player that is named wins and the other does not; each input gets its answer; each fault has
    // its cause.
    ensures promises { KeepsPromises
        (S.reading source.old) (S.reading source.new)
        (K.writing sink.old) (K.writing sink.new) result }
{
    let judgement = judge(alloc, source);
    match write_judgement(sink, &judgement) {
        Ok(()) => judgement.status(),
        Err(Failed) => WRITE_FAULT,
    }
}
