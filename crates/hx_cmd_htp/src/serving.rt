//! Serving a session: each line is answered before the next read, up to `quit`, the end, a fault or a limit. What
//! stands behind the line of `quit` is not looked at.

ghost use Rattle.std.specs.Prelude.{◌≡◌};
ghost use Rattle.hx_io.specs.Sinks.{SomeWriteFailed};
ghost use Rattle.hx_io.specs.Sources.{SomeReadFailed};
ghost use Rattle.hx_lines.specs.declared.ended.Ended.TheVariants.{ReadFault, WriteFault};
ghost use Rattle.hx_cmd_htp.specs.Serving.{Ends};

use crate::talks::Talk;
use hx_htp::Answerer;
use hx_io::{Sink, Source};
use hx_lines::{Ended, LineCutter};
use std::sync::Wait;
use std::thread::Threads;

/// Answers the lines of a source in a new session, and says how it ended.
///
/// Each reply is written before the next read, and no read follows the line of `quit`. It may wait where the answerer
/// may wait.
pub fn serve<R: Threads + Wait + Sync, S: Source, K: Sink, A: Answerer>(
    rt: &R,
    source: &mut S,
    sink: &mut K,
    answerer: &mut A,
) -> Ended
    // Which lines were answered, and what was written: all replies, or a front of them where a write failed.
    ensures ends { Ends (A.account answerer.old) (A.account answerer.new)
        (S.reading source.old).left (S.reading source.new).left
        (K.writing sink.old).taken (K.writing sink.new).taken result }

    // A fault is the end only where a call of this run failed.
    ensures read_fault { result ≡ ReadFault
        → SomeReadFailed (S.reading source.old) (S.reading source.new) }
    ensures write_fault { result ≡ WriteFault
        → SomeWriteFailed (K.writing sink.old) (K.writing sink.new) }
{
    hx_lines::serve(
        &mut LineCutter::new(),
        source,
        sink,
        &mut Talk::new(rt, answerer),
    )
}
