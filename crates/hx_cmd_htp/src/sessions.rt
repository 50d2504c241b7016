//! The whole command, from the lines of the input to the exit status: a session, whose questions a search answers.

ghost use Rattle.std.specs.Prelude.{◌≡◌};
ghost use Rattle.hx_limits.specs.Settings.{AreSettings};
ghost use Rattle.hx_cmd_htp.specs.Sessions.{IsSessionRun, KeepsPromises, status_of_end};

use crate::laws::{only_lines_above_a_limit_are_too_long, only_lines_within_the_limits_are_done};
use crate::searchers::Searcher;
use crate::serving::serve;
use hx_answers::{READ_FAULT, TOO_LONG, WRITE_FAULT};
use hx_finish::Finish;
use hx_htp::{named_players_win, open_questions_are_counted};
use hx_io::{Sink, Source};
use hx_limits::Settings;
use hx_lines::Ended;
use std::alloc::Global;
use std::sync::Wait;
use std::thread::Threads;

/// Answers the lines of the input, each before the next read. Where an answer asks who wins a position, it is searched
/// with these settings.
///
/// It may wait for a worker.
pub fn run_session<S: Source, K: Sink, R: Threads + Wait + Sync>(
    rt: &R,
    alloc: Global,
    settings: Settings,
    source: &mut S,
    sink: &mut K,
) -> Finish
    requires { AreSettings settings }
    // A session answered the lines of the input, and came to an end.
    ensures run { IsSessionRun settings
        (S.reading source.old) (S.reading source.new)
        (K.writing sink.old) (K.writing sink.new) result }

    // With status 0 the output is the replies of a session to the lines of the input, up to `quit` or its end; a player
    // that a reply names wins and the other one does not; and each reply that names a limit was counted.
    ensures promises { KeepsPromises settings
        (S.reading source.old) (S.reading source.new)
        (K.writing sink.old) (K.writing sink.new) result }
{
    named_players_win();
    open_questions_are_counted();
    only_lines_above_a_limit_are_too_long();
    only_lines_within_the_limits_are_done();
    serve_lines(rt, alloc, settings, source, sink)
}

/// Answers the lines of the input, and says how the session ended.
fn serve_lines<S: Source, K: Sink, R: Threads + Wait + Sync>(
    rt: &R,
    alloc: Global,
    settings: Settings,
    source: &mut S,
    sink: &mut K,
) -> Finish
    requires { AreSettings settings }
    ensures { IsSessionRun settings
        (S.reading source.old) (S.reading source.new)
        (K.writing sink.old) (K.writing sink.new) result }
{
    let mut searcher = Searcher::new(alloc, settings);
    let ended = serve(rt, source, sink, &mut searcher);
    Finish {
        status: status_of(ended),
        tally: searcher.into_tally(),
    }
}

/// The exit status of an end.
fn status_of(ended: Ended) -> u8
    ensures { result ≡ status_of_end ended }
{
    match ended {
        Ended::Stopped => 0,
        Ended::Over => 0,
        Ended::ReadFault => READ_FAULT,
        Ended::WriteFault => WRITE_FAULT,
        Ended::TooLong => TOO_LONG,
    }
}
