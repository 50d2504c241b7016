//! The top call: from the words of the command line to the exit status.

ghost use Rattle.std.specs.Prelude.{◌≡◌, ◌⊎◌, ℕ, [], ◌∷◌, codes, Bool};
ghost use Rattle.hx_io.specs.Sinks.{SomeWriteFailed};
ghost use Rattle.hx_board.specs.Cells.{Extent};
ghost use Rattle.hx_limits.specs.declared.settings.Settings.{Settings as Bounds};
ghost use Rattle.hx_cli.specs.Words.{words_of};
ghost use Rattle.hx_cli.specs.Commands.{NameAndOptions, IsSolve, IsDemo, IsSurvey};
ghost use Rattle.hx_answers.specs.Endings.{IsWritten};
ghost use Rattle.hx_cmd_check.specs.Promises.{KeepsPromises as ChecksAsPromised};
ghost use Rattle.hx_cmd_play.specs.Promises.{KeepsPromises as PlaysAsPromised};
ghost use Rattle.hx_cmd_template.specs.Promises.{KeepsPromises as DecidesAsPromised};
ghost use Rattle.hx_cmd_solve.specs.Promises.{KeepsPromises as SolvesAsPromised};
ghost use Rattle.hx_cmd_htp.specs.Sessions.{KeepsPromises as ServesAsPromised};
ghost use Rattle.hx_cmd_demo.specs.Promises.{KeepsPromises as DrawsAsPromised};
ghost use Rattle.hx_cmd_survey.specs.Promises.{KeepsPromises as TabulatesAsPromised};
ghost use Rattle.hx_app.specs.Runs.{IsCommand, IsRun, CountsNothing, bad_words_line};

use hx_answers::WRITE_FAULT;
use hx_cli::{Command, command_of};
use hx_cmd_check::run_check;
use hx_cmd_demo::run_demo;
use hx_cmd_htp::run_session;
use hx_cmd_play::run_play;
use hx_cmd_solve::run_solve;
use hx_cmd_survey::run_survey;
use hx_cmd_template::run_template;
use hx_finish::Finish;
use hx_io::{Failed, Gate, Sink, Source, write_all};
use hx_limits::{Settings, Tally};
use std::alloc::Global;
use std::sync::Wait;
use std::thread::Threads;

/// The exit status of words that are no command.
const BAD_WORDS: u8 = 2;

/// Does what the words say, and answers the exit status, with the refusals that were counted.
///
/// `check` reads the text of a tree, judges its lines and nodes in their order and writes `yes` with the winner and the
/// position of the root, or where the first fault is. `solve` reads the text of a position and writes the text of a
/// tree that proves who wins it, of plain nodes where the words have `--plain-tree`, or why there is none. Its workers
/// call the gate at each of their turns; it may wait for them. `htp` answers the lines of a session, each before the
/// next read; its workers have the gate that holds nobody back. `demo` reads nothing: it draws positions with a seed,
/// solves them, checks their trees and writes how many each player wins; its workers call the gate, and it may wait for
/// them. `play` reads the text of a tree of plain nodes, and then plays by it, for its winner, against the moves that
/// follow. `template` reads the text of a template and writes whether its owner can join the two ends. `survey` reads
/// nothing: it finds who wins after each opening of a board, and writes it as a table; its workers call the gate, and
/// it may wait for them.
pub fn run<S: Source, K: Sink, G: Gate + Sync, R: Threads + Wait + Sync>(
    rt: &R,
    alloc: Global,
    words: &[String],
    source: &mut S,
    sink: &mut K,
    gate: &G,
) -> Finish
    // Some answer is due, and it was written whole, or the sink failed before it took all of it. A session has answered
    // lines, and came to an end.
    ensures run { IsRun (words_of words.now)
        (S.reading source.old) (S.reading source.new)
        (K.writing sink.old) (K.writing sink.new) result }

    // `check` keeps its promises: it accepts exactly the texts of valid trees within its limits, and the player that it
    // names wins and the other does not.
    ensures check { words_of words.now ≡ codes "check" ∷ [] → ChecksAsPromised
        (S.reading source.old) (S.reading source.new)
        (K.writing sink.old) (K.writing sink.new) result.status }

    // `solve` keeps its promises: with status 0 the output is the text of a valid tree of the input's position, and its
    // winner wins and the other does not; `unknown` comes only where a unit or a slot was refused.
    ensures solve { (settings : Bounds) (plain_tree : Bool)
        → IsSolve settings plain_tree (words_of words.now)
        → SolvesAsPromised settings plain_tree
        (S.reading source.old) (S.reading source.new)
        (K.writing sink.old) (K.writing sink.new) result }

    // `htp` keeps its promises: the output is the replies of a session to the lines of the input; a player that it
    // names wins; `unknown` comes only where a refusal of a unit or of a slot was counted.
    ensures htp { (settings : Bounds) → NameAndOptions (codes "htp") settings (words_of words.now)
        → ServesAsPromised settings
        (S.reading source.old) (S.reading source.new)
        (K.writing sink.old) (K.writing sink.new) result }

    // `demo` keeps its promises: with status 0 the output is how many of the drawn positions each player wins;
    // `unknown` comes only with a budget below 986,410, and only where a refusal of a unit or of a slot was counted.
    ensures demo { (seed : ℕ) (settings : Bounds) → IsDemo seed settings (words_of words.now)
        → DrawsAsPromised seed settings
        (K.writing sink.old) (K.writing sink.new) result }

    // `play` keeps its promises: with status 0 the input begins with the text of a valid tree of plain nodes, and the
    // output is a game by it, over the lines behind it, in which its winner has played to a chain; each input gets the
    // game or the refusal that is due to it.
    ensures play { words_of words.now ≡ codes "play" ∷ [] → PlaysAsPromised
        (S.reading source.old) (S.reading source.new)
        (K.writing sink.old) (K.writing sink.new) result.status }

    // `template` keeps its promises: with status 0 or 1 the input was read to its end and is the text of a template,
    // whose owner can join its ends with 0 and cannot with 1, whatever the other player does; each input gets the
    // answer or the refusal that is due to it.
    ensures template { words_of words.now ≡ codes "template" ∷ [] → DecidesAsPromised
        (S.reading source.old) (S.reading source.new)
        (K.writing sink.old) (K.writing sink.new) result.status }

    // `survey` keeps its promises: with status 0 the output is the table of who wins after each opening; `unknown`
    // comes only where no opening is small, and only where a refusal of a unit or of a slot was counted. An opening is
    // small by its number of empty cells and the budget, so either all openings of a board are small or none is.
    ensures survey { (size : Extent) (settings : Bounds)
        → IsSurvey size settings (words_of words.now)
        → TabulatesAsPromised size settings
        (K.writing sink.old) (K.writing sink.new) result }

    // `demo` and `survey` read nothing.
    ensures unread { (seed : ℕ) (settings : Bounds) → IsDemo seed settings (words_of words.now)
        → source.new ≡ source.old }
    ensures unread_by_survey { (size : Extent) (settings : Bounds)
        → IsSurvey size settings (words_of words.now)
        → source.new ≡ source.old }

    // Whatever the words, the status of a failed write has its cause.
    ensures write_fault { result.status ≡ 6
        → SomeWriteFailed (K.writing sink.old) (K.writing sink.new) }

    // Without a command nothing is read.
    ensures refused { (IsCommand (words_of words.now) → ⊥)
        → ((result.status ≡ 2) ⊎ (result.status ≡ 6)) × (source.new ≡ source.old) }
{
    match command_of(words) {
        Some(Command::Check) => uncounted(run_check(alloc, source, sink)),
        Some(
            Command::Solve {
                settings,
                plain_tree,
            },
        ) => run_solve(rt, alloc, settings, plain_tree, source, sink, gate),
        Some(Command::Htp(settings)) => run_session(rt, alloc, settings, source, sink),
        Some(Command::Demo { seed, settings }) => run_demo(rt, alloc, seed, settings, sink, gate),
        Some(Command::Play) => uncounted(run_play(alloc, source, sink)),
        Some(Command::Template) => uncounted(run_template(alloc, source, sink)),
        Some(Command::Survey(survey)) => {
            run_survey(rt, alloc, survey.size, survey.settings, sink, gate)
        }
        None => uncounted(refuse(sink)),
    }
}

/// Says that the words are no command, and answers the exit status.
fn refuse<K: Sink>(sink: &mut K) -> u8
    ensures written { IsWritten (K.writing sink.old) (K.writing sink.new)
        bad_words_line 2 result }
    ensures status { (result ≡ 2) ⊎ (result ≡ 6) }
    ensures write_fault { result ≡ 6
        → SomeWriteFailed (K.writing sink.old) (K.writing sink.new) }
{
    match write_all(sink, b"bad words\n") {
        Ok(()) => BAD_WORDS,
        Err(Failed) => WRITE_FAULT,
    }
}

/// The end of a run that counts no refusal.
fn uncounted(status: u8) -> Finish
    ensures status { result.status ≡ status }
    ensures tally { CountsNothing result }
{
    // Such a run has no settings of its own.
    let settings = Settings::default();
    Finish {
        status,
        tally: Tally::new(settings.budget, settings.slots),
    }
}
