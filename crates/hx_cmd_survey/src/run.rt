//! The whole command, from the size and the settings to the exit status. It reads nothing.

ghost use Rattle.std.specs.Prelude.{◌≡◌};
ghost use Rattle.hx_limits.specs.Settings.{AreSettings};
ghost use Rattle.hx_answers.specs.Endings.{IsWritten};
ghost use Rattle.hx_cmd_survey.specs.Answers.{answer_text, status_of, tally_of, IsDue, IsSurveyRun};
ghost use Rattle.hx_cmd_survey.specs.Promises.{KeepsPromises};

use crate::answers::{Answer, write_answer};
use hx_answers::WRITE_FAULT;
use hx_board::Size;
use hx_finish::{Finding, Finish, left_open};
use hx_io::{Failed, Gate, Sink};
use hx_limits::Settings;
use hx_survey::survey;
use std::alloc::Global;
use std::sync::Wait;
use std::thread::Threads;

/// Finds who wins after each opening of a board of this size, by workers with these settings, and writes it as a table,
/// or why some opening was left open.
///
/// It may wait for a worker. Before each of its turns a worker calls the gate.
pub fn run_survey<K: Sink, G: Gate + Sync, R: Threads + Wait + Sync>(
    rt: &R,
    alloc: Global,
    size: Size,
    settings: Settings,
    sink: &mut K,
    gate: &G,
) -> Finish
    requires { AreSettings settings }
    // Some answer is due, and it was written whole, or the sink failed before it took all of it.
    ensures run { IsSurveyRun size settings (K.writing sink.old) (K.writing sink.new) result }

    // The table that is written is the true one; where the openings are small it is written, unless the sink failed or
    // memory was wanting; and a refusal that is told was counted.
    ensures promises { KeepsPromises size settings
        (K.writing sink.old) (K.writing sink.new) result }
{
    let Finding { answer, tally } = settle(rt, alloc, size, settings, gate);
    let status = say(sink, &answer);
    Finish { status, tally }
}

/// What is to be said, before any of it is written.
fn settle<G: Gate + Sync, R: Threads + Wait + Sync>(
    rt: &R,
    alloc: Global,
    size: Size,
    settings: Settings,
    gate: &G,
) -> Finding<Answer>
    requires { AreSettings settings }
    ensures due { IsDue size settings result.answer }
    ensures counted { result.tally ≡ tally_of settings result.answer }
{
    match survey(rt, alloc, size, settings, gate) {
        Ok(table) => Finding::without_refusal(settings, Answer::Surveyed(table)),
        Err(why) => {
            let Finding { answer, tally } = left_open(settings, why);
            Finding {
                answer: Answer::LeftOpen(answer),
                tally,
            }
        }
    }
}

/// Writes an answer, and gives the exit status.
fn say<K: Sink>(sink: &mut K, answer: &Answer) -> u8
    ensures { IsWritten (K.writing sink.old) (K.writing sink.new)
        (answer_text answer.now) (status_of answer.now) result }
{
    match write_answer(sink, answer) {
        Ok(()) => answer.status(),
        Err(Failed) => WRITE_FAULT,
    }
}
