//! The whole command, from the bytes that come in to the exit status.

ghost use Rattle.std.specs.Prelude.{◌≡◌, ◌≤◌};
ghost use Rattle.hx_answers.specs.Endings.{IsWritten, IsReadToEnd};
ghost use Rattle.hx_io.specs.Sources.{SomeReadFailed};
ghost use Rattle.hx_cmd_template.specs.Answers.{answer_text, status_of};
ghost use Rattle.hx_cmd_template.specs.Claims.{IsDue, IsTemplateRun};
ghost use Rattle.hx_cmd_template.specs.Promises.{KeepsPromises};

use crate::answers::{Answer, write_answer};
use crate::deciding::found;
use hx_answers::{Unread, WRITE_FAULT, read_all};
use hx_io::{Failed, Sink, Source};
use hx_template_text::{one_faulty_line, template_text_has_no_fault, text_tells_template};
use std::alloc::Global;

/// The most bytes that are read.
const MOST_BYTES: usize = 4096;

/// Reads the text of a template and writes whether its owner can join the two ends. Answers the exit status.
///
/// It keeps the text, and one row of at most 3^12 entries of three bytes while it decides.
pub fn run_template<S: Source, K: Sink>(alloc: Global, source: &mut S, sink: &mut K) -> u8
    // Some answer is due, and it was written whole, or the sink failed before it took all of it.
    ensures run { IsTemplateRun
        (S.reading source.old) (S.reading source.new)
        (K.writing sink.old) (K.writing sink.new) result }

    // Each text of a template with a carrier that is not too large is told exactly whether its owner can join the ends;
    // each other input gets its refusal, unless a fault or want of memory comes in its place; and each status tells
    // what is so.
    ensures promises { KeepsPromises
        (S.reading source.old) (S.reading source.new)
        (K.writing sink.old) (K.writing sink.new) result }
{
    text_tells_template();
    template_text_has_no_fault();
    one_faulty_line();
    let answer = settle(alloc, source);
    say(sink, &answer)
}

/// What is to be said, before any of it is written.
fn settle<S: Source>(alloc: Global, source: &mut S) -> Answer
    ensures due { IsDue (S.reading source.old).left (S.reading source.new).left
        (SomeReadFailed (S.reading source.old) (S.reading source.new)) result }
{
    match read_all(alloc, source, MOST_BYTES) {
        Ok(bytes) => found(alloc, &bytes),
        Err(Unread::Failed) => Answer::ReadFault,
        Err(Unread::TooLong) => Answer::TooLong,
        Err(Unread::OutOfMemory) => Answer::OutOfMemory,
    }
}

/// Writes an answer, and gives the exit status.
fn say<K: Sink>(sink: &mut K, answer: &Answer) -> u8
    ensures { IsWritten (K.writing sink.old) (K.writing sink.new)
        (answer_text answer.now) (status_of answer.now) result }
{
    match write_answer(sink, answer) {
        Ok(()) => answer.status(),
        Err(Failed) => WRITE_FAULT,
    }
}
