//! The answers of `solve`: the text that is written for each, and the exit status that tells it.

ghost use Rattle.std.specs.Prelude.{◌≡◌};
ghost use Rattle.hx_io.specs.Sinks.{WritesAll};
ghost use Rattle.hx_cmd_solve.specs.Answers.{CanBeWritten, status_of, answer_text};

use crate::solutions::{Solution, write_solution};
use hx_answers::{READ_FAULT, TOO_LONG, write_counted, write_read_fault, write_too_long};
use hx_finish::{Wanting, write_wanting};
use hx_io::{Failed, Sink};

/// What is said in the end, whatever becomes of the writing.
#[derive(Debug, Drop, PartialEq, Eq)]
pub enum Answer {
    /// The winner of the input's position, with a tree that proves it.
    Solved(Solution),
    /// Units, slots for proofs or memory were wanting.
    LeftOpen(Wanting),
    /// The input is the text of no position: this line, counted from 1, is the first that is wrong.
    BadPosition { line: u64 },
    /// A read failed.
    ReadFault,
    /// The input has more bytes than are read.
    TooLong,
}

impl Answer {
    /// The exit status that tells this answer.
    pub fn status(&self) -> u8
        ensures { result ≡ status_of self.now }
    {
        match self {
            Answer::Solved(_) => 0,
            Answer::LeftOpen(wanting) => wanting.status(),
            Answer::BadPosition { .. } => 4,
            Answer::ReadFault => READ_FAULT,
            Answer::TooLong => TOO_LONG,
        }
    }
}

/// Writes an answer.
pub(crate) fn write_answer<K: Sink>(sink: &mut K, answer: &Answer) -> Result<(), Failed>
    requires { CanBeWritten answer.now }
    ensures { WritesAll (K.writing sink.old) (K.writing sink.new) result (answer_text answer.now) }
{
    match answer {
        Answer::Solved(solution) => write_solution(sink, solution),
        Answer::LeftOpen(wanting) => write_wanting(sink, *wanting),
        Answer::BadPosition { line } => write_counted(sink, b"bad position ", *line),
        Answer::ReadFault => write_read_fault(sink),
        Answer::TooLong => write_too_long(sink),
    }
}
