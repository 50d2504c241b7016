//! The answers of `template`: the text that is written for each, and the exit status that tells it.

ghost use Rattle.std.specs.Prelude.{◌≡◌};
ghost use Rattle.hx_io.specs.Sinks.{WritesAll};
ghost use Rattle.hx_cmd_template.specs.Answers.{answer_text, status_of};

use hx_answers::{
    OUT_OF_MEMORY, READ_FAULT, TOO_LONG, UNKNOWN, write_counted, write_out_of_memory,
    write_read_fault, write_too_long,
};
use hx_io::{Failed, Sink, write_all};

/// What is said in the end, whatever becomes of the writing.
#[derive(Clone, Copy, Debug, Drop, PartialEq, Eq)]
pub enum Answer {
    /// The owner can join the two ends.
    Yes,

    /// The owner cannot.
    No,

    /// The carrier has so many cells, which are more than are tried.
    UnknownCarrier { cells: u32 },

    /// The input is the text of no template: this line, counted from 1, is the first that is wrong.
    BadTemplate { line: u64 },

    /// A read failed.
    ReadFault,

    /// There was not enough memory.
    OutOfMemory,

    /// The input has more bytes than are read.
    TooLong,
}

impl Answer {
    /// The exit status that tells this answer.
    pub fn status(&self) -> u8
        ensures { result ≡ status_of self.now }
    {
        match self {
            Answer::Yes => 0,
            Answer::No => 1,
            Answer::UnknownCarrier { .. } => UNKNOWN,
            Answer::BadTemplate { .. } => 4,
            Answer::ReadFault => READ_FAULT,
            Answer::OutOfMemory => OUT_OF_MEMORY,
            Answer::TooLong => TOO_LONG,
        }
    }
}

/// Writes an answer.
pub(crate) fn write_answer<K: Sink>(sink: &mut K, answer: &Answer) -> Result<(), Failed>
    ensures { WritesAll (K.writing sink.old) (K.writing sink.new) result (answer_text answer.now) }
{
    match answer {
        Answer::Yes => write_all(sink, b"yes\n"),
        Answer::No => write_all(sink, b"no\n"),
        Answer::UnknownCarrier { cells } => {
            write_counted(sink, b"unknown carrier ", u64::from(*cells))
        }
        Answer::BadTemplate { line } => write_counted(sink, b"bad template ", *line),
        Answer::ReadFault => write_read_fault(sink),
        Answer::OutOfMemory => write_out_of_memory(sink),
        Answer::TooLong => write_too_long(sink),
    }
}
