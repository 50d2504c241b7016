//! The answers of `survey`: the text that is written for each, and the exit status that tells it.

ghost use Rattle.std.specs.Prelude.{◌≡◌};
ghost use Rattle.hx_io.specs.Sinks.{WritesAll};
ghost use Rattle.hx_cmd_survey.specs.Answers.{answer_text, status_of};

use crate::texts::write_table;
use hx_finish::{Wanting, write_wanting};
use hx_io::{Failed, Sink};
use hx_survey::Table;

/// What is said in the end, whatever becomes of the writing.
#[derive(Clone, Copy, Debug, PartialEq, Eq)]
pub enum Answer {
    /// Who wins after each opening.
    Surveyed(Table),

    /// Some opening was left open.
    LeftOpen(Wanting),
}

impl Answer {
    /// The exit status that tells this answer.
    pub fn status(&self) -> u8
        ensures { result ≡ status_of self.now }
    {
        match self {
            Answer::Surveyed(_) => 0,
            Answer::LeftOpen(wanting) => wanting.status(),
        }
    }
}

/// Writes an answer.
pub(crate) fn write_answer<K: Sink>(sink: &mut K, answer: &Answer) -> Result<(), Failed>
    ensures { WritesAll (K.writing sink.old) (K.writing sink.new) result (answer_text answer.now) }
{
    match answer {
        Answer::Surveyed(table) => write_table(sink, table),
        Answer::LeftOpen(wanting) => write_wanting(sink, *wanting),
    }
}
