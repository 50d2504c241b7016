//! The answers of `demo`: the text that is written for each, and the exit status that tells it.

ghost use Rattle.std.specs.Prelude.{◌≡◌};
ghost use Rattle.hx_io.specs.Sinks.{WritesAll};
ghost use Rattle.hx_cmd_demo.specs.Answers.{status_of, answer_text, draws_text, wins_text, counts_line};

use hx_answers::{write_counted, write_numbered};
use hx_finish::{Wanting, write_wanting};
use hx_io::{Failed, Sink};

/// How many positions are drawn.
pub(crate) const POSITIONS: u64 = 200;

/// How many positions each player wins.
#[derive(Clone, Copy, Debug, Drop, PartialEq, Eq)]
pub struct WinCounts {
    pub black: u64,
    pub white: u64,
}

/// What is said in the end, whatever becomes of the writing.
#[derive(Clone, Copy, Debug, Drop, PartialEq, Eq)]
pub enum DemoAnswer {
    /// Each position that the seed draws was solved, and its tree was accepted.
    Counted { seed: u64, wins: WinCounts },
    /// One of the positions was left open.
    LeftOpen(Wanting),
}

impl DemoAnswer {
    /// The exit status that tells this answer.
    pub fn status(&self) -> u8
        ensures { result ≡ status_of self.now }
    {
        match self {
            DemoAnswer::Counted { .. } => 0,
            DemoAnswer::LeftOpen(wanting) => wanting.status(),
        }
    }
}

/// Writes an answer.
pub(crate) fn write_demo_answer<K: Sink>(sink: &mut K, answer: &DemoAnswer) -> Result<(), Failed>
    ensures { WritesAll (K.writing sink.old) (K.writing sink.new) result (answer_text answer.now) }
{
    match answer {
        DemoAnswer::Counted { seed, wins } => write_counts(sink, *seed, wins),
        DemoAnswer::LeftOpen(wanting) => write_wanting(sink, *wanting),
    }
}

/// Writes the line of the counts. As many trees were accepted as positions were drawn.
fn write_counts<K: Sink>(sink: &mut K, seed: u64, wins: &WinCounts) -> Result<(), Failed>
    ensures { WritesAll (K.writing sink.old) (K.writing sink.new) result
        (counts_line seed wins.now) }
{
    match write_draws(sink, seed) {
        Ok(()) => {}
        Err(Failed) => return Err(Failed),
    }
    match write_wins(sink, wins) {
        Ok(()) => write_counted(sink, b" checked ", POSITIONS),
        Err(Failed) => Err(Failed),
    }
}

/// Writes what was drawn.
fn write_draws<K: Sink>(sink: &mut K, seed: u64) -> Result<(), Failed>
    ensures { WritesAll (K.writing sink.old) (K.writing sink.new) result (draws_text seed) }
{
    match write_numbered(sink, b"demo ", seed) {
        Ok(()) => write_numbered(sink, b" positions ", POSITIONS),
        Err(Failed) => Err(Failed),
    }
}

/// Writes how many positions each player wins.
fn write_wins<K: Sink>(sink: &mut K, wins: &WinCounts) -> Result<(), Failed>
    ensures { WritesAll (K.writing sink.old) (K.writing sink.new) result (wins_text wins.now) }
{
    match write_numbered(sink, b" black ", wins.black) {
        Ok(()) => write_numbered(sink, b" white ", wins.white),
        Err(Failed) => Err(Failed),
    }
}
