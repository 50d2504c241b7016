//! Why no game is played: the text that is written for it, and the exit status that tells it.

ghost use Rattle.std.specs.Prelude.{◌≡◌};
ghost use Rattle.hx_io.specs.Sinks.{WritesAll};
ghost use Rattle.hx_cmd_play.specs.Refusals.{refusal_text, status_of_refusal};

use hx_answers::write_counted;
use hx_cmd_check::{Fault, write_fault};
use hx_io::{Failed, Sink};

/// What stands in the way of a game.
#[derive(Clone, Copy, Debug, PartialEq, Eq)]
pub enum Refusal {
    /// This node, counted from 0, is the first that does not tell what to play; it is right.
    NoPlain { node: u64 },
    /// The text of the tree has a fault, or could not be read or kept.
    NoTree(Fault),
}

impl Refusal {
    /// The exit status that tells this refusal.
    pub(crate) fn status(&self) -> u8
        ensures { result ≡ status_of_refusal self.now }
    {
        match self {
            Refusal::NoPlain { .. } => 1,
            Refusal::NoTree(fault) => fault.status(),
        }
    }
}

/// Writes a refusal, as a line of its own.
pub(crate) fn write_refusal<K: Sink>(sink: &mut K, refusal: &Refusal) -> Result<(), Failed>
    ensures { WritesAll (K.writing sink.old) (K.writing sink.new) result
        (refusal_text refusal.now) }
{
    match refusal {
        Refusal::NoPlain { node } => write_counted(sink, b"no plain ", *node),
        Refusal::NoTree(fault) => write_fault(sink, fault),
    }
}
