//! What is said of an input: the text that is written for it, and the exit status that tells it.

ghost use Rattle.std.specs.Prelude.{◌≡◌};
ghost use Rattle.hx_io.specs.Sinks.{WritesAll};
ghost use Rattle.hx_cmd_check.specs.Judgements.{status_of, judgement_text, yes_line, yes_text};

use crate::faults::{Fault, write_fault};
use hx_board::Colour;
use hx_io::{Failed, Sink, write_all};
use hx_text::write_position;
use hx_tree::Heading;

/// What is said in the end, whatever becomes of the writing.
#[derive(Clone, Copy, Debug, PartialEq, Eq)]
pub enum Judgement {
    /// The input is the text of a valid tree with this root.
    Yes { root: Heading },
    /// It is not, or could not be read.
    No(Fault),
}

impl Judgement {
    /// The exit status that tells this judgement.
    pub fn status(&self) -> u8
        ensures { result ≡ status_of self.now }
    {
        match self {
            Judgement::Yes { .. } => 0,
            Judgement::No(fault) => fault.status(),
        }
    }
}

/// Writes a judgement.
pub(crate) fn write_judgement<K: Sink>(sink: &mut K, judgement: &Judgement) -> Result<(), Failed>
    ensures { WritesAll (K.writing sink.old) (K.writing sink.new) result
        (judgement_text judgement.now) }
{
    match judgement {
        Judgement::Yes { root } => write_yes(sink, root),
        Judgement::No(fault) => write_fault(sink, fault),
    }
}

/// Writes the winner of a root, and its position and mover.
fn write_yes<K: Sink>(sink: &mut K, root: &Heading) -> Result<(), Failed>
    ensures { WritesAll (K.writing sink.old) (K.writing sink.new) result (yes_text root.now) }
{
    match write_all(sink, yes_line(root.winner)) {
        Ok(()) => write_position(sink, &root.position, root.to_move),
        Err(Failed) => Err(Failed),
    }
}

/// The line that names a winner.
fn yes_line(winner: Colour) -> &'static [u8]
    ensures { result.now ≡ yes_line winner }
{
    match winner {
        Colour::Black => b"yes black\n",
        Colour::White => b"yes white\n",
    }
}
