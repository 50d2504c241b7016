//! Whoever answers lines, as a loop over the lines of a source asks it.
//!
//! A service writes its replies itself, each as one piece, so nothing is asked here of how it keeps them.

ghost use Rattle.std.specs.Prelude.{◌≡◌, ◌≤◌, List, [], false, Ok, IfOk, length};
ghost use Rattle.std.specs.Borrow.{GName};
ghost use Rattle.hx_io.specs.Sinks.{WritesAll};
ghost use Rattle.hx_lines.specs.Lines.{longest};
ghost use Rattle.hx_lines.specs.Services.{Answers, Service, Replies, StepsOn, words_at};

use crate::ended::Ended;
use hx_io::{Failed, Sink, write_all};

/// Whoever answers lines, one after the other.
pub trait Serves {
    /// Its last words.
    ghost service: { Service };

    /// Which replies to which lines lead from the one to the other, and whether it stopped behind the last line.
    ghost answers: { Self → Self → Answers };

    /// It may be asked to begin.
    ghost is_ready: { Self → Type 0 };

    /// It may be asked to answer a line.
    ghost is_waiting: { Self → Type 0 };

    /// The borrows behind which it answers.
    ghost behind: { Self → List GName };

    /// Writes what stands before the replies, and tells whether it stops before the first line.
    fn open<K: Sink>(&mut self, sink: &mut K) -> Result<bool, Failed>
        requires { is_ready self.old }
        ensures replies { Replies (answers self.old self.new [])
            (K.writing sink.old) (K.writing sink.new) result }
        ensures waiting { result ≡ Ok false → is_waiting self.new }
        ensures behind { behind self.new ≡ behind self.old };

    /// Answers a line, and tells whether it stops behind it.
    fn answer<K: Sink>(&mut self, line: &[u8], sink: &mut K) -> Result<bool, Failed>
        requires short { length line.now ≤ longest }
        requires waiting { is_waiting self.old }
        ensures replies { Replies (λ reply stops. (start : Self)
            → StepsOn (answers start self.old) line.now reply stops (answers start self.new))
            (K.writing sink.old) (K.writing sink.new) result }
        ensures waiting { result ≡ Ok false → is_waiting self.new }
        ensures behind { behind self.new ≡ behind self.old };

    /// Its last words where it ends so.
    fn last_words(ended: Ended) -> &'static [u8]
        ensures { result.now ≡ words_at service ended };
}

/// Writes a reply behind which a service stops or does not, and tells which.
pub fn write_reply<K: Sink>(sink: &mut K, reply: &[u8], stops: bool) -> Result<bool, Failed>
    ensures written { WritesAll (K.writing sink.old) (K.writing sink.new) result reply.now }
    ensures told { IfOk result (λ told. told ≡ stops) }
{
    match write_all(sink, reply) {
        Ok(()) => Ok(stops),
        Err(Failed) => Err(Failed),
    }
}
