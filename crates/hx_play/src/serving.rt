//! Serving a game: each of the opponent's lines is answered before the next read, up to a chain, the end, a fault or a
//! limit. What stands behind the line that is answered by a chain is not looked at.

ghost use Rattle.std.specs.Prelude.{◌≡◌, ◌≤◌, true};
ghost use Rattle.hx_io.specs.Sinks.{SomeWriteFailed};
ghost use Rattle.hx_io.specs.Sources.{IsAtEnd, SomeReadFailed, prepend};
ghost use Rattle.hx_play.specs.Serving.{Ends, end_of};

use crate::players::Player;
use hx_io::{Sink, Source};
use hx_lines::{Ended, LineCutter};

/// How a game was served.
#[derive(Clone, Copy, Debug, PartialEq, Eq)]
pub enum Served {
    /// The winner has a chain.
    Chain,
    /// The lines ended before the game did.
    Unfinished,
    /// A read failed.
    ReadFault,
    /// A write failed.
    WriteFault,
    /// A line is too long, or there is one line too many.
    TooLong,
}

/// Plays a game whose opponent's moves are the lines that are held and those of the source, one cell a line. First of
/// all it names the player, and makes its first move where it is its turn.
///
/// It asks nothing of what was played before, and goes on from the game that the player has: from the root where the
/// player was just made.
///
/// Each answer is written before the next read, and no read follows a chain. It takes no memory.
pub fn serve<S: Source, K: Sink>(
    lines: &mut LineCutter,
    source: &mut S,
    sink: &mut K,
    player: &mut Player,
) -> Served
    requires met_end { lines.old.met_end ≡ true → IsAtEnd (S.reading source.old).left }
    // Which lines were answered, and what was written: a whole game of them with the words of its end, or a front of
    // that where a write failed.
    ensures ends { Ends player.old player.new
        (prepend lines.old.held (S.reading source.old).left) (S.reading source.new).left
        (K.writing sink.old).taken (K.writing sink.new).taken result }

    // A fault is the end only where a call of this run failed.
    ensures read_fault { result ≡ Served.ReadFault
        → SomeReadFailed (S.reading source.old) (S.reading source.new) }
    ensures write_fault { result ≡ Served.WriteFault
        → SomeWriteFailed (K.writing sink.old) (K.writing sink.new) }
    ensures later { (S.reading source.old).faults ≤ (S.reading source.new).faults }
{
    served_as(hx_lines::serve(lines, source, sink, player))
}

/// How a game was served whose lines ended so.
fn served_as(ended: Ended) -> Served
    ensures { end_of result ≡ ended }
{
    match ended {
        Ended::Stopped => Served::Chain,
        Ended::Over => Served::Unfinished,
        Ended::ReadFault => Served::ReadFault,
        Ended::WriteFault => Served::WriteFault,
        Ended::TooLong => Served::TooLong,
    }
}
