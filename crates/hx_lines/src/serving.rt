//! The loop of a service: each line is answered before the next read, up to a line behind which the service stops, the
//! end, a fault or a limit.
//!
//! What stands behind the line at which it stops is not looked at, and a last piece without LF is a line. Behind the
//! most lines one more is cut and not answered: it tells whether the input was over.

ghost use Rattle.std.specs.Prelude.{◌≡◌, ◌≢◌, ◌+◌, ◌<◌, ◌≤◌, ℕ, true, List, Option, Some, MatchOption, IfNone};
ghost use Rattle.hx_io.specs.Causes.{Rose};
ghost use Rattle.hx_io.specs.Sinks.{SomeWriteFailed};
ghost use Rattle.hx_io.specs.Sources.{IsAtEnd, SomeReadFailed, prepend};
ghost use Rattle.hx_lines.specs.declared.ended.Ended.TheVariants.{ReadFault, WriteFault};
ghost use Rattle.hx_lines.specs.Services.{Ends, SaysLast, Stands, end_at, most_lines, words_at};

use crate::cutters::{Cut, LineCutter};
use crate::ended::Ended;
use crate::services::Serves;
use hx_io::{Failed, Sink, Source, write_all};

/// The most lines of a service.
const MOST_LINES: u64 = 1_048_576;

/// Has a service answer the lines that are held and those of the source, and says how it ended.
///
/// Each reply is written before the next read, and no read follows the line at which the service stops. It takes no
/// memory but what the service takes, and waits only where the service waits.
pub fn serve<S: Source, K: Sink, V: Serves>(
    lines: &mut LineCutter,
    source: &mut S,
    sink: &mut K,
    service: &mut V,
) -> Ended
    requires met_end { lines.old.met_end ≡ true → IsAtEnd (S.reading source.old).left }
    requires ready { V.is_ready service.old }
    // Which lines were answered, and what was written: all replies, or a front of them where a write failed.
    ensures ends { Ends V.service (V.answers service.old service.new)
        (prepend lines.old.held (S.reading source.old).left) (S.reading source.new).left
        (K.writing sink.old).taken (K.writing sink.new).taken result }
    ensures behind { V.behind service.new ≡ V.behind service.old }

    // A fault is the end only where a call of this run failed.
    ensures read_fault { result ≡ ReadFault
        → SomeReadFailed (S.reading source.old) (S.reading source.new) }
    ensures write_fault { result ≡ WriteFault
        → SomeWriteFailed (K.writing sink.old) (K.writing sink.new) }
    ensures later { (S.reading source.old).faults ≤ (S.reading source.new).faults }
{
    match service.open(sink) {
        Ok(true) => return Ended::Stopped,
        Ok(false) => {}
        Err(Failed) => return Ended::WriteFault,
    }
    for _ in 0..MOST_LINES {
        if let Some(ended) = serve_line(lines, source, sink, service) {
            return ended;
        }
    }
    say_last::<K, V>(sink, end_at(lines.next(source)))
}

/// Has the next line answered, or says how the service ended.
fn serve_line<S: Source, K: Sink, V: Serves>(
    lines: &mut LineCutter,
    source: &mut S,
    sink: &mut K,
    service: &mut V,
) -> Option<Ended>
    requires met_end { lines.old.met_end ≡ true → IsAtEnd (S.reading source.old).left }
    requires waiting { V.is_waiting service.old }
    ensures met_end { lines.new.met_end ≡ true → IsAtEnd (S.reading source.new).left }
    ensures waiting { IfNone result (V.is_waiting service.new) }
    ensures step { (start : V) (before taken : Option (List ℕ)) (count : ℕ)
        → count < most_lines
        → Stands (V.answers start service.old) before taken count lines.old.held
        (S.reading source.old).left (K.writing sink.old).taken
        → MatchOption result
        (Stands (V.answers start service.new) before taken (count + 1) lines.new.held
        (S.reading source.new).left (K.writing sink.new).taken)
        (Ends V.service (V.answers start service.new) before (S.reading source.new).left
        taken (K.writing sink.new).taken) }
    ensures behind { V.behind service.new ≡ V.behind service.old }
    ensures read_fault { result ≡ Some ReadFault
        → SomeReadFailed (S.reading source.old) (S.reading source.new) }
    ensures write_fault { result ≡ Some WriteFault
        → SomeWriteFailed (K.writing sink.old) (K.writing sink.new) }
    ensures later { ((S.reading source.old).faults ≤ (S.reading source.new).faults)
        × ((K.writing sink.old).faults ≤ (K.writing sink.new).faults) }
{
    let cut = lines.next(source);
    match cut {
        Ok(Cut::Line { ended }) => match service.answer(lines.line(), sink) {
            Ok(true) => Some(Ended::Stopped),
            Ok(false) if ended => None,
            Ok(false) => Some(say_last::<K, V>(sink, Ended::Over)),
            Err(Failed) => Some(Ended::WriteFault),
        },
        _ => Some(say_last::<K, V>(sink, end_at(cut))),
    }
}

/// How a service ends where no line is answered.
fn end_at(cut: Result<Cut, Failed>) -> Ended
    ensures { result ≡ end_at cut }
{
    match cut {
        Ok(Cut::Over) => Ended::Over,
        Ok(_) => Ended::TooLong,
        Err(Failed) => Ended::ReadFault,
    }
}

/// Writes the last words of a service that ends so, and says how it ended.
fn say_last<K: Sink, V: Serves>(sink: &mut K, ended: Ended) -> Ended
    requires { ended ≢ WriteFault }
    ensures written { SaysLast (K.writing sink.old).taken (K.writing sink.new).taken
        (words_at V.service ended) ended result }
    ensures write_fault { result ≡ WriteFault
        → Rose (K.writing sink.old).faults (K.writing sink.new).faults }
    ensures later { (K.writing sink.old).faults ≤ (K.writing sink.new).faults }
{
    match write_all(sink, V::last_words(ended)) {
        Ok(()) => ended,
        Err(Failed) => Ended::WriteFault,
    }
}
