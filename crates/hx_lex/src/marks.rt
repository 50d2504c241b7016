//! Bytes cut at a mark: a text is cut into lines at each LF, and a line into words at each space. Each cut goes on from
//! the bytes after the last one, so no byte is looked at twice.

ghost use Rattle.std.specs.Prelude.{MatchOption};
ghost use Rattle.hx_lex.specs.Marks.{IsCut, Lacks};

use memchr::memchr;

/// The bytes before the first mark, and those after it. None where there is no mark.
// A call that is not put in place would hand over both parts through memory, word by word.
#[inline(always)]
pub fn cut(bytes: &[u8], mark: u8) -> Option<(&[u8], &[u8])>
    ensures { MatchOption result (Lacks mark bytes.now)
        (λ parts. IsCut mark bytes.now parts.0.now parts.1.now) }
{
    let place = memchr(mark, bytes)?;
    Some((&bytes[..place], &bytes[place + 1..]))
}
