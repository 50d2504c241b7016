//! The words that the program was started with, as texts. No contract says which they are, since none can say what the
//! environment gives.

ghost use Rattle.std.specs.Prelude.{◌≤◌, All, IfOk, length, string_bytes};

use std::alloc::AllocError;
use std::env::{Env, FillError};
use std::str;

/// No word of a command is longer, in bytes.
const LONGEST_WORD: usize = 64;

/// The words behind the program's name, which is not looked at: it may be no text. A word that is no text, or a longer
/// one, stands in no command, so then there are no words at all.
pub fn words_given(rt: &(impl Env + AllocGlobal)) -> Result<Vec<String>, AllocError>
    ensures short { IfOk result
        (λ words. All (λ word. length (string_bytes word) ≤ 64) words.items) }
{
    let mut words = Vec::new(rt.alloc());
    let mut buffer = [0u8; LONGEST_WORD];
    for place in 1..usize::MAX {
        let count = match rt.arg(place, &mut buffer) {
            Ok(count) => count,
            Err(FillError::NotPresent) => break,
            Err(FillError::TooLong) => return Ok(Vec::new(rt.alloc())),
        };
        let Ok(word) = str::from_utf8(&buffer[..count]) else {
            return Ok(Vec::new(rt.alloc()));
        };
        words.push(String::from_str(rt.alloc(), word)?)?;
    }
    Ok(words)
}
