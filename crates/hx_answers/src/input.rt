//! Reading all that a source has, up to a limit on its bytes, which bounds the memory that an input takes.

ghost use Rattle.std.specs.Prelude.{◌≡◌, ℕ, ◌<◌, ◌≤◌, List, length, IfOk, IsErrOf, OnOk};
ghost use Rattle.hx_io.specs.Sources.{SomeReadFailed, prepend, IsAtEnd};
ghost use Rattle.hx_answers.specs.Endings.{IsReadToEnd};

use hx_io::Source;
use std::alloc::Global;
use thiserror::Error;

/// Why not all of an input was read.
#[derive(Clone, Copy, Debug, Drop, Error, PartialEq, Eq)]
pub enum Unread {
    /// A read failed.
    #[error("the source failed")]
    Failed,
    /// The source has more bytes than the limit.
    #[error("the source has more bytes than are read")]
    TooLong,
    /// There was not enough memory for the bytes.
    #[error("there is not enough memory")]
    OutOfMemory,
}

/// The most bytes that are asked for at a time.
const BUFFER: usize = 16_384;

/// Reads to the end of a source that has no more bytes than the limit.
#[tactic(auto, using(crate::proofs::ReadInputs::read_to_end))]
pub fn read_all<S: Source>(alloc: Global, source: &mut S, limit: usize) -> Result<Vec<u8>, Unread>
    ensures all { IfOk result (λ bytes. (length bytes.items ≤ limit)
        × ((S.reading source.old).left ≡ prepend bytes.items (S.reading source.new).left)
        × IsAtEnd (S.reading source.new).left) }
    ensures too_long { IsErrOf result Unread.TooLong → (bytes : List ℕ)
        × (limit < length bytes)
        × ((S.reading source.old).left ≡ prepend bytes (S.reading source.new).left) }
    ensures read_to_end { OnOk result
        (IsReadToEnd (S.reading source.old).left (S.reading source.new).left) }
    ensures failed { IsErrOf result Unread.Failed
        → SomeReadFailed (S.reading source.old) (S.reading source.new) }
    ensures later { (S.reading source.old).faults ≤ (S.reading source.new).faults }
{
    let mut bytes = Vec::new(alloc);
    let mut buffer = [0u8; BUFFER];
    while bytes.len() <= limit {
        let count = match source.read(&mut buffer) {
            Ok(count) => count,
            Err(_) => return Err(Unread::Failed),
        };
        if count == 0 {
            return Ok(bytes);
        }
        if bytes.extend_from_slice(&buffer[..count]).is_err() {
            return Err(Unread::OutOfMemory);
        }
    }
    Err(Unread::TooLong)
}
