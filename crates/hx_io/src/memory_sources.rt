//! Sources in memory, for tests: one that never fails, and one that gives small pieces and fails at
//! the calls that a test names.

ghost use Rattle.std.specs.Prelude.{◌≡◌, ◌<◌, ◌↔◌, min, take, drop, ◌++◌, length, Some, Ok, IfOk, OnErr, IsErr, Contains};
ghost use Rattle.std.specs.Io.{ReadsAtMost};
ghost use Rattle.hx_io.specs.Causes.{next_count};
ghost use Rattle.hx_io.specs.Sources.{Reads};

use crate::sources::{Failed, Source};
use std::marker::Model;

/// Gives its bytes, and never fails.
#[derive(Drop)]
pub struct SureSource {
    bytes: Vec<u8>,
    place: usize,
}

impl Model for SureSource {
    ghost use Rattle.std.specs.Prelude.{ℕ, List, ◌≤◌, drop, vec_len};

    ghost Value = { List ℕ };

    ghost view = { λ s. drop s.place s.bytes.items };

    ghost invariant = { λ s. s.place ≤ vec_len s.bytes };
}

impl SureSource {
    /// Gives these bytes, in as few calls as the buffers allow.
    pub fn new(bytes: Vec<u8>) -> SureSource
        ensures { result ≡ bytes.items }
    {
        SureSource { bytes, place: 0 }
    }
}

impl Source for SureSource {
    ghost reading = { λ s. record { left = Some s; faults = 0 } };

    fn read(&mut self, buffer: &mut [u8]) -> Result<usize, Failed>
        requires { 0 < length buffer.old }
        ensures bound { ReadsAtMost result buffer.new }
        ensures reads { Reads (record { left = Some self.old; faults = 0 })
            (record { left = Some self.new; faults = 0 }) result buffer.new }

        // It gives as much as the buffer and what is left allow.
        ensures count { result ≡ Ok (min (length buffer.old) (length self.old)) }
        ensures left { IfOk result (λ n. self.new ≡ drop n self.old) }
    {
        let count = copy_front(&self.bytes[self.place..], buffer);
        self.place += count;
        Ok(count)
    }
}

// Copies as many bytes as both hold, and answers how many they are.
fn copy_front(bytes: &[u8], buffer: &mut [u8]) -> usize
    ensures count { result ≡ min (length buffer.old) (length bytes.now) }
    ensures copied { bytes.now ≡ take result buffer.new ++ drop result bytes.now }
{
    let count = buffer.len().min(bytes.len());
    buffer[..count].copy_from_slice(&bytes[..count]);
    count
}

/// Gives its bytes in pieces, and fails at the calls that were named.
#[derive(Drop)]
pub struct MemorySource {
    source: SureSource,
    piece: usize,
    fail: Vec<u64>,
    calls: u64,
    faults: u64,
}

impl Model for MemorySource {
    ghost use Rattle.std.specs.Prelude.{◌<◌};
    ghost use Rattle.hx_io.specs.Sources.{SourceState};

    ghost Value = { SourceState };

    ghost view = { λ s. record {
      left = s.source;
      piece = s.piece;
      fail = s.fail.items;
      calls = s.calls;
      faults = s.faults;
    } };

    ghost invariant = { λ s. 0 < s.piece };
}

impl MemorySource {
    /// Gives these bytes, at most `piece` of them a call. A read fails where `fail` holds its
    /// number: how many reads of this source came before it, up to 2^64 - 1.
    pub fn new(bytes: Vec<u8>, piece: usize, fail: Vec<u64>) -> MemorySource
        requires { 0 < piece }
        ensures { result ≡ record {
          left = bytes.items;
          piece = piece;
          fail = fail.items;
          calls = 0;
          faults = 0;
        } }
    {
        MemorySource {
            source: SureSource::new(bytes),
            piece,
            fail,
            calls: 0,
            faults: 0,
        }
    }

    /// How many reads there were, up to 2^64 - 1.
    pub fn calls(&self) -> u64
        ensures { result ≡ self.now.calls }
    {
        self.calls
    }

    /// How many reads failed, up to 2^64 - 1.
    pub fn faults(&self) -> u64
        ensures { result ≡ self.now.faults }
    {
        self.faults
    }
}

impl Source for MemorySource {
    ghost reading = { λ s. record { left = Some s.left; faults = s.faults } };

    fn read(&mut self, buffer: &mut [u8]) -> Result<usize, Failed>
        requires { 0 < length buffer.old }
        ensures bound { ReadsAtMost result buffer.new }
        ensures reads { Reads (record { left = Some self.old.left; faults = self.old.faults })
            (record { left = Some self.new.left; faults = self.new.faults }) result buffer.new }

        // It fails at the calls whose numbers were given, and at no other.
        ensures fails { IsErr result ↔ Contains self.old.fail self.old.calls }
        // It gives as much as the piece, the buffer and what is left allow.
        ensures count { IfOk result (λ n.
            n ≡ min (min self.old.piece (length buffer.old)) (length self.old.left)) }

        // Nothing else changes.
        ensures ok { IfOk result (λ n. self.new ≡ record self.old {
          left = drop n self.old.left;
          calls = next_count self.old.calls;
        }) }
        ensures err { OnErr result (self.new ≡ record self.old {
          calls = next_count self.old.calls;
          faults = next_count self.old.faults;
        }) }
    {
        let call = self.calls;
        self.calls = self.calls.saturating_add(1);
        if self.fail.contains(&call) {
            self.faults = self.faults.saturating_add(1);
            return Err(Failed);
        }
        let most = self.piece.min(buffer.len());
        self.source.read(&mut buffer[..most])
    }
}
