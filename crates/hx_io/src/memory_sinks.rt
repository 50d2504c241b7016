//! Sinks in memory, for tests: one that keeps what it takes and fails at the calls that a test
//! names or where its room is used up, and one that only counts.

ghost use Rattle.std.specs.Prelude.{◌≡◌, ℕ, ◌+◌, ◌-◌, ◌<◌, ◌↔◌, ◌⊎◌, min, [], ◌++◌, take, length, Some, None, Ok, IfOk, OnErr, IsErr, Contains};
ghost use Rattle.hx_io.specs.Causes.{last_count, next_count};
ghost use Rattle.hx_io.specs.Sinks.{Writes};

use crate::sinks::Sink;
use crate::sources::Failed;
use hx_board::Memory;
use std::alloc::Global;
use std::marker::Model;

/// Takes bytes in pieces while it has room, and fails at the calls that were named.
#[derive(Drop)]
pub struct MemorySink {
    bytes: Vec<u8>,
    room: usize,
    piece: usize,
    fail: Vec<u64>,
    calls: u64,
    faults: u64,
}

impl Model for MemorySink {
    ghost use Rattle.std.specs.Prelude.{◌<◌, ◌≤◌, vec_len, vec_capacity};
    ghost use Rattle.hx_io.specs.Sinks.{SinkState};

    ghost Value = { SinkState };

    ghost view = { λ s. record {
      taken = s.bytes.items;
      room = s.room;
      piece = s.piece;
      fail = s.fail.items;
      calls = s.calls;
      faults = s.faults;
    } };

    ghost invariant = { λ s. (vec_len s.bytes ≤ s.room) × (s.room ≤ vec_capacity s.bytes)
        × (0 < s.piece) };
}

impl MemorySink {
    /// Takes at most `room` bytes in all, whose memory is reserved here, and at most `piece` of
    /// them a call. A write fails where the room is used up, and where `fail` holds its number:
    /// how many writes to this sink came before it, up to 2^64 - 1. `Memory` says that the room
    /// could not be reserved.
    pub fn new(
        alloc: Global,
        room: usize,
        piece: usize,
        fail: Vec<u64>,
    ) -> Result<MemorySink, Memory>
        requires { 0 < piece }
        ensures { IfOk result (λ sink. sink ≡ record {
          taken = [];
          room = room;
          piece = piece;
          fail = fail.items;
          calls = 0;
          faults = 0;
        }) }
    {
        match Vec::with_capacity(alloc, room) {
            Ok(bytes) => Ok(MemorySink {
                bytes,
                room,
                piece,
                fail,
                calls: 0,
                faults: 0,
            }),
            Err(_) => Err(Memory),
        }
    }

    /// The bytes that it took.
    pub fn bytes(&self) -> &[u8]
        ensures { result.now ≡ self.now.taken }
    {
        self.bytes.as_slice()
    }

    /// How many writes there were, up to 2^64 - 1.
    pub fn calls(&self) -> u64
        ensures { result ≡ self.now.calls }
    {
        self.calls
    }

    /// How many writes failed, up to 2^64 - 1.
    pub fn faults(&self) -> u64
        ensures { result ≡ self.now.faults }
    {
        self.faults
    }
}

impl Sink for MemorySink {
    ghost writing = { λ s. record { taken = Some s.taken; faults = s.faults } };

    // It takes no memory.
    fn write(&mut self, piece: &[u8]) -> Result<usize, Failed>
        requires { 0 < length piece.now }
        ensures writes { Writes (record { taken = Some self.old.taken; faults = self.old.faults })
            (record { taken = Some self.new.taken; faults = self.new.faults }) result piece.now }

        // It fails at the calls whose numbers were given and where the room is used up, and at no other.
        ensures fails { IsErr result
            ↔ (Contains self.old.fail self.old.calls ⊎ (length self.old.taken ≡ self.old.room)) }
        // It takes as much as its piece, the given piece and the room left allow.
        ensures count { IfOk result (λ n.
            n ≡ min (min self.old.piece (length piece.now))
            (self.old.room - length self.old.taken)) }

        // Nothing else changes.
        ensures ok { IfOk result (λ n. self.new ≡ record self.old {
          taken = self.old.taken ++ take n piece.now;
          calls = next_count self.old.calls;
        }) }
        ensures err { OnErr result (self.new ≡ record self.old {
          calls = next_count self.old.calls;
          faults = next_count self.old.faults;
        }) }
    {
        let call = self.calls;
        self.calls = self.calls.saturating_add(1);
        if self.fail.contains(&call) || self.bytes.len() == self.room {
            self.faults = self.faults.saturating_add(1);
            return Err(Failed);
        }
        let count = self
            .piece
            .min(piece.len())
            .min(self.room - self.bytes.len());
        // The room was reserved.
        self.bytes.extend_from_slice(&piece[..count]).unwrap();
        Ok(count)
    }
}

/// Takes all bytes, keeps only how many they are, and never fails.
#[derive(Drop)]
pub struct CountSink {
    count: u64,
}

impl Model for CountSink {
    ghost use Rattle.std.specs.Prelude.{ℕ};

    ghost Value = { ℕ };

    ghost view = { λ s. s.count };
}

impl CountSink {
    /// A sink that took nothing yet.
    pub fn new() -> CountSink
        ensures { result ≡ 0 }
    {
        CountSink { count: 0 }
    }

    /// How many bytes it took, up to 2^64 - 1.
    pub fn count(&self) -> u64
        ensures { result ≡ self.now }
    {
        self.count
    }
}

impl Sink for CountSink {
    ghost writing = { λ _. record { taken = None; faults = 0 } };

    fn write(&mut self, piece: &[u8]) -> Result<usize, Failed>
        requires { 0 < length piece.now }
        ensures writes { Writes (record { taken = None; faults = 0 })
            (record { taken = None; faults = 0 }) result piece.now }

        // It takes the whole piece.
        ensures whole { result ≡ Ok (length piece.now) }
        ensures count { self.new ≡ min (self.old + length piece.now) last_count }
    {
        self.count = self.count.saturating_add(piece.len() as u64);
        Ok(piece.len())
    }
}
