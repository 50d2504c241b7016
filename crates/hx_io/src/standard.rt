//! The edge of the program: a reader or a writer of std as a source or a sink. Nothing can be told
//! of the bytes that a real input gives or a real output takes, nor of when it fails, so these
//! adapters are trusted there. What std says of its reader and writer they pass on as it is.

ghost use Rattle.std.specs.Prelude.{◌≡◌, None, ◌<◌, length, OnOk, OnErr};
ghost use Rattle.std.specs.Io.{ReadsAtMost};
ghost use Rattle.std.specs.Io.KnownBytes.{ReadConsumes, WriteAppends};
ghost use Rattle.hx_io.specs.Causes.{next_count};
ghost use Rattle.hx_io.specs.Sources.{Reads};
ghost use Rattle.hx_io.specs.Sinks.{Writes};

use crate::sinks::Sink;
use crate::sources::{Failed, Source};
use std::io::{Read, Write};
use std::marker::Model;

/// A reader of std as a source. It tells nothing of the bytes.
#[derive(Drop)]
pub struct StdSource<R: Read> {
    reader: R,
    faults: u64,
}

impl<R: Read> Model for StdSource<R> {
    ghost use Rattle.hx_io.specs.Standard.{Counted};

    ghost Value = { Counted R };

    ghost view = { λ s. record { inner = s.reader; faults = s.faults } };
}

impl<R: Read> StdSource<R> {
    /// Reads from this reader.
    pub fn new(reader: R) -> StdSource<R>
        ensures { result ≡ record { inner = reader; faults = 0 } }
    {
        StdSource { reader, faults: 0 }
    }
}

impl<R: Read> Source for StdSource<R> {
    ghost reading = { λ s. record { left = None; faults = s.faults } };

    // Each error of the reader's is a fault.
    fn read(&mut self, buffer: &mut [u8]) -> Result<usize, Failed>
        requires { 0 < length buffer.old }
        ensures bound { ReadsAtMost result buffer.new }
        ensures reads { Reads (record { left = None; faults = self.old.faults })
            (record { left = None; faults = self.new.faults }) result buffer.new }

        // What the reader says of its bytes is passed on.
        ensures passes { ReadConsumes (R.remaining self.old.inner) (R.remaining self.new.inner)
            result buffer.new }
        ensures unfailed { OnOk result (self.new.faults ≡ self.old.faults) }
        ensures counted { OnErr result (self.new.faults ≡ next_count self.old.faults) }
    {
        match self.reader.read(buffer) {
            Ok(count) => Ok(count),
            Err(_) => {
                self.faults = self.faults.saturating_add(1);
                Err(Failed)
            }
        }
    }
}

/// A writer of std as a sink. It tells nothing of the bytes.
#[derive(Drop)]
pub struct StdSink<W: Write> {
    writer: W,
    faults: u64,
}

impl<W: Write> Model for StdSink<W> {
    ghost use Rattle.hx_io.specs.Standard.{Counted};

    ghost Value = { Counted W };

    ghost view = { λ s. record { inner = s.writer; faults = s.faults } };
}

impl<W: Write> StdSink<W> {
    /// Writes to this writer.
    pub fn new(writer: W) -> StdSink<W>
        ensures { result ≡ record { inner = writer; faults = 0 } }
    {
        StdSink { writer, faults: 0 }
    }
}

impl<W: Write> Sink for StdSink<W> {
    ghost writing = { λ s. record { taken = None; faults = s.faults } };

    // Each error of the writer's is a fault, and so is a write that takes nothing.
    fn write(&mut self, piece: &[u8]) -> Result<usize, Failed>
        requires { 0 < length piece.now }
        ensures writes { Writes (record { taken = None; faults = self.old.faults })
            (record { taken = None; faults = self.new.faults }) result piece.now }

        // What the writer says of its bytes is passed on.
        ensures passes { WriteAppends (W.contents self.old.inner) (W.contents self.new.inner)
            result piece.now }
        ensures unfailed { OnOk result (self.new.faults ≡ self.old.faults) }
        ensures counted { OnErr result (self.new.faults ≡ next_count self.old.faults) }
    {
        match self.writer.write(piece) {
            Ok(count) if count > 0 => Ok(count),
            _ => {
                self.faults = self.faults.saturating_add(1);
                Err(Failed)
            }
        }
    }
}
