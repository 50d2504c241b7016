//! Why a text is not that of a valid tree, or could not be read: the text that is written for it, and the exit status
//! that tells it.

ghost use Rattle.std.specs.Prelude.{◌≡◌};
ghost use Rattle.hx_io.specs.Sinks.{WritesAll};
ghost use Rattle.hx_cmd_check.specs.Judgements.{status_of_fault, fault_text};

use hx_answers::{
    OUT_OF_MEMORY, READ_FAULT, TOO_LONG, write_counted, write_out_of_memory, write_read_fault,
    write_too_long,
};
use hx_io::{Failed, Sink};

/// The first fault of a text, or what stood in the way of reading it.
#[derive(Clone, Copy, Debug, PartialEq, Eq)]
pub enum Fault {
    /// This line, counted from 1, is the first that is not of the grammar in its place.
    NoText { line: u64 },
    /// This node, counted from 0, is the first that is not right.
    NoNode { node: u64 },
    /// A read failed.
    ReadFault,
    /// There was not enough memory.
    OutOfMemory,
    /// A line has more bytes than a line may have, or there are more nodes than `check` accepts.
    TooLong,
}

impl Fault {
    /// The exit status that tells this fault.
    pub fn status(&self) -> u8
        ensures { result ≡ status_of_fault self.now }
    {
        match self {
            Fault::NoText { .. } | Fault::NoNode { .. } => 1,
            Fault::ReadFault => READ_FAULT,
            Fault::OutOfMemory => OUT_OF_MEMORY,
            Fault::TooLong => TOO_LONG,
        }
    }
}

/// Writes a fault, as a line of its own.
pub fn write_fault<K: Sink>(sink: &mut K, fault: &Fault) -> Result<(), Failed>
    ensures { WritesAll (K.writing sink.old) (K.writing sink.new) result (fault_text fault.now) }
{
    match fault {
        Fault::NoText { line } => write_counted(sink, b"no text ", *line),
        Fault::NoNode { node } => write_counted(sink, b"no node ", *node),
        Fault::ReadFault => write_read_fault(sink),
        Fault::OutOfMemory => write_out_of_memory(sink),
        Fault::TooLong => write_too_long(sink),
    }
}
