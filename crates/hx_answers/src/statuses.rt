//! The answers that come in the place of another one, with the exit statuses that tell them: of faults, want of memory,
//! limits and what is used up.

ghost use Rattle.hx_answers.specs.Texts.{out_of_memory_line, read_fault_line, too_long_line, unknown_budget_line, unknown_proofs_line};
ghost use Rattle.hx_io.specs.Sinks.{WritesAll};

use crate::counted::write_counted;
use hx_io::{Failed, Sink, write_all};

/// Units or slots were used up.
pub const UNKNOWN: u8 = 3;

/// A read failed.
pub const READ_FAULT: u8 = 5;

/// A write failed.
pub const WRITE_FAULT: u8 = 6;

/// There was not enough memory.
pub const OUT_OF_MEMORY: u8 = 7;

/// The input is above a limit.
pub const TOO_LONG: u8 = 8;

/// Says that a budget of so many units was used up.
pub fn write_unknown_budget<K: Sink>(sink: &mut K, budget: u64) -> Result<(), Failed>
    ensures { WritesAll (K.writing sink.old) (K.writing sink.new) result
        (unknown_budget_line budget) }
{
    write_counted(sink, b"unknown budget ", budget)
}

/// Says that so many slots for proofs were used up.
pub fn write_unknown_proofs<K: Sink>(sink: &mut K, slots: u32) -> Result<(), Failed>
    ensures { WritesAll (K.writing sink.old) (K.writing sink.new) result
        (unknown_proofs_line slots) }
{
    write_counted(sink, b"unknown proofs ", u64::from(slots))
}

/// Says that a read failed.
pub fn write_read_fault<K: Sink>(sink: &mut K) -> Result<(), Failed>
    ensures { WritesAll (K.writing sink.old) (K.writing sink.new) result read_fault_line }
{
    write_all(sink, b"read fault\n")
}

/// Says that memory was wanting.
pub fn write_out_of_memory<K: Sink>(sink: &mut K) -> Result<(), Failed>
    ensures { WritesAll (K.writing sink.old) (K.writing sink.new) result out_of_memory_line }
{
    write_all(sink, b"out of memory\n")
}

/// Says that the input is above a limit.
pub fn write_too_long<K: Sink>(sink: &mut K) -> Result<(), Failed>
    ensures { WritesAll (K.writing sink.old) (K.writing sink.new) result too_long_line }
{
    write_all(sink, b"too long\n")
}
