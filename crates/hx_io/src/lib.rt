//! Where the program reads from, where it writes to, and the gate at a worker's turn.
#![tactic(auto)]

mod gates;
mod memory_sinks;
mod memory_sources;
mod sinks;
mod sources;
mod standard;

pub use gates::{Gate, RealGate};
pub use memory_sinks::{CountSink, MemorySink};
pub use memory_sources::{MemorySource, SureSource};
pub use sinks::{Sink, write_all};
pub use sources::{Failed, Source};
pub use standard::{StdSink, StdSource};
