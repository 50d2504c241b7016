//! Runs of a command over a source and a sink in memory, with a gate.

use hx_app::run;
use hx_io::{Gate, MemorySink, MemorySource};
use std::alloc::{AllocError, Global};
use std::sync::Wait;
use std::test::Fail;
use std::thread::Threads;

/// The most bytes of an output.
const ROOM: usize = 65_536;

/// The words as the program is handed them.
fn words_of(alloc: Global, words: &[&str]) -> Result<Vec<String>, AllocError> {
    let mut owned = Vec::new(alloc);
    for word in words {
        owned.push(String::from_str(alloc, word)?)?;
    }
    Ok(owned)
}

/// What came of a run.
#[derive(Drop)]
pub(crate) struct Came {
    pub status: u8,
    pub output: Vec<u8>,
}

/// What the command of these words writes for an input, and how it ends.
pub(crate) fn came_of<G: Gate + Sync, R: Threads + Wait + Sync>(
    rt: &R,
    alloc: Global,
    words: &[&str],
    input: &str,
    gate: &G,
) -> Result<Came, Fail> {
    let words = words_of(alloc, words)?;
    let text = input.as_bytes().to_vec(alloc)?;
    let mut source = MemorySource::new(text, 4096, Vec::new(alloc));
    let mut sink = MemorySink::new(alloc, ROOM, 4096, Vec::new(alloc))?;
    let finish = run(rt, alloc, &words, &mut source, &mut sink, gate);
    Ok(Came {
        status: finish.status,
        output: sink.bytes().to_vec(alloc)?,
    })
}
