//! Words with a number behind them, and a line that ends so.

ghost use Rattle.hx_io.specs.Sinks.{WritesAll};
ghost use Rattle.hx_answers.specs.Texts.{counted_text, numbered_text};

use hx_io::{Failed, Sink, write_all};
use itoa::Buffer;

/// Writes some words and a number.
#[tactic(auto, using(hx_io::proofs::SinkLaws::several_writes))]
pub fn write_numbered<K: Sink>(sink: &mut K, words: &[u8], n: u64) -> Result<(), Failed>
    ensures { WritesAll (K.writing sink.old) (K.writing sink.new) result
        (numbered_text words.now n) }
{
    let mut buffer = Buffer::new();
    match write_all(sink, words) {
        Ok(()) => write_all(sink, buffer.format(n).as_bytes()),
        Err(Failed) => Err(Failed),
    }
}

/// Writes some words, a number and an LF.
#[tactic(auto, using(hx_io::proofs::SinkLaws::several_writes))]
pub fn write_counted<K: Sink>(sink: &mut K, words: &[u8], n: u64) -> Result<(), Failed>
    ensures { WritesAll (K.writing sink.old) (K.writing sink.new) result
        (counted_text words.now n) }
{
    match write_numbered(sink, words, n) {
        Ok(()) => write_all(sink, b"\n"),
        Err(Failed) => Err(Failed),
    }
}
