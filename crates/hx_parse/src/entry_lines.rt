//! The lines of entries, each read by its kind.

ghost use Rattle.std.specs.Prelude.{◌≡◌, IfOk, OnErr};
ghost use Rattle.hx_lex.specs.Words.{Reads};
ghost use Rattle.hx_parse.specs.EntryReads.{IsEntryLine};
ghost use Rattle.hx_text.specs.Entries.{entry_line};
ghost use Rattle.hx_parse.specs.Ors.{BeginsLongOr};

use crate::answer_lines::read_answer;
use crate::fill_lines::read_fill;
use crate::step_lines::{read_step, read_threat};
use hx_board::{Memory, Size};
use hx_text::{Entry, EntryKind};
use std::alloc::Global;

/// The line of an entry of this kind. It takes memory for the parts of an Or with more than eight alone.
pub(crate) fn read_entry(
    alloc: Global,
    size: Size,
    kind: EntryKind,
    line: &[u8],
) -> Result<Option<Entry>, Memory>
    ensures reads { IfOk result (Reads entry_line (IsEntryLine size kind) line.now) }
    ensures memory { OnErr result ((kind ≡ EntryKind.Step) × BeginsLongOr line.now) }
{
    match kind {
        EntryKind::Step => match read_step(alloc, size, line) {
            Ok(Some(step)) => Ok(Some(Entry::Step(step))),
            Ok(None) => Ok(None),
            Err(Memory) => Err(Memory),
        },
        EntryKind::Threat => match read_threat(line) {
            Some(place) => Ok(Some(Entry::Threat(place))),
            None => Ok(None),
        },
        EntryKind::Answer => match read_answer(size, line) {
            Some(answer) => Ok(Some(Entry::Answer(answer))),
            None => Ok(None),
        },
        EntryKind::Fill => match read_fill(size, line) {
            Some(fill) => Ok(Some(Entry::Fill(fill))),
            None => Ok(None),
        },
    }
}
