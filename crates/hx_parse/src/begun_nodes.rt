//! A node of which some lines are still to come.

ghost use Rattle.std.specs.Prelude.{◌≡◌, IsTrue, false};
ghost use Rattle.hx_parse.specs.Places.{IsWithEntry, HasNoRoomFor, kind_due};

use crate::so_far::SoFar;
use hx_board::Size;
use hx_inferior::FillStep;
use hx_link::Step;
use hx_text::{Entry, EntryKind, Head};
use hx_tree::Line;

/// A node that lacks some of its entries, and what the nodes before it have said.
#[derive(Debug, Drop)]
pub struct Begun {
    pub so_far: SoFar,
    /// The node's first line.
    pub head: Head,
    /// How many entries are still to come.
    pub missing: u64,
    /// The entries that came.
    pub steps: Vec<Step>,
    pub threats: Vec<u32>,
    pub lines: Vec<Line>,
    pub fills: Vec<FillStep>,
}

impl Begun {
    /// The size of the board.
    pub(crate) fn size(&self) -> Size
        ensures { result ≡ self.now.so_far.preamble.size }
    {
        self.so_far.preamble.size
    }

    /// Which kind of entry is due.
    #[inline(always)]
    pub(crate) fn kind_due(&self) -> EntryKind
        ensures { result ≡ kind_due self.now }
    {
        let opening = &self.head.opening;
        if self.steps.len() < opening.steps() as usize {
            EntryKind::Step
        } else if self.threats.len() < opening.threats() as usize {
            EntryKind::Threat
        } else if self.lines.len() < opening.answers() as usize {
            EntryKind::Answer
        } else {
            EntryKind::Fill
        }
    }

    /// Takes one more entry, where its list has room, and says whether it did. The lists were made with room for all
    /// entries.
    #[inline(always)]
    pub(crate) fn takes(&mut self, entry: Entry) -> bool
        ensures yes { IsTrue result → IsWithEntry self.old entry self.new }
        ensures no { result ≡ false → self.new ≡ self.old }
        ensures full { result ≡ false → HasNoRoomFor self.old entry }
    {
        match entry {
            Entry::Step(step) => {
                if self.steps.len() == self.steps.capacity() {
                    return false;
                }
                self.steps.push_reserved(step);
            }
            Entry::Threat(place) => {
                if self.threats.len() == self.threats.capacity() {
                    return false;
                }
                self.threats.push_reserved(place);
            }
            Entry::Answer(line) => {
                if self.lines.len() == self.lines.capacity() {
                    return false;
                }
                self.lines.push_reserved(line);
            }
            Entry::Fill(fill) => {
                if self.fills.len() == self.fills.capacity() {
                    return false;
                }
                self.fills.push_reserved(fill);
            }
        }
        self.missing = self.missing.saturating_sub(1);
        true
    }
}
