//! A cutter reads into its buffer until a line is whole, and hands the line out where it lies. The buffer has room for
//! the line last cut, which its caller may still be reading, for as many bytes of the next line as a line may have, and
//! for some more at each read. Before a read, and only then, these two lines are moved to its front.

ghost use Rattle.std.specs.Prelude.{◌≡◌, ◌+◌, ◌-◌, ◌<◌, ◌≤◌, ◌⊎◌, ℕ, [], ◌∷◌, ◌++◌, true, false, List, Option, take, drop, length, slice_index, IsOk, IfOk, IfSome, IfNone, OnOk, OnErr, MatchOption};
ghost use Rattle.hx_io.specs.Causes.{HasCause};
ghost use Rattle.hx_io.specs.Sources.{IsAtEnd, Reads};
ghost use Rattle.hx_lines.specs.Lines.{HasLf, longest};

use hx_io::{Failed, Source};
use memchr::memchr;
use std::marker::Model;

/// The most bytes of a line.
pub const LONGEST: usize = 4096;

/// The bytes of the buffer: three lines.
const ROOM: usize = 12288;

/// What was cut off.
#[derive(Clone, Copy, Debug, PartialEq, Eq)]
pub enum Cut {
    /// The next line, which `LineCutter::line` gives. It is not `ended` exactly where it is a last piece without LF.
    Line { ended: bool },
    /// Nothing: the next line has more than 4,096 bytes before its LF or the end.
    TooLong,
    /// Nothing: no byte is left.
    Over,
}

/// Cuts the lines of one source.
#[derive(Drop)]
pub struct LineCutter {
    buffer: [u8; ROOM],
    start: usize,
    end: usize,
    line_start: usize,
    line_len: usize,
    met_end: bool,
}

impl Model for LineCutter {
    ghost use Rattle.std.specs.Prelude.{◌+◌, ◌-◌, ◌≤◌, take, drop};
    ghost use Rattle.hx_lines.specs.Cutters.{Cutter};

    ghost Value = { Cutter };

    ghost view = { λ c. record {
      held = take (c.end - c.start) (drop c.start c.buffer);
      line = take c.line_len (drop c.line_start c.buffer);
      met_end = c.met_end;
    } };

    ghost invariant = { λ c. record {
      line_first : c.line_start + c.line_len ≤ c.start;
      near : c.start ≤ c.line_start + c.line_len + 1;
      order : c.start ≤ c.end;
      within : c.end ≤ 12288;
      short : c.line_len ≤ 4096;
    } };
}

impl LineCutter {
    ghost use Rattle.hx_lines.specs.Cutters.{IsCut, IsOver, TellsAnswer, Stays};

    /// A cutter that has read nothing.
    pub fn new() -> LineCutter
        ensures { result ≡ record { held = []; line = []; met_end = false } }
    {
        LineCutter {
            buffer: [0; ROOM],
            start: 0,
            end: 0,
            line_start: 0,
            line_len: 0,
            met_end: false,
        }
    }

    /// The line last cut, without its LF; empty before the first.
    pub fn line(&self) -> &[u8]
        ensures bytes { result.now ≡ self.now.line }
        ensures short { length result.now ≤ longest }
    {
        &self.buffer[self.line_start..self.line_start + self.line_len]
    }

    /// Cuts the next line off what is held and what the source has left. One cutter goes with one source.
    pub fn next<S: Source>(&mut self, source: &mut S) -> Result<Cut, Failed>
        requires { self.old.met_end ≡ true → IsAtEnd (S.reading source.old).left }
        ensures cut { IfOk result
            (IsCut self.old self.new (S.reading source.old).left (S.reading source.new).left) }
        ensures met_end { self.new.met_end ≡ true → IsAtEnd (S.reading source.new).left }

        // A fault loses nothing, and comes only when all lines whose LF was read have been cut and no line is known to
        // be too long.
        ensures failed { OnErr result
            (Stays self.old self.new (S.reading source.old).left (S.reading source.new).left) }
        ensures plain { OnErr result (¬ HasLf self.new.held) }
        ensures short { OnErr result (length self.new.held ≤ longest) }
        ensures cause { HasCause (S.reading source.old).faults (S.reading source.new).faults
            result }

        // Where what is held tells the answer, nothing is read: so after `TooLong` and after `Over`.
        // After `Over` the answer is `Over` again.
        ensures reads { TellsAnswer self.old → source.new ≡ source.old }
        ensures sure { TellsAnswer self.old → IsOk result }
        ensures over { IsOver self.old → result ≡ Ok Cut.Over }
    {
        loop {
            if let Some(cut) = self.cut() {
                return Ok(cut);
            }
            self.refill(source)?;
        }
    }

    /// The bytes that were read and not cut.
    fn held(&self) -> &[u8]
        ensures held { result.now ≡ self.now.held }
        ensures room { length result.now ≤ 12288 }
    {
        &self.buffer[self.start..self.end]
    }

    /// Reads once.
    fn refill<S: Source>(&mut self, source: &mut S) -> Result<(), Failed>
        requires { ¬ TellsAnswer self.old }
        ensures stays { Stays self.old self.new
            (S.reading source.old).left (S.reading source.new).left }
        ensures met_end { self.new.met_end ≡ true → IsAtEnd (S.reading source.new).left }
        ensures more { OnOk result
            ((self.new.met_end ≡ true) ⊎ (length self.old.held < length self.new.held)) }
        ensures err { OnErr result (self.new ≡ self.old) }
        ensures cause { HasCause (S.reading source.old).faults (S.reading source.new).faults
            result }
    {
        move_to_front(&mut self.buffer, self.line_start, self.end);
        self.start -= self.line_start;
        self.end -= self.line_start;
        self.line_start = 0;
        let count = read_behind(source, &mut self.buffer, self.end)?;
        self.end += count;
        self.met_end = count == 0;
        Ok(())
    }

    /// Cuts the next line off what is held. None only where that does not tell the answer, and then all is as it was.
    fn cut(&mut self) -> Option<Cut>
        ensures cut { IfSome result (λ cut. (left : Option (List ℕ))
            → (self.old.met_end ≡ true → IsAtEnd left) → IsCut self.old self.new left left cut) }
        ensures nothing_told { IfNone result (¬ TellsAnswer self.old) }
        ensures same { IfNone result (self.new ≡ self.old) }
        ensures over { IsOver self.old → result ≡ Some Cut.Over }
        ensures met_end { self.new.met_end ≡ self.old.met_end }
    {
        let held = self.held();
        let len = held.len();
        match find_lf(held) {
            Some(place) if place <= LONGEST => {
                self.take_ended(place);
                Some(Cut::Line { ended: true })
            }
            Some(_) => Some(Cut::TooLong),
            None if len > LONGEST => Some(Cut::TooLong),
            None if !self.met_end => None,
            None if len == 0 => Some(Cut::Over),
            None => {
                self.take_rest();
                Some(Cut::Line { ended: false })
            }
        }
    }

    /// Cuts a line of so many bytes off what is held, and its LF.
    fn take_ended(&mut self, len: usize)
        requires within { len < length self.old.held }
        requires short { len ≤ longest }
        requires lf { slice_index self.old.held len ≡ 10 }
        ensures line { self.new.line ≡ take len self.old.held }
        ensures held { self.old.held ≡ (self.new.line ++ 10 ∷ []) ++ self.new.held }
        ensures met_end { self.new.met_end ≡ self.old.met_end }
    {
        self.line_start = self.start;
        self.line_len = len;
        self.start += len + 1;
    }

    /// Cuts off all that is held.
    fn take_rest(&mut self)
        requires { length self.old.held ≤ longest }
        ensures line { self.new.line ≡ self.old.held }
        ensures held { self.new.held ≡ [] }
        ensures met_end { self.new.met_end ≡ self.old.met_end }
    {
        self.line_start = self.start;
        self.line_len = self.end - self.start;
        self.start = self.end;
    }
}

/// Moves the bytes between two places to the front.
fn move_to_front(buffer: &mut [u8], start: usize, end: usize)
    requires order { start ≤ end }
    requires within { end ≤ length buffer.old }
    ensures { take (end - start) buffer.new ≡ take (end - start) (drop start buffer.old) }
{
    buffer.copy_within(start..end, 0);
}

/// Reads into the buffer from a place on.
fn read_behind<S: Source>(source: &mut S, buffer: &mut [u8], place: usize) -> Result<usize, Failed>
    requires { place < length buffer.old }
    ensures front { take place buffer.new ≡ take place buffer.old }
    ensures bound { IfOk result (λ count. place + count ≤ length buffer.new) }
    ensures reads { Reads (S.reading source.old) (S.reading source.new) result
        (drop place buffer.new) }
{
    source.read(&mut buffer[place..])
}

/// The place of the first LF.
fn find_lf(bytes: &[u8]) -> Option<usize>
    ensures { MatchOption result (¬ HasLf bytes.now)
        (λ place. (place < length bytes.now) × (slice_index bytes.now place ≡ 10)
        × ¬ HasLf (take place bytes.now)) }
{
    memchr(b'\n', bytes)
}
