//! A text that is read line by line, up to the first line that is not of the grammar in its place.

ghost use Rattle.std.specs.Prelude.{◌≡◌, ◌≢◌, [], Some, None, IfOk, IfErr, OnErr, MatchResult};
ghost use Rattle.std.specs.Fn.{FnOnceReturnsAt};

use hx_lex::cut;
use std::marker::Model;
use thiserror::Error;

/// The first line of a text, counted from 1, that is not of the grammar in its place.
#[derive(Clone, Copy, PartialEq, Eq, Debug, Error)]
#[error("line {line} is not of the grammar in its place")]
pub struct TextFault {
    pub line: u64,
}

/// The lines of a text that are still to be read. It takes no memory.
#[derive(Drop)]
pub struct TextLines<'a> {
    rest: &'a [u8],
    /// The number of the next line.
    number: u64,
}

impl<'a> Model for TextLines<'a> {
    ghost use Rattle.std.specs.Prelude.{◌+◌, ◌<◌, ◌^◌, length};
    ghost use Rattle.hx_parse.specs.TextLines.{Unread};

    ghost Value = { Unread };

    ghost view = { λ l. record { rest = l.rest.now; number = l.number } };

    // Each line that was counted had an LF.
    ghost invariant = { λ l. l.number + length l.rest.now < 2 ^ 64 };
}

impl<'a> TextLines<'a> {
    ghost use Rattle.hx_parse.specs.TextLines.{TakesLine, LacksLine};

    /// All lines of a text.
    pub fn of(text: &'a [u8]) -> TextLines<'a>
        ensures { result ≡ record { rest = text.now; number = 1 } }
    {
        TextLines {
            rest: text,
            number: 1,
        }
    }

    /// Reads the next line with the reader of its kind. A line that is missing or is not ended by LF is of no kind.
    pub fn next<T, F: FnOnce(&[u8]) -> Option<T>>(&mut self, read: F) -> Result<T, TextFault>
        requires { F.IsAlwaysCallable read }
        ensures read { IfOk result (λ value.
            TakesLine (λ line. FnOnceReturnsAt F.FnOnce read line (Some value)) self.old self.new) }
        ensures fault { IfErr result (λ fault.
            LacksLine (λ line. FnOnceReturnsAt F.FnOnce read line None) self.old fault.line) }
        ensures same { OnErr result (self.new ≡ self.old) }
    {
        let rest = self.rest;
        let here = TextFault { line: self.number };
        let Some((line, later)) = cut(rest, b'\n') else {
            return Err(here);
        };
        let Some(value) = read(line) else {
            return Err(here);
        };
        self.rest = later;
        self.number += 1;
        Ok(value)
    }

    /// Nothing follows the lines that were read.
    pub fn end(&self) -> Result<(), TextFault>
        ensures { MatchResult result (λ _. self.now.rest ≡ [])
            (λ fault. (self.now.rest ≢ []) × (fault.line ≡ self.now.number)) }
    {
        if self.rest.is_empty() {
            Ok(())
        } else {
            Err(TextFault { line: self.number })
        }
    }
}
