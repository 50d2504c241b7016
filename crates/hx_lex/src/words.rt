//! The words of a line, taken one after the other. Words are separated by exactly one space, so two spaces have an
//! empty word between them, and a line begins and ends with a word.

ghost use Rattle.std.specs.Prelude.{◌≡◌, ◌≢◌, ◌<◌, ◌≤◌, ◌^◌, ◌∷◌, [], ℕ, List, true, false, None, IfNone, MatchOption};
ghost use Rattle.std.specs.Fmt.{decimal};
ghost use Rattle.hx_board.specs.Cells.{OnBoard};
ghost use Rattle.hx_board.specs.Graph.{IsVertex};
ghost use Rattle.hx_lex.specs.Words.{vertex_word, Takes, IsNumber, IsSet, words_in, mask_word, colour_word, cell_word};
ghost use Rattle.hx_lex.specs.Marks.{Lacks};

use crate::marks::cut;
use crate::values::{self, MASK};
use hx_board::{Cell, Colour, Mask, Size, Vertex};
use std::marker::Model;

/// The words of a line that are still to be taken, seen as a list of words.
///
/// Where the next word is not of the kind asked for, the line is of no use any more, unless the call says otherwise.
#[derive(Drop)]
pub struct Words<'a> {
    rest: &'a [u8],
    /// Whether a word is left. The rest may be empty and still be one.
    more: bool,
}

impl<'a> Model for Words<'a> {
    ghost use Rattle.std.specs.Prelude.{ℕ, List};
    ghost use Rattle.hx_lex.specs.Words.{words_left};

    ghost Value = { List (List ℕ) };

    ghost view = { λ w. words_left w.more w.rest.now };
}

impl<'a> Words<'a> {
    /// All words of a line.
    pub fn of(line: &'a [u8]) -> Words<'a>
        ensures { result ≡ words_in line.now }
    {
        Words {
            rest: line,
            more: true,
        }
    }

    /// Takes the next word.
    pub fn next(&mut self) -> Option<&'a [u8]>
        ensures { MatchOption result (self.old ≡ []) (λ word. self.old ≡ word.now ∷ self.new) }
    {
        if !self.more {
            return None;
        }
        let rest = self.rest;
        match cut(rest, b' ') {
            Some((word, later)) => {
                self.rest = later;
                Some(word)
            }
            None => {
                self.more = false;
                Some(rest)
            }
        }
    }

    /// Takes a given word, if it stands there. Where it does not, the words are as they were.
    pub fn keyword(&mut self, expected: &[u8]) -> Option<()>
        // A word has no space.
        requires { Lacks 32 expected.now }
        ensures takes { Takes (λ _. expected.now) (λ _. Unit {0}) self.old result self.new }
        ensures same { IfNone result (self.new ≡ self.old) }
    {
        if !self.more {
            return None;
        }
        let after = self.rest.strip_prefix(expected)?;
        match after.split_first() {
            None => {
                self.more = false;
                Some(())
            }
            Some((mark, later)) => {
                if *mark != b' ' {
                    return None;
                }
                self.rest = later;
                Some(())
            }
        }
    }

    /// Whether a given word stands there. It is taken then; else the words are as they were.
    pub fn takes(&mut self, expected: &[u8]) -> bool
        requires { Lacks 32 expected.now }
        ensures taken { result ≡ true → self.old ≡ expected.now ∷ self.new }
        ensures missing { result ≡ false → (rest : List (List ℕ)) → self.old ≢ expected.now ∷ rest }
        ensures same { result ≡ false → self.new ≡ self.old }
    {
        self.keyword(expected).is_some()
    }

    /// Takes a number.
    pub fn number(&mut self) -> Option<u32>
        ensures { Takes decimal IsNumber self.old result self.new }
    {
        let word = self.next()?;
        values::read_number(word)
    }

    /// Takes a number that is no larger than this.
    pub fn count(&mut self, most: usize) -> Option<u32>
        requires { most < 2 ^ 32 }
        ensures { Takes decimal (λ n. n ≤ most) self.old result self.new }
    {
        let number = self.number()?;
        if number as usize <= most {
            Some(number)
        } else {
            None
        }
    }

    /// Takes a set of cells.
    pub fn mask(&mut self) -> Option<Mask>
        ensures { Takes mask_word IsSet self.old result self.new }
    {
        // Its length is known, so no end is looked for.
        let Some((word, _)) = self.rest.split_at_checked(MASK) else {
            return None;
        };
        let Some(mask) = values::mask(word) else {
            return None;
        };
        match self.keyword(word) {
            Some(()) => Some(mask),
            None => None,
        }
    }

    /// Takes a player.
    pub fn colour(&mut self) -> Option<Colour>
        ensures { Takes colour_word (λ _. Unit {0}) self.old result self.new }
    {
        match self.keyword(b"black") {
            Some(()) => Some(Colour::Black),
            None => match self.keyword(b"white") {
                Some(()) => Some(Colour::White),
                None => None,
            },
        }
    }

    /// Takes a cell of a board of this size.
    pub fn cell(&mut self, size: Size) -> Option<Cell>
        ensures { Takes cell_word (OnBoard size) self.old result self.new }
    {
        let word = self.next()?;
        values::cell(size, word)
    }

    /// Takes a vertex of a board of this size.
    pub fn vertex(&mut self, size: Size) -> Option<Vertex>
        ensures { Takes vertex_word (IsVertex size) self.old result self.new }
    {
        let word = self.next()?;
        values::vertex(size, word)
    }

    /// What was taken, where no word is left.
    pub(crate) fn whole<T: Copy>(&self, taken: Option<T>) -> Option<T>
        ensures ended { self.now ≡ [] → result ≡ taken }
        ensures left { self.now ≢ [] → result ≡ None }
    {
        self.end()?;
        taken
    }

    /// Nothing where no word is left.
    pub fn end(&self) -> Option<()>
        ensures { MatchOption result (self.now ≢ []) (λ _. self.now ≡ []) }
    {
        if self.more { None } else { Some(()) }
    }
}
