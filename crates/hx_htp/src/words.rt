//! The words of a line. A word may have had bytes inside that do not count, so the bytes that count are copied first,
//! and words are parts of the copy.

ghost use Rattle.std.specs.Prelude.{◌≡◌, ◌≤◌, ◌∷◌, [], MatchOption, length};
ghost use Rattle.std.specs.List.{position_or_len};
ghost use Rattle.hx_htp.specs.Words.{is_kept, is_space, shown, words_in};
ghost use Rattle.hx_htp.specs.Parts.{BeginsWord};

use arrayvec::ArrayVec;
use std::marker::Model;

/// The most bytes of a line.
pub(crate) const LONGEST: usize = 4096;

/// What of a line counts: no control byte but the tabulator, and nothing from the first `#` on.
pub(crate) fn shown(line: &[u8]) -> ArrayVec<u8, LONGEST>
    requires { length line.now ≤ LONGEST }
    ensures { result.items ≡ shown line.now }
{
    let mut kept = ArrayVec::new();
    for byte in line {
        if is_kept(*byte) {
            if *byte == b'#' {
                return kept;
            }
            kept.push(*byte);
        }
    }
    kept
}

/// Whether a byte counts.
fn is_kept(byte: u8) -> bool
    ensures { result ≡ is_kept byte }
{
    (32 <= byte && byte != 127) || byte == b'\t'
}

/// Whether a byte separates words.
fn is_space(byte: u8) -> bool
    ensures { result ≡ is_space byte }
{
    byte == b' ' || byte == b'\t'
}

/// The words that are still to be taken, seen as a list of words.
#[derive(Drop)]
pub(crate) struct Words<'a> {
    rest: &'a [u8],
}

impl<'a> Model for Words<'a> {
    ghost use Rattle.std.specs.Prelude.{ℕ, List};
    ghost use Rattle.hx_htp.specs.Words.{words_in};

    ghost Value = { List (List ℕ) };

    ghost view = { λ w. words_in w.rest.now };
}

impl<'a> Words<'a> {
    /// All words of these bytes.
    pub(crate) fn of(bytes: &'a [u8]) -> Words<'a>
        ensures { result ≡ words_in bytes.now }
    {
        Words { rest: bytes }
    }

    /// Takes the next word.
    pub(crate) fn next(&mut self) -> Option<&'a [u8]>
        ensures { MatchOption result (self.old ≡ []) (λ word. self.old ≡ word.now ∷ self.new) }
    {
        let rest = self.rest;
        let begun = skip_spaces(rest);
        if begun.is_empty() {
            return None;
        }
        let (word, later) = cut_word(begun);
        self.rest = later;
        Some(word)
    }
}

/// The bytes from the first word on.
fn skip_spaces(bytes: &[u8]) -> &[u8]
    ensures same { words_in result.now ≡ words_in bytes.now }
    ensures begun { BeginsWord result.now }
{
    let mut rest = bytes;
    while let [byte, later @ ..] = rest {
        if !is_space(*byte) {
            return rest;
        }
        rest = later;
    }
    rest
}

/// The word at the front, and what is behind it.
fn cut_word(bytes: &[u8]) -> (&[u8], &[u8])
    requires some { 1 ≤ length bytes.now }
    requires begun { BeginsWord bytes.now }
    ensures { words_in bytes.now ≡ result.0.now ∷ words_in result.1.now }
{
    let end = word_len(bytes);
    (&bytes[..end], &bytes[end..])
}

/// How many bytes stand before the first space.
fn word_len(bytes: &[u8]) -> usize
    ensures place { result ≡ position_or_len is_space bytes.now }
    ensures within { result ≤ length bytes.now }
{
    for (place, byte) in bytes.iter().enumerate() {
        if is_space(*byte) {
            return place;
        }
    }
    bytes.len()
}
