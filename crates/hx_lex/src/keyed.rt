//! Lines of two words, of which the first is given and the other one a value's.

ghost use Rattle.std.specs.Prelude.{◌∷◌, []};
ghost use Rattle.hx_lex.specs.Marks.{Lacks};
ghost use Rattle.hx_lex.specs.Words.{Reads, IsSet, spaced, colour_word, mask_word};

use crate::words::Words;
use hx_board::{Colour, Mask};

/// The player of a line that is this word and then a player's.
pub fn keyed_colour(keyword: &[u8], line: &[u8]) -> Option<Colour>
    // A word has no space.
    requires { Lacks 32 keyword.now }
    ensures { Reads (λ player. spaced (keyword.now ∷ colour_word player ∷ [])) (λ _. Unit {0})
        line.now result }
{
    let mut words = Words::of(line);
    words.keyword(keyword)?;
    let player = words.colour();
    words.whole(player)
}

/// The set of a line that is this word and then a set's.
pub fn keyed_mask(keyword: &[u8], line: &[u8]) -> Option<Mask>
    requires { Lacks 32 keyword.now }
    ensures { Reads (λ set. spaced (keyword.now ∷ mask_word set ∷ [])) IsSet line.now result }
{
    let mut words = Words::of(line);
    words.keyword(keyword)?;
    let set = words.mask();
    words.whole(set)
}
