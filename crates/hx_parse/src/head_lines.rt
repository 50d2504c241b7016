//! A node's first line, read word by word.

ghost use Rattle.std.specs.Prelude.{◌≡◌, ℕ, ◌≤◌, ◌∷◌, []};
ghost use Rattle.std.specs.Fmt.{decimal};
ghost use Rattle.hx_board.specs.Cells.{OnBoard};
ghost use Rattle.hx_board.specs.Finds.{Finds};
ghost use Rattle.hx_lex.specs.Words.{Reads, IsNumber, cell_word};
ghost use Rattle.hx_text.specs.TreeTexts.{opening_words, OpeningFits, head_line, HeadFits};
ghost use Rattle.hx_parse.specs.EntryReads.{UnturnedFits};

use hx_board::{CELLS, Position, Size};
use hx_lex::Words;
use hx_text::{Head, Opening, Preamble, Version};
use hx_tree::{Heading, MOST_STEPS, MOST_THREATS};

/// The line `node BLACK WHITE MOVER WINNER OPENING`.
pub(crate) fn read_head(preamble: &Preamble, line: &[u8]) -> Option<Head>
    ensures { Reads head_line (HeadFits preamble.now) line.now result }
{
    let size = preamble.size;
    // The proof takes from here that the size is one of a board.
    let _rows = size.rows();
    let mut words = Words::of(line);
    words.keyword(b"node")?;
    let black = words.mask()?;
    let white = words.mask()?;
    let to_move = words.colour()?;
    let winner = words.colour()?;
    let opening = read_opening(preamble, &mut words)?;
    let position = Position::from_masks(size, black, white)?;
    let heading = Heading {
        position,
        to_move,
        winner,
    };
    Some(Head { heading, opening })
}

/// The words of a rule's opening, which are the last ones of a node's first line.
fn read_opening(preamble: &Preamble, words: &mut Words<'_>) -> Option<Opening>
    ensures { Reads opening_words (OpeningFits preamble.now) words.old result }
{
    if words.takes(b"turned") {
        return read_turned(preamble.version, words);
    }
    read_unturned(preamble, words)
}

/// The words of the opening of a rule that each version has.
fn read_unturned(preamble: &Preamble, words: &mut Words<'_>) -> Option<Opening>
    ensures { Reads opening_words (UnturnedFits preamble.now) words.old result }
{
    if words.takes(b"chain") {
        return read_chain(words);
    }
    if words.takes(b"links") {
        return read_links(words);
    }
    if words.takes(b"move") {
        return read_move(preamble.size, words);
    }
    if words.takes(b"all") {
        return read_all(words);
    }
    if words.takes(b"fill") {
        return read_fills(words);
    }
    None
}

/// The rest of the opening `chain`: no word.
fn read_chain(words: &Words<'_>) -> Option<Opening>
    ensures { Finds result (λ opening. (opening ≡ Opening.Chain) × (words.now ≡ [])) }
{
    words.end()?;
    Some(Opening::Chain)
}

/// The rest of the opening `move`: the words `CELL CHILD`.
fn read_move(size: Size, words: &mut Words<'_>) -> Option<Opening>
    ensures { Finds result (λ opening. (cell child : ℕ) × (opening ≡ Opening.Move cell child)
        × OnBoard size cell × IsNumber child × (words.old ≡ cell_word cell ∷ decimal child ∷ [])) }
{
    let cell = words.cell(size)?;
    let child = words.number()?;
    words.end()?;
    Some(Opening::Move { cell, child })
}

/// The rest of the opening `links`: the word `STEPS`.
fn read_links(words: &mut Words<'_>) -> Option<Opening>
    ensures { Finds result (λ opening. (steps : ℕ) × (opening ≡ Opening.Links steps)
        × (steps ≤ MOST_STEPS) × (words.old ≡ decimal steps ∷ [])) }
{
    let steps = words.count(MOST_STEPS)?;
    words.end()?;
    Some(Opening::Links { steps })
}

/// The rest of the opening `all`: the words `STEPS THREATS LINES`.
fn read_all(words: &mut Words<'_>) -> Option<Opening>
    ensures { Finds result (λ opening. (steps threats lines : ℕ)
        × (opening ≡ Opening.All steps threats lines)
        × (steps ≤ MOST_STEPS) × (threats ≤ MOST_THREATS) × (lines ≤ CELLS)
        × (words.old ≡ decimal steps ∷ decimal threats ∷ decimal lines ∷ [])) }
{
    let steps = words.count(MOST_STEPS)?;
    let threats = words.count(MOST_THREATS)?;
    let lines = words.count(CELLS)?;
    words.end()?;
    Some(Opening::All {
        steps,
        threats,
        lines,
    })
}

/// The rest of the opening `fill`: the words `FILLS CHILD`.
fn read_fills(words: &mut Words<'_>) -> Option<Opening>
    ensures { Finds result (λ opening. (fills child : ℕ) × (opening ≡ Opening.Fill fills child)
        × (fills ≤ CELLS) × IsNumber child × (words.old ≡ decimal fills ∷ decimal child ∷ [])) }
{
    let fills = words.count(CELLS)?;
    let child = words.number()?;
    words.end()?;
    Some(Opening::Fill { fills, child })
}

/// The rest of the opening `turned`: the word `CHILD`. The first version has no such opening.
fn read_turned(version: Version, words: &mut Words<'_>) -> Option<Opening>
    ensures { Finds result (λ opening. (child : ℕ) × (opening ≡ Opening.Turned child)
        × (version ≡ Version.Two) × IsNumber child × (words.old ≡ decimal child ∷ [])) }
{
    if version == Version::One {
        return None;
    }
    let child = words.number()?;
    words.end()?;
    Some(Opening::Turned { child })
}
