//! The lines of a node's fill steps.

ghost use Rattle.std.specs.Prelude.{◌≡◌, ℕ, ◌∷◌, []};
ghost use Rattle.hx_board.specs.Cells.{OnBoard};
ghost use Rattle.hx_board.specs.Finds.{Finds};
ghost use Rattle.hx_inferior.specs.declared.fills.FillStep.TheVariants.{Other, Dead, Pair};
ghost use Rattle.hx_lex.specs.Words.{Reads, cell_word};
ghost use Rattle.hx_text.specs.FillTexts.{fill_words, fill_line, FillFits};

use hx_board::Size;
use hx_inferior::FillStep;
use hx_lex::Words;

/// The line of a fill step: `other CELL`, `dead CELL` or `pair CELL CELL`.
pub(crate) fn read_fill(size: Size, line: &[u8]) -> Option<FillStep>
    ensures { Reads fill_line (FillFits size) line.now result }
{
    // The proof takes from here that the size is one of a board.
    let _rows = size.rows();
    let mut words = Words::of(line);
    read_words(size, &mut words)
}

/// The words of a fill step's line.
fn read_words(size: Size, words: &mut Words<'_>) -> Option<FillStep>
    ensures { Reads fill_words (FillFits size) words.old result }
{
    if words.takes(b"other") {
        return read_other(size, words);
    }
    if words.takes(b"dead") {
        return read_dead(size, words);
    }
    if words.takes(b"pair") {
        return read_pair(size, words);
    }
    None
}

/// The rest of a line `other`: a cell.
fn read_other(size: Size, words: &mut Words<'_>) -> Option<FillStep>
    ensures { Finds result (λ fill. (cell : ℕ) × (fill ≡ Other cell) × OnBoard size cell
        × (words.old ≡ cell_word cell ∷ [])) }
{
    let cell = words.cell(size)?;
    words.end()?;
    Some(FillStep::Other(cell))
}

/// The rest of a line `dead`: a cell.
fn read_dead(size: Size, words: &mut Words<'_>) -> Option<FillStep>
    ensures { Finds result (λ fill. (cell : ℕ) × (fill ≡ Dead cell) × OnBoard size cell
        × (words.old ≡ cell_word cell ∷ [])) }
{
    let cell = words.cell(size)?;
    words.end()?;
    Some(FillStep::Dead(cell))
}

/// The rest of a line `pair`: two cells.
fn read_pair(size: Size, words: &mut Words<'_>) -> Option<FillStep>
    ensures { Finds result (λ fill. (a b : ℕ) × (fill ≡ Pair a b) × OnBoard size a × OnBoard size b
        × (words.old ≡ cell_word a ∷ cell_word b ∷ [])) }
{
    let a = words.cell(size)?;
    let b = words.cell(size)?;
    words.end()?;
    Some(FillStep::Pair(a, b))
}
