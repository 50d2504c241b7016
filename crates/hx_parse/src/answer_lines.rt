//! The line of an answer to a move of the opponent: the cell that he moves to, and why the winner wins after it.

ghost use Rattle.std.specs.Prelude.{◌≡◌, ℕ, ◌∷◌, []};
ghost use Rattle.std.specs.Fmt.{decimal};
ghost use Rattle.hx_board.specs.Cells.{OnBoard};
ghost use Rattle.hx_board.specs.Finds.{Finds};
ghost use Rattle.hx_inferior.specs.declared.dominations.Kill.TheVariants.{ByDead, ByPair};
ghost use Rattle.hx_tree.specs.declared.nodes.Line.TheVariants.{Child, Under};
ghost use Rattle.hx_lex.specs.Words.{Reads, IsNumber, cell_word};
ghost use Rattle.hx_text.specs.Entries.{answer_line, reason_words, AnswerFits};
ghost use Rattle.hx_parse.specs.EntryReads.{AnswersAt};

use hx_board::{Cell, Size};
use hx_inferior::Kill;
use hx_lex::Words;
use hx_tree::Line;

/// The line of an answer: `line CELL child NUMBER`, `line CELL dead CELL` or `line CELL pair CELL CELL`.
pub(crate) fn read_answer(size: Size, line: &[u8]) -> Option<Line>
    ensures { Reads answer_line (AnswerFits size) line.now result }
{
    // The proof takes from here that the size is one of a board.
    let _rows = size.rows();
    let mut words = Words::of(line);
    words.keyword(b"line")?;
    let cell = words.cell(size)?;
    read_reason(size, cell, &mut words)
}

/// The words after the cell of an answer.
fn read_reason(size: Size, cell: Cell, words: &mut Words<'_>) -> Option<Line>
    ensures { Reads reason_words (AnswersAt size cell) words.old result }
{
    if words.takes(b"child") {
        return read_child(cell, words);
    }
    if words.takes(b"dead") {
        return read_dead(size, cell, words);
    }
    if words.takes(b"pair") {
        return read_pair(size, cell, words);
    }
    None
}

/// The rest of a reason `child`: the number of a node.
fn read_child(cell: Cell, words: &mut Words<'_>) -> Option<Line>
    ensures { Finds result (λ line. (child : ℕ) × (line ≡ Child cell child) × IsNumber child
        × (words.old ≡ decimal child ∷ [])) }
{
    let child = words.number()?;
    words.end()?;
    Some(Line::Child { cell, child })
}

/// The rest of a reason `dead`: the better cell.
fn read_dead(size: Size, cell: Cell, words: &mut Words<'_>) -> Option<Line>
    ensures { Finds result (λ line. (better : ℕ) × (line ≡ Under cell better ByDead)
        × OnBoard size better × (words.old ≡ cell_word better ∷ [])) }
{
    let better = words.cell(size)?;
    words.end()?;
    let kill = Kill::ByDead;
    Some(Line::Under { cell, better, kill })
}

/// The rest of a reason `pair`: the better cell, and the other cell of the pair.
fn read_pair(size: Size, cell: Cell, words: &mut Words<'_>) -> Option<Line>
    ensures { Finds result (λ line. (better partner : ℕ)
        × (line ≡ Under cell better (ByPair partner)) × OnBoard size better × OnBoard size partner
        × (words.old ≡ cell_word better ∷ cell_word partner ∷ [])) }
{
    let better = words.cell(size)?;
    let partner = words.cell(size)?;
    words.end()?;
    let kill = Kill::ByPair(partner);
    Some(Line::Under { cell, better, kill })
}
