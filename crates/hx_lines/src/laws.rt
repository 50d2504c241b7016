//! What cuts tell of the lines of a stream: of the held bytes, and then of what the source has left. The calls do
//! nothing; what they say stands in their contracts.

ghost use Rattle.std.specs.Prelude.{◌≡◌, ℕ, List, ◌++◌, Some, All};
ghost use Rattle.hx_lines.specs.declared.cutters.Cut.{Cut as CutOff};
ghost use Rattle.hx_lines.specs.Lines.{HasLf, lines_of, ended_lines};
ghost use Rattle.hx_lines.specs.Cutters.{Cutter, IsCut, TellsLines};

/// A line that was cut is the first of the stream's lines, and the others stay. Where the next one is too long, the
/// first is, and where all is over there is none.
pub fn each_cut_is_the_next_line()
    ensures { (before after : Cutter) (left_before left_after : List ℕ) (cut : CutOff)
        → IsCut before after (Some left_before) (Some left_after) cut
        → TellsLines (lines_of (before.held ++ left_before)) after.line
        (lines_of (after.held ++ left_after)) cut }
{}

/// Lines that were cut with their LF come first among the lines of the stream that they were cut from.
pub fn cut_lines_come_first()
    ensures { (lines : List (List ℕ)) (rest : List ℕ) → All (λ line. ¬ HasLf line) lines
        → lines_of (ended_lines lines ++ rest) ≡ lines ++ lines_of rest }
{}
