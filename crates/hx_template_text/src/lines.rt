//! The lines that a template's text has besides those of its board, with a reader for each. A line that is not of the
//! kind is answered with None.

ghost use Rattle.hx_board.specs.Cells.{IsExtent};
ghost use Rattle.hx_board.specs.Graph.{IsVertex};
ghost use Rattle.hx_lex.specs.Words.{Reads, IsSet};
ghost use Rattle.hx_template_text.specs.Templates.{owner_line, kind_line, ends_line, carrier_line};

use hx_board::{Colour, Mask, Size, Vertex};
use hx_lex::{Words, keyed_colour, keyed_mask};
use hx_link::Kind;

/// The two ends that a line names, in its order.
#[derive(Clone, Copy)]
pub(crate) struct Ends {
    pub a: Vertex,
    pub b: Vertex,
}

/// The line `owner COLOUR`.
pub(crate) fn read_owner(line: &[u8]) -> Option<Colour>
    ensures { Reads owner_line (λ _. Unit {0}) line.now result }
{
    keyed_colour(b"owner", line)
}

/// The line `kind full` or `kind semi`.
#[tactic(auto, unfolding(hx_lex::specs::Words::spaced))]
pub(crate) fn read_kind(line: &[u8]) -> Option<Kind>
    ensures { Reads kind_line (λ _. Unit {0}) line.now result }
{
    match line {
        b"kind full" => Some(Kind::Full),
        b"kind semi" => Some(Kind::Semi),
        _ => None,
    }
}

/// The line `ends VERTEX VERTEX`, of a board of this size.
pub(crate) fn read_ends(size: Size, line: &[u8]) -> Option<Ends>
    requires { IsExtent size.rows size.cols }
    ensures { Reads (λ ends. ends_line ends.a ends.b)
        (λ ends. IsVertex size ends.a × IsVertex size ends.b) line.now result }
{
    let mut words = Words::of(line);
    words.keyword(b"ends")?;
    let a = words.vertex(size)?;
    let b = words.vertex(size)?;
    words.end()?;
    Some(Ends { a, b })
}

/// The line `carrier MASK`.
pub(crate) fn read_carrier(line: &[u8]) -> Option<Mask>
    ensures { Reads carrier_line IsSet line.now result }
{
    keyed_mask(b"carrier", line)
}
