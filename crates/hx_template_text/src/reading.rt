//! The reader of a template's text.

ghost use Rattle.std.specs.Prelude.{◌≡◌, ◌↔◌, IsTrue, false, ℕ, IfOk, IfErr, Ok};
ghost use Rattle.hx_board.specs.Positions.{IsBoard};
ghost use Rattle.hx_lex.specs.Words.{Reads};
ghost use Rattle.hx_text.specs.Grammars.{IsFaultyLine};
ghost use Rattle.hx_template_text.specs.declared.templates.Template.{Template as Claim};
ghost use Rattle.hx_template_text.specs.Templates.{IsTemplate, AreEnds, IsCarrierOf, AreTemplateLines, template_text, ends_line, carrier_line};

use crate::lines::{Ends, read_carrier, read_ends, read_kind, read_owner};
use crate::templates::Template;
use hx_board::{Colour, Mask, Position, Vertex};
use hx_link::{ends_of, is_outside};
use hx_parse::{TextFault, TextLines, read_board};

/// Reads the text of a template, which takes no memory. A line that is missing or is not ended by LF is wrong at its
/// own number, and whatever follows the eighth line is wrong as the ninth.
pub fn read_template(bytes: &[u8]) -> Result<Template, TextFault>
    // What is read is spelled so.
    ensures read { IfOk result (λ claim. IsTemplate claim × (bytes.now ≡ template_text claim)) }
    // What is spelled so is read.
    ensures all { (claim : Claim) → IsTemplate claim
        → bytes.now ≡ template_text claim → result ≡ Ok claim }
    ensures fault { IfErr result (λ fault. IsFaultyLine AreTemplateLines bytes.now fault.line) }
{
    read_lines(bytes)
}

/// Reads one line after the other.
fn read_lines(bytes: &[u8]) -> Result<Template, TextFault>
    ensures read { IfOk result (λ claim. IsTemplate claim × (bytes.now ≡ template_text claim)) }
    ensures fault { IfErr result (λ fault. IsFaultyLine AreTemplateLines bytes.now fault.line) }
{
    let mut lines = TextLines::of(bytes);
    let position = read_board(&mut lines, b"hextemplate 1")?;
    let owner = lines.next(read_owner)?;
    let kind = lines.next(read_kind)?;
    let Ends { a, b } = lines.next(|line| ends(&position, owner, line))?;
    let carrier = lines.next(|line| carrier(&position, &a, &b, line))?;
    lines.end()?;
    Ok(Template {
        position,
        owner,
        kind,
        a,
        b,
        carrier,
    })
}

/// The two ends, which differ and of which none is a stone of the opponent.
fn ends(position: &Position, owner: Colour, line: &[u8]) -> Option<Ends>
    requires { IsBoard position.now }
    ensures { Reads (λ ends. ends_line ends.a ends.b)
        (λ ends. AreEnds position.now owner ends.a ends.b) line.now result }
{
    let ends = read_ends(position.size(), line)?;
    if are_ends(position, owner, &ends.a, &ends.b) {
        Some(ends)
    } else {
        None
    }
}

/// Whether two vertices differ, and none is a stone of the opponent.
fn are_ends(position: &Position, owner: Colour, a: &Vertex, b: &Vertex) -> bool
    ensures { IsTrue result ↔ AreEnds position.now owner a.now b.now }
{
    let ends = ends_of(position, owner);
    // The proof takes from here that both are vertices of some board.
    let _a_code = a.code();
    let _b_code = b.code();
    let a_end = ends.has(*a);
    let b_end = ends.has(*b);
    *a != *b && a_end && b_end
}

/// The carrier, whose cells are empty and none of these ends.
fn carrier(position: &Position, a: &Vertex, b: &Vertex, line: &[u8]) -> Option<Mask>
    requires { IsBoard position.now }
    ensures { Reads carrier_line (IsCarrierOf position.now a.now b.now) line.now result }
{
    let carrier = read_carrier(line)?;
    if is_carrier(position, a, b, carrier) {
        Some(carrier)
    } else {
        None
    }
}

/// Whether the cells of a set are empty and none of these ends.
fn is_carrier(position: &Position, a: &Vertex, b: &Vertex, carrier: Mask) -> bool
    ensures { IsTrue result ↔ IsCarrierOf position.now a.now b.now carrier }
{
    let free = position.empties();
    let inside = carrier.inside(free);
    let a_outside = is_outside(carrier, a);
    let b_outside = is_outside(carrier, b);
    inside && a_outside && b_outside
}
