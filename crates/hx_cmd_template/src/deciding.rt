//! What is to be said of an input: it is read as the text of a template, and the local game is played out.

ghost use Rattle.std.specs.Prelude.{◌≡◌};
ghost use Rattle.hx_proof.specs.Local.{mover_for};
ghost use Rattle.hx_template_text.specs.Templates.{IsTemplate};
ghost use Rattle.hx_cmd_template.specs.Claims.{Decides, IsFound};

use crate::answers::Answer;
use hx_board::{Colour, Memory};
use hx_link::Kind;
use hx_template::{MOST_CELLS, local};
use hx_template_text::{Template, read_template};
use std::alloc::Global;

/// What is to be said of an input.
pub(crate) fn found(alloc: Global, input: &[u8]) -> Answer
    ensures { IsFound input.now result }
{
    match read_template(input) {
        Ok(template) => decided(alloc, &template),
        Err(fault) => Answer::BadTemplate { line: fault.line },
    }
}

/// What is to be said of a template.
fn decided(alloc: Global, template: &Template) -> Answer
    requires { IsTemplate template.now }
    ensures { Decides template.now result }
{
    let cells = template.carrier.count();
    if cells > MOST_CELLS {
        return Answer::UnknownCarrier { cells };
    }
    let answer = local(
        alloc,
        &template.position,
        template.owner,
        template.a,
        template.b,
        template.carrier,
        first_mover(template.owner, template.kind),
    );
    match answer {
        Ok(true) => Answer::Yes,
        Ok(false) => Answer::No,
        Err(Memory) => Answer::OutOfMemory,
    }
}

/// Who moves first where a claim is of this kind.
fn first_mover(owner: Colour, kind: Kind) -> Colour
    ensures { result ≡ mover_for owner kind }
{
    match kind {
        Kind::Full => owner.other(),
        Kind::Semi => owner,
    }
}
