//! How a visit ends.

use hx_known::Known;
use hx_pn::Numbers;

/// How a visit of a position ends where nothing ran out. The numbers are seen from the player to move.
#[derive(Clone, Copy)]
pub(crate) enum Outcome {
    /// It is known who wins.
    Proved,

    /// Who wins is not known yet; the numbers say how hard it looks.
    Open(Numbers),
}

/// The end of a visit by what is known. None where nothing is.
pub(crate) fn outcome_of(known: Known) -> Option<Outcome> {
    match known {
        Known::Proved => Some(Outcome::Proved),
        Known::Nothing => None,
    }
}
