//! What the moves out of focus count.
//!
//! A visit looks at the first of its moves alone, but each of them has to be refuted before the player to move has
//! lost. So those out of focus count too, eleven of them as two moves that are as easy to refute as can be: a visit
//! with many moves looks harder to refute than one with few. On 7 by 7 after a5, a6, b4 and g4 together this takes a
//! fifth of the units off, and after e6 a tenth; but the openings of 6 by 6 take a twenty-fifth more, and 8 by 8 after
//! d5 a third more. Five or six as one do about as well; two, four and seven as one take a quarter to a half more after
//! g4.
//!
//! They stand in the list of numbers as one move that no visit goes down to, so hx_pn and its formulas stay as they
//! are.

ghost use Rattle.std.specs.Prelude.{◌≡◌, ◌<◌, IfSome, IsSome};
ghost use Rattle.hx_pn.specs.Numbers.{IsNumbers};
ghost use Rattle.hx_ordering.specs.Given.{rest_of};

use hx_board::CELLS;
use hx_pn::{INF, Numbers};

/// So many moves count as two.
const AS_TWO: usize = 11;

/// The numbers of one move that counts as much as so many moves out of focus. No delta is higher, so no visit goes down
/// to it.
pub(crate) fn rest(out_of_focus: usize) -> Option<Numbers>
    ensures value { result ≡ rest_of out_of_focus }
    ensures numbers { IfSome result IsNumbers }
    ensures some { IsSome result → 0 < out_of_focus }
{
    let phi = 2 * out_of_focus.min(CELLS) / AS_TWO;
    if phi == 0 {
        None
    } else {
        Some(Numbers {
            phi: phi as u32,
            delta: INF,
        })
    }
}
