//! The numbers that options have for their values.

ghost use Rattle.hx_board.specs.Finds.{Finds};
ghost use Rattle.hx_cli.specs.Options.{IsValue};

use hx_lex::read_digits;

/// The most digits of a value, which are those of the largest number that may be chosen. Leading zeros count too.
const MOST_DIGITS: usize = 13;

/// The number that a value is: one digit or more, and nothing else.
pub(crate) fn number_of(value: &[u8]) -> Option<u64>
    ensures { Finds result (IsValue value.now) }
{
    if value.is_empty() || value.len() > MOST_DIGITS {
        return None;
    }
    read_digits(value)
}
