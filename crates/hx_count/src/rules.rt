//! The rule of the table, and the names of its steps.

ghost use Rattle.hx_count.specs.Counted.{Counted, first_view, spends, holds, releases, looks, all_but_first, only_first, joined, no_parts};

use crate::views::{Limits, View};
use atomic_table::{Join, Play, Split, TableRule};

/// The rule: there is one history, and the words and the views agree with it.
pub struct OneHistory;

impl TableRule<(), View, Limits> for OneHistory {
    ghost holds = { Counted };

    ghost first = { first_view };
}

/// A spend at word 0.
pub struct Spending;

impl Play<(), View> for Spending {
    ghost then = { spends };
}

/// A loss word is held once more.
pub struct Holding;

impl Play<(), View> for Holding {
    ghost then = { holds };
}

/// A loss word is held once less.
pub struct Releasing;

impl Play<(), View> for Releasing {
    ghost then = { releases };
}

/// A look at a loss word.
pub struct Looking;

impl Play<(), View> for Looking {
    ghost then = { looks };
}

/// A seat gives away its first part.
pub struct FirstPart;

impl Split<View> for FirstPart {
    ghost left = { all_but_first };

    ghost right = { only_first };
}

/// A seat takes in the parts of another.
pub struct AllParts;

impl Join<View> for AllParts {
    ghost both = { joined };

    ghost spent = { no_parts };
}
