//! The rule of the table, and the names of its steps.

ghost use Rattle.hx_share.specs.OneList.{IsOneList, first_view, takes_book, gives_back, settles, all_but_first, only_first, itself, notes_of, joined, no_parts};

use crate::views::{Limits, View};
use atomic_table::{Join, Play, Split, TableRule};
use hx_book::Book;

/// The rule: there is one list of nodes, and the word, the slot and the views agree with it.
pub struct OneList;

impl TableRule<Option<Book>, View, Limits> for OneList {
    ghost holds = { IsOneList };

    ghost first = { first_view };
}

/// A seat takes the book, where no other has it.
pub struct TakingBook;

impl Play<Option<Book>, View> for TakingBook {
    ghost then = { takes_book };
}

/// A seat gives back the book.
pub struct GivingBack;

impl Play<Option<Book>, View> for GivingBack {
    ghost then = { gives_back };
}

/// A seat that took in a note has seen what the note has.
pub struct Settling;

impl Play<Option<Book>, View> for Settling {
    ghost then = { settles };
}

/// A seat gives away its first part.
pub struct FirstPart;

impl Split<View> for FirstPart {
    ghost left = { all_but_first };

    ghost right = { only_first };
}

/// A seat makes a note of what it has seen.
pub struct Noting;

impl Split<View> for Noting {
    ghost left = { itself };

    ghost right = { notes_of };
}

/// A seat takes in the parts of another.
pub struct AllParts;

impl Join<View> for AllParts {
    ghost both = { joined };

    ghost spent = { no_parts };
}
