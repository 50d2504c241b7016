//! Laws of seats and shared books. The functions do nothing; what they say stands in their contracts.

ghost use Rattle.std.specs.Prelude.{List};
ghost use Rattle.hx_tree.specs.declared.nodes.Node.{Node};
ghost use Rattle.hx_proof.specs.Winners.{AllWin};
ghost use Rattle.hx_share.specs.Laws.{StoredIsFound, StoredWinnerIsFound, ExtendsOn, Agree, LooksAsTheMachine, StoresAsTheMachine};

use crate::readers::BookSeat;
use hx_book::Book;

/// What a seat stored, or the entry that its store found there, is found ever after: by this seat, and by each that was
/// told, since what these have seen begins with what the seat had seen after the store.
pub fn stored_is_found()
    ensures index { StoredIsFound }
    ensures winner { StoredWinnerIsFound }
    ensures later { ExtendsOn }
{}

/// Each entry that a seat has seen names the player who wins in the game tree, and the other player does not.
pub fn seat_names_winners(seat: &BookSeat)
    ensures { AllWin seat.now.seen }
{
    seat.keeps();
}

/// Each entry of a book names the player who wins in the game tree, and the other player does not. So it is with the
/// book that a shared one is closed to.
pub fn book_names_winners(book: &Book)
    ensures { AllWin book.now.nodes }
{
    book.keeps();
}

/// Entries of one position and mover name one winner, whichever of the seats has seen them and in whichever book they
/// are.
pub fn entries_agree()
    ensures { (nodes others : List Node) → AllWin nodes → AllWin others → Agree nodes others }
{}

/// A look and a store are answered as the book machine replies, whose list of nodes is the one that the seat has then
/// seen.
pub fn answers_as_the_machine()
    ensures look { LooksAsTheMachine }
    ensures store { StoresAsTheMachine }
{}
