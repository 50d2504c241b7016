//! A book beside a list that is scanned from the front: what is found, where a node comes, and when it is refused.

use crate::made_nodes::offer_by_chain;
use hx_board::Colour::{Black, White};
use hx_board::{Colour, Position, Size, chain};
use hx_book::Book;
use hx_test_support::numbered;
use std::process::Abort;
use std::test::Fail;

/// A position and its mover.
#[derive(Clone, Copy, PartialEq, Eq)]
struct Place {
    position: Position,
    to_move: Colour,
}

/// The index of the first of these places that is this one.
fn plain_find(held: &[Place], place: &Place) -> Option<u32> {
    let mut index = 0u32;
    for other in held {
        if *other == *place {
            return Some(index);
        }
        index = index.saturating_add(1);
    }
    None
}

/// Puts in the node of a player's chain. None where the player has none; else the index that is answered, if there is
/// one.
fn put_chain(book: &mut Book, place: &Place, winner: Colour) -> Option<Option<u32>> {
    let _size = place.position.size();
    if !chain(&place.position, winner) {
        return None;
    }
    match book.put(offer_by_chain(place.position, place.to_move, winner)) {
        Ok(index) => Some(Some(index)),
        Err(_refusal) => Some(None),
    }
}

/// Puts a won position into the book and into the list: both answer the same, and the book finds what the list has.
fn compare(
    rt: &impl Abort,
    book: &mut Book,
    held: &mut Vec<Place>,
    place: &Place,
) -> Result<(), Fail> {
    let found = book.find(&place.position, place.to_move);
    assert_eq!(rt;
        found.map(|it| it.index),
        plain_find(held.as_slice(), place)
    );
    let winner = if chain(&place.position, Black) {
        Black
    } else {
        White
    };
    let Some(answer) = put_chain(book, place, winner) else {
        return Ok(());
    };
    let expected = match plain_find(held.as_slice(), place) {
        Some(index) => Some(index),
        None if held.len() >= book.slots() as usize => None,
        None => {
            held.push(*place)?;
            Some(held.len() as u32 - 1)
        }
    };
    assert_eq!(rt; answer, expected, "{:?}", place.position);
    Ok(())
}

/// All positions of two rows and two columns, each with both movers, twice: in a book with a slot for each that is won,
/// and in one that gets full.
#[test]
fn positions_of_two_by_two(rt: HostRuntime) -> Result<(), Fail> {
    let size = Size::new(2, 2).ok_or("size")?;
    for slots in [200u32, 20] {
        let mut book = Book::with_slots(rt.alloc(), slots).or(Err("memory"))?;
        let mut held = Vec::new(rt.alloc());
        for number in 0..162u32 {
            let position = numbered(size, number % 81).ok_or("position")?;
            compare(
                &rt,
                &mut book,
                &mut held,
                &Place {
                    position,
                    to_move: Black,
                },
            )?;
            compare(
                &rt,
                &mut book,
                &mut held,
                &Place {
                    position,
                    to_move: White,
                },
            )?;
        }
        assert_eq!(rt; book.held() as usize, held.len());
    }
    Ok(())
}
