//! Entries that serve more positions than their own, beside a list whose boards are compared cell by cell.

use crate::made_nodes::offer_by_chain;
use hx_board::Colour::{Black, White};
use hx_board::{Colour, Position, Size, chain};
use hx_book::Book;
use hx_test_support::{Draws, numbered};
use std::process::Abort;
use std::test::Fail;

/// Who wins a position by a chain, or is asked about, with this player to move.
#[derive(Clone, Copy)]
struct Claim {
    position: Position,
    to_move: Colour,
    winner: Colour,
}

/// A stone stands in both boards, and where none is asked about, the entry has none of the winner's.
fn serves_at(there: Option<Colour>, asked: Option<Colour>, winner: Colour) -> bool {
    match asked {
        Some(stone) => there == Some(stone),
        None => there != Some(winner),
    }
}

/// Whether an entry serves a position, cell by cell.
fn plain_serves(entry: &Claim, asked: &Claim) -> bool {
    let size = asked.position.size();
    if entry.position.size() != size || entry.to_move != asked.to_move {
        return false;
    }
    for number in 0..121u8 {
        if let Some(cell) = size.cell(number / 11, number % 11) {
            let there = entry.position.at(cell);
            if !serves_at(there, asked.position.at(cell), asked.winner) {
                return false;
            }
        }
    }
    entry.winner == asked.winner
}

/// Whether some entry of the list serves a position.
fn plain_find(held: &[Claim], asked: &Claim) -> bool {
    for entry in held {
        if plain_serves(entry, asked) {
            return true;
        }
    }
    false
}

/// Puts the node of a player's chain into the book and into the list, where the player has one and it is new.
fn put_chain(book: &mut Book, held: &mut Vec<Claim>, claim: &Claim) -> Result<(), Fail> {
    let _size = claim.position.size();
    if !chain(&claim.position, claim.winner) {
        return Ok(());
    }
    let before = book.held();
    let offer = offer_by_chain(claim.position, claim.to_move, claim.winner);
    if book.put(offer).is_ok() && book.held() != before {
        held.push(*claim)?;
    }
    Ok(())
}

/// The book answers where the list has an entry that serves, with such an entry and its position.
fn compare(rt: &impl Abort, book: &Book, held: &[Claim], asked: &Claim) -> Result<(), Fail> {
    let wider = book.find_wider(&asked.position, asked.to_move, asked.winner);
    assert_eq!(rt; wider.is_some(), plain_find(held, asked));
    let Some(wider) = wider else {
        return Ok(());
    };
    let entry = held.get(wider.found.index as usize).ok_or("index")?;
    assert_eq!(rt;
        (wider.position, wider.found.winner),
        (entry.position, entry.winner)
    );
    assert!(rt; plain_serves(entry, asked));
    Ok(())
}

/// Each mover with each winner.
const ASKED: [(Colour, Colour); 4] = [
    (Black, Black),
    (Black, White),
    (White, Black),
    (White, White),
];

/// Puts chains of drawn positions into the book and into the list.
fn put_drawn(book: &mut Book, held: &mut Vec<Claim>, sizes: [Size; 2]) -> Result<(), Fail> {
    let mut draws = Draws::new(7);
    for number in 0..200usize {
        let position = draws.position(sizes[number % 2], number as u32 % 3);
        let (to_move, winner) = ASKED[number / 2 % 4];
        let claim = Claim {
            position,
            to_move,
            winner,
        };
        put_chain(book, held, &claim)?;
    }
    Ok(())
}

/// Asks for all positions, with each mover and winner.
fn compare_all(rt: &impl Abort, book: &Book, held: &[Claim], sizes: [Size; 2]) -> Result<(), Fail> {
    for number in 0..1458u32 {
        let size = sizes[number as usize % 2];
        let position = numbered(size, number / 2).ok_or("position")?;
        for (to_move, winner) in ASKED {
            let claim = Claim {
                position,
                to_move,
                winner,
            };
            compare(rt, book, held, &claim)?;
        }
    }
    Ok(())
}

/// Books of drawn positions on two sizes, asked for all positions of both.
#[test]
fn drawn_books_serve_as_lists_do(rt: HostRuntime) -> Result<(), Fail> {
    let sizes = [
        Size::new(2, 3).ok_or("size")?,
        Size::new(3, 2).ok_or("size")?,
    ];
    let mut book = Book::with_buckets(rt.alloc(), 500, 3).or(Err("memory"))?;
    let mut held = Vec::new(rt.alloc());
    put_drawn(&mut book, &mut held, sizes)?;
    compare_all(&rt, &book, held.as_slice(), sizes)
}
