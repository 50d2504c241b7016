//! A book of plain nodes at one node: the tree of what it was given has that node alone.

use crate::made_nodes::{by_chain, offer_by_chain};
use hx_board::Colour::{Black, White};
use hx_board::{Size, chain};
use hx_book::{PlainBook, Proofs};
use hx_test_support::numbered;
use std::test::Fail;

/// Black's stone on the only cell of a board, in a book of one slot.
#[test]
fn a_plain_book_of_one_node(rt: HostRuntime) -> Result<(), Fail> {
    let size = Size::new(1, 1).ok_or("size")?;
    let won = numbered(size, 1).ok_or("position")?;
    assert!(rt; chain(&won, Black));
    let mut book = PlainBook::with_slots(rt.alloc(), 1).or(Err("memory"))?;
    let Ok(index) = book.store(&rt, offer_by_chain(won, White, Black)) else {
        return Err("slot".into());
    };
    let tree = book.into_tree(index).or(Err("memory"))?;
    assert_eq!(rt; index, 0);
    assert_eq!(rt; tree.len(), 1);
    assert_eq!(rt; tree[0], by_chain(won, White, Black));
    Ok(())
}
