//! A bridge, step by step; the ends of links; and the lists of parts and of steps.

use hx_board::Colour::{Black, White};
use hx_board::Vertex::{First, Last};
use hx_board::{Groups, Mask, Position, Size, Vertex};
use hx_link::{Kind, Link, Parts, Step, Steps, ends_of, result_of};
use smallvec::SmallVec;
use std::alloc::{AllocError, Global};
use std::test::Fail;

/// The list of these places.
fn parts_of(alloc: Global, places: &[u32]) -> Result<Parts, AllocError> {
    Ok(Parts::new(SmallVec::from_slice(alloc, places)?))
}

/// The Or of the links at these places.
pub(crate) fn or_of(alloc: Global, places: &[u32]) -> Result<Step, AllocError> {
    let parts = parts_of(alloc, places)?;
    Ok(Step::Or { parts })
}

/// The four cells of a board of two rows and columns, one beside it, and the two sides.
pub(crate) fn vertices() -> Result<[Vertex; 7], Fail> {
    let size = Size::new(2, 3).ok_or("size")?;
    let a1 = Vertex::Of(size.cell(0, 0).ok_or("a1")?);
    let b1 = Vertex::Of(size.cell(0, 1).ok_or("b1")?);
    let c1 = Vertex::Of(size.cell(0, 2).ok_or("c1")?);
    let a2 = Vertex::Of(size.cell(1, 0).ok_or("a2")?);
    let b2 = Vertex::Of(size.cell(1, 1).ok_or("b2")?);
    Ok([a1, b1, c1, a2, b2, First, Last])
}

/// The links that Black's steps give, one after the other.
fn links_of(alloc: Global, position: &Position, steps: &[Step]) -> Result<Vec<Link>, Fail> {
    let groups = Groups::of(position, Black);
    let mut links = Vec::new(alloc);
    for step in steps {
        let link = result_of(position, Black, &groups, links.as_slice(), step).ok_or("link")?;
        links.push(link)?;
    }
    Ok(links)
}

/// Black has a stone on a2 of a board of two rows and columns. It touches the bottom, and over a1 and over b1 it can be
/// joined with the top: that is a bridge.
#[test]
fn bridge_to_the_top(rt: HostRuntime) -> Result<(), Fail> {
    let [a1, b1, _, a2, _, top, bottom] = vertices()?;
    let size = Size::new(2, 2).ok_or("size")?;
    let position = Position::from_masks(size, Mask::of(1 << 11), Mask::empty()).ok_or("position")?;
    let steps = [
        Step::Base { a: a1, b: top },
        Step::Base { a: a1, b: a2 },
        Step::AndCell { left: 0, right: 1 },
        Step::Base { a: b1, b: top },
        Step::Base { a: b1, b: a2 },
        Step::AndCell { left: 3, right: 4 },
        or_of(rt.alloc(), &[2, 5])?,
        Step::Base { a: a2, b: bottom },
        Step::AndStone { left: 6, right: 7 },
    ];
    let links = links_of(rt.alloc(), &position, &steps)?;
    let chain = Link {
        kind: Kind::Full,
        a: First,
        b: Last,
        carrier: Mask::of(0b11),
    };
    assert_eq!(rt; links.last().copied(), Some(chain));
    Ok(())
}

#[test]
fn ends_and_sides(rt: HostRuntime) -> Result<(), Fail> {
    let [a1, _, c1, _, _, first, last] = vertices()?;
    let size = Size::new(2, 2).ok_or("size")?;
    let position = Position::from_masks(size, Mask::of(1), Mask::empty()).ok_or("position")?;
    let mut found = [false; 4];
    let ends = ends_of(&position, White);
    for (place, vertex) in [a1, c1, first, last].iter().enumerate() {
        found[place] = ends.has(*vertex);
    }
    assert_eq!(rt; found, [false, false, true, true]);
    let link = Link {
        kind: Kind::Full,
        a: First,
        b: Last,
        carrier: Mask::empty(),
    };
    assert!(rt; link.joins_sides());
    Ok(())
}

#[test]
fn lists_are_their_items(rt: HostRuntime) -> Result<(), Fail> {
    let numbers = [4, 2, 4, 2, 4, 2, 4, 2, 4, 2];
    let many = parts_of(rt.alloc(), &numbers)?;
    assert_eq!(rt; many.items(), numbers.as_slice());
    let two = parts_of(rt.alloc(), &numbers[..2])?;
    assert!(rt; two != many);
    assert_eq!(rt; many.into_inner().as_slice(), numbers.as_slice());

    let mut steps = Vec::new(rt.alloc());
    steps.push(Step::AndStone { left: 0, right: 1 })?;
    let one = Steps::new(steps);
    assert_eq!(rt;
        one.items(),
        [Step::AndStone { left: 0, right: 1 }].as_slice()
    );
    assert!(rt; one != Steps::new(Vec::new(rt.alloc())));
    assert_eq!(rt; one.into_inner().len(), 1);
    Ok(())
}
