//! The calls beside the plain programs.

ghost use Rattle.hx_fill.specs.Fills.{AreDeadOrPairs};

use super::closed::{is_closed, live_links};
use super::fills::{filled, filled_for, has_nothing_to_fill};
use super::made::{Plan, filled_in, new_set, step_of};
use super::musts::{shared_by, shared_by_all};
use super::unders::{are_by_order, are_under};
use hx_board::{CELLS, Cell, Colour, Mask, Position, Size, Vertex};
use hx_fill::{Filled, must, steps_for};
use hx_linkset::{Added, LinkSet};
use hx_search::{Closure, close};
use hx_test_support::{Draws, numbered};
use std::alloc::Global;
use std::process::Abort;
use std::test::Fail;

/// The steps for a winner lead to the same position.
fn compare_steps(
    rt: &impl Abort,
    alloc: Global,
    position: &Position,
    found: &Filled,
    winner: Colour,
) -> Result<(), Fail>
    requires { AreDeadOrPairs found.now.steps.items }
{
    let steps = steps_for(alloc, found, winner).map_err(|_| "memory")?;
    let plain = filled_for(position, winner, steps.items());
    assert_eq!(rt; plain, Some(found.position), "{winner:?}, {position:?}");
    Ok(())
}

/// Fill-in leaves nothing to fill, its steps are right where they are done, and they serve either winner.
fn compare_fill_in(rt: &impl Abort, alloc: Global, position: &Position) -> Result<(), Fail> {
    let found = filled_in(alloc, position)?;
    assert!(rt; has_nothing_to_fill(&found.position), "{position:?}");
    let plain = filled(position, found.steps.as_slice());
    assert_eq!(rt; plain, Some(found.position), "{position:?}");
    compare_steps(rt, alloc, position, &found, Colour::Black)?;
    compare_steps(rt, alloc, position, &found, Colour::White)
}

/// The set is closed by `close`, and is so by the plain program too.
fn compare_closing(rt: &impl Abort, alloc: Global, set: &mut LinkSet) -> Result<(), Fail> {
    let closure = close(set).map_err(|_| "memory")?;
    assert_eq!(rt; closure, Closure::Closed);
    let links = live_links(alloc, set)?;
    let is_plainly_closed = is_closed(set.position(), set.colour(), links.as_slice());
    assert!(rt;
        is_plainly_closed,
        "{:?}, {:?}",
        set.colour(),
        set.position()
    );
    Ok(())
}

/// What must be answered, and which of it a better move answers, with the better moves in an order.
fn compare_must(rt: &impl Abort, set: &LinkSet, order: &[Cell]) -> Result<(), Fail> {
    let found = must(set, order).map_err(|_| "memory")?;
    let position = set.position();
    let shared = shared_by_all(set);
    assert_eq!(rt; found.cells, shared, "{position:?}");
    let by_threats = shared_by(set, found.threats.items());
    assert_eq!(rt; by_threats, Some(shared), "{position:?}");
    let mover = set.colour().other();
    let lines = found.under.items();
    assert!(rt;
        are_under(position, mover, shared, lines),
        "{mover:?}, {position:?}"
    );
    assert!(rt;
        are_by_order(position, mover, shared, order, lines),
        "{mover:?}, {position:?}, {order:?}"
    );
    Ok(())
}

/// The cells of a board, the last one first.
fn backwards(alloc: Global, size: Size) -> Result<Vec<Cell>, Fail> {
    let mut cells = Vec::new(alloc);
    for place in 0..CELLS as u8 {
        if let Some(cell) = size.cell(10 - place / 11, 10 - place % 11) {
            cells.push(cell).map_err(|_| "memory")?;
        }
    }
    Ok(cells)
}

/// What must be answered once the set is closed.
fn compare_closed(
    rt: &impl Abort,
    alloc: Global,
    set: &mut LinkSet,
    order: &[Cell],
) -> Result<(), Fail> {
    compare_closing(rt, alloc, set)?;
    compare_must(rt, set, order)
}

/// What must be answered where the player has no link yet, and where all links are there.
fn compare_links(
    rt: &impl Abort,
    alloc: Global,
    position: &Position,
    player: Colour,
) -> Result<(), Fail> {
    let order = backwards(alloc, position.size())?;
    let mut set = new_set(alloc, position, player)?;
    compare_must(rt, &set, &[])?;
    compare_closed(rt, alloc, &mut set, order.as_slice())
}

/// Every fifth position of two rows and columns, for both players.
#[test]
fn each_small_position(rt: HostRuntime) -> Result<(), Fail> {
    let size = Size::new(2, 2).ok_or("size")?;
    for index in 0..17 {
        let position = numbered(size, index * 5).ok_or("position")?;
        compare_fill_in(&rt, rt.alloc(), &position)?;
        compare_links(&rt, rt.alloc(), &position, Colour::Black)?;
        compare_links(&rt, rt.alloc(), &position, Colour::White)?;
    }
    Ok(())
}

/// Positions of three and of four rows and columns with so few empty cells that closed sets stay small.
#[test]
fn drawn_positions(rt: HostRuntime) -> Result<(), Fail> {
    let mut draws = Draws::new(2026);
    for (side, empty, positions) in [(3, 5, 6), (3, 6, 2), (4, 5, 6)] {
        let size = Size::new(side, side).ok_or("size")?;
        for _ in 0..positions {
            let position = draws.position(size, empty);
            let player = draws.colour();
            compare_fill_in(&rt, rt.alloc(), &position)?;
            compare_links(&rt, rt.alloc(), &position, player)?;
        }
    }
    Ok(())
}

/// The steps of examples/overlapping-threats.hextree. Links 8 and 14 join the two sides, on a1, b1 and a2, and on b1,
/// a2 and b2.
fn plans(size: Size) -> Result<[Plan; 15], Fail> {
    let a1 = Vertex::Of(size.cell(0, 0).ok_or("a1")?);
    let b1 = Vertex::Of(size.cell(0, 1).ok_or("b1")?);
    let a2 = Vertex::Of(size.cell(1, 0).ok_or("a2")?);
    let b2 = Vertex::Of(size.cell(1, 1).ok_or("b2")?);
    Ok([
        Plan::Base(Vertex::First, a1),
        Plan::Base(a1, a2),
        Plan::Cell(0, 1),
        Plan::Base(Vertex::First, b1),
        Plan::Base(b1, a2),
        Plan::Cell(3, 4),
        Plan::Or(2, 5),
        Plan::Base(a2, Vertex::Last),
        Plan::Cell(6, 7),
        Plan::Base(b2, Vertex::Last),
        Plan::Base(b1, b2),
        Plan::Cell(9, 10),
        Plan::Cell(4, 7),
        Plan::Or(11, 12),
        Plan::Cell(3, 13),
    ])
}

/// Adds the links of these steps, and holds after each what must be answered.
fn compare_each(
    rt: &impl Abort,
    alloc: Global,
    set: &mut LinkSet,
    plans: &[Plan],
) -> Result<(), Fail> {
    for plan in plans {
        let place = set.count();
        let step = step_of(alloc, *plan)?;
        let added = set.add(step).map_err(|_| "memory")?;
        assert_eq!(rt; added, Added::New(place));
        compare_must(rt, set, &[])?;
    }
    Ok(())
}

/// Two threats that overlap in b1 and a2, with the links of their steps alone and after each further one, and when the
/// set is closed.
#[test]
fn threats_that_overlap(rt: HostRuntime) -> Result<(), Fail> {
    let size = Size::new(2, 2).ok_or("size")?;
    let mut set = new_set(rt.alloc(), &Position::empty(size), Colour::Black)?;
    compare_each(&rt, rt.alloc(), &mut set, &plans(size)?)?;
    let b1 = size.cell(0, 1).ok_or("b1")?;
    let a2 = size.cell(1, 0).ok_or("a2")?;
    assert_eq!(rt; shared_by_all(&set), Mask::empty().with(b1).with(a2));
    compare_closing(&rt, rt.alloc(), &mut set)?;
    compare_must(&rt, &set, &[])
}
