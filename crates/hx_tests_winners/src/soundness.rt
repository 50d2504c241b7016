//! Callers of the laws on small boards. What the checker says of nodes becomes that their winners win; the links that
//! steps give, that the player wins; a fill step or a dominated cell, that who wins one board wins another too.

ghost use Rattle.std.specs.Prelude.{◌<◌, ◌^◌, length, IsTrue, IfOk, IfSome};
ghost use Rattle.hx_board.specs.declared.colours.Colour.{Colour};
ghost use Rattle.hx_board.specs.Colours.{other_of};
ghost use Rattle.hx_board.specs.Positions.{put};
ghost use Rattle.hx_board.specs.Game.{Wins};
ghost use Rattle.hx_proof.specs.Local.{mover_for};
ghost use Rattle.hx_proof.specs.Winners.{HeadingWins, AllWin};

use hx_board::Colour::{Black, White};
use hx_board::{Cell, Colour, Groups, Mask, Memory, Position, Size, Vertex};
use hx_inferior::{FillStep, Kill, dominates, fill_one};
use hx_link::{Kind, Step, result_of};
use hx_proof::{fill_sound, link_sound, node_sound, tree_sound, under_sound};
use hx_tree::{Heading, Node, Rule, Verdict, check_node, check_tree};
use std::alloc::Global;
use std::test::Fail;

/// Whether the nodes are a valid tree, and so each winner that they name wins, and no other.
fn is_proof(alloc: Global, nodes: &[Node]) -> Result<bool, Memory>
    requires { length nodes.now < 2 ^ 32 }
    ensures { IfOk result (λ answer. IsTrue answer → AllWin nodes.now) }
{
    match check_tree(alloc, nodes)? {
        Verdict::Yes => {
            tree_sound(nodes);
            Ok(true)
        }
        Verdict::Node(_) | Verdict::Empty => Ok(false),
    }
}

/// Whether the node is right with no node before it, and so its winner wins.
fn is_leaf(alloc: Global, node: &Node) -> Result<bool, Memory>
    ensures { IfOk result (λ answer. IsTrue answer → HeadingWins node.now.heading) }
{
    let is_right = check_node(alloc, &[], node)?;
    if is_right {
        node_sound(&[], node);
    }
    Ok(is_right)
}

/// A heading of Black's win on a board of one row.
fn heading(cols: u8, black: u128, white: u128, to_move: Colour) -> Result<Heading, Fail> {
    let size = Size::new(1, cols).ok_or("size")?;
    let stones = Position::from_masks(size, Mask::of(black), Mask::of(white));
    Ok(Heading {
        position: stones.ok_or("stones")?,
        to_move,
        winner: Black,
    })
}

/// A cell of the first row.
fn cell(col: u8) -> Result<Cell, Fail> {
    let size = Size::new(1, 2).ok_or("size")?;
    Ok(size.cell(0, col).ok_or("cell")?)
}

#[test]
fn winners_win(rt: HostRuntime) -> Result<(), Fail> {
    let won = Node {
        heading: heading(1, 1, 0, White)?,
        rule: Rule::Chain,
    };
    let start = Node {
        heading: heading(1, 0, 0, Black)?,
        rule: Rule::Move {
            cell: cell(0)?,
            child: 0,
        },
    };
    assert!(rt; is_leaf(rt.alloc(), &won)?);
    assert!(rt; !is_leaf(rt.alloc(), &start)?);
    assert!(rt; is_proof(rt.alloc(), &[won, start])?);
    Ok(())
}

/// The kind of the last link that three steps give, where it joins the two sides, and so the player wins.
fn shown_by(
    position: &Position,
    colour: Colour,
    first: Step,
    second: Step,
    third: Step,
) -> Option<Kind>
    ensures { IfSome result (λ kind. Wins colour position.now (mover_for colour kind)) }
{
    let groups = Groups::of(position, colour);
    let Some(one) = result_of(position, colour, &groups, &[], &first) else {
        return None;
    };
    let before = [one];
    let Some(two) = result_of(position, colour, &groups, &before, &second) else {
        return None;
    };
    let one = before[0];
    let before = [one, two];
    let Some(last) = result_of(position, colour, &groups, &before, &third) else {
        return None;
    };
    let joins = last.joins_sides();
    if !joins {
        return None;
    }
    let steps = [first, second, third];
    link_sound(position, colour, &steps);
    Some(last.kind)
}

/// The two steps from the cell to Black's sides.
fn to_sides(cell: Cell) -> (Step, Step) {
    let to_first = Step::Base {
        a: Vertex::First,
        b: Vertex::Of(cell),
    };
    let to_last = Step::Base {
        a: Vertex::Of(cell),
        b: Vertex::Last,
    };
    (to_first, to_last)
}

#[test]
fn steps_that_join_the_sides_win(rt: HostRuntime) -> Result<(), Fail> {
    let empty = heading(2, 0, 0, Black)?.position;
    let (to_first, to_last) = to_sides(cell(0)?);
    let over_cell = Step::AndCell { left: 0, right: 1 };
    let found = shown_by(&empty, Black, to_first, to_last, over_cell);
    assert_eq!(rt; found, Some(Kind::Semi));

    let held = heading(2, 1, 2, White)?.position;
    let (to_first, to_last) = to_sides(cell(0)?);
    let over_stone = Step::AndStone { left: 0, right: 1 };
    let found = shown_by(&held, Black, to_first, to_last, over_stone);
    assert_eq!(rt; found, Some(Kind::Full));
    Ok(())
}

/// The position after a fill step, where it may be done, and so who wins there wins here.
fn filled_by(position: &Position, colour: Colour, step: &FillStep) -> Option<Position>
    ensures { IfSome result (λ after. (mover : Colour) → Wins colour after mover
        → Wins colour position.now mover) }
{
    let after = fill_one(position, colour, *step)?;
    fill_sound(position, colour, *step);
    Some(after)
}

/// Whether the mover need not try the worse cell, since who wins against the better move wins against the worse one.
fn is_under(position: &Position, mover: Colour, better: Cell, worse: Cell, kill: &Kill) -> bool
    ensures { IsTrue result → Wins (other_of mover) (put position.now mover better) (other_of mover)
        → Wins (other_of mover) (put position.now mover worse) (other_of mover) }
{
    let is_dominated = dominates(position, mover, better, worse, *kill);
    if is_dominated {
        under_sound(position, mover, better, worse, *kill);
    }
    is_dominated
}

/// The board of two rows and columns with these stones of Black's, and the cells of the row below them.
fn two_rows(black: u128) -> Result<(Position, Cell, Cell), Fail> {
    let size = Size::new(2, 2).ok_or("size")?;
    let stones = Position::from_masks(size, Mask::of(black), Mask::empty());
    let left = size.cell(1, 0).ok_or("left")?;
    let right = size.cell(1, 1).ok_or("right")?;
    Ok((stones.ok_or("stones")?, left, right))
}

/// Black's stone on the second cell of the first row touches both cells of the second, which are a pair.
#[test]
fn a_filled_board_keeps_the_winner(rt: HostRuntime) -> Result<(), Fail> {
    let (position, left, right) = two_rows(2)?;
    let both = filled_by(&position, Black, &FillStep::Pair(left, right));
    let (after, _, _) = two_rows(2 | 1 << 11 | 1 << 12)?;
    assert_eq!(rt; both, Some(after));
    let one = filled_by(&position, Black, &FillStep::Dead(left));
    assert_eq!(rt; one, None);
    Ok(())
}

/// Once Black has the second cell of the first row, the cells of the second row are a pair, and the first is dead for
/// White.
#[test]
fn a_dominated_move_need_not_be_tried(rt: HostRuntime) -> Result<(), Fail> {
    let (empty, left, right) = two_rows(0)?;
    let better = cell(1)?;
    assert!(rt; is_under(&empty, Black, better, left, &Kill::ByPair(right)));
    assert!(rt; is_under(&empty, Black, better, cell(0)?, &Kill::ByDead));
    assert!(rt; !is_under(&empty, Black, left, better, &Kill::ByPair(right)));
    Ok(())
}
