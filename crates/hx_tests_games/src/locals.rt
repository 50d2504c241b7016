//! Local games: rows that were worked out by hand, drawn ones beside the plain program, and callers of their laws.

ghost use Rattle.std.specs.Prelude.{◌≤◌, IfOk, IfSome, IsTrue};
ghost use Rattle.hx_board.specs.Game.{Wins};
ghost use Rattle.hx_board.specs.Sets.{count_below};
ghost use Rattle.hx_proof.specs.Links.{AreEmpty};
ghost use Rattle.hx_proof.specs.Local.{LinkHolds};

use crate::plain_locals::{LocalGame, plain_local};
use hx_board::Colour::{Black, White};
use hx_board::{Colour, Groups, Mask, Memory, Position, Size, Vertex};
use hx_link::{Kind, Link, Step, result_of};
use hx_proof::{link_local, local_wins};
use hx_template::{MOST_CELLS, local};
use hx_test_support::{Draws, is_vertex, joined_to};
use std::alloc::Global;
use std::process::Abort;
use std::test::Fail;

/// What `local` answers. Its conditions are asked first.
fn asked(
    rt: &impl Abort,
    alloc: Global,
    game: &LocalGame,
    position: &Position,
    mover: Colour,
) -> Result<bool, Memory> {
    let size = position.size();
    assert!(rt; game.carrier.count() <= MOST_CELLS);
    assert!(rt; game.carrier.inside(position.empties()));
    assert!(rt; is_vertex(size, &game.a));
    assert!(rt; is_vertex(size, &game.b));
    local(
        alloc,
        position,
        game.player,
        game.a,
        game.b,
        game.carrier,
        mover,
    )
}

// ---- Rows that were worked out by hand, in which cells and sides go by their codes

const A1: u8 = 0;

const B1: u8 = 1;

const C1: u8 = 2;

const A2: u8 = 11;

const B2: u8 = 12;

const C2: u8 = 13;

const A3: u8 = 22;

const B3: u8 = 23;

const C3: u8 = 24;

const FIRST: u8 = 121;

const LAST: u8 = 122;

/// The set of the cells with these codes.
fn cells(size: Size, codes: &[u8]) -> Result<Mask, Fail> {
    let mut set = Mask::empty();
    for code in codes {
        set = set.with(size.cell(*code / 11, *code % 11).ok_or("cell")?);
    }
    Ok(set)
}

/// Whether Black has a local game, on a board with as many rows as columns and with these stones of Black's.
fn black_has(
    rt: &impl Abort,
    alloc: Global,
    side: u8,
    black: &[u8],
    ends: (u8, u8),
    carrier: &[u8],
    mover: Colour,
) -> Result<bool, Fail> {
    let size = Size::new(side, side).ok_or("size")?;
    let black = cells(size, black)?;
    let position = Position::from_masks(size, black, Mask::empty()).ok_or("stones")?;
    let a = size.vertex(ends.0).ok_or("a")?;
    let b = size.vertex(ends.1).ok_or("b")?;
    let carrier = cells(size, carrier)?;
    let game = LocalGame {
        player: Black,
        a,
        b,
        carrier,
    };
    Ok(asked(rt, alloc, &game, &position, mover)?)
}

/// Over b1 and c1 the stone on b2 has a bridge to the top, of which one cell alone is enough with the move.
#[test]
fn bridges(rt: HostRuntime) -> Result<(), Fail> {
    let alloc = rt.alloc();
    let to_top = (FIRST, B2);
    assert!(rt; black_has(&rt, alloc, 3, &[B2], to_top, &[B1, C1], White)?);
    assert!(rt; !black_has(&rt, alloc, 3, &[B2], to_top, &[B1], White)?);
    assert!(rt; black_has(&rt, alloc, 3, &[B2], to_top, &[B1], Black)?);
    assert!(rt; black_has(&rt, alloc, 2, &[], (A1, B2), &[B1, A2], White)?);
    assert!(rt; !black_has(&rt, alloc, 3, &[B2], (LAST, FIRST), &[], White)?);
    Ok(())
}

/// The whole empty board is the local game of the two sides on all its cells, which the first to move has.
#[test]
fn the_whole_board(rt: HostRuntime) -> Result<(), Fail> {
    let all = [A1, B1, C1, A2, B2, C2, A3, B3, C3];
    let sides = (FIRST, LAST);
    assert!(rt; black_has(&rt, rt.alloc(), 3, &[], sides, &all, Black)?);
    assert!(rt; !black_has(&rt, rt.alloc(), 3, &[], sides, &all, White)?);
    Ok(())
}

// ---- Drawn ones

/// How many cells a drawn carrier has at the most.
const MOST_DRAWN: u8 = 6;

/// The rows and columns of the boards that are drawn.
const BOARDS: [(u8, u8); 5] = [(2, 3), (3, 2), (3, 3), (2, 4), (4, 3)];

/// How many local games had each answer, of vertices that are not joined at the start.
#[derive(Clone, Copy, Debug, Default)]
struct Answers {
    had_first: u32,
    lost_first: u32,
    had_second: u32,
    lost_second: u32,
}

impl Answers {
    fn count(&mut self, is_own_move: bool, is_had: bool) {
        let count = match (is_own_move, is_had) {
            (true, true) => &mut self.had_first,
            (true, false) => &mut self.lost_first,
            (false, true) => &mut self.had_second,
            (false, false) => &mut self.lost_second,
        };
        *count = count.saturating_add(1);
    }

    /// How many had the answer that the fewest had.
    fn least(&self) -> u32 {
        let first = self.had_first.min(self.lost_first);
        let second = self.had_second.min(self.lost_second);
        first.min(second)
    }
}

/// A drawn vertex of a board of this size, which may be a side.
fn drawn_vertex(draws: &mut Draws, size: Size) -> Vertex {
    match draws.below(4) {
        0 => Vertex::First,
        1 => Vertex::Last,
        _ => match draws.cell(size, size.all()) {
            Some(cell) => Vertex::Of(cell),
            None => Vertex::First,
        },
    }
}

/// A few drawn empty cells.
fn drawn_carrier(draws: &mut Draws, position: &Position) -> Mask {
    let mut carrier = Mask::empty();
    for _ in 0..MOST_DRAWN {
        if let Some(cell) = draws.cell(position.size(), position.empties()) {
            carrier = carrier.with(cell);
        }
    }
    carrier
}

/// `local` and the plain program answer the same for a local game on a position, whoever is to move.
fn compare(
    rt: &impl Abort,
    alloc: Global,
    game: &LocalGame,
    position: &Position,
    answers: &mut Answers,
) -> Result<(), Memory> {
    let is_joined = joined_to(position, game.player, &game.a).has(game.b);
    for mover in [Black, White] {
        let found = asked(rt, alloc, game, position, mover)?;
        let plain = plain_local(game, position, mover, MOST_DRAWN);
        assert_eq!(rt; found, plain, "{game:?}, {position:?}, {mover:?}");
        if !is_joined {
            answers.count(mover == game.player, found);
        }
    }
    Ok(())
}

#[test]
fn drawn_local_games(rt: HostRuntime) -> Result<(), Fail> {
    let mut draws = Draws::new(2002);
    let mut answers = Answers::default();
    for _ in 0..200 {
        let (rows, cols) = BOARDS[draws.below(5) as usize];
        let size = Size::new(rows, cols).ok_or("size")?;
        let position = draws.position(size, 7);
        let black = LocalGame {
            player: Black,
            a: drawn_vertex(&mut draws, size),
            b: drawn_vertex(&mut draws, size),
            carrier: drawn_carrier(&mut draws, &position),
        };
        let white = LocalGame {
            player: White,
            ..black
        };
        compare(&rt, rt.alloc(), &black, &position, &mut answers)?;
        compare(&rt, rt.alloc(), &white, &position, &mut answers)?;
    }
    assert!(rt; answers.least() >= 20, "{answers:?}");
    Ok(())
}

// ---- Callers of the laws

/// Whether the player has the local game between the own two sides, and so wins the position.
fn has_won_locally(
    alloc: Global,
    position: &Position,
    colour: Colour,
    carrier: Mask,
    to_move: Colour,
) -> Result<bool, Memory>
    requires few { count_below 128 carrier ≤ MOST_CELLS }
    requires empty { AreEmpty position.now carrier }
    ensures { IfOk result (λ answer. IsTrue answer → Wins colour position.now to_move) }
{
    let (first, last) = (Vertex::First, Vertex::Last);
    let is_had = local(alloc, position, colour, first, last, carrier, to_move)?;
    if is_had {
        local_wins(position, colour, carrier, to_move);
    }
    Ok(is_had)
}

/// The last link that three steps give. What it says is so, and its carrier has empty cells alone.
fn claimed_by(
    position: &Position,
    colour: Colour,
    first: Step,
    second: Step,
    third: Step,
) -> Option<Link>
    ensures holds { IfSome result (λ link. LinkHolds position.now colour link) }
    ensures empty { IfSome result (λ link. AreEmpty position.now link.carrier) }
{
    let groups = Groups::of(position, colour);
    let Some(one) = result_of(position, colour, &groups, &[], &first) else {
        return None;
    };
    let before = [one];
    let Some(two) = result_of(position, colour, &groups, &before, &second) else {
        return None;
    };
    let one = before[0];
    let before = [one, two];
    let Some(last) = result_of(position, colour, &groups, &before, &third) else {
        return None;
    };
    let steps = [first, second, third];
    link_local(position, colour, &steps);
    Some(last)
}

/// On a board of two cells side by side either one joins Black's two sides, so Black has the local game with the move
/// on one of them, and with White's move on both.
#[test]
fn links_and_wins(rt: HostRuntime) -> Result<(), Fail> {
    let size = Size::new(1, 2).ok_or("size")?;
    let empty = Position::empty(size);
    let a1 = size.vertex(A1).ok_or("a1")?;
    let to_first = Step::Base {
        a: Vertex::First,
        b: a1,
    };
    let to_last = Step::Base {
        a: a1,
        b: Vertex::Last,
    };
    let over_a1 = Step::AndCell { left: 0, right: 1 };
    let link = claimed_by(&empty, Black, to_first, to_last, over_a1).ok_or("link")?;
    assert_eq!(rt; (link.kind, link.carrier), (Kind::Semi, Mask::of(1)));

    let both = empty.empties();
    assert!(rt; both.count() <= MOST_CELLS);
    assert!(rt; has_won_locally(rt.alloc(), &empty, Black, both, White)?);
    assert!(rt; !has_won_locally(rt.alloc(), &empty, White, both, Black)?);
    Ok(())
}
