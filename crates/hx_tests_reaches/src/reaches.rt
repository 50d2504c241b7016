//! `reach_with` on sets that stones are put on, in one workspace for many games, beside `reach` on
//! new sets of the same positions and beside `close`.
//!
//! No clause says which links `reach` adds. That it leaves none out which it looks for shows in two ways: it answers
//! the same on both sets, and the numbers of links over a whole table are what they were. With a part of it taken out
//! of hx_reach these numbers change, among others:
//!
//! | part left out | row | number | with it | without it |
//! |---|---|---|---|---|
//! | links handed over to the vertex that now stands for a group | six_by_six | full | 15447 | 15210 |
//! | Bases near new stones | four_by_four | not_as_closed | 0 | 8 |
//! | Ands over a new stone | six_by_six | full | 15447 | 15338 |
//! | Ors of the ends of lost Full links | the_opponent_alone_plays | full | 2950 | 2940 |
//! | an Or of as many parts as it takes | five_by_five | not_as_closed | 0 | 2 |
//! | Ors of three and of four parts | six_by_six | full | 15447 | 15165 |
//! | Ors of four parts | seven_by_seven | semi | 16860 | 16858 |
//! | at most eight Ors for a Semi link | six_by_six | full | 15447 | 15450 |
//! | at most sixty looks for a Semi link | six_by_six | full | 15447 | 15214 |
//! | at most 20 Full and 80 Semi links of two ends | six_by_six | full | 15447 | 15493 |
//! | at most 8 Full ones with more than eight rows or columns | nine_by_four | full | 11691 | 11692 |
//! | at most 32 Semi ones there | none | | | |
//! | the end at the first link that decides | nine_by_four | full | 11691 | 14167 |
//! | the rest of a reach whose kept steps break off | kept_steps_that_break_off | decided | 2 | 1 |
//!
//! A change of what is useful changes these numbers, and is to be judged by the answers beside them: how many differ
//! from those on a new set and on a closed one (none), and how many links between the sides closed sets alone have (one
//! in each of two rows).

use hx_board::Colour::{Black, White};
use hx_board::{CELLS, Cell, Colour, Position, Size, Vertex};
use hx_fill::fill_in;
use hx_link::{Kind, Link, Step};
use hx_linkset::{Added, LinkSet};
use hx_reach::{Reached, Workspace, decided, reach, reach_with};
use hx_search::close;
use hx_test_support::Draws;
use std::alloc::Global;
use std::test::Fail;

/// What came of many calls.
#[derive(Clone, Copy, PartialEq, Eq, Debug)]
struct Tally {
    calls: u32,
    decided: u32,

    /// The links that are held after each call, by the sets that stones are put on and by the new ones.
    full: u32,
    semi: u32,
    new_full: u32,
    new_semi: u32,

    /// How many answers differ from that of a new set, and from that of a closed one.
    not_as_new: u32,
    not_as_closed: u32,

    /// How many links of the two sides the closed sets have that no such link of the set covers, where the set is not
    /// decided.
    not_found: u32,
}

const NONE: Tally = Tally {
    calls: 0,
    decided: 0,
    full: 0,
    semi: 0,
    new_full: 0,
    new_semi: 0,
    not_as_new: 0,
    not_as_closed: 0,
    not_found: 0,
};

/// How many links of a kind are held.
fn count_of(set: &LinkSet, kind: Kind) -> u32 {
    let mut count = 0u32;
    for index in 0..set.count() {
        if let Some(link) = set.held(index)
            && link.kind == kind
        {
            count = count.wrapping_add(1);
        }
    }
    count
}

/// Whether a set has a link of the two sides that covers this one.
fn covers(set: &LinkSet, link: &Link) -> bool {
    let mut is_found = false;
    for index in set.live(Vertex::First, Vertex::Last) {
        if let Some(other) = set.held(index) {
            is_found |= other.kind == link.kind && other.carrier.inside(link.carrier);
        }
    }
    is_found
}

/// How many links of the two sides a closed set has that none of a set covers.
fn count_not_found(set: &LinkSet, closed: &LinkSet) -> u32 {
    let mut count = 0u32;
    for index in closed.live(Vertex::First, Vertex::Last) {
        if let Some(link) = closed.held(index)
            && !covers(set, &link)
        {
            count = count.wrapping_add(1);
        }
    }
    count
}

/// The kind of the link that decides the position.
fn kind_of(set: &LinkSet, reached: Reached) -> Option<Kind> {
    match reached {
        Reached::Open => None,
        Reached::Decided(index) => match set.held(index) {
            Some(link) if link.kind == Kind::Full => Some(Kind::Full),
            _ => Some(Kind::Semi),
        },
    }
}

impl Tally {
    /// Counts one call more, and says whether the position is decided.
    fn count(
        &mut self,
        alloc: Global,
        workspace: &mut Workspace,
        set: &mut LinkSet,
        to_move: Colour,
    ) -> Result<bool, Fail> {
        let reached = reach_with(workspace, set, to_move).ok().ok_or("memory")?;
        let kind = kind_of(set, reached);
        let mut new = LinkSet::new(alloc, set.position(), set.colour())
            .ok()
            .ok_or("memory")?;
        let reached = reach(&mut new, to_move).ok().ok_or("memory")?;
        let new_kind = kind_of(&new, reached);
        self.calls = self.calls.wrapping_add(1);
        self.decided = self.decided.wrapping_add(u32::from(kind.is_some()));
        self.full = self.full.wrapping_add(count_of(set, Kind::Full));
        self.semi = self.semi.wrapping_add(count_of(set, Kind::Semi));
        self.new_full = self.new_full.wrapping_add(count_of(&new, Kind::Full));
        self.new_semi = self.new_semi.wrapping_add(count_of(&new, Kind::Semi));
        self.not_as_new = self.not_as_new.wrapping_add(u32::from(kind != new_kind));
        close(&mut new).ok().ok_or("memory")?;
        let is_decided = decided(&new, to_move) != Reached::Open;
        let differ = kind.is_some() != is_decided;
        self.not_as_closed = self.not_as_closed.wrapping_add(u32::from(differ));
        if kind.is_none() {
            self.not_found = self.not_found.wrapping_add(count_not_found(set, &new));
        }
        Ok(kind.is_some())
    }

    /// Counts the calls of one game: the set is reached, and stones are put, in turns and some more of either colour,
    /// until it is decided.
    fn count_game(
        &mut self,
        alloc: Global,
        workspace: &mut Workspace,
        start: &Position,
        player: Colour,
        seed: u32,
    ) -> Result<(), Fail> {
        let mut draws = Draws::new(u64::from(seed));
        let mut set = LinkSet::new(alloc, start, player).ok().ok_or("memory")?;
        let mut turn = Black;
        for round in 0..12u8 {
            // A Semi link decides in each third call alone, so that many games go on for long.
            let to_move = if round % 3 == 1 {
                player
            } else {
                player.other()
            };
            if self.count(alloc, workspace, &mut set, to_move)? {
                break;
            }
            // Each second turn is one as in a search: with the stones of fill-in, and all as one play.
            let is_filled = round % 2 == 0;
            let stones = draw_stones(alloc, set.position(), &mut draws, turn, is_filled)?;
            put_stones(&mut set, stones.as_slice(), is_filled);
            turn = turn.other();
        }
        Ok(())
    }
}

/// A stone of a colour on some empty cell, up to two more of either colour, and those of fill-in where they are wanted.
fn draw_stones(
    alloc: Global,
    before: &Position,
    draws: &mut Draws,
    colour: Colour,
    is_filled: bool,
) -> Result<Vec<(Colour, Cell)>, Fail> {
    let mut position = *before;
    let mut stones = Vec::new(alloc);
    put_stone(&mut position, &mut stones, draws, colour)?;
    for _ in 0..draws.below(3) {
        let colour = draws.colour();
        put_stone(&mut position, &mut stones, draws, colour)?;
    }
    if is_filled {
        fill(alloc, &position, &mut stones)?;
    }
    Ok(stones)
}

/// Adds the stones that fill-in puts on a position.
fn fill(alloc: Global, position: &Position, stones: &mut Vec<(Colour, Cell)>) -> Result<(), Fail> {
    let filled = fill_in(alloc, position).ok().ok_or("memory")?.position;
    let mut rest = position.empties().minus(filled.empties());
    for _ in 0..CELLS {
        if let Some(cell) = rest.least(position.size())
            && let Some(colour) = filled.at(cell)
        {
            rest = rest.without(cell);
            stones.push((colour, cell))?;
        }
    }
    Ok(())
}

/// Puts a stone on some empty cell, where there is one.
fn put_stone(
    position: &mut Position,
    stones: &mut Vec<(Colour, Cell)>,
    draws: &mut Draws,
    colour: Colour,
) -> Result<(), Fail> {
    if let Some(cell) = draws.cell(position.size(), position.empties()) {
        position.play(colour, cell);
        stones.push((colour, cell))?;
    }
    Ok(())
}

/// Puts stones as one play, or each as a play of its own.
fn put_stones(set: &mut LinkSet, stones: &[(Colour, Cell)], as_one: bool) {
    if as_one {
        if set.can_play(stones) {
            set.play_all(stones);
        }
        return;
    }
    for stone in stones {
        let one = [*stone];
        if set.can_play(&one) {
            set.play_all(&one);
        }
    }
}

/// What comes of so many games, as many for Black's links as for White's, from positions with so many stones.
fn tally_of(alloc: Global, rows: u8, cols: u8, stones: u32, games: u32) -> Result<Tally, Fail> {
    let size = Size::new(rows, cols).ok_or("size")?;
    let mut draws = Draws::new(u64::from(stones));
    let mut tally = NONE;
    let mut workspace = Workspace::new(alloc).ok().ok_or("memory")?;
    for seed in 0..games {
        let empty = size.all().count().saturating_sub(stones);
        let start = draws.position(size, empty);
        let player = if seed % 2 == 0 { Black } else { White };
        tally.count_game(alloc, &mut workspace, &start, player, seed)?;
    }
    Ok(tally)
}

#[test]
fn four_by_four(rt: HostRuntime) -> Result<(), Fail> {
    let expected = Tally {
        calls: 76,
        decided: 16,
        full: 5253,
        semi: 10323,
        new_full: 1929,
        new_semi: 3410,
        not_found: 1,
        ..NONE
    };
    assert_eq!(rt; tally_of(rt.alloc(), 4, 4, 2, 20)?, expected);
    Ok(())
}

#[test]
fn five_by_five(rt: HostRuntime) -> Result<(), Fail> {
    let expected = Tally {
        calls: 75,
        decided: 16,
        full: 8546,
        semi: 18688,
        new_full: 4279,
        new_semi: 8781,
        not_found: 1,
        ..NONE
    };
    assert_eq!(rt; tally_of(rt.alloc(), 5, 5, 4, 20)?, expected);
    Ok(())
}

#[test]
fn six_by_six(rt: HostRuntime) -> Result<(), Fail> {
    let expected = Tally {
        calls: 61,
        decided: 8,
        full: 15447,
        semi: 31031,
        new_full: 5509,
        new_semi: 12560,
        ..NONE
    };
    assert_eq!(rt; tally_of(rt.alloc(), 6, 6, 8, 12)?, expected);
    Ok(())
}

#[test]
fn seven_by_seven(rt: HostRuntime) -> Result<(), Fail> {
    let expected = Tally {
        calls: 37,
        decided: 1,
        full: 7962,
        semi: 16860,
        new_full: 1848,
        new_semi: 4452,
        ..NONE
    };
    assert_eq!(rt; tally_of(rt.alloc(), 7, 7, 14, 4)?, expected);
    Ok(())
}

/// On boards with more than eight rows or columns there are fewer links of each two ends.
#[test]
fn nine_by_four(rt: HostRuntime) -> Result<(), Fail> {
    let expected = Tally {
        calls: 65,
        decided: 5,
        full: 11691,
        semi: 28817,
        new_full: 2694,
        new_semi: 5596,
        ..NONE
    };
    assert_eq!(rt; tally_of(rt.alloc(), 9, 4, 6, 10)?, expected);
    Ok(())
}

/// How many Full links Black's set holds after each call, where White alone plays, a stone each turn.
fn full_where_white_plays(alloc: Global, start: &Position) -> Result<u32, Fail> {
    let mut draws = Draws::new(0);
    let mut set = LinkSet::new(alloc, start, Black).ok().ok_or("memory")?;
    let mut full = 0u32;
    for _ in 0..12u8 {
        let reached = reach(&mut set, White).ok().ok_or("memory")?;
        full = full.wrapping_add(count_of(&set, Kind::Full));
        if reached != Reached::Open {
            break;
        }
        let mut position = *set.position();
        let mut stones = Vec::new(alloc);
        put_stone(&mut position, &mut stones, &mut draws, White)?;
        put_stones(&mut set, stones.as_slice(), draws.below(2) == 0);
    }
    Ok(full)
}

/// After stones of the opponent alone, what is new are Ors of the ends of lost Full links.
#[test]
fn the_opponent_alone_plays(rt: HostRuntime) -> Result<(), Fail> {
    let size = Size::new(5, 5).ok_or("size")?;
    let mut draws = Draws::new(3);
    let start = draws.position(size, 22);
    assert_eq!(rt; full_where_white_plays(rt.alloc(), &start)?, 2950);
    Ok(())
}

/// Whether a set that comes back to a state after these stones gets the links again, by the same steps, that it got
/// there first and that a set gets in room of its own. True where no stone can be put.
fn are_same_again(
    workspace: &mut Workspace,
    set: &mut LinkSet,
    other: &mut LinkSet,
    stones: &[(Colour, Cell)],
) -> Result<bool, Fail> {
    let plays = set.plays();
    put_stones(set, stones, true);
    put_stones(other, stones, true);
    if set.plays() == plays {
        return Ok(true);
    }
    let first = reach_with(workspace, set, White).ok().ok_or("memory")?;
    let alone = reach(other, White).ok().ok_or("memory")?;
    let is_same = set.steps() == other.steps();
    if set.plays() > plays {
        set.undo();
        put_stones(set, stones, true);
    }
    let again = reach_with(workspace, set, White).ok().ok_or("memory")?;
    Ok(is_same && first == alone && first == again && set.steps() == other.steps())
}

#[test]
fn the_same_links_come_again(rt: HostRuntime) -> Result<(), Fail> {
    let alloc = rt.alloc();
    let start = Position::empty(Size::new(6, 6).ok_or("size")?);
    let mut draws = Draws::new(5);
    let mut workspace = Workspace::new(alloc).ok().ok_or("memory")?;
    let mut set = LinkSet::new(alloc, &start, Black).ok().ok_or("memory")?;
    let mut other = LinkSet::new(alloc, &start, Black).ok().ok_or("memory")?;
    let mut turn = White;
    for _ in 0..10u8 {
        let stones = draw_stones(alloc, set.position(), &mut draws, turn, true)?;
        let is_same = are_same_again(&mut workspace, &mut set, &mut other, stones.as_slice())?;
        assert!(rt; is_same);
        turn = turn.other();
    }
    Ok(())
}

/// Black's set on an empty board of four rows and columns, with one link: the Base of his first side and a cell beside
/// it.
fn with_base(alloc: Global, col: u8) -> Result<LinkSet, Fail> {
    let size = Size::new(4, 4).ok_or("size")?;
    let cell = size.cell(0, col).ok_or("cell")?;
    let mut set = LinkSet::new(alloc, &Position::empty(size), Black)
        .ok()
        .ok_or("memory")?;
    let added = set.add(Step::Base {
        a: Vertex::First,
        b: Vertex::Of(cell),
    });
    match added {
        Ok(Added::New(_)) => Ok(set),
        _ => Err("link".into()),
    }
}

/// The kind of the link by which Black wins with the move, if links decide after a reach.
fn kind_with_move(workspace: &mut Workspace, set: &mut LinkSet) -> Result<Option<Kind>, Fail> {
    let reached = reach_with(workspace, set, Black).ok().ok_or("memory")?;
    Ok(kind_of(set, reached))
}

/// Two sets of one position with as many links share a number, whichever links these are. So the steps that a reach
/// kept on the one are added on the other, up to the first And of the link that the other lacks. They break off there,
/// and the reach there goes on by itself to a link that decides, since the mover wins.
#[test]
fn kept_steps_that_break_off(rt: HostRuntime) -> Result<(), Fail> {
    let mut workspace = Workspace::new(rt.alloc()).ok().ok_or("memory")?;
    let mut one = with_base(rt.alloc(), 0)?;
    let mut other = with_base(rt.alloc(), 3)?;
    assert_eq!(rt; one.key(), other.key());
    assert_eq!(rt; kind_with_move(&mut workspace, &mut one)?, Some(Kind::Semi));
    assert_eq!(rt;
        kind_with_move(&mut workspace, &mut other)?,
        Some(Kind::Semi)
    );
    Ok(())
}

#[test]
fn the_mover_wins_small_empty_boards(rt: HostRuntime) -> Result<(), Fail> {
    for side in 1..=5u8 {
        let size = Size::new(side, side).ok_or("size")?;
        for (to_move, kind) in [(White, None), (Black, Some(Kind::Semi))] {
            let mut set = LinkSet::new(rt.alloc(), &Position::empty(size), Black)
                .ok()
                .ok_or("memory")?;
            let reached = reach(&mut set, to_move).ok().ok_or("memory")?;
            assert_eq!(rt; kind_of(&set, reached), kind);
        }
    }
    Ok(())
}
