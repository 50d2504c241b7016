//! What a visit does next: which move it goes down to, and how far.
//!
//! Of the moves in focus the visit goes down to the one with the least delta, as df-pn does. Those out of focus count
//! together as one move more (`rest.rt`).
//!
//! One call reads hints and losses, `told_by`. What follows, `choice_by`, is a function of what was told, as its clause
//! says.

ghost use Rattle.std.specs.Prelude.{◌≡◌, ◌<◌, ◌≤◌, length, take, MatchOption};
ghost use Rattle.std.specs.List.{All};
ghost use Rattle.hx_pn.specs.Numbers.{IsNumbers};
ghost use Rattle.hx_ordering.specs.Given.{AreGiven};
ghost use Rattle.hx_count.specs.Seats.{KeepsSeat};
ghost use Rattle.hx_ordering.specs.Choices.{HasMoveToStone, IsStep, IsTogether, IsChoice, IsChoiceBy};

use crate::children::Child;
use crate::focus::in_focus;
use crate::given::{MOST_GIVEN, add_rest, told_by};
use crate::losses::LOSS_WORDS;
use crate::moves::Moves;
use crate::rest::rest;
use crate::situations::Situation;
use crate::starts::Start;
use crate::stones::after;
use hx_count::{CountSeat, Counts, Hints};
use hx_pn::{Numbers, combine, thresholds};

/// What a visit does next.
#[derive(Drop)]
pub enum Choice {
    /// Each move is known to lose.
    AllLose,

    /// The visit ends with these numbers. They have come to its limit, or the move to go down to has a stone on its
    /// cell.
    Limit(Numbers),

    /// It goes down.
    Down(Down),
}

/// A move that a visit goes down to.
#[derive(Drop)]
pub struct Down {
    /// Its place among the moves.
    pub place: usize,

    /// The move itself, with the numbers that it had before.
    pub child: Child,

    /// The visit after the move.
    pub start: Start,
}

/// What the visit does next.
pub fn choose(
    counts: &Counts,
    hints: &Hints,
    seat: &mut CountSeat,
    situation: &Situation,
    moves: &Moves,
) -> Choice
    requires seat { seat.old.made ≡ counts.now }
    requires words { counts.now.limits.words ≡ LOSS_WORDS }
    ensures seat { KeepsSeat seat.old seat.new }
    ensures choice { IsChoice situation.now moves.now result }
{
    if moves.children.is_empty() {
        return Choice::AllLose;
    }
    let (numbers, count) = given_by(counts, hints, seat, moves);
    choice_by(situation, moves, &numbers[..count])
}

/// The numbers that the moves give together. A visit that ends before it comes to its limit ends with these.
pub fn numbers_of(counts: &Counts, hints: &Hints, seat: &mut CountSeat, moves: &Moves) -> Numbers
    requires seat { seat.old.made ≡ counts.now }
    requires words { counts.now.limits.words ≡ LOSS_WORDS }
    ensures seat { KeepsSeat seat.old seat.new }
    ensures together { IsTogether moves.now result }
{
    let (numbers, count) = given_by(counts, hints, seat, moves);
    combine(&numbers[..count])
}

/// What the moves give: the first so many numbers.
fn given_by(
    counts: &Counts,
    hints: &Hints,
    seat: &mut CountSeat,
    moves: &Moves,
) -> ([Numbers; MOST_GIVEN], usize)
    requires seat { seat.old.made ≡ counts.now }
    requires words { counts.now.limits.words ≡ LOSS_WORDS }
    ensures seat { KeepsSeat seat.old seat.new }
    ensures given { AreGiven moves.now.children.items (take result.1 result.0) }
    ensures numbers { All IsNumbers result.0 }
    ensures room { result.1 ≤ MOST_GIVEN }
    ensures few { length (take result.1 result.0) ≤ length moves.now.children.items }
{
    let focused = in_focus(moves);
    let mut numbers = told_by(counts, hints, seat, focused);
    let rest = rest(moves.children.len().saturating_sub(focused.len()));
    let count = add_rest(&mut numbers, focused.len(), rest);
    (numbers, count)
}

/// What a visit does next that has moves, which give these numbers.
fn choice_by(situation: &Situation, moves: &Moves, given: &[Numbers]) -> Choice
    requires numbers { All IsNumbers given.now }
    requires few { length given.now ≤ length moves.now.children.items }
    ensures { IsChoiceBy situation.now moves.now given.now result }
{
    let Some((place, limit)) = thresholds(situation.limit, given) else {
        return Choice::Limit(combine(given));
    };
    match way_down(situation, moves, place, limit) {
        Some(down) => Choice::Down(down),
        None => Choice::Limit(combine(given)),
    }
}

/// The way down to the move at a place, with this limit. None where its cell holds a stone.
fn way_down(situation: &Situation, moves: &Moves, place: usize, limit: Numbers) -> Option<Down>
    requires place { place < length moves.now.children.items }
    requires limit { IsNumbers limit }
    ensures { MatchOption result (HasMoveToStone situation.now moves.now)
        (IsStep situation.now moves.now place limit) }
{
    let child = moves.children[place];
    let Some(here) = after(&situation.filled, situation.to_move, child.cell) else {
        return None;
    };
    let start = Start {
        here,
        to_move: situation.to_move.other(),
        moved: Some(child.cell),
        limit,
    };
    Some(Down {
        place,
        child,
        start,
    })
}
