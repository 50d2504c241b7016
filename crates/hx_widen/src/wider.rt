//! Entries of wider positions: whether one serves a position, and a node of the position itself by such an entry.

ghost use Rattle.std.specs.Prelude.{◌≡◌, ◌≢◌, ℕ, true, false, [], IfSome, IfOk, IfErr};
ghost use Rattle.hx_board.specs.Colours.{other_of};
ghost use Rattle.hx_board.specs.Sets.{has};
ghost use Rattle.hx_board.specs.Positions.{Board, IsEmpty};
ghost use Rattle.hx_tree.specs.Fills.{LeadTo};
ghost use Rattle.hx_book.specs.WiderEntry.{IsWiderFound};
ghost use Rattle.hx_book.specs.Sights.{Grows};
ghost use Rattle.hx_limits.specs.Causes.{IsUnstored};
ghost use Rattle.hx_nodes.specs.Stored.{HasEntry, IsStored, IsNotStored, MissingFor, HadMemory};
ghost use Rattle.hx_widen.specs.Inner.{put_set};
ghost use Rattle.hx_widen.specs.Wide.{IsServedIf};

use crate::known::{Known, store_known};
use hx_board::{Colour, Mask, Memory, Position};
use hx_book::{Proofs, Wider};
use hx_cells::each_cell;
use hx_inferior::FillStep;
use hx_limits::RanOut;
use hx_nodes::Stored;
use hx_tree::{FillSteps, Heading, Node, Rule};
use std::alloc::Global;
use std::sync::Wait;

/// An entry that serves the position, whoever wins by it. One for each winner is looked for, one after the other.
pub fn look_wider_either<P: Proofs, R: Wait>(
    rt: &R,
    proofs: &mut P,
    position: &Position,
    to_move: Colour,
) -> Option<Wider>
    ensures grew { Grows (P.sight proofs.old) (P.sight proofs.new) }
    ensures found { IfSome result (λ wider. IsWiderFound P.is_plain (P.sight proofs.new).list
        position.now to_move wider.found.winner wider) }
{
    if let Some(wider) = proofs.look_wider(rt, position, to_move, to_move) {
        return Some(wider);
    }
    // The two answers are taken apart for the proof: each has a clause of its own.
    match proofs.look_wider(rt, position, to_move, to_move.other()) {
        Some(wider) => Some(wider),
        None => None,
    }
}

/// Done where an entry serves the position, and else Missing.
pub(crate) fn served<P: Proofs, R: Wait>(
    rt: &R,
    proofs: &mut P,
    position: &Position,
    to_move: Colour,
) -> Stored
    ensures grew { Grows (P.sight proofs.old) (P.sight proofs.new) }
    ensures served { IsServedIf P.is_plain (P.sight proofs.new).list position.now to_move result }
{
    match look_wider_either(rt, proofs, position, to_move) {
        Some(_wider) => Stored::Done,
        None => Stored::Missing,
    }
}

/// The end of a try to store a proof at a widened position: Done where the position is served now, and else Missing.
/// Where memory ran out there, a proof of the position itself may still find some.
pub(crate) fn end_of<P: Proofs, R: Wait>(
    rt: &R,
    proofs: &mut P,
    position: &Position,
    to_move: Colour,
    tried: Result<(), RanOut>,
) -> Result<Stored, RanOut>
    requires { IfErr tried (IsUnstored (P.sight proofs.old)) }
    ensures grew { Grows (P.sight proofs.old) (P.sight proofs.new) }
    ensures served { IfOk result (IsServedIf P.is_plain (P.sight proofs.new).list position.now
        to_move) }
    ensures stopped { IfErr result (IsUnstored (P.sight proofs.new)) }
    ensures memory { IfErr result HadMemory }
{
    if let Err(RanOut::Slots(refusal)) = tried {
        return Err(RanOut::Slots(refusal));
    }
    Ok(served(rt, proofs, position, to_move))
}

/// Steps that put the opponent's stones on these cells.
fn others_on(
    alloc: Global,
    position: &Position,
    winner: Colour,
    cells: Mask,
) -> Result<Vec<FillStep>, Memory>
    requires { (cell : ℕ) → has cells cell ≡ true → IsEmpty position.now cell }
    ensures { IfOk result (λ steps.
        LeadTo position.now winner steps.items (put_set position.now (other_of winner) cells)) }
{
    let size = position.size();
    let Ok(mut steps) = Vec::with_capacity(alloc, cells.count() as usize) else {
        return Err(Memory);
    };
    for cell in each_cell(cells, size) {
        if steps.push(FillStep::Other(cell)).is_err() {
            return Err(Memory);
        }
    }
    Ok(steps)
}

/// Stores that a player wins a position, where an entry that serves it says so: by a node that fills in each missing
/// stone of the opponent's. It is Missing where no entry of this winner serves it.
pub fn store_wider<P: Proofs, R: Wait>(
    rt: &R,
    alloc: Global,
    proofs: &mut P,
    position: &Position,
    to_move: Colour,
    winner: Colour,
) -> Result<Stored, RanOut>
    ensures grew { Grows (P.sight proofs.old) (P.sight proofs.new) }
    ensures stored { IfOk result (IsStored (P.sight proofs.new).list position.now to_move) }
    ensures stopped { IfErr result (IsNotStored (P.sight proofs.new) position.now to_move) }
{
    if let Some(_found) = proofs.look(rt, position, to_move) {
        return Ok(Stored::Done);
    }
    let Some(wider) = proofs.look_wider(rt, position, to_move, winner) else {
        return Ok(Stored::Missing);
    };
    fill_missing(rt, alloc, proofs, position, &wider, to_move)?;
    Ok(Stored::Done)
}

/// Stores that the winner of an entry that serves a position wins it, by a node that fills in each missing stone of the
/// opponent's.
pub(crate) fn fill_missing<P: Proofs, R: Wait>(
    rt: &R,
    alloc: Global,
    proofs: &mut P,
    position: &Position,
    wider: &Wider,
    to_move: Colour,
) -> Result<(), RanOut>
    requires { IsWiderFound P.is_plain (P.sight proofs.old).list position.now to_move
        wider.now.found.winner wider.now }
    ensures grew { Grows (P.sight proofs.old) (P.sight proofs.new) }
    ensures stored { IfOk result (λ _. HasEntry (P.sight proofs.new).list position.now to_move) }
    ensures stopped { IfErr result (IsNotStored (P.sight proofs.new) position.now to_move) }
{
    if proofs.plain() {
        // The entry is of the position itself.
        return Ok(());
    }
    // The proof takes from here that the board of the entry's position is one.
    let _size = wider.position.size();
    let missing = position.empties().minus(wider.position.empties());
    let steps = others_on(alloc, position, wider.found.winner, missing)?;
    if steps.is_empty() {
        // The entry is of the position itself.
        return Ok(());
    }
    let steps = FillSteps::new(steps);
    match fill_to(rt, alloc, proofs, position, wider, to_move, steps)? {
        Stored::Done => Ok(()),
        Stored::Missing => unreachable!(),
    }
}

/// Stores that the winner of an entry wins a position by these steps to the entry's. Missing only where they do not
/// lead there, or where the list is plain.
pub(crate) fn fill_to<P: Proofs, R: Wait>(
    rt: &R,
    alloc: Global,
    proofs: &mut P,
    position: &Position,
    wider: &Wider,
    to_move: Colour,
    steps: FillSteps,
) -> Result<Stored, RanOut>
    requires found { (board : Board) × IsWiderFound P.is_plain (P.sight proofs.old).list board
        to_move wider.now.found.winner wider.now }
    requires some { steps ≢ [] }
    ensures grew { Grows (P.sight proofs.old) (P.sight proofs.new) }
    ensures stored { IfOk result (IsStored (P.sight proofs.new).list position.now to_move) }
    ensures stopped { IfErr result (IsNotStored (P.sight proofs.new) position.now to_move) }
    ensures wrong { P.is_plain ≡ false → IfOk result
        (MissingFor (¬ LeadTo position.now wider.now.found.winner steps wider.now.position)) }
{
    // The proof takes from here that the position's board is one.
    let _size = position.size();
    let winner = wider.found.winner;
    let mut known = Known::new(alloc);
    let there = Heading {
        position: wider.position,
        to_move,
        winner,
    };
    let child = known.add(there, wider.found.index)?;
    let heading = Heading {
        position: *position,
        to_move,
        winner,
    };
    let rule = Rule::Fill { steps, child };
    store_known(rt, alloc, proofs, &known, Node { heading, rule })
}
