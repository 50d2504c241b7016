//! Who wins a position, without a tree.

ghost use Rattle.std.specs.Prelude.{◌≡◌, ◌<◌, IfOk, IfErr, IfSome, IsOk};
ghost use Rattle.hx_board.specs.Colours.{other_of};
ghost use Rattle.hx_board.specs.Counts.{IsSmall};
ghost use Rattle.hx_board.specs.Game.{Wins};
ghost use Rattle.hx_board.specs.Graph.{HasNoChain};
ghost use Rattle.hx_limits.specs.Settings.{AreSettings};
ghost use Rattle.hx_limits.specs.Causes.{HasCause, LacksUnit};
ghost use Rattle.hx_solve.specs.Kept.{size_kept};

use crate::kept_zones::KeptZones;
use crate::one_position::OnePosition;
use hx_board::{Colour, Position};
use hx_io::Gate;
use hx_law::one_winner;
use hx_limits::{RanOut, Settings};
use hx_pool::run_with_zones;
use hx_share::book_names_winners;
use hx_sweep::{is_small, winner as winner_of_small};
use std::alloc::Global;
use std::sync::Wait;
use std::thread::Threads;

/// Who wins a position with this mover, by workers in threads as by `solve`, and where they come to no proof of a small
/// position by a full search, so that none is left open. No tree is made, so memory is wanted for the search alone.
///
/// The workers ask what earlier searches on boards of the same size left in the zones that the caller keeps, and leave
/// there what they find out. So whether they find out who wins within the budget, and how soon, depends on what was
/// searched before.
///
/// It may wait for a worker. Before each of its visits a worker calls the gate.
pub fn winner<G: Gate + Sync, R: Threads + Wait + Sync>(
    rt: &R,
    alloc: Global,
    kept: &mut KeptZones,
    position: &Position,
    to_move: Colour,
    settings: Settings,
    gate: &G,
) -> Result<Colour, RanOut>
    requires { AreSettings settings }
    ensures winner { IfOk result (λ winner. Wins winner position.now to_move) }
    ensures loser { IfOk result (λ winner. ¬ Wins (other_of winner) position.now to_move) }
    // A refusal carries the budget or the slots of the settings.
    ensures cause { IfErr result (HasCause settings) }
    // Where units are wanting though there were some, neither player has a chain.
    ensures no_chain { IfErr result
        (λ why. LacksUnit why → 0 < settings.budget → HasNoChain position.now) }
    ensures small { IsSmall position.now settings.budget → IsOk result }
    // What is kept from now on is of boards of this size, or nothing is.
    ensures kept { IfSome (size_kept kept.new) (λ size. size ≡ position.now.size) }
{
    let answer = winner_by_workers(rt, alloc, kept, position, to_move, &settings, gate);
    if answer.is_err() && is_small(position, settings.budget) {
        one_winner(position, to_move);
        let mut tried = *position;
        return Ok(winner_of_small(&mut tried, to_move));
    }
    answer
}

/// Who wins by the workers alone, or what ran out. The table of zones is kept in both cases.
fn winner_by_workers<G: Gate + Sync, R: Threads + Wait + Sync>(
    rt: &R,
    alloc: Global,
    kept: &mut KeptZones,
    position: &Position,
    to_move: Colour,
    settings: &Settings,
    gate: &G,
) -> Result<Colour, RanOut>
    requires { AreSettings settings.now }
    ensures winner { IfOk result (λ winner. Wins winner position.now to_move) }
    ensures loser { IfOk result (λ winner. ¬ Wins (other_of winner) position.now to_move) }
    ensures cause { IfErr result (HasCause settings.now) }
    ensures no_chain { IfErr result
        (λ why. LacksUnit why → 0 < settings.now.budget → HasNoChain position.now) }
    ensures kept { IfSome (size_kept kept.new) (λ size. size ≡ position.now.size) }
{
    let errand = OnePosition {
        position: *position,
        to_move,
    };
    let empties = position.empty_count();
    let table = kept.take_for(alloc, position, settings.budget)?;
    let searched = run_with_zones(rt, alloc, &errand, &table.zones, empties, settings, gate);
    kept.keep(table);
    let searched = searched?;
    book_names_winners(&searched.book);
    let found = searched.end?;
    Ok(found.winner)
}
