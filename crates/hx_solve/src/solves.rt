//! Who wins a position, with a tree that proves it.

ghost use Rattle.std.specs.Prelude.{◌<◌, IfOk, IfErr};
ghost use Rattle.hx_board.specs.Counts.{IsSmall};
ghost use Rattle.hx_board.specs.Graph.{HasNoChain};
ghost use Rattle.hx_limits.specs.Settings.{AreSettings};
ghost use Rattle.hx_solve.specs.Solutions.{IsSolution};
ghost use Rattle.hx_limits.specs.Causes.{HasCause, LacksMemory, LacksUnit};

use crate::one_position::OnePosition;
use crate::small_positions::by_sweep;
use crate::trees::conclude;
use hx_board::{Colour, Position};
use hx_io::Gate;
use hx_limits::{RanOut, Settings};
use hx_pool::run_all;
use hx_sweep::is_small;
use hx_tree::Node;
use std::alloc::Global;
use std::sync::Wait;
use std::thread::Threads;

/// The tree of a position and mover, by workers in threads and, where they come to no proof of a small position, by a
/// full search. Else it is answered what was wanting: memory, if that ended some worker's search; or a slot, if a
/// worker's proof found no room; or a unit.
///
/// It may wait for a worker. Before each of its visits a worker calls the gate.
pub fn solve<G: Gate + Sync, R: Threads + Wait + Sync>(
    rt: &R,
    alloc: Global,
    position: &Position,
    to_move: Colour,
    settings: Settings,
    gate: &G,
) -> Result<Vec<Node>, RanOut>
    requires { AreSettings settings }
    ensures tree { IfOk result (λ tree. IsSolution position.now to_move tree.items) }
    // A refusal carries the budget or the slots of the settings.
    ensures cause { IfErr result (HasCause settings) }
    // Where units are wanting though there were some, neither player has a chain.
    ensures no_chain { IfErr result
        (λ why. LacksUnit why → 0 < settings.budget → HasNoChain position.now) }
    ensures small { IsSmall position.now settings.budget → IfErr result LacksMemory }
{
    by_workers_or_sweep(rt, alloc, position, to_move, settings, gate, false)
}

/// As `solve`, but that the root of the tree names a winning move where one is found: not where the mover wins by a
/// chain, at once or after fill-in, and not always else.
pub fn solve_naming_move<G: Gate + Sync, R: Threads + Wait + Sync>(
    rt: &R,
    alloc: Global,
    position: &Position,
    to_move: Colour,
    settings: Settings,
    gate: &G,
) -> Result<Vec<Node>, RanOut>
    requires { AreSettings settings }
    ensures tree { IfOk result (λ tree. IsSolution position.now to_move tree.items) }
    ensures cause { IfErr result (HasCause settings) }
    ensures no_chain { IfErr result
        (λ why. LacksUnit why → 0 < settings.budget → HasNoChain position.now) }
    ensures small { IsSmall position.now settings.budget → IfErr result LacksMemory }
{
    by_workers_or_sweep(rt, alloc, position, to_move, settings, gate, true)
}

/// The tree of a position and mover by workers or, where they come to no proof of a small position, by a full search.
fn by_workers_or_sweep<G: Gate + Sync, R: Threads + Wait + Sync>(
    rt: &R,
    alloc: Global,
    position: &Position,
    to_move: Colour,
    settings: Settings,
    gate: &G,
    names_move: bool,
) -> Result<Vec<Node>, RanOut>
    requires { AreSettings settings }
    ensures tree { IfOk result (λ tree. IsSolution position.now to_move tree.items) }
    ensures cause { IfErr result (HasCause settings) }
    ensures no_chain { IfErr result
        (λ why. LacksUnit why → 0 < settings.budget → HasNoChain position.now) }
    ensures small { IsSmall position.now settings.budget → IfErr result LacksMemory }
{
    let answer = by_workers(rt, alloc, position, to_move, &settings, gate, names_move);
    if answer.is_err() && is_small(position, settings.budget) {
        return by_sweep(alloc, position, to_move);
    }
    answer
}

/// The tree of a position and mover by workers alone, or what was wanting.
fn by_workers<G: Gate + Sync, R: Threads + Wait + Sync>(
    rt: &R,
    alloc: Global,
    position: &Position,
    to_move: Colour,
    settings: &Settings,
    gate: &G,
    names_move: bool,
) -> Result<Vec<Node>, RanOut>
    requires { AreSettings settings.now }
    ensures tree { IfOk result (λ tree. IsSolution position.now to_move tree.items) }
    ensures cause { IfErr result (HasCause settings.now) }
    ensures no_chain { IfErr result
        (λ why. LacksUnit why → 0 < settings.now.budget → HasNoChain position.now) }
{
    let errand = OnePosition {
        position: *position,
        to_move,
    };
    let empties = position.empty_count();
    let searched = run_all(rt, alloc, &errand, empties, settings, gate)?;
    conclude(alloc, searched, names_move)
}
