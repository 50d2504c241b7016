//! Who wins a position, with a tree of plain nodes that proves it.

ghost use Rattle.std.specs.Prelude.{◌<◌, ◌≤◌, IfOk, IfErr};
ghost use Rattle.hx_board.specs.Counts.{IsSmall};
ghost use Rattle.hx_board.specs.Graph.{HasNoChain};
ghost use Rattle.hx_limits.specs.declared.settings.TheConstants.{MOST_UNITS, MOST_PROOFS};
ghost use Rattle.hx_limits.specs.Settings.{AreSettings};
ghost use Rattle.hx_tree.specs.Plain.{ArePlain};
ghost use Rattle.hx_solve.specs.Solutions.{IsSolution};
ghost use Rattle.hx_limits.specs.Causes.{HasCause, LacksMemory, LacksUnit, lone};
ghost use Rattle.hx_solve.specs.Searches.{HasEntryFor, IsTreeFrom, SaysWhy};

use crate::lone_searches::search_alone;
use crate::small_positions::by_sweep;
use crate::trees::tree_at;
use hx_board::{Colour, Position};
use hx_book::PlainBook;
use hx_io::Gate;
use hx_limits::{RanOut, Settings};
use hx_pool::Searched;
use hx_sweep::is_small;
use hx_tree::{Found, Node};
use std::alloc::Global;
use std::sync::Wait;

/// The tree of a position and mover, of plain nodes alone, by one worker on the caller's thread and, where it comes to
/// no proof of a small position, by a full search. Else it is answered what was wanting, as by `solve`. At most 2^40
/// units, and 1,048,576 slots.
///
/// Before each of its visits the worker calls the gate.
pub fn solve_plain<G: Gate, R: Wait>(
    rt: &R,
    alloc: Global,
    position: &Position,
    to_move: Colour,
    budget: u64,
    slots: u32,
    gate: &G,
) -> Result<Vec<Node>, RanOut>
    requires budget { budget ≤ MOST_UNITS }
    requires slots { slots ≤ MOST_PROOFS }
    ensures tree { IfOk result (λ tree. IsSolution position.now to_move tree.items) }
    ensures plain { IfOk result (λ tree. ArePlain tree.items) }
    // A refusal carries the budget or the slots.
    ensures cause { IfErr result (HasCause (lone budget slots)) }
    // Where units are wanting though there were some, neither player has a chain.
    ensures no_chain { IfErr result (λ why. LacksUnit why → 0 < budget → HasNoChain position.now) }
    ensures small { IsSmall position.now budget → IfErr result LacksMemory }
{
    let settings = Settings {
        workers: 1,
        budget,
        slots,
    };
    let answer = by_one_worker(rt, alloc, position, to_move, &settings, gate);
    if answer.is_err() && is_small(position, budget) {
        return by_sweep(alloc, position, to_move);
    }
    answer
}

/// The plain tree of a position and mover by one worker alone, or what was wanting.
fn by_one_worker<G: Gate, R: Wait>(
    rt: &R,
    alloc: Global,
    position: &Position,
    to_move: Colour,
    settings: &Settings,
    gate: &G,
) -> Result<Vec<Node>, RanOut>
    requires { AreSettings settings.now }
    ensures tree { IfOk result (λ tree. IsSolution position.now to_move tree.items) }
    ensures plain { IfOk result (λ tree. ArePlain tree.items) }
    ensures cause { IfErr result (HasCause settings.now) }
    ensures no_chain { IfErr result
        (λ why. LacksUnit why → 0 < settings.now.budget → HasNoChain position.now) }
{
    let searched = search_alone(rt, alloc, position, to_move, settings, gate)?;
    conclude(alloc, searched)
}

/// The tree that the book has, whose root names a move if one is found, and else what ran out.
fn conclude(alloc: Global, searched: Searched<PlainBook, Found>) -> Result<Vec<Node>, RanOut>
    requires { HasEntryFor searched.book.nodes searched.end }
    ensures tree { IfOk result (λ tree. IsTreeFrom searched.book.nodes searched.end tree.items) }
    ensures plain { IfOk result (λ tree. ArePlain tree.items) }
    ensures cause { IfErr result (SaysWhy searched.end) }
{
    let Searched {
        book,
        totals: _,
        end,
    } = searched;
    let found = end?;
    book.keeps();
    tree_at(alloc, book.into_entries(), found.index, true)
}
