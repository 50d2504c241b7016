//! Useful links are added to a set, for positions inside a search.
//!
//! A set that is closed under the rules holds very many links, and most of them are of no use. Here links are made only
//! between vertices that stand for their groups, and few of each pair of ends; the smallest come first, and the first
//! one that decides the position may end it.
//!
//! A set that a call has left Open can be played on, and taken back, with nothing kept beside it. Of one that is
//! decided not all links were tried, and a later call does not catch up with what was left.

ghost use Rattle.std.specs.Prelude.{IfOk};
ghost use Rattle.hx_linkset.specs.States.{IsRight};
ghost use Rattle.hx_reach.specs.Decided.{IsReached};
ghost use Rattle.hx_reach.specs.Growth.{IsGrown};
ghost use Rattle.hx_reach.specs.Taken.{IsTaken};

use crate::candidates::MOST_CELLS;
use crate::decisions::{Reached, decided};
use crate::replays::key_of;
use crate::workspaces::Workspace;
use hx_board::{Colour, Memory};
use hx_link::{Kind, Link};
use hx_linkset::{Added, LinkSet};

/// What became of the candidates of one size.
#[derive(Clone, Copy)]
enum Taken {
    /// One was added at this index; and whether all live links of its kind and ends, it too, share a cell. (Not the
    /// cells: the proof of a loop takes no mask out of a value.)
    New(u32, bool),

    /// None is left.
    NoMore,

    /// The set is full.
    Full,
}

/// Takes candidates with so many cells until one of them is added.
fn take(set: &mut LinkSet, workspace: &mut Workspace, cells: usize) -> Result<Taken, Memory>
    ensures grown { IsGrown set.old set.new }
    ensures longer { IfOk result (IsTaken set.old set.new) }
{
    for _ in 0..workspace.candidates.count(cells) {
        let Some(candidate) = workspace.candidates.pop(cells) else {
            return Ok(Taken::NoMore);
        };
        let Some(shared) = candidate.shared_where_wanted(set, &workspace.caps) else {
            continue;
        };
        let is_shared = !shared.is_empty();
        let step = match workspace.candidates.step(set.allocator(), &candidate) {
            Ok(step) => step,
            Err(Memory) => return Err(Memory),
        };
        match set.add_unlooked(step) {
            Ok(Added::New(index)) => return Ok(Taken::New(index, is_shared)),
            Ok(Added::Covered(_)) => {}
            Ok(Added::Refused) => {}
            Ok(Added::Limit) => return Ok(Taken::Full),
            Err(Memory) => return Err(Memory),
        }
    }
    Ok(Taken::NoMore)
}

/// How a run over candidates ended.
#[derive(Clone, Copy)]
enum Run {
    /// All of them were tried.
    Through,

    /// A link ended the run, or the set is full.
    Ended,
}

/// When to end before all candidates were tried.
#[derive(Clone, Copy)]
enum Until {
    /// The position is decided, with this player to move.
    Decided(Colour),

    /// Never.
    Through,
}

/// Whether a link of this player's ends the run.
fn ends_run(link: &Link, colour: Colour, until: Until) -> bool {
    match until {
        Until::Decided(to_move) => {
            link.joins_sides() && (link.kind == Kind::Full || colour == to_move)
        }
        Until::Through => false,
    }
}

/// Adds the candidates with so many cells, and all with no more that these make possible.
fn take_all(
    set: &mut LinkSet,
    workspace: &mut Workspace,
    cells: usize,
    until: Until,
) -> Result<Run, Memory>
    ensures { IsGrown set.old set.new }
{
    loop {
        match take(set, workspace, cells) {
            Ok(Taken::New(index, is_shared)) => {
                let Some(link) = set.link(index) else {
                    return Ok(Run::Through);
                };
                let is_last = ends_run(&link, set.colour(), until);
                if is_last {
                    return Ok(Run::Ended);
                }
                if workspace.look_at_new(set, index, &link, is_shared).is_err() {
                    return Err(Memory);
                }
            }
            Ok(Taken::NoMore) => return Ok(Run::Through),
            Ok(Taken::Full) => return Ok(Run::Ended),
            Err(Memory) => return Err(Memory),
        }
    }
}

/// Adds candidates, the smallest first.
fn grow(set: &mut LinkSet, workspace: &mut Workspace, until: Until) -> Result<(), Memory>
    ensures { IsGrown set.old set.new }
{
    for cells in 0..=MOST_CELLS {
        // what a candidate makes possible may be larger than all that came before
        if workspace.candidates.largest() < cells {
            return Ok(());
        }
        match take_all(set, workspace, cells, until) {
            Ok(Run::Through) => {}
            Ok(Run::Ended) => return Ok(()),
            Err(Memory) => return Err(Memory),
        }
    }
    Ok(())
}

/// Adds useful links, the smallest first.
fn add_useful(set: &mut LinkSet, workspace: &mut Workspace, until: Until) -> Result<(), Memory>
    ensures { IsGrown set.old set.new }
{
    workspace.set_up(set);
    if workspace.begin(set).is_err() {
        return Err(Memory);
    }
    grow(set, workspace, until)
}

/// Adds all useful links, also where one decides the position, in a workspace that is let go at the end. It is for
/// whoever then adds other links too (`close` of hx_search), so that a set that gets full holds the useful ones.
pub fn add_all_useful(set: &mut LinkSet) -> Result<(), Memory>
    ensures { IsGrown set.old set.new }
{
    match Workspace::new(set.allocator()) {
        Ok(mut workspace) => add_useful(set, &mut workspace, Until::Through),
        Err(Memory) => Err(Memory),
    }
}

/// Adds the links that a call added before to a set in this state; or useful ones, until one decides the position, and
/// keeps their steps.
fn add_or_replay(
    set: &mut LinkSet,
    workspace: &mut Workspace,
    to_move: Colour,
) -> Result<(), Memory>
    ensures { IsGrown set.old set.new }
{
    let key = key_of(set, to_move);
    let first = set.count();
    match workspace.replays.replay(set, key) {
        Ok(true) => return Ok(()),
        Ok(false) => {}
        Err(Memory) => return Err(Memory),
    }
    let added = add_useful(set, workspace, Until::Decided(to_move));
    if added.is_ok() {
        workspace.replays.keep(key, set, first);
    }
    added
}

/// Adds useful links until one decides the position, or none is left that this call looks for, or there is no room.
/// Whatever the answer, want of memory included, the links that were live stay live at their indices, and position,
/// player and plays are as before; each live link comes by a step from live links before it. The answer says whether a
/// live link is there that decides the position for the set's player, where `to_move` is to move.
///
/// A set that a call has left Open may be played on and reached again: what is new then is what the stones since then
/// change. A set that is decided, and stays so, needs no more links, and gets none.
pub fn reach(set: &mut LinkSet, to_move: Colour) -> Result<Reached, Memory>
    ensures grown { IsGrown set.old set.new }
    ensures reached { IfOk result (IsReached set.new to_move) }
    ensures right { IsRight set.new.player set.new.present }
{
    match Workspace::new(set.allocator()) {
        Ok(mut workspace) => reach_with(&mut workspace, set, to_move),
        Err(Memory) => {
            set.keeps();
            Err(Memory)
        }
    }
}

/// As `reach`, in a workspace of the caller's. Where no two states of sets share a key, what it held before makes no
/// difference but for the time.
pub fn reach_with(
    workspace: &mut Workspace,
    set: &mut LinkSet,
    to_move: Colour,
) -> Result<Reached, Memory>
    ensures grown { IsGrown set.old set.new }
    ensures reached { IfOk result (IsReached set.new to_move) }
    ensures right { IsRight set.new.player set.new.present }
{
    set.keeps();
    let reached = decided(set, to_move);
    match reached {
        Reached::Decided(_) => return Ok(reached),
        Reached::Open => {}
    }
    let added = add_or_replay(set, workspace, to_move);
    set.keeps();
    match added {
        Ok(()) => Ok(decided(set, to_move)),
        Err(Memory) => Err(Memory),
    }
}
