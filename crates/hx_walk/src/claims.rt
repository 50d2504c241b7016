//! A position that a zone claims: the position where the opponent has all cells that the zone does not need, filled in.

ghost use Rattle.std.specs.Prelude.{IfErr};
ghost use Rattle.hx_walk.specs.Walks.{Keeps, MayHold, Stops};

use crate::answers::Answering;
use crate::walks::Walk;
use hx_board::{Colour, Mask, Memory, Position, Size};
use hx_cells::each_cell;
use hx_dfpn::{put, take_back};
use hx_fill::{Fill, Filled};
use hx_inferior::FillStep;
use hx_io::Gate;
use hx_known::{Known, Knows};
use hx_limits::RanOut;
use hx_linkset::LinkSet;
use hx_ordering::{Situation, Start};
use hx_reach::{Reached, Workspace, reach_with};
use hx_zones::{Kind, Zone, widened};
use std::alloc::Global;
use std::sync::Wait;

/// Adds the opponent's stones on these cells, in the form of fill-in.
fn add_stones(
    steps: &mut Vec<Fill>,
    size: Size,
    opponent: Colour,
    cells: Mask,
) -> Result<(), Memory> {
    for cell in each_cell(cells, size) {
        let fill = Fill {
            colour: opponent,
            step: FillStep::Dead(cell),
        };
        // No `map_err`, which gets no proof here: the error has the fill with it.
        if steps.push(fill).is_err() {
            return Err(Memory);
        }
    }
    Ok(())
}

/// The opponent's stones on these cells and then what was filled in, as one list: all that the set of links does not
/// have yet.
fn all_stones(
    alloc: Global,
    size: Size,
    opponent: Colour,
    cells: Mask,
    filled: &Filled,
) -> Result<Filled, Memory> {
    let mut all = Filled::none(alloc, &filled.position);
    add_stones(&mut all.steps, size, opponent, cells)?;
    let more = filled.steps.as_slice();
    all.steps.extend_from_slice(more).map_err(|_| Memory)?;
    Ok(all)
}

/// The situation at a widened position, with what was filled in there.
pub(crate) fn situation_at(
    alloc: Global,
    start: &Start,
    wide: &Position,
    winner: Colour,
    filled: &Filled,
) -> Result<Situation, Memory> {
    let position = start.here.position();
    let more = position.empties().minus(wide.empties());
    let stones = all_stones(alloc, position.size(), winner.other(), more, filled)?;
    Situation::of(alloc, start, &stones)
}

impl<K: Knows, G: Gate, R: Wait> Walk<'_, K, G, R, Workspace, LinkSet> {
    /// A position becomes known by the zone that claims it. Nothing where none does, or its claim could not be made
    /// good: then it is forgotten.
    #[cycle(walk)]
    pub(crate) fn by_zone(&mut self, start: &Start, depth: u32) -> Result<Known, RanOut>
        requires { MayHold self.old depth }
        ensures keeps { Keeps K.view self.old self.new }
        ensures stopped { IfErr result (Stops K.view self.new) }
    {
        let position = start.here.position();
        let (to_move, winner) = (start.to_move, self.winner);
        let Some(zone) = self.zones.won_by(position, to_move, winner) else {
            return Ok(Known::Nothing);
        };
        let Some(wide) = widened(position, winner, zone.free) else {
            return Ok(Known::Nothing);
        };
        if let Known::Proved = self.at_wide(start, &wide, depth)? {
            let known = self.known.of_position(self.worker.rt, position, to_move)?;
            if let Known::Proved = known {
                return Ok(known);
            }
        }
        self.forget(to_move, &zone, depth);
        Ok(Known::Nothing)
    }

    /// Forgets a zone that was not made good, but where the visit ended since nobody waits for it.
    fn forget(&self, to_move: Colour, zone: &Zone, depth: u32) {
        if self.is_left(depth) {
            return;
        }
        let kind = Kind {
            to_move,
            winner: self.winner,
        };
        self.zones.forget(kind, zone);
    }

    /// The widened position becomes known, by what is filled in there.
    #[cycle(walk)]
    fn at_wide(&mut self, start: &Start, wide: &Position, depth: u32) -> Result<Known, RanOut>
        requires { MayHold self.old depth }
        ensures keeps { Keeps K.view self.old self.new }
        ensures stopped { IfErr result (Stops K.view self.new) }
    {
        let alloc = self.worker.alloc;
        let filled = self.known.fill_for(alloc, wide, self.winner)?;
        if let Known::Proved = self.by_unfilled(start, wide, &filled, depth)? {
            return Ok(Known::Proved);
        }
        let situation = situation_at(alloc, start, wide, self.winner, &filled)?;
        let key = self.mark_key(&situation.filled, situation.to_move);
        self.way.note(depth, key);
        let known = self.at_filled(&situation, depth)?;
        self.mark(&situation.filled, situation.to_move, known);
        match known {
            Known::Proved => {
                let rt = self.worker.rt;
                self.known.by_fill(rt, alloc, wide, start.to_move, &filled)
            }
            Known::Nothing => Ok(Known::Nothing),
        }
    }

    /// The position after fill-in becomes known: it is looked up, and then its stones are put on the set of links.
    #[cycle(walk)]
    fn at_filled(&mut self, situation: &Situation, depth: u32) -> Result<Known, RanOut>
        requires { MayHold self.old depth }
        ensures keeps { Keeps K.view self.old self.new }
        ensures stopped { IfErr result (Stops K.view self.new) }
    {
        let position = situation.filled.position();
        if let Known::Proved = self.look_up(position, situation.to_move)? {
            return Ok(Known::Proved);
        }
        self.unmark(&situation.filled, situation.to_move);
        let before = put(&mut self.set, situation, self.winner)?;
        let known = self.at_set(situation, depth);
        take_back(&mut self.set, before);
        known
    }

    /// Brings the winner's links up to date, and tells of one that decides the position.
    pub(crate) fn by_links(&mut self, to_move: Colour) -> Result<Known, RanOut>
        ensures keeps { Keeps K.view self.old self.new }
        ensures stopped { IfErr result (Stops K.view self.new) }
    {
        let rt = self.worker.rt;
        match reach_with(&mut self.workspace, &mut self.set, to_move)? {
            Reached::Decided(index) => {
                self.known.by_link(rt, &self.set, to_move, index)?;
                Ok(Known::Proved)
            }
            Reached::Open => Ok(Known::Nothing),
        }
    }

    /// The position of the set becomes known: by a link, or by moves. Where it does not it is sketched anew, and tried
    /// once more.
    #[cycle(walk)]
    fn at_set(&mut self, situation: &Situation, depth: u32) -> Result<Known, RanOut>
        requires { MayHold self.old depth }
        ensures keeps { Keeps K.view self.old self.new }
        ensures stopped { IfErr result (Stops K.view self.new) }
    {
        if let Known::Proved = self.by_links(situation.to_move)? {
            return Ok(Known::Proved);
        }
        let known = self.by_moves(situation, depth)?;
        if known == Known::Proved || self.is_left(depth) {
            return Ok(known);
        }
        self.sketch_anew(situation.filled.position(), situation.to_move)?;
        self.by_moves(situation, depth)
    }

    /// By one move of the winner's, or by answers to all moves of the opponent's.
    #[cycle(walk)]
    fn by_moves(&mut self, situation: &Situation, depth: u32) -> Result<Known, RanOut>
        requires { MayHold self.old depth }
        ensures keeps { Keeps K.view self.old self.new }
        ensures stopped { IfErr result (Stops K.view self.new) }
    {
        if situation.to_move == self.winner {
            self.by_win(situation, depth)
        } else {
            self.by_answers(situation, depth, Answering::Always)
        }
    }
}
