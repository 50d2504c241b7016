//! A visit of the walk: a position becomes known, by a zone that claims it, or in some other way.

ghost use Rattle.std.specs.Prelude.{IfErr};
ghost use Rattle.hx_walk.specs.Walks.{Keeps, MayHold, Stops};

use crate::walks::Walk;
use hx_board::{Colour, Position, chain};
use hx_dfpn::ask;
use hx_io::Gate;
use hx_known::{Known, Knows};
use hx_limits::RanOut;
use hx_linkset::LinkSet;
use hx_ordering::{Start, first_numbers, is_marked, leave_mark, leave_open};
use hx_reach::Workspace;
use hx_turn::Orientations;
use std::sync::Wait;

/// How often a position is tried by zones, each time but the first after it was sketched anew.
const TRIES: u32 = 4;

/// A mark of the walk says that there is a proof, and one of the sketch that there is a zone. So their keys differ by
/// these digits.
const OF_THE_WALK: u64 = 11053463214872509973;

impl<K: Knows, G: Gate, R: Wait> Walk<'_, K, G, R, Workspace, LinkSet> {
    /// The key of a position's mark.
    pub(crate) fn mark_key(&self, here: &Orientations, to_move: Colour) -> u64 {
        here.key(to_move) ^ OF_THE_WALK
    }

    /// Marks a position that became known, so that other workers look for it.
    pub(crate) fn mark(&self, here: &Orientations, to_move: Colour, known: Known) {
        if let Known::Proved = known {
            leave_mark(self.worker.hints, self.mark_key(here, to_move));
        }
    }

    /// Whether a position above the visit at a depth became known meanwhile: then nobody waits for this one.
    pub(crate) fn is_left(&self, depth: u32) -> bool {
        self.way.is_marked_above(self.worker.hints, depth)
    }

    /// Takes a mark away that is no position's of this walk.
    pub(crate) fn unmark(&self, here: &Orientations, to_move: Colour) {
        let key = self.mark_key(here, to_move);
        if is_marked(self.worker.hints, key) {
            leave_open(self.worker.hints, key, first_numbers(here.position()));
        }
    }

    /// Asks what is known of a position that is marked: another worker may have proved it. A mark of which nothing is
    /// known was another position's.
    pub(crate) fn look_at_marked(
        &mut self,
        here: &Orientations,
        to_move: Colour,
    ) -> Result<Known, RanOut>
        ensures keeps { Keeps K.view self.old self.new }
        ensures stopped { IfErr result (Stops K.view self.new) }
    {
        if !is_marked(self.worker.hints, self.mark_key(here, to_move)) {
            return Ok(Known::Nothing);
        }
        let position = here.position();
        let known = self.known.of_position(self.worker.rt, position, to_move)?;
        if known == Known::Nothing {
            self.unmark(here, to_move);
        }
        Ok(known)
    }

    /// Tests a player's chain.
    fn by_chain(
        &mut self,
        position: &Position,
        to_move: Colour,
        player: Colour,
    ) -> Result<Known, RanOut>
        ensures keeps { Keeps K.view self.old self.new }
        ensures stopped { IfErr result (Stops K.view self.new) }
    {
        let has_chain = chain(position, player);
        if !has_chain {
            return Ok(Known::Nothing);
        }
        self.known
            .by_chain(self.worker.rt, position, to_move, player)?;
        Ok(Known::Proved)
    }

    /// Asks what is known of a position, and tests both players' chains.
    pub(crate) fn look_up(&mut self, position: &Position, to_move: Colour) -> Result<Known, RanOut>
        ensures keeps { Keeps K.view self.old self.new }
        ensures stopped { IfErr result (Stops K.view self.new) }
    {
        let rt = self.worker.rt;
        if let Known::Proved = self.known.of_position(rt, position, to_move)? {
            return Ok(Known::Proved);
        }
        if let Known::Proved = self.by_chain(position, to_move, Colour::Black)? {
            return Ok(Known::Proved);
        }
        self.by_chain(position, to_move, Colour::White)
    }

    /// A visit, which takes a unit where the position is not passed. No more than `depth` moves are made.
    #[cycle(walk)]
    pub(crate) fn visit(&mut self, start: &Start, depth: u32) -> Result<Known, RanOut>
        requires { MayHold self.old depth }
        ensures keeps { Keeps K.view self.old self.new }
        ensures stopped { IfErr result (Stops K.view self.new) }
    {
        if let Known::Proved = self.pass(start, depth)? {
            return Ok(Known::Proved);
        }
        ask(self.worker, self.seat)?;
        self.visit_granted(start, depth)
    }

    /// A visit whose unit was granted.
    #[cycle(walk)]
    pub(crate) fn visit_granted(&mut self, start: &Start, depth: u32) -> Result<Known, RanOut>
        requires { MayHold self.old depth }
        ensures keeps { Keeps K.view self.old self.new }
        ensures stopped { IfErr result (Stops K.view self.new) }
    {
        if let Known::Proved = self.look_up(start.here.position(), start.to_move)? {
            self.mark(&start.here, start.to_move, Known::Proved);
            return Ok(Known::Proved);
        }
        let known = self.try_zones(start, depth)?;
        self.mark(&start.here, start.to_move, known);
        Ok(known)
    }

    /// Tries zones, and sketches the position anew after each that fails; and at last searches without zones. Nothing
    /// only where nobody waits for this position any more.
    #[cycle(walk)]
    fn try_zones(&mut self, start: &Start, depth: u32) -> Result<Known, RanOut>
        requires { MayHold self.old depth }
        ensures keeps { Keeps K.view self.old self.new }
        ensures stopped { IfErr result (Stops K.view self.new) }
    {
        let position = start.here.position();
        for _ in 0..TRIES {
            if let Known::Proved = self.by_zone(start, depth)? {
                return Ok(Known::Proved);
            }
            if self.is_left(depth) {
                return Ok(Known::Nothing);
            }
            self.sketch(position, start.to_move)?;
        }
        self.search(position, start.to_move)?;
        self.known
            .of_position(self.worker.rt, position, start.to_move)
    }
}
