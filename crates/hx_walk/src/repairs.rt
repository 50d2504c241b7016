//! What is done where a zone is missing or claims too much.

ghost use Rattle.std.specs.Prelude.{IfErr};
ghost use Rattle.hx_walk.specs.Walks.{Keeps, MayHold, Stops};

use crate::walks::Walk;
use hx_board::{Colour, Position};
use hx_dfpn::{ask, search_position};
use hx_io::Gate;
use hx_known::Knows;
use hx_limits::RanOut;
use hx_linkset::LinkSet;
use hx_reach::Workspace;
use hx_sketch::Sketch;
use std::sync::Wait;

impl<K: Knows, G: Gate, R: Wait> Walk<'_, K, G, R, Workspace, LinkSet> {
    /// Sketches a position, with sets of its own: a zone claims it then.
    pub(crate) fn sketch(&mut self, position: &Position, to_move: Colour) -> Result<(), RanOut>
        requires { MayHold self.old 0 }
        ensures keeps { Keeps K.view self.old self.new }
        ensures stopped { IfErr result (Stops K.view self.new) }
    {
        ask(self.worker, self.seat)?;
        let mut sketch = Sketch::new(&mut *self.known, self.zones);
        search_position(self.worker, &mut sketch, self.seat, position, to_move)
    }

    /// Sketches a position anew that zones claim, as it stands: they said too little of how it is won.
    pub(crate) fn sketch_anew(&mut self, position: &Position, to_move: Colour) -> Result<(), RanOut>
        requires { MayHold self.old 0 }
        ensures keeps { Keeps K.view self.old self.new }
        ensures stopped { IfErr result (Stops K.view self.new) }
    {
        ask(self.worker, self.seat)?;
        let mut sketch = Sketch::anew(&mut *self.known, self.zones, position, to_move);
        search_position(self.worker, &mut sketch, self.seat, position, to_move)
    }

    /// Searches a position without zones.
    pub(crate) fn search(&mut self, position: &Position, to_move: Colour) -> Result<(), RanOut>
        requires { MayHold self.old 0 }
        ensures keeps { Keeps K.view self.old self.new }
        ensures stopped { IfErr result (Stops K.view self.new) }
    {
        ask(self.worker, self.seat)?;
        search_position(self.worker, self.known, self.seat, position, to_move)
    }
}
