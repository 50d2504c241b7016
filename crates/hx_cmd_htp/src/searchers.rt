//! Who answers the questions of a session: a search, with the settings of the command.
//!
//! A searcher keeps the tally of the run, so what a session says was used up is counted where it was refused. It keeps
//! the zones of its searches, so that each is helped by those before it; books, counts and hints are of one search
//! alone. Its workers have the gate that holds nobody back: what is sent to threads inside a trait's method may rest on
//! no gate that is a type parameter.

ghost use Rattle.std.specs.Prelude.{◌≡◌};
ghost use Rattle.hx_limits.specs.Settings.{AreSettings};
ghost use Rattle.hx_limits.specs.Tallies.{tallied, counting, NoCountFalls};
ghost use Rattle.hx_limits.specs.Causes.{HasCause};
ghost use Rattle.hx_cmd_htp.specs.Sessions.{account_of, IsOfSettings, TellsWhy};

use hx_board::{Colour, Memory, Position};
use hx_htp::{Answerer, Told};
use hx_io::RealGate;
use hx_limits::{RanOut, Settings, Tally};
use hx_solve::{KeptZones, winner};
use std::alloc::Global;
use std::sync::Wait;
use std::thread::Threads;

/// Searches each position that is asked for, and counts the refusals.
#[derive(Drop)]
pub(crate) struct Searcher {
    alloc: Global,
    settings: Settings,
    tally: Tally,
    kept: KeptZones,
    ghost within: { AreSettings settings },
    ghost of_settings: { IsOfSettings settings tally },
}

impl Searcher {
    /// A searcher that has not been asked yet.
    pub(crate) fn new(alloc: Global, settings: Settings) -> Searcher
        requires { AreSettings settings }
        ensures { result.tally ≡ tallied settings.budget settings.slots 0 0 }
    {
        Searcher {
            alloc,
            settings,
            tally: Tally::new(settings.budget, settings.slots),
            kept: KeptZones::new(),
        }
    }

    /// The refusals that were counted.
    pub(crate) fn into_tally(self) -> Tally
        ensures { result ≡ self.tally }
    {
        let Searcher {
            alloc: _,
            settings: _,
            tally,
            kept: _,
        } = self;
        tally
    }
}

impl Answerer for Searcher {
    ghost account = { λ s. account_of s.tally };

    fn solve<R: Threads + Wait + Sync>(
        &mut self,
        rt: &R,
        position: &Position,
        to_move: Colour,
    ) -> Result<Told, Memory> {
        match winner(
            rt,
            self.alloc,
            &mut self.kept,
            position,
            to_move,
            self.settings,
            &RealGate,
        ) {
            Ok(winner) => Ok(Told::Winner(winner)),
            Err(why) => left_open(self.settings, &mut self.tally, why),
        }
    }
}

/// What is told of a search that came to no answer. A refusal is counted.
fn left_open(settings: Settings, tally: &mut Tally, why: RanOut) -> Result<Told, Memory>
    requires cause { HasCause settings why }
    requires of_settings { IsOfSettings settings tally.old }
    ensures told { TellsWhy settings why result }
    ensures counted { tally.new ≡ counting why tally.old }
    ensures later { NoCountFalls tally.old tally.new }
{
    match why {
        RanOut::Budget(refusal) => {
            tally.add(RanOut::Budget(refusal));
            Ok(Told::Budget(settings.budget))
        }
        RanOut::Slots(refusal) => {
            tally.add(RanOut::Slots(refusal));
            Ok(Told::Slots(settings.slots))
        }
        RanOut::Memory => Err(Memory),
    }
}
