//! Threats, which tell the cells that all live links between the two sides of a player share.
//!
//! A link is kept as a threat only where it takes a cell away from what those before it share. So there are no more
//! threats than cells, and they share what all of the links share. Links with few cells are looked at first, since each
//! of them takes many cells away; so few of the links are kept.

ghost use Rattle.std.specs.Prelude.{IfOk, OnOk};
ghost use Rattle.hx_fill.specs.Musts.{IsBetween, AreBetween, AreKept, IsTaken, AreAllTaken};

use hx_board::{Mask, Memory, Vertex};
use hx_linkset::LinkSet;

/// A live link between the two sides.
#[derive(Clone, Copy)]
pub(crate) struct Between {
    pub(crate) place: u32,
    pub(crate) carrier: Mask,
}

/// Some live links between the two sides, and what they share.
#[derive(Drop)]
pub(crate) struct KeptThreats {
    pub(crate) places: Vec<u32>,

    /// The empty cells in the carriers of all of them.
    pub(crate) cells: Mask,
}

/// The threats of a set of links.
pub(crate) fn threats_of(set: &LinkSet) -> Result<KeptThreats, Memory>
    ensures { IfOk result (λ found. AreAllTaken set.now found.places.items found.cells) }
{
    set.keeps();
    let links = links_between(set)?;
    let mut found = KeptThreats {
        places: Vec::new(set.allocator()),
        cells: set.position().empties(),
    };
    for link in links.as_slice() {
        found.take(set, link)?;
    }
    Ok(found)
}

/// The live links between the two sides, those with few cells first.
fn links_between(set: &LinkSet) -> Result<Vec<Between>, Memory>
    ensures { IfOk result (λ links. AreBetween set.now links.items) }
{
    let mut links = Vec::new(set.allocator());
    for place in set.live(Vertex::First, Vertex::Last) {
        if links.reserve(1).is_err() {
            return Err(Memory);
        }
        let carrier = set.carrier(place);
        links.push_reserved(Between { place, carrier });
    }
    // Of links with as many cells the older one comes first. No clause speaks of that order.
    links
        .sort_by_key(|link| link.carrier.count())
        .map_err(|_| Memory)?;
    Ok(links)
}

impl KeptThreats {
    /// Keeps a link where it takes a cell away.
    fn take(&mut self, set: &LinkSet, link: &Between) -> Result<(), Memory>
        requires link { IsBetween set.now link.now }
        requires threats { AreKept set.now self.old.places.items self.old.cells }
        ensures { OnOk result (IsTaken set.now link.now.place
            self.old.cells self.new.places.items self.new.cells) }
    {
        let has_all = self.cells.inside(link.carrier);
        if has_all {
            return Ok(());
        }
        if self.places.reserve(1).is_err() {
            return Err(Memory);
        }
        set.keeps();
        self.places.push_reserved(link.place);
        self.cells = self.cells.meet(link.carrier);
        Ok(())
    }
}
