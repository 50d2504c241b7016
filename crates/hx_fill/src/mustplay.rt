//! The moves of a player's opponent that must be answered, by the live links of the player.

ghost use Rattle.std.specs.Prelude.{◌≡◌, [], IfOk};
ghost use Rattle.hx_board.specs.Colours.{other_of};
ghost use Rattle.hx_fill.specs.Musts.{IsMust};
ghost use Rattle.hx_fill.specs.Unders.{LeaveNoneDominated, AreByOrder};

use crate::musts;
use crate::threats::{KeptThreats, threats_of};
use crate::unders::under_lines;
use hx_board::{Cell, Memory};
use hx_linkset::LinkSet;
use hx_tree::{Lines, Threats};

/// What the opponent of the set's player must try: the cells that all live links between the player's two sides share,
/// and which of them another one is better than. The threats share the same cells, and are few.
///
/// Of two cells each of which is better than the other, the one that comes first in the order needs no line. A search
/// gives the order in which it tries moves, so that it keeps those that it likes best. Cells that the order leaves out
/// come last, in cell order: so with an empty order the cells are gone through in cell order. Cells that are not among
/// those to try are passed over.
pub fn must(set: &LinkSet, order: &[Cell]) -> Result<musts::Must, Memory>
    ensures must { IfOk result (λ must. IsMust set.now must.threats must.cells must.under) }
    ensures none_dominated { IfOk result (λ must. LeaveNoneDominated set.now.present.board
        (other_of set.now.player) must.cells must.under) }
    ensures order { IfOk result (λ must. AreByOrder set.now.present.board
        (other_of set.now.player) must.cells order.now must.under) }
{
    let found = threats_of(set)?;
    let KeptThreats { places, cells } = found;
    let mover = set.colour().other();
    let under = under_lines(
        set.allocator(),
        set.position(),
        mover,
        set.groups(),
        cells,
        order,
    )?;
    Ok(musts::Must {
        threats: Threats::new(places),
        cells,
        under,
    })
}

/// The same cells and threats, with a line for none of the cells: so each of them is to be tried, also where another
/// one is better.
pub fn must_without_lines(set: &LinkSet) -> Result<musts::Must, Memory>
    ensures must { IfOk result (λ must. IsMust set.now must.threats must.cells must.under) }
    ensures no_lines { IfOk result (λ must. must.under ≡ []) }
{
    let found = threats_of(set)?;
    let KeptThreats { places, cells } = found;
    Ok(musts::Must {
        threats: Threats::new(places),
        cells,
        under: Lines::new(Vec::new(set.allocator())),
    })
}
