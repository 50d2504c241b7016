//! Fill-in, in rounds.
//!
//! A round goes once over the empty cells for one player, with what was joined at its start, and fills what is dead or
//! a captured pair. That stays right when stones come elsewhere, so a round may fill many cells without a further
//! flood. Rounds for the one and for the other player alternate, until two in a row have filled nothing. To ask both
//! players again after each round that filled something took a fifteenth more rounds in a search.

ghost use Rattle.std.specs.Prelude.{◌≡◌, IfOk, OnOk, true};
ghost use Rattle.hx_board.specs.Sets.{has};
ghost use Rattle.hx_fill.specs.Fills.{IsFillIn, NothingLeft};
ghost use Rattle.hx_fill.specs.Rounds.{AreAllEmpties, HasNoStoneLess, LooksAt, IsRound};

use crate::fills::Filled;
use crate::makers::{makers_of, partner_of};
use crate::views::View;
use hx_board::{Cell, Colour, Groups, Mask, Memory, Position};
use hx_cells::each_cell;
use hx_inferior::{FillStep, open_around};
use std::alloc::Global;

/// Fills what is dead or a captured pair, for either player, until no such cells are left. Each step is right for its
/// own player where it is done. Hayward, van Rijswijck, Arneson and Henderson call this fill-in.
pub fn fill_in(alloc: Global, position: &Position) -> Result<Filled, Memory>
    ensures fills { IfOk result (λ filled.
        IsFillIn position.now filled.steps.items filled.position) }
    ensures nothing_left { IfOk result (λ filled. NothingLeft filled.position) }
{
    let mut filled = Filled::none(alloc, position);
    let mut colour = Colour::Black;
    let mut has_other_none = false;
    loop {
        // The proof takes from here that the position's board is one.
        let _size = filled.position.size();
        let before = filled.steps.len();
        fill_round(&mut filled, colour)?;
        let has_none = filled.steps.len() == before;
        if has_none && has_other_none {
            return Ok(filled);
        }
        has_other_none = has_none;
        colour = colour.other();
    }
}

/// Fills what is dead or a captured pair for one player alone, until no such cells are left.
pub fn fill_in_for(alloc: Global, position: &Position, colour: Colour) -> Result<Filled, Memory>
    ensures fills { IfOk result (λ filled.
        IsFillIn position.now filled.steps.items filled.position) }
{
    let mut filled = Filled::none(alloc, position);
    loop {
        // The proof takes from here that the position's board is one.
        let _size = filled.position.size();
        let before = filled.steps.len();
        fill_round(&mut filled, colour)?;
        let has_none = filled.steps.len() == before;
        if has_none {
            return Ok(filled);
        }
    }
}

/// Looks at each empty cell for one player.
fn fill_round(filled: &mut Filled, colour: Colour) -> Result<(), Memory>
    ensures { OnOk result (IsRound colour 0
        filled.old.position filled.old.steps.items filled.new.position filled.new.steps.items) }
{
    let size = filled.position.size();
    let groups = Groups::of(&filled.position, colour);
    let view = View::of(&filled.position, colour, &groups);
    let mut empties = filled.position.empties();
    for cell in each_cell(empties, size) {
        let is_empty = empties.has(cell);
        if is_empty {
            empties = fill_at(filled, &view, colour, cell, empties)?;
        }
    }
    Ok(())
}

/// Fills an empty cell, or it and a partner, where that was right at the start of the round. Given the cells that are
/// empty, it answers those that are left.
fn fill_at(
    filled: &mut Filled,
    view: &View,
    colour: Colour,
    cell: Cell,
    empties: Mask,
) -> Result<Mask, Memory>
    requires colour { view.now.player ≡ colour }
    requires grown { HasNoStoneLess view.now.board filled.old.position }
    requires empties { AreAllEmpties filled.old.position empties }
    requires empty { has empties cell ≡ true }
    ensures looks { OnOk result (LooksAt view.now.board colour cell
        filled.old.position filled.old.steps.items filled.new.position filled.new.steps.items) }
    ensures empties { IfOk result (AreAllEmpties filled.new.position) }
{
    let around = open_around(view.position(), view.colour(), cell);
    let makers = makers_of(view, cell, around, empties);
    if makers.is_dead {
        filled.add(colour, FillStep::Dead(cell))?;
        return Ok(empties.without(cell));
    }
    match partner_of(view, cell, makers.cells) {
        Some(partner) => {
            filled.add(colour, FillStep::Pair(cell, partner))?;
            Ok(empties.without(cell).without(partner))
        }
        None => Ok(empties),
    }
}
