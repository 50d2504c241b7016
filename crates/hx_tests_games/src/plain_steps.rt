//! The table of steps once more, said as plainly as it can be, for the tests to compare `result_of` with: joining by
//! walks from vertex to vertex and not by groups, carriers cell by cell and not by whole sets.

use hx_board::{CELLS, Cell, Colour, Mask, Position, Size, Vertex};
use hx_link::{Kind, Link, MOST_PARTS, Step};
use hx_test_support::{is_own, is_vertex, joined_to};

/// The link that a step gives after these.
pub(crate) fn plain_result(
    position: &Position,
    player: Colour,
    before: &[Link],
    step: &Step,
) -> Option<Link> {
    let (kind, x, y, carrier) = match step {
        Step::Base { a, b } => base(position, player, a, b)?,
        Step::AndStone { left, right } => and_stone(position, player, before, *left, *right)?,
        Step::AndCell { left, right } => and_cell(position, before, *left, *right)?,
        Step::Or { parts } => or(before, parts.items())?,
    };
    let is_clear = can_be_end(position, player, &x, carrier)
        && can_be_end(position, player, &y, carrier);
    if x == y || !is_clear {
        return None;
    }
    let (a, b) = if comes_before(&x, &y) { (x, y) } else { (y, x) };
    Some(Link {
        kind,
        a,
        b,
        carrier,
    })
}

/// The kind, the ends and the carrier that a rule gives, before the ends are looked at.
type Given = (Kind, Vertex, Vertex, Mask);

fn base(position: &Position, player: Colour, a: &Vertex, b: &Vertex) -> Option<Given> {
    if joined_to(position, player, a).has(*b) {
        Some((Kind::Full, *a, *b, Mask::empty()))
    } else {
        None
    }
}

fn and_stone(
    position: &Position,
    player: Colour,
    before: &[Link],
    left: u32,
    right: u32,
) -> Option<Given> {
    let first = before.get(left as usize)?;
    let second = before.get(right as usize)?;
    let middle = shared_end(first, second)?;
    let are_full = first.kind == Kind::Full && second.kind == Kind::Full;
    if are_full && is_own(position, player, &middle) && !share_a_cell(first, second) {
        let carrier = cells_of_either(first.carrier, second.carrier);
        Some((
            Kind::Full,
            other_end(first, &middle),
            other_end(second, &middle),
            carrier,
        ))
    } else {
        None
    }
}

fn and_cell(position: &Position, before: &[Link], left: u32, right: u32) -> Option<Given> {
    let first = before.get(left as usize)?;
    let second = before.get(right as usize)?;
    let middle = shared_end(first, second)?;
    let Vertex::Of(cell) = middle else {
        return None;
    };
    let are_full = first.kind == Kind::Full && second.kind == Kind::Full;
    let is_empty = is_vertex(position.size(), &middle) && position.at(cell).is_none();
    let is_in_one = first.carrier.has(cell) || second.carrier.has(cell);
    if are_full && is_empty && !is_in_one && !share_a_cell(first, second) {
        let carrier = cells_of_either(first.carrier, second.carrier).with(cell);
        Some((
            Kind::Semi,
            other_end(first, &middle),
            other_end(second, &middle),
            carrier,
        ))
    } else {
        None
    }
}

fn or(before: &[Link], places: &[u32]) -> Option<Given> {
    let first = before.get(*places.first()? as usize)?;
    let mut carrier = Mask::empty();
    for place in places {
        let part = before.get(*place as usize)?;
        let has_same_ends = is_end_of(&first.a, part) && is_end_of(&first.b, part);
        if part.kind != Kind::Semi || !has_same_ends {
            return None;
        }
        carrier = cells_of_either(carrier, part.carrier);
    }
    let is_shared = some_cell_is_in_all(before, places);
    if places.len() < 2 || places.len() > MOST_PARTS || is_shared {
        return None;
    }
    Some((Kind::Full, first.a, first.b, carrier))
}

/// Whether some cell is in the carriers of all the links at these places.
fn some_cell_is_in_all(before: &[Link], places: &[u32]) -> bool {
    for index in 0..CELLS as u8 {
        if let Some(cell) = cell_at(index)
            && is_in_all(before, places, cell)
        {
            return true;
        }
    }
    false
}

fn is_in_all(before: &[Link], places: &[u32], cell: Cell) -> bool {
    for place in places {
        match before.get(*place as usize) {
            Some(part) if part.carrier.has(cell) => {}
            _ => return false,
        }
    }
    true
}

/// The cells that are in one of the two carriers.
fn cells_of_either(carrier: Mask, other: Mask) -> Mask {
    let mut cells = Mask::empty();
    for index in 0..CELLS as u8 {
        if let Some(cell) = cell_at(index)
            && (carrier.has(cell) || other.has(cell))
        {
            cells = cells.with(cell);
        }
    }
    cells
}

fn share_a_cell(first: &Link, second: &Link) -> bool {
    for index in 0..CELLS as u8 {
        if let Some(cell) = cell_at(index)
            && first.carrier.has(cell)
            && second.carrier.has(cell)
        {
            return true;
        }
    }
    false
}

/// The cell with this index on a board of the largest size.
fn cell_at(index: u8) -> Option<Cell> {
    Size::new(11, 11)?.cell(index / 11, index % 11)
}

fn is_end_of(vertex: &Vertex, link: &Link) -> bool {
    *vertex == link.a || *vertex == link.b
}

/// The vertex that is an end of both links, where only one is.
fn shared_end(first: &Link, second: &Link) -> Option<Vertex> {
    match (is_end_of(&first.a, second), is_end_of(&first.b, second)) {
        (true, false) => Some(first.a),
        (false, true) => Some(first.b),
        _ => None,
    }
}

/// The end of a link that is not this one.
fn other_end(link: &Link, end: &Vertex) -> Vertex {
    if link.a == *end { link.b } else { link.a }
}

/// Whether one vertex comes before another: the cells row by row, then the first side, then the last side.
fn comes_before(vertex: &Vertex, other: &Vertex) -> bool {
    match (vertex, other) {
        (Vertex::Of(cell), Vertex::Of(next)) => {
            cell.row() < next.row() || (cell.row() == next.row() && cell.col() < next.col())
        }
        (Vertex::Of(_), _) => true,
        (Vertex::First, Vertex::Last) => true,
        _ => false,
    }
}

/// Whether a link on these cells can end here: at a side, at a stone of the player, or at an empty cell that is none of
/// them.
fn can_be_end(position: &Position, player: Colour, vertex: &Vertex, carrier: Mask) -> bool {
    match vertex {
        Vertex::Of(cell) => match position.at(*cell) {
            Some(stone) => stone == player,
            None => is_vertex(position.size(), vertex) && !carrier.has(*cell),
        },
        Vertex::First | Vertex::Last => true,
    }
}
