//! The machine's answers, each worked out from all the events before it and their answers.

use hx_board::Colour::{Black, White};
use hx_board::{Cell, Colour, Position, Size, chain};
use hx_core::{Event, Found, Reply, State, apply, can_happen};
use hx_test_support::{Draws, numbered};
use hx_tree::{Heading, Node, Rule};
use std::alloc::Global;
use std::process::Abort;
use std::test::Fail;

/// An event that happened, with its answer.
type Done = (Event, Reply);

/// How many slots and units there are. There are three workers and two words.
#[derive(Clone, Copy)]
struct Bounds {
    slots: u32,
    budget: u64,
}

/// The answer to an event. None where it may not happen.
fn plain_answer(bounds: Bounds, past: &[Done], event: &Event) -> Option<Reply> {
    match event {
        Event::Look {
            worker,
            position,
            to_move,
        } if *worker < 3 => Some(Reply::Looked(first_stored(past, position, *to_move))),
        Event::Store { worker, node } if *worker < 3 && is_right(past, *worker, node) => {
            Some(plain_store(bounds.slots, past, &node.heading))
        }
        Event::Tell { from, to } if *from < 3 && *to < 3 => Some(Reply::Told),
        Event::Spend { worker } if *worker < 3 => Some(plain_spend(bounds.budget, past)),
        Event::Hold { worker, word } if *worker < 3 && *word < 2 => Some(Reply::Held),
        Event::Release { worker, word } if holds(past, Some(*worker), *word) > 0 => {
            Some(Reply::Released)
        }
        Event::LookAtWord { worker, word } if *worker < 3 && *word < 2 => {
            Some(Reply::Losses(holds(past, None, *word)))
        }
        _ => None,
    }
}

/// What the first store of the position and mover that was given a place says.
fn first_stored(past: &[Done], position: &Position, to_move: Colour) -> Option<Found> {
    for (event, reply) in past {
        if let (Event::Store { node, .. }, Reply::Stored(index)) = (event, reply) {
            if node.heading.position == *position && node.heading.to_move == to_move {
                let index = *index;
                let winner = node.heading.winner;
                return Some(Found { index, winner });
            }
        }
    }
    None
}

fn plain_store(slots: u32, past: &[Done], heading: &Heading) -> Reply {
    if let Some(found) = first_stored(past, &heading.position, heading.to_move) {
        return Reply::Stored(found.index);
    }
    let mut places = 0;
    for (_, reply) in past {
        if let Reply::Stored(index) = reply {
            places = places.max(index.saturating_add(1));
        }
    }
    if places < slots {
        Reply::Stored(places)
    } else {
        Reply::NoSlot(places)
    }
}

fn plain_spend(budget: u64, past: &[Done]) -> Reply {
    let mut granted = 0u64;
    for (_, reply) in past {
        if *reply == Reply::Granted {
            granted = granted.saturating_add(1);
        }
    }
    if granted < budget {
        Reply::Granted
    } else {
        Reply::Spent(budget)
    }
}

/// How often the worker holds the word, or all together.
fn holds(past: &[Done], worker: Option<u32>, word: u32) -> u64 {
    let mut times = 0u64;
    for (event, _) in past {
        match event {
            Event::Hold {
                worker: by,
                word: at,
            } if *at == word && worker.unwrap_or(*by) == *by => {
                times = times.saturating_add(1);
            }
            Event::Release {
                worker: by,
                word: at,
            } if *at == word && worker.unwrap_or(*by) == *by => {
                times = times.saturating_sub(1);
            }
            _ => (),
        }
    }
    times
}

/// Whether the worker knows the node of a place: it looked or stored after the node came, or was told by one who knew.
fn knows(past: &[Done], worker: u32, place: u32) -> bool {
    let mut there = false;
    let mut knowing = 0u64;
    for (event, reply) in past {
        if *reply == Reply::Stored(place) {
            there = true;
        }
        match event {
            Event::Look { worker, .. } | Event::Store { worker, .. } if there => {
                knowing |= bit(*worker);
            }
            Event::Tell { from, to } if knowing & bit(*from) != 0 => knowing |= bit(*to),
            _ => (),
        }
    }
    knowing & bit(worker) != 0
}

fn bit(worker: u32) -> u64 {
    1 << (worker % 64)
}

/// The heading of the node of a place.
fn heading_at(past: &[Done], place: u32) -> Option<Heading> {
    for (event, reply) in past {
        if let Event::Store { node, .. } = event {
            if *reply == Reply::Stored(place) {
                return Some(node.heading);
            }
        }
    }
    None
}

/// Whether a node is right after those that a worker knows. Of the rules it judges Chain and Move alone.
fn is_right(past: &[Done], worker: u32, node: &Node) -> bool {
    let heading = &node.heading;
    let _size = heading.position.size();
    match &node.rule {
        Rule::Chain => chain(&heading.position, heading.winner),
        Rule::Move { cell, child } => {
            knows(past, worker, *child) && is_move(heading, *cell, heading_at(past, *child))
        }
        _ => false,
    }
}

/// Whether the winner moves to an empty cell and comes to the position of the other heading, which it wins too.
fn is_move(heading: &Heading, cell: Cell, other: Option<Heading>) -> bool {
    if heading.to_move != heading.winner || !heading.position.empties().has(cell) {
        return false;
    }
    let next = Heading {
        position: heading.position.with(heading.winner, cell),
        to_move: heading.winner.other(),
        winner: heading.winner,
    };
    other == Some(next)
}

fn colour(number: u32) -> Colour {
    if number % 2 == 0 { Black } else { White }
}

/// The node that a number stands for: a position, its mover and winner, and a rule. A move is from a position whose
/// last cell is empty, and every other one is the winner's.
fn node_of(cell: Cell, board: &Position, number: u32) -> Node {
    let to_move = colour(number / 9);
    let winner = colour(number / 18);
    let child = number / 108 % 4;
    match number / 36 % 3 {
        0 => node(board, number % 9, to_move, winner, Rule::Chain),
        1 => node(
            board,
            number % 3,
            to_move,
            winner,
            Rule::Move { cell, child },
        ),
        _ => node(
            board,
            number % 3,
            to_move,
            to_move,
            Rule::Move { cell, child },
        ),
    }
}

fn node(board: &Position, number: u32, to_move: Colour, winner: Colour, rule: Rule) -> Node {
    let position = numbered(board.size(), number).unwrap_or(*board);
    let heading = Heading {
        position,
        to_move,
        winner,
    };
    Node { heading, rule }
}

/// The event that a number stands for, of three workers and two words and of one more of each.
fn event_of(cell: Cell, board: &Position, number: u32) -> Event {
    let worker = number / 10 % 4;
    let other = number / 40 % 4;
    let word = other % 3;
    let node = node_of(cell, board, number / 160);
    match number % 10 {
        0 | 1 | 2 => Event::Store { worker, node },
        3 => look_for(worker, &node),
        4 => Event::Tell {
            from: worker,
            to: other,
        },
        5 => Event::Spend { worker },
        6 | 7 => Event::Hold { worker, word },
        8 => Event::Release { worker, word },
        _ => Event::LookAtWord { worker, word },
    }
}

fn look_for(worker: u32, node: &Node) -> Event {
    let position = node.heading.position;
    let to_move = node.heading.to_move;
    Event::Look {
        worker,
        position,
        to_move,
    }
}

/// The machine's answer to an event. None where it may not happen.
fn answer(alloc: Global, state: &mut State, event: Event) -> Result<Option<Reply>, Fail> {
    if can_happen(alloc, state, &event).or(Err("memory"))? {
        return Ok(Some(apply(state, event)));
    }
    Ok(None)
}

/// A hundred drawn events on a board, whose last cell is the one that is moved to.
fn compare(
    rt: &impl Abort,
    alloc: Global,
    bounds: Bounds,
    cell: Cell,
    board: &Position,
    seed: u64,
) -> Result<(), Fail> {
    let mut state = start(alloc, bounds)?;
    let mut past = Vec::new(alloc);
    let mut draws = Draws::new(seed);
    for _ in 0..100 {
        let number = draws.below(69120);
        let expected = plain_answer(bounds, &past, &event_of(cell, board, number));
        let found = answer(alloc, &mut state, event_of(cell, board, number))?;
        assert_eq!(rt; found, expected, "at {number}");
        note(&mut past, event_of(cell, board, number), found)?;
    }
    Ok(())
}

/// Notes an event that happened.
fn note(past: &mut Vec<Done>, event: Event, reply: Option<Reply>) -> Result<(), Fail> {
    if let Some(reply) = reply {
        past.push((event, reply)).or(Err("memory"))?;
    }
    Ok(())
}

/// The machine at its start, where the bounds are in range.
fn start(alloc: Global, bounds: Bounds) -> Result<State, Fail> {
    if bounds.slots > 100 || bounds.budget > 100 {
        return Err("bounds".into());
    }
    Ok(State::start(alloc, 3, bounds.slots, bounds.budget, 2).or(Err("memory"))?)
}

/// Four runs on the board of one row and so many columns for each bounds.
fn compare_row(rt: &impl Abort, alloc: Global, cols: u8) -> Result<(), Fail> {
    let size = Size::new(1, cols).ok_or("size")?;
    let cell = size.cell(0, cols.saturating_sub(1)).ok_or("cell")?;
    let board = Position::empty(size);
    for (slots, budget) in [(0, 5), (1, 0), (2, 3), (6, 100), (100, 8)] {
        for seed in 0..4 {
            compare(rt, alloc, Bounds { slots, budget }, cell, &board, seed)?;
        }
    }
    Ok(())
}

#[test]
fn drawn_events(rt: HostRuntime) -> Result<(), Fail> {
    compare_row(&rt, rt.alloc(), 1)?;
    compare_row(&rt, rt.alloc(), 2)
}
