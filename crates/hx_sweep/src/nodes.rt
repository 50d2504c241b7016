//! The nodes of a proof of who wins a position, for a winner who is known.
//!
//! A node is made after its children, and only for a position of the proof: to find the winner's move other positions
//! are tried, but without nodes. So no node is ever taken back or moved, and its number stays what it was when it was
//! made.
//!
//! A move is searched for at each node where the winner is to move, and at no other, since who wins is known. A chain
//! ends most lines early and a node by a move has one child, so of 400 trees with nine empty cells the largest had
//! 2,431 nodes, where the bound is 986,410.

ghost use Rattle.std.specs.Prelude.{◌≡◌, ◌-◌, IfOk, []};
ghost use Rattle.std.specs.List.{All};
ghost use Rattle.hx_board.specs.Colours.{other_of};
ghost use Rattle.hx_board.specs.Counts.{empty_count, sweep_size};
ghost use Rattle.hx_board.specs.Positions.{IsBoard, IsEmpty, put};
ghost use Rattle.hx_board.specs.Graph.{HasChain};
ghost use Rattle.hx_board.specs.Game.{Wins};
ghost use Rattle.hx_tree.specs.Answers.{IsRightAll};
ghost use Rattle.hx_tree.specs.Rules.{IsRightRule};
ghost use Rattle.hx_tree.specs.Trees.{headings_of};
ghost use Rattle.hx_tree.specs.Plain.{IsChildLine};
ghost use Rattle.hx_sweep.specs.Moves.{IsByMoves};
ghost use Rattle.hx_tree.specs.Headings.{heading_of};
ghost use Rattle.hx_sweep.specs.Growth.{IsBegun, HasMoreNodes, IsProved};

use crate::winners::winning_move;
use hx_board::{Cell, Colour, Memory, Position, chain};
use hx_cells::each_cell;
use hx_tree::{Heading, Line, Lines, Node, Rule, Steps, Threats};

/// Adds the nodes of a proof that the winner wins the position with this mover, and tells the number of the last, which
/// is the node of the position. The position is kept, as it is by each function here, also where memory is wanting.
#[cycle(nodes)]
pub(crate) fn prove(
    nodes: &mut Vec<Node>,
    position: &mut Position,
    to_move: Colour,
    winner: Colour,
) -> Result<u32, Memory>
    requires wins { Wins winner position.old to_move }
    requires begun { IsBegun position.old nodes.old.items }
    ensures kept { position.new ≡ position.old }
    ensures proved { IfOk result
        (IsProved position.old to_move winner nodes.old.items nodes.new.items) }
{
    let rule = rule(nodes, position, to_move, winner)?;
    let heading = Heading {
        position: *position,
        to_move,
        winner,
    };
    let number = nodes.len() as u32;
    nodes.push(Node { heading, rule }).map_err(|_| Memory)?;
    Ok(number)
}

/// The rule for the node of a position, after the nodes of its children were added.
#[cycle(nodes)]
fn rule(
    nodes: &mut Vec<Node>,
    position: &mut Position,
    to_move: Colour,
    winner: Colour,
) -> Result<Rule, Memory>
    requires wins { Wins winner position.old to_move }
    requires begun { IsBegun position.old nodes.old.items }
    ensures kept { position.new ≡ position.old }
    ensures grown { IfOk result (λ _. HasMoreNodes position.old.size
        (sweep_size (empty_count position.old) - 1) nodes.old.items nodes.new.items) }
    ensures right { IfOk result
        (IsRightRule (headings_of nodes.new.items) (heading_of position.old to_move winner)) }
    ensures by_moves { IfOk result IsByMoves }
{
    if chain(position, winner) {
        return Ok(Rule::Chain);
    }
    if to_move != winner {
        let lines = answers(nodes, position, winner)?;
        let alloc = *nodes.allocator();
        return Ok(Rule::All {
            steps: Steps::new(Vec::new(alloc)),
            threats: Threats::new(Vec::new(alloc)),
            lines: Lines::new(lines),
        });
    }
    match winning_move(position, winner) {
        Some(cell) => {
            let child = after(nodes, position, winner, cell, winner)?;
            Ok(Rule::Move { cell, child })
        }
        // Who wins with the move and has no chain has a move with which he wins.
        None => unreachable!(),
    }
}

/// A line for each move of the opponent, in cell order, after the nodes that the lines name were added.
#[cycle(nodes)]
fn answers(
    nodes: &mut Vec<Node>,
    position: &mut Position,
    winner: Colour,
) -> Result<Vec<Line>, Memory>
    requires wins { Wins winner position.old (other_of winner) }
    requires no_chain { ¬ HasChain position.old winner }
    requires begun { IsBegun position.old nodes.old.items }
    ensures kept { position.new ≡ position.old }
    ensures grown { IfOk result (λ _. HasMoreNodes position.old.size
        (sweep_size (empty_count position.old) - 1) nodes.old.items nodes.new.items) }
    ensures right { IfOk result (λ lines. IsRightAll (headings_of nodes.new.items)
        (heading_of position.old (other_of winner) winner) [] [] lines.items) }
    ensures children { IfOk result (λ lines. All IsChildLine lines.items) }
{
    let size = position.size();
    let mut lines = Vec::new(*nodes.allocator());
    for cell in each_cell(position.empties(), size) {
        let child = after(nodes, position, winner.other(), cell, winner)?;
        // A slice of one line: the prover does not follow a `push` of a value that may hold a `Kill` of hx_inferior,
        // since this crate names no line but Child.
        let line = [Line::Child { cell, child }];
        lines.extend_from_slice(&line).map_err(|_| Memory)?;
    }
    Ok(lines)
}

/// Adds the nodes of a proof that the winner wins after a stone on an empty cell, and tells the number of the last.
#[cycle(nodes)]
fn after(
    nodes: &mut Vec<Node>,
    position: &mut Position,
    stone: Colour,
    cell: Cell,
    winner: Colour,
) -> Result<u32, Memory>
    requires valid { IsBoard position.old }
    requires empty { IsEmpty position.old cell }
    requires wins { Wins winner (put position.old stone cell) (other_of stone) }
    requires begun { IsBegun (put position.old stone cell) nodes.old.items }
    ensures kept { position.new ≡ position.old }
    ensures proved { IfOk result (IsProved (put position.old stone cell) (other_of stone) winner
        nodes.old.items nodes.new.items) }
{
    position.play(stone, cell);
    let child = prove(nodes, position, stone.other(), winner);
    position.lift(cell);
    child
}
