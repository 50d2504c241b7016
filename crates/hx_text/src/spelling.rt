//! Spelling the texts of positions and trees, line by line. The longest that is put in as a whole is the first line of
//! a node, for which 120 bytes are kept; a node with many lines goes out in pieces.

ghost use Rattle.std.specs.Prelude.{◌≡◌, ◌+◌, ◌≤◌, ◌++◌, ◌∷◌, [], length};
ghost use Rattle.std.specs.Fmt.{decimal};
ghost use Rattle.hx_inferior.specs.declared.fills.FillStep.TheVariants.{Pair};
ghost use Rattle.hx_inferior.specs.declared.dominations.Kill.TheVariants.{ByDead, ByPair};
ghost use Rattle.hx_tree.specs.declared.nodes.Line.TheVariants.{Child, Under};
ghost use Rattle.hx_link.specs.declared.steps.Step.TheVariants.{Base};
ghost use Rattle.hx_text.specs.declared.heads.Opening.TheVariants.{Links, Move, All, Fill, Turned};
ghost use Rattle.hx_lex.specs.Words.{mask_word, colour_word, cell_word, spaced, vertex_word};
ghost use Rattle.hx_text.specs.Grammars.{text_of};
ghost use Rattle.hx_text.specs.PositionTexts.{size_line, stones_line, move_line, position_text};
ghost use Rattle.hx_text.specs.StepTexts.{IsShortStep, step_line, threat_line};
ghost use Rattle.hx_text.specs.FillTexts.{fill_line};
ghost use Rattle.hx_text.specs.Entries.{opening_of, answer_line};
ghost use Rattle.hx_text.specs.Spelling.{part_text};
ghost use Rattle.hx_text.specs.TreeTexts.{ListsFit, opening_words, head_of, head_line, title_line, front_lines, end_line};

use crate::versions::Version;
use hx_board::{Cell, Colour, Mask, Position, Size, Vertex};
use hx_inferior::{FillStep, Kill};
use hx_lex::{TEXT_ROOM, Text};
use hx_link::Step;
use hx_tree::{Line, Node, Rule};

/// Puts the text of a position and the player to move.
pub(crate) fn put_position(text: &mut Text, position: &Position, to_move: Colour)
    requires { length text.old + 109 ≤ TEXT_ROOM }
    ensures { text.new ≡ text.old ++ position_text position.now to_move }
{
    text.put(b"hexpos 1\n");
    put_size(text, position.size());
    put_stones(text, Colour::Black, position.stones(Colour::Black));
    put_stones(text, Colour::White, position.stones(Colour::White));
    put_move(text, to_move);
}

/// Puts the line of a size.
fn put_size(text: &mut Text, size: Size)
    requires { length text.old + 11 ≤ TEXT_ROOM }
    ensures text { text.new ≡ text.old ++ (size_line size ++ 10 ∷ []) }
    ensures short { length text.new ≤ length text.old + 11 }
{
    text.put(b"size ");
    text.put_small(size.rows());
    text.put(b" ");
    text.put_small(size.cols());
    text.put(b"\n");
}

/// Puts the line of a player's stones.
fn put_stones(text: &mut Text, colour: Colour, stones: Mask)
    requires { length text.old + 39 ≤ TEXT_ROOM }
    ensures text { text.new ≡ text.old ++ (stones_line colour stones ++ 10 ∷ []) }
    ensures short { length text.new ≤ length text.old + 39 }
{
    text.put_colour(colour);
    text.put(b" ");
    text.put_mask(stones);
    text.put(b"\n");
}

/// Puts the line of the player to move.
fn put_move(text: &mut Text, to_move: Colour)
    requires { length text.old + 11 ≤ TEXT_ROOM }
    ensures { text.new ≡ text.old ++ (move_line to_move ++ 10 ∷ []) }
{
    text.put(b"move ");
    text.put_colour(to_move);
    text.put(b"\n");
}

/// Puts the lines of a tree's text before its nodes: the title and the size of the board.
pub(crate) fn put_heading(text: &mut Text, version: Version, size: Size)
    requires { length text.old + 21 ≤ TEXT_ROOM }
    ensures { text.new ≡ text.old
        ++ text_of (front_lines (record { version = version; size = size })) }
{
    put_title(text, version);
    put_size(text, size);
}

/// Puts the title of a tree's text.
fn put_title(text: &mut Text, version: Version)
    requires { length text.old + 10 ≤ TEXT_ROOM }
    ensures text { text.new ≡ text.old ++ (title_line version ++ 10 ∷ []) }
    ensures short { length text.new ≤ length text.old + 10 }
{
    match version {
        Version::One => text.put(b"hextree 1\n"),
        Version::Two => text.put(b"hextree 2\n"),
    }
}

/// Puts the first line of a node.
pub(crate) fn put_head(text: &mut Text, node: &Node)
    requires room { length text.old + 120 ≤ TEXT_ROOM }
    requires lists { ListsFit node.now.rule }
    ensures { text.new ≡ text.old ++ (head_line (head_of node.now) ++ 10 ∷ []) }
{
    text.put(b"node ");
    put_masks(text, &node.heading.position);
    put_colours(text, node.heading.to_move, node.heading.winner);
    put_opening(text, &node.rule);
    text.put(b"\n");
}

/// Puts the line of an answer to a move of the opponent.
pub(crate) fn put_answer(text: &mut Text, line: &Line)
    requires { length text.old + 26 ≤ TEXT_ROOM }
    ensures { text.new ≡ text.old ++ (answer_line line.now ++ 10 ∷ []) }
{
    match line {
        Line::Child { cell, child } => put_child(text, *cell, *child),
        Line::Under { cell, better, kill } => match kill {
            Kill::ByDead => put_under_dead(text, *cell, *better),
            Kill::ByPair(partner) => put_under_pair(text, *cell, *better, *partner),
        },
    }
}

/// Puts the line of a step that is no Or. That of an Or is longer than a text may be, and goes out in pieces.
pub(crate) fn put_step(text: &mut Text, step: &Step)
    requires room { length text.old + 28 ≤ TEXT_ROOM }
    requires short { IsShortStep step.now }
    ensures { text.new ≡ text.old ++ (step_line step.now ++ 10 ∷ []) }
{
    match step {
        Step::Base { a, b } => put_base(text, *a, *b),
        Step::AndStone { left, right } => put_and(text, b"stone ", *left, *right),
        Step::AndCell { left, right } => put_and(text, b"cell ", *left, *right),
        Step::Or { .. } => {}
    }
}

/// Puts the line of a step over what is joined.
fn put_base(text: &mut Text, a: Vertex, b: Vertex)
    requires { length text.old + 28 ≤ TEXT_ROOM }
    ensures { text.new ≡ text.old ++ (step_line (Base a b) ++ 10 ∷ []) }
{
    text.put(b"base ");
    put_vertex(text, a);
    text.put(b" ");
    put_vertex(text, b);
    text.put(b"\n");
}

/// Puts the line of a step by an And rule, which begins with this word and the space after it.
fn put_and(text: &mut Text, word: &[u8], left: u32, right: u32)
    requires room { length text.old + 28 ≤ TEXT_ROOM }
    requires short { length word.now ≤ 6 }
    ensures { text.new ≡ text.old
        ++ (word.now ++ decimal left ++ 32 ∷ decimal right ++ 10 ∷ []) }
{
    text.put(word);
    text.put_number(left);
    text.put(b" ");
    text.put_number(right);
    text.put(b"\n");
}

/// Puts the word of a vertex.
fn put_vertex(text: &mut Text, vertex: Vertex)
    requires { length text.old + 5 ≤ TEXT_ROOM }
    ensures text { text.new ≡ text.old ++ vertex_word vertex }
    ensures short { length text.new ≤ length text.old + 5 }
{
    match vertex {
        Vertex::Of(cell) => text.put_cell(cell),
        Vertex::First => text.put(b"first"),
        Vertex::Last => text.put(b"last"),
    }
}

/// Puts one more part of an Or: a space and the number.
pub(crate) fn put_part(text: &mut Text, place: u32)
    requires { length text.old + 11 ≤ TEXT_ROOM }
    ensures { text.new ≡ text.old ++ part_text place }
{
    text.put(b" ");
    text.put_number(place);
}

/// Puts the line of a threat.
pub(crate) fn put_threat(text: &mut Text, place: u32)
    requires { length text.old + 18 ≤ TEXT_ROOM }
    ensures { text.new ≡ text.old ++ (threat_line place ++ 10 ∷ []) }
{
    text.put(b"threat ");
    text.put_number(place);
    text.put(b"\n");
}

/// Puts the line of an answer by a child.
fn put_child(text: &mut Text, cell: Cell, child: u32)
    requires { length text.old + 26 ≤ TEXT_ROOM }
    ensures { text.new ≡ text.old ++ (answer_line (Child cell child) ++ 10 ∷ []) }
{
    text.put(b"line ");
    text.put_cell(cell);
    text.put(b" child ");
    text.put_number(child);
    text.put(b"\n");
}

/// Puts the line of an answer by a better cell, with which the cell is dead.
fn put_under_dead(text: &mut Text, cell: Cell, better: Cell)
    requires { length text.old + 18 ≤ TEXT_ROOM }
    ensures { text.new ≡ text.old ++ (answer_line (Under cell better ByDead) ++ 10 ∷ []) }
{
    put_two_cells(text, b"line ", cell, b" dead ", better);
}

/// Puts the line of an answer by a better cell, with which the cell is one of a pair with its partner.
fn put_under_pair(text: &mut Text, cell: Cell, better: Cell, partner: Cell)
    requires { length text.old + 22 ≤ TEXT_ROOM }
    ensures { text.new ≡ text.old
        ++ (answer_line (Under cell better (ByPair partner)) ++ 10 ∷ []) }
{
    text.put(b"line ");
    text.put_cell(cell);
    text.put(b" pair ");
    text.put_cell(better);
    text.put(b" ");
    text.put_cell(partner);
    text.put(b"\n");
}

/// Puts the line of a fill step.
pub(crate) fn put_fill(text: &mut Text, fill: &FillStep)
    requires { length text.old + 13 ≤ TEXT_ROOM }
    ensures { text.new ≡ text.old ++ (fill_line fill.now ++ 10 ∷ []) }
{
    match fill {
        FillStep::Other(cell) => put_filled(text, b"other ", *cell),
        FillStep::Dead(cell) => put_filled(text, b"dead ", *cell),
        FillStep::Pair(a, b) => put_pair(text, *a, *b),
    }
}

/// Puts the line of a fill step on one cell, which begins with this word and the space after it.
fn put_filled(text: &mut Text, word: &[u8], cell: Cell)
    requires room { length text.old + 13 ≤ TEXT_ROOM }
    requires short { length word.now ≤ 6 }
    ensures { text.new ≡ text.old ++ (word.now ++ cell_word cell ++ 10 ∷ []) }
{
    text.put(word);
    text.put_cell(cell);
    text.put(b"\n");
}

/// Puts the line of a fill step on the cells of a pair.
fn put_pair(text: &mut Text, a: Cell, b: Cell)
    requires { length text.old + 13 ≤ TEXT_ROOM }
    ensures { text.new ≡ text.old ++ (fill_line (Pair a b) ++ 10 ∷ []) }
{
    put_two_cells(text, b"pair ", a, b" ", b);
}

/// Puts a line with these two cells, each behind these words with their spaces.
fn put_two_cells(text: &mut Text, before: &[u8], a: Cell, between: &[u8], b: Cell)
    requires { length text.old + length before.now + length between.now + 7 ≤ TEXT_ROOM }
    ensures { text.new ≡ text.old
        ++ (before.now ++ cell_word a ++ between.now ++ cell_word b ++ 10 ∷ []) }
{
    text.put(before);
    text.put_cell(a);
    text.put(between);
    text.put_cell(b);
    text.put(b"\n");
}

/// Puts the last line of a tree's text, which says how many nodes there are and who wins.
pub(crate) fn put_end(text: &mut Text, nodes: u32, winner: Colour)
    requires { length text.old + 21 ≤ TEXT_ROOM }
    ensures { text.new ≡ text.old ++ text_of (end_line nodes winner ∷ []) }
{
    text.put(b"end ");
    text.put_number(nodes);
    text.put(b" ");
    text.put_colour(winner);
    text.put(b"\n");
}

/// Puts the masks of both players' stones, each with the space after it.
fn put_masks(text: &mut Text, position: &Position)
    requires { length text.old + 66 ≤ TEXT_ROOM }
    ensures text { text.new ≡ text.old
        ++ (mask_word position.now.black ++ 32 ∷ mask_word position.now.white ++ 32 ∷ []) }
    ensures short { length text.new ≤ length text.old + 66 }
{
    text.put_mask(position.stones(Colour::Black));
    text.put(b" ");
    text.put_mask(position.stones(Colour::White));
    text.put(b" ");
}

/// Puts the player to move and the winner, each with the space after it.
fn put_colours(text: &mut Text, to_move: Colour, winner: Colour)
    requires { length text.old + 12 ≤ TEXT_ROOM }
    ensures text { text.new ≡ text.old
        ++ (colour_word to_move ++ 32 ∷ colour_word winner ++ 32 ∷ []) }
    ensures short { length text.new ≤ length text.old + 12 }
{
    text.put_colour(to_move);
    text.put(b" ");
    text.put_colour(winner);
    text.put(b" ");
}

/// Puts the words of a rule that end its node's first line.
fn put_opening(text: &mut Text, rule: &Rule)
    requires room { length text.old + 36 ≤ TEXT_ROOM }
    requires lists { ListsFit rule.now }
    ensures text { text.new ≡ text.old ++ spaced (opening_words (opening_of rule.now)) }
    ensures short { length text.new ≤ length text.old + 36 }
{
    match rule {
        Rule::Chain => text.put(b"chain"),
        Rule::Links { steps } => put_links(text, steps.items().len() as u32),
        Rule::Move { cell, child } => put_winning(text, *cell, *child),
        Rule::All {
            steps,
            threats,
            lines,
        } => put_all(
            text,
            steps.items().len() as u32,
            threats.items().len() as u32,
            lines.items().len() as u32,
        ),
        Rule::Fill { steps, child } => put_fills(text, steps.items().len() as u32, *child),
        Rule::Turned { child } => put_turned(text, *child),
    }
}

/// Puts the words of a rule of so many steps.
fn put_links(text: &mut Text, steps: u32)
    requires { length text.old + 36 ≤ TEXT_ROOM }
    ensures text { text.new ≡ text.old ++ spaced (opening_words (Links steps)) }
    ensures short { length text.new ≤ length text.old + 36 }
{
    text.put(b"links ");
    text.put_number(steps);
}

/// Puts the words of a rule that answers each move, with so many steps, threats and lines.
fn put_all(text: &mut Text, steps: u32, threats: u32, lines: u32)
    requires { length text.old + 36 ≤ TEXT_ROOM }
    ensures text { text.new ≡ text.old ++ spaced (opening_words (All steps threats lines)) }
    ensures short { length text.new ≤ length text.old + 36 }
{
    text.put(b"all ");
    text.put_number(steps);
    text.put(b" ");
    text.put_number(threats);
    text.put(b" ");
    text.put_number(lines);
}

/// Puts the words of a rule of so many fill steps and of the child that goes on.
fn put_fills(text: &mut Text, fills: u32, child: u32)
    requires { length text.old + 36 ≤ TEXT_ROOM }
    ensures text { text.new ≡ text.old ++ spaced (opening_words (Fill fills child)) }
    ensures short { length text.new ≤ length text.old + 36 }
{
    text.put(b"fill ");
    text.put_number(fills);
    text.put(b" ");
    text.put_number(child);
}

/// Puts the words of a turned node and of the child that it stands on.
fn put_turned(text: &mut Text, child: u32)
    requires { length text.old + 17 ≤ TEXT_ROOM }
    ensures text { text.new ≡ text.old ++ spaced (opening_words (Turned child)) }
    ensures short { length text.new ≤ length text.old + 17 }
{
    text.put(b"turned ");
    text.put_number(child);
}

/// Puts the words of a winning move and of the child that goes on.
fn put_winning(text: &mut Text, cell: Cell, child: u32)
    requires { length text.old + 19 ≤ TEXT_ROOM }
    ensures text { text.new ≡ text.old ++ spaced (opening_words (Move cell child)) }
    ensures short { length text.new ≤ length text.old + 19 }
{
    text.put(b"move ");
    text.put_cell(cell);
    text.put(b" ");
    text.put_number(child);
}
