//! The writer of texts to a sink. What is spelled waits in a text of fixed size, and goes out when the next piece might
//! not fit in it. So it takes no memory, and few calls of the sink.

ghost use Rattle.std.specs.Prelude.{ℕ, List, ◌+◌, ◌≤◌, ◌++◌, ◌∷◌, [], map, length, OnOk};
ghost use Rattle.hx_link.specs.declared.steps.Step.TheVariants.{Or as Or_of};
ghost use Rattle.hx_io.specs.Sinks.{WritesAll};
ghost use Rattle.hx_text.specs.Grammars.{text_of};
ghost use Rattle.hx_text.specs.PositionTexts.{position_text};
ghost use Rattle.hx_text.specs.StepTexts.{step_line, threat_line};
ghost use Rattle.hx_text.specs.FillTexts.{fill_line};
ghost use Rattle.hx_text.specs.Entries.{answer_line, entry_line, entries_for, entries_of};
ghost use Rattle.hx_text.specs.Spelling.{Spells, each_line, part_text, parts_text};
ghost use Rattle.hx_text.specs.TreeTexts.{ListsFit, front_lines, node_lines, end_line};

use crate::spelling::{
    put_answer, put_end, put_fill, put_head, put_heading, put_part, put_position, put_step,
    put_threat,
};
use crate::versions::Version;
use hx_board::{Colour, Position, Size};
use hx_inferior::FillStep;
use hx_io::{Failed, Sink, write_all};
use hx_lex::{TEXT_ROOM, Text};
use hx_link::Step;
use hx_tree::{Line, Node, Rule};

/// No line of a step is longer, with its LF, but for that of an Or.
const STEP_BYTES: usize = 28;

/// No part of an Or is longer, with the space before it.
const PART_BYTES: usize = 11;

/// No line of a threat is longer, with its LF.
const THREAT_BYTES: usize = 18;

/// No line of an answer is longer, with its LF.
const ANSWER_BYTES: usize = 26;

/// No line of a fill step is longer, with its LF.
const FILL_BYTES: usize = 13;

/// Writes the text of a position and of the player to move: five lines, each with its LF. After `Failed` the sink has
/// taken no more than a part of it, from its beginning.
pub fn write_position<K: Sink>(
    sink: &mut K,
    position: &Position,
    to_move: Colour,
) -> Result<(), Failed>
    ensures { WritesAll (K.writing sink.old) (K.writing sink.new) result
        (position_text position.now to_move) }
{
    let mut text = Text::new();
    put_position(&mut text, position, to_move);
    write_all(sink, text.bytes())
}

/// Writes the two lines of a tree's text that come before its nodes: the title, which tells the version, and the size
/// of the board. After `Failed` the sink has taken no more than a part of them, from their beginning.
pub fn write_heading<K: Sink>(sink: &mut K, version: Version, size: Size) -> Result<(), Failed>
    ensures { WritesAll (K.writing sink.old) (K.writing sink.new) result
        (text_of (front_lines (record { version = version; size = size }))) }
{
    let mut text = Text::new();
    put_heading(&mut text, version, size);
    write_all(sink, text.bytes())
}

/// Writes the lines of a node, each with its LF. After `Failed` the sink has taken no more than a part of them, from
/// their beginning.
pub fn write_node<K: Sink>(sink: &mut K, node: &Node) -> Result<(), Failed>
    // A text has no more entries of a node.
    requires { ListsFit node.now.rule }
    ensures { WritesAll (K.writing sink.old) (K.writing sink.new) result
        (text_of (node_lines node.now)) }
{
    let mut text = Text::new();
    put_head(&mut text, node);
    write_rule(sink, &mut text, &node.rule)?;
    write_all(sink, text.bytes())
}

/// Spells the lines of a node after the first.
#[tactic(auto, unfolding(crate::specs::Grammars::text_of))]
fn write_rule<K: Sink>(sink: &mut K, text: &mut Text, rule: &Rule) -> Result<(), Failed>
    ensures { Spells (K.writing sink.old) (K.writing sink.new) text.old text.new result
        (text_of (map entry_line (entries_of rule.now))) }
{
    match rule {
        Rule::Chain | Rule::Move { .. } | Rule::Turned { .. } => Ok(()),
        Rule::Links { steps } => write_each(sink, text, steps.items()),
        Rule::All {
            steps,
            threats,
            lines,
        } => write_entries(sink, text, steps.items(), threats.items(), lines.items()),
        Rule::Fill { steps, .. } => write_each(sink, text, steps.items()),
    }
}

/// Spells the lines of these steps, threats and answers.
fn write_entries<K: Sink>(
    sink: &mut K,
    text: &mut Text,
    steps: &[Step],
    threats: &[u32],
    lines: &[Line],
) -> Result<(), Failed>
    ensures { Spells (K.writing sink.old) (K.writing sink.new) text.old text.new result
        (text_of (map entry_line (entries_for steps.now threats.now lines.now []))) }
{
    write_each(sink, text, steps)?;
    write_threats(sink, text, threats)?;
    write_each(sink, text, lines)
}

/// What has a line of its own in the text of a tree.
trait Lined {
    /// Its line.
    ghost line: { Self → List ℕ };

    /// Spells its line.
    fn write<K: Sink>(&self, sink: &mut K, text: &mut Text) -> Result<(), Failed>
        ensures { Spells (K.writing sink.old) (K.writing sink.new) text.old text.new result
            (line self.now ++ 10 ∷ []) };
}

/// Spells the line of each of these.
fn write_each<K: Sink, T: Lined>(sink: &mut K, text: &mut Text, items: &[T]) -> Result<(), Failed>
    ensures { Spells (K.writing sink.old) (K.writing sink.new) text.old text.new result
        (each_line T.line items.now) }
{
    for item in items {
        item.write(sink, text)?;
    }
    Ok(())
}

impl Lined for Step {
    ghost line = { step_line };

    fn write<K: Sink>(&self, sink: &mut K, text: &mut Text) -> Result<(), Failed>
        ensures { Spells (K.writing sink.old) (K.writing sink.new) text.old text.new result
            (step_line self.now ++ 10 ∷ []) }
    {
        match self {
            Step::Or { parts } => write_or(sink, text, parts.items()),
            _ => {
                make_room(sink, text, STEP_BYTES)?;
                put_step(text, self);
                Ok(())
            }
        }
    }
}

/// Spells the line of an Or, part by part.
fn write_or<K: Sink>(sink: &mut K, text: &mut Text, parts: &[u32]) -> Result<(), Failed>
    ensures { Spells (K.writing sink.old) (K.writing sink.new) text.old text.new result
        (step_line (Or_of parts.now) ++ 10 ∷ []) }
{
    write_bytes(sink, text, b"or")?;
    write_parts(sink, text, parts)?;
    write_bytes(sink, text, b"\n")
}

/// Spells the parts of an Or, each with the space before it.
fn write_parts<K: Sink>(sink: &mut K, text: &mut Text, parts: &[u32]) -> Result<(), Failed>
    ensures { Spells (K.writing sink.old) (K.writing sink.new) text.old text.new result
        (parts_text parts.now) }
{
    for part in parts {
        write_part(sink, text, *part)?;
    }
    Ok(())
}

/// Spells one more part of an Or.
fn write_part<K: Sink>(sink: &mut K, text: &mut Text, part: u32) -> Result<(), Failed>
    ensures { Spells (K.writing sink.old) (K.writing sink.new) text.old text.new result
        (part_text part) }
{
    make_room(sink, text, PART_BYTES)?;
    put_part(text, part);
    Ok(())
}

/// Spells the line of each threat.
fn write_threats<K: Sink>(sink: &mut K, text: &mut Text, threats: &[u32]) -> Result<(), Failed>
    ensures { Spells (K.writing sink.old) (K.writing sink.new) text.old text.new result
        (each_line threat_line threats.now) }
{
    for place in threats {
        write_threat(sink, text, *place)?;
    }
    Ok(())
}

/// Spells the line of a threat.
fn write_threat<K: Sink>(sink: &mut K, text: &mut Text, place: u32) -> Result<(), Failed>
    ensures { Spells (K.writing sink.old) (K.writing sink.new) text.old text.new result
        (threat_line place ++ 10 ∷ []) }
{
    make_room(sink, text, THREAT_BYTES)?;
    put_threat(text, place);
    Ok(())
}

impl Lined for Line {
    ghost line = { answer_line };

    fn write<K: Sink>(&self, sink: &mut K, text: &mut Text) -> Result<(), Failed>
        ensures { Spells (K.writing sink.old) (K.writing sink.new) text.old text.new result
            (answer_line self.now ++ 10 ∷ []) }
    {
        make_room(sink, text, ANSWER_BYTES)?;
        put_answer(text, self);
        Ok(())
    }
}

impl Lined for FillStep {
    ghost line = { fill_line };

    fn write<K: Sink>(&self, sink: &mut K, text: &mut Text) -> Result<(), Failed>
        ensures { Spells (K.writing sink.old) (K.writing sink.new) text.old text.new result
            (fill_line self.now ++ 10 ∷ []) }
    {
        make_room(sink, text, FILL_BYTES)?;
        put_fill(text, self);
        Ok(())
    }
}

/// Spells these bytes.
fn write_bytes<K: Sink>(sink: &mut K, text: &mut Text, bytes: &[u8]) -> Result<(), Failed>
    requires { length bytes.now ≤ TEXT_ROOM }
    ensures { Spells (K.writing sink.old) (K.writing sink.new) text.old text.new result
        bytes.now }
{
    make_room(sink, text, bytes.len())?;
    text.put(bytes);
    Ok(())
}

/// Writes what waits in the text where so many bytes more might not fit.
fn make_room<K: Sink>(sink: &mut K, text: &mut Text, bytes: usize) -> Result<(), Failed>
    requires { bytes ≤ TEXT_ROOM }
    ensures room { OnOk result (length text.new + bytes ≤ TEXT_ROOM) }
    ensures spells { Spells (K.writing sink.old) (K.writing sink.new) text.old text.new result
        [] }
{
    if !text.has_room(bytes) {
        write_all(sink, text.bytes())?;
        *text = Text::new();
    }
    Ok(())
}

/// Writes the last line of a tree's text, which says how many nodes came before it and who wins the last one's
/// position. After `Failed` the sink has taken no more than a part of it, from its beginning.
pub fn write_end<K: Sink>(sink: &mut K, nodes: u32, winner: Colour) -> Result<(), Failed>
    ensures { WritesAll (K.writing sink.old) (K.writing sink.new) result
        (text_of (end_line nodes winner ∷ [])) }
{
    let mut text = Text::new();
    put_end(&mut text, nodes, winner);
    write_all(sink, text.bytes())
}
