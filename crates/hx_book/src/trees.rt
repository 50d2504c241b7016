//! The tree of an entry: of the nodes those that the entry needs, as one list of their own.
//!
//! A node names its children by places before it. So one pass from the entry down to the first node marks what is
//! needed, and one pass up takes the marked nodes, each with the new numbers of its children.

ghost use Rattle.std.specs.Prelude.{◌≡◌, ◌<◌, ◌≤◌, ℕ, length, map, slice_index, IfOk, OnOk, true, false};
ghost use Rattle.hx_tree.specs.Trees.{AreRight};
ghost use Rattle.hx_book.specs.Trees.{NamesChild, HasLine, Names, IsTreeOf, renamed_line, renamed_node};
ghost use Rattle.hx_book.specs.Renaming.{AreUnmarked, MarksMore, AreMarkedFrom, IsKept};

use hx_board::Memory;
use hx_packed::Entry;
use hx_tree::{Line, Lines, Node, Rule};
use std::alloc::Global;

/// The nodes that were kept so far, and the new number of each.
#[derive(Drop)]
struct Kept {
    nodes: Vec<Node>,
    names: Vec<u32>,
}

/// No mark on so many places.
fn no_marks(alloc: Global, count: usize) -> Result<Vec<bool>, Memory>
    ensures { IfOk result (λ marks. AreUnmarked count marks.items) }
{
    let Ok(marks) = vec![in alloc; false; count] else {
        return Err(Memory);
    };
    Ok(marks)
}

/// Marks a place.
fn mark(marks: &mut Vec<bool>, place: u32)
    requires { place < length marks.old.items }
    ensures { MarksMore (λ (other : ℕ). other ≡ place) marks.old.items marks.new.items }
{
    marks[place as usize] = true;
}

/// Marks the child of a line.
fn mark_line(marks: &mut Vec<bool>, line: &Line)
    requires { (place : ℕ) → NamesChild line.now place → place < length marks.old.items }
    ensures { MarksMore (NamesChild line.now) marks.old.items marks.new.items }
{
    match line {
        Line::Child { child, .. } => mark(marks, *child),
        Line::Under { .. } => {}
    }
}

/// Marks the children of lines.
fn mark_lines(marks: &mut Vec<bool>, lines: &[Line])
    requires { (place : ℕ) → HasLine lines.now place → place < length marks.old.items }
    ensures { MarksMore (HasLine lines.now) marks.old.items marks.new.items }
{
    for line in lines {
        mark_line(marks, line);
    }
}

/// Marks the children of an entry.
fn mark_children(marks: &mut Vec<bool>, entry: &Entry)
    requires { (place : ℕ) → Names entry.now.rule place → place < length marks.old.items }
    ensures { MarksMore (Names entry.now.rule) marks.old.items marks.new.items }
{
    match entry.child() {
        Some(child) => mark(marks, child),
        None => mark_lines(marks, entry.lines()),
    }
}

/// The marks of the nodes that a root needs.
fn needed_for(alloc: Global, nodes: &[Entry], root: u32) -> Result<Vec<bool>, Memory>
    requires right { AreRight nodes.now }
    requires inside { root < length nodes.now }
    ensures { IfOk result (λ marks. AreMarkedFrom nodes.now root 0 marks.items) }
{
    let Ok(mut marks) = no_marks(alloc, nodes.len()) else {
        return Err(Memory);
    };
    mark(&mut marks, root);
    let mut bound = root as usize + 1;
    while bound > 0 {
        bound -= 1;
        if marks[bound] {
            mark_children(&mut marks, &nodes[bound]);
        }
    }
    Ok(marks)
}

/// A line with the new number of its child.
fn renamed_line(line: &Line, names: &[u32]) -> Line
    requires { (place : ℕ) → NamesChild line.now place → place < length names.now }
    ensures { result ≡ renamed_line (λ (place : ℕ). slice_index names.now place) line.now }
{
    match line {
        Line::Child { cell, child } => Line::Child {
            cell: *cell,
            child: names[*child as usize],
        },
        Line::Under { cell, better, kill } => Line::Under {
            cell: *cell,
            better: *better,
            kill: *kill,
        },
    }
}

/// Lines with the new numbers of their children.
fn renamed_lines(lines: Lines, names: &[u32]) -> Lines
    requires { (place : ℕ) → HasLine lines place → place < length names.now }
    ensures { result ≡ map (renamed_line (λ (place : ℕ). slice_index names.now place)) lines }
{
    let mut items = lines.into_inner();
    for k in 0..items.len() {
        items[k] = renamed_line(&items[k], names);
    }
    Lines::new(items)
}

/// A node with the new numbers of its children.
pub fn renamed(node: Node, names: &[u32]) -> Node
    requires { (place : ℕ) → Names node.rule place → place < length names.now }
    ensures { result ≡ renamed_node (λ (place : ℕ). slice_index names.now place) node }
{
    let Node { heading, rule } = node;
    let rule = match rule {
        Rule::Chain => Rule::Chain,
        Rule::Links { steps } => Rule::Links { steps },
        Rule::Move { cell, child } => Rule::Move {
            cell,
            child: names[child as usize],
        },
        Rule::All {
            steps,
            threats,
            lines,
        } => Rule::All {
            steps,
            threats,
            lines: renamed_lines(lines, names),
        },
        Rule::Fill { steps, child } => Rule::Fill {
            steps,
            child: names[child as usize],
        },
        Rule::Turned { child } => Rule::Turned {
            child: names[child as usize],
        },
    };
    Node { heading, rule }
}

/// Keeps the node of a place under the next new number, if it is needed, and else drops it.
fn keep_needed(kept: &mut Kept, place: usize, entry: Entry, is_needed: bool) -> Result<(), Memory>
    requires inside { place < length kept.old.names.items }
    requires children { (child : ℕ) → Names entry.rule child → child < length kept.old.names.items }
    requires few { length kept.old.nodes.items < 4294967296 }
    ensures needed { is_needed ≡ true → OnOk result (IsKept kept.old.nodes.items
        kept.old.names.items place entry kept.new.nodes.items kept.new.names.items) }
    ensures dropped { is_needed ≡ false → OnOk result
        ((kept.new.nodes.items ≡ kept.old.nodes.items)
        × (kept.new.names.items ≡ kept.old.names.items)) }
{
    if !is_needed {
        return Ok(());
    }
    let number = kept.nodes.len() as u32;
    let node = entry.into_node()?;
    let node = renamed(node, kept.names.as_slice());
    if kept.nodes.push(node).is_err() {
        return Err(Memory);
    }
    kept.names[place] = number;
    Ok(())
}

/// The marked nodes with the new numbers of their children.
fn kept_of(alloc: Global, nodes: Vec<Entry>, root: u32, marks: &[bool]) -> Result<Vec<Node>, Memory>
    requires right { AreRight nodes.items }
    requires few { length nodes.items < 4294967296 }
    requires inside { root < length nodes.items }
    requires marked { AreMarkedFrom nodes.items root 0 marks.now }
    ensures { IfOk result (λ tree. IsTreeOf nodes.items root tree.items) }
{
    let Ok(names) = vec![in alloc; 0u32; nodes.len()] else {
        return Err(Memory);
    };
    let mut kept = Kept {
        nodes: Vec::new(alloc),
        names,
    };
    let mut place = 0;
    let mut rest = nodes.into_iter();
    while let Some(entry) = rest.next() {
        if keep_needed(&mut kept, place, entry, marks[place]).is_err() {
            return Err(Memory);
        }
        place += 1;
    }
    Ok(kept.nodes)
}

/// The tree of the node at a place, of nodes that are right.
pub fn tree_of(alloc: Global, nodes: Vec<Entry>, root: u32) -> Result<Vec<Node>, Memory>
    requires right { AreRight nodes.items }
    requires few { length nodes.items < 4294967296 }
    requires inside { root < length nodes.items }
    ensures { IfOk result (λ tree. IsTreeOf nodes.items root tree.items) }
{
    let Ok(marks) = needed_for(alloc, nodes.as_slice(), root) else {
        return Err(Memory);
    };
    kept_of(alloc, nodes, root, marks.as_slice())
}
