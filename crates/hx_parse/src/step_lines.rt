//! The lines of a node's steps and threats.

ghost use Rattle.std.specs.Prelude.{◌≡◌, ℕ, ◌<◌, ◌≤◌, ◌∷◌, [], map, length, codes, List, All, IfOk, OnErr};
ghost use Rattle.std.specs.Fmt.{decimal};
ghost use Rattle.hx_board.specs.declared.vertices.Vertex.{Vertex};
ghost use Rattle.hx_board.specs.Finds.{Finds};
ghost use Rattle.hx_board.specs.Graph.{IsVertex};
ghost use Rattle.hx_lex.specs.Words.{Reads, IsNumber, vertex_word};
ghost use Rattle.hx_text.specs.StepTexts.{step_words, step_line, StepFits, threat_line};
ghost use Rattle.hx_parse.specs.Ors.{BeginsLongOr};

use hx_board::{Memory, Size};
use hx_lex::Words;
use hx_link::{MOST_PARTS, Parts, Step};
use smallvec::SmallVec;
use std::alloc::Global;

/// The line of a step: `base VERTEX VERTEX`, `stone NUMBER NUMBER`, `cell NUMBER NUMBER`, or `or` and at most 128
/// numbers. It takes memory for the parts of an Or with more than eight alone.
pub(crate) fn read_step(alloc: Global, size: Size, line: &[u8]) -> Result<Option<Step>, Memory>
    ensures reads { IfOk result (Reads step_line (StepFits size) line.now) }
    ensures memory { OnErr result (BeginsLongOr line.now) }
{
    // The proof takes from here that the size is one of a board.
    let _rows = size.rows();
    let mut words = Words::of(line);
    read_words(alloc, size, &mut words)
}

/// The words of a step's line.
fn read_words(alloc: Global, size: Size, words: &mut Words<'_>) -> Result<Option<Step>, Memory>
    ensures reads { IfOk result (Reads step_words (StepFits size) words.old) }
    ensures memory { OnErr result ((parts : List (List ℕ)) × (words.old ≡ codes "or" ∷ parts)
        × (8 < length parts)) }
{
    if words.takes(b"base") {
        return Ok(read_base(size, words));
    }
    if words.takes(b"stone") {
        return Ok(read_stone(words));
    }
    if words.takes(b"cell") {
        return Ok(read_cell(words));
    }
    if words.takes(b"or") {
        return read_or(alloc, words);
    }
    Ok(None)
}

/// The rest of a line `base`: two vertices.
fn read_base(size: Size, words: &mut Words<'_>) -> Option<Step>
    ensures { Finds result (λ step. (a b : Vertex) × (step ≡ Step.Base a b)
        × IsVertex size a × IsVertex size b × (words.old ≡ vertex_word a ∷ vertex_word b ∷ [])) }
{
    let a = words.vertex(size)?;
    let b = words.vertex(size)?;
    words.end()?;
    Some(Step::Base { a, b })
}

/// The places of two links.
#[derive(Clone, Copy)]
struct Pair {
    left: u32,
    right: u32,
}

/// Two numbers that are the last words.
fn read_pair(words: &mut Words<'_>) -> Option<Pair>
    ensures { Finds result (λ pair. IsNumber pair.left × IsNumber pair.right
        × (words.old ≡ decimal pair.left ∷ decimal pair.right ∷ [])) }
{
    let left = words.number()?;
    let right = words.number()?;
    words.end()?;
    Some(Pair { left, right })
}

/// The rest of a line `stone`: two numbers.
fn read_stone(words: &mut Words<'_>) -> Option<Step>
    ensures { Finds result (λ step. (left right : ℕ) × (step ≡ Step.AndStone left right)
        × IsNumber left × IsNumber right × (words.old ≡ decimal left ∷ decimal right ∷ [])) }
{
    let Pair { left, right } = read_pair(words)?;
    Some(Step::AndStone { left, right })
}

/// The rest of a line `cell`: two numbers.
fn read_cell(words: &mut Words<'_>) -> Option<Step>
    ensures { Finds result (λ step. (left right : ℕ) × (step ≡ Step.AndCell left right)
        × IsNumber left × IsNumber right × (words.old ≡ decimal left ∷ decimal right ∷ [])) }
{
    let Pair { left, right } = read_pair(words)?;
    Some(Step::AndCell { left, right })
}

/// The rest of a line `or`: at most 128 numbers, the places of its parts.
fn read_or(alloc: Global, words: &mut Words<'_>) -> Result<Option<Step>, Memory>
    ensures reads { IfOk result (λ found. Finds found (λ step. (parts : List ℕ)
        × (step ≡ Step.Or parts) × (length parts ≤ MOST_PARTS) × All IsNumber parts
        × (words.old ≡ map decimal parts))) }
    ensures memory { OnErr result (8 < length words.old) }
{
    let mut items = SmallVec::new(alloc);
    for _ in 0..MOST_PARTS {
        if words.end().is_some() {
            return Ok(Some(or_of(items)));
        }
        let Some(place) = words.number() else {
            return Ok(None);
        };
        items.push(place).map_err(|_| Memory)?;
    }
    match words.end() {
        Some(()) => Ok(Some(or_of(items))),
        None => Ok(None),
    }
}

/// The Or of these parts.
fn or_of(items: SmallVec<u32, 8>) -> Step
    ensures { result ≡ Step.Or items.items }
{
    let parts = Parts::new(items);
    Step::Or { parts }
}

/// The line of a threat: `threat NUMBER`.
pub(crate) fn read_threat(line: &[u8]) -> Option<u32>
    ensures { Reads threat_line IsNumber line.now result }
{
    let mut words = Words::of(line);
    words.keyword(b"threat")?;
    let place = words.number()?;
    words.end()?;
    Some(place)
}
