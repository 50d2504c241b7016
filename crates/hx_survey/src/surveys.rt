//! The survey: all workers go through the openings, and then the table is read.

ghost use Rattle.std.specs.Prelude.{◌≡◌, IfOk, IfErr, IsErr, Err};
ghost use Rattle.hx_limits.specs.Settings.{AreSettings};
ghost use Rattle.hx_pool.specs.Searches.{IsSearchEnd};
ghost use Rattle.hx_limits.specs.Causes.{HasCause, LacksMemory};
ghost use Rattle.hx_openings.specs.Openings.{OpeningsAreSmall};
ghost use Rattle.hx_survey.specs.Surveys.{IsSurvey, HasOpenings};

use crate::openings::Openings;
use crate::readings::table_of;
use crate::tables::Table;
use hx_board::{Memory, Size};
use hx_book::Book;
use hx_io::Gate;
use hx_limits::{RanOut, Settings};
use hx_openings::openings_small;
use hx_pool::{Searched, run_all};
use std::alloc::Global;
use std::sync::Wait;
use std::thread::Threads;

/// Who wins after each opening of a board of this size, by workers that share one book and one budget for all openings.
/// Else it is answered what was wanting, as by `solve`: what the foremost of the workers' ends says (`foremost` of
/// hx_pool). An opening that no worker proved is solved by a full search where it is small.
///
/// It may wait for a worker. Before each of its visits a worker calls the gate.
pub fn survey<G: Gate + Sync, R: Threads + Wait + Sync>(
    rt: &R,
    alloc: Global,
    size: Size,
    settings: Settings,
    gate: &G,
) -> Result<Table, RanOut>
    requires { AreSettings settings }
    ensures size { IfOk result (λ table. table.size ≡ size) }
    ensures table { IfOk result (λ table. IsSurvey size table.cells_of_black) }
    // A refusal carries the budget or the slots of the settings.
    ensures cause { IfErr result (HasCause settings) }
    ensures small { OpeningsAreSmall size settings.budget → IfErr result LacksMemory }
{
    let openings = Openings {
        size,
        workers: settings.workers,
    };
    let empties = size.all().count().saturating_sub(1);
    match run_all(rt, alloc, &openings, empties, &settings, gate) {
        Ok(searched) => conclude(size, &settings, searched),
        Err(Memory) => Err(RanOut::Memory),
    }
}

/// The table, read from the closed book, or what was wanting.
fn conclude(size: Size, settings: &Settings, searched: Searched<Book, ()>) -> Result<Table, RanOut>
    requires { IsSearchEnd (λ nodes found. HasOpenings nodes size) (Unit {0}) settings.now
        searched.book searched.totals.granted searched.end }
    ensures size { IfOk result (λ table. table.size ≡ size) }
    ensures table { IfOk result (λ table. IsSurvey size table.cells_of_black) }
    ensures cause { IfErr result (HasCause settings.now) }
    ensures small { OpeningsAreSmall size settings.now.budget → IfErr result LacksMemory }
{
    let Searched {
        book,
        totals: _,
        end,
    } = searched;
    if let Some(table) = table_of(size, settings.budget, &book) {
        return Ok(table);
    }
    openings_small(size, settings.budget);
    Err(ran_out(end))
}

/// What ran out, by an end that found nothing.
fn ran_out(end: Result<(), RanOut>) -> RanOut
    requires { IsErr end }
    ensures { end ≡ Err result }
{
    match end {
        Ok(()) => unreachable!(),
        Err(why) => why,
    }
}
