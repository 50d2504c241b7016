//! Surveys with ample memory: the table of a small board, and that all openings share one search with one book and one
//! budget, by as many workers as were asked for.

use super::runs::came_of;
use super::turns::assert_turns;
use hx_io::RealGate;
use std::test::Fail;

/// The table of the board of 2 by 2.
const TWO_BY_TWO: &str = "survey 2 2\nwb\nbw\nblack 2 white 2\n";

/// What is told where twenty units are used up.
const TWENTY: &str = "unknown budget 20\n";

#[test]
fn a_survey_writes_its_table(rt: HostRuntime) -> Result<(), Fail> {
    let words = ["survey", "2", "2"];
    let came = came_of(&rt, rt.alloc(), &words, "", &RealGate)?;
    assert_eq!(rt; came.output.as_slice(), TWO_BY_TWO.as_bytes());
    assert_eq!(rt; came.status, 0);
    Ok(())
}

/// Each of the first two openings takes two units, one in each walk, and the others are these two, turned. They would
/// take two units each, if each opening had a book of its own, or if what is proved were searched again.
#[test]
fn the_openings_share_one_book(rt: HostRuntime) -> Result<(), Fail> {
    assert_turns(&rt, rt.alloc(), &["survey", "2", "2"], TWO_BY_TWO, 4, 0x1)
}

/// Each unit has one turn, and so has the end of the worker, which is refused a unit. There would be more turns, if
/// each opening had a budget of its own, of which the first openings use up less, or if a budget were spent twice.
#[test]
fn the_openings_share_one_budget(rt: HostRuntime) -> Result<(), Fail> {
    let words = ["survey", "5", "5", "--budget", "20"];
    assert_turns(&rt, rt.alloc(), &words, TWENTY, 21, 0x1)
}

/// No opening takes less than a unit, and up to turning the board of 7 by 7 has 25, so no worker finds all proved
/// before it comes to a turn.
#[test]
fn as_many_workers_survey_as_were_asked_for(rt: HostRuntime) -> Result<(), Fail> {
    let words = ["survey", "7", "7", "--budget", "20", "--workers", "3"];
    assert_turns(&rt, rt.alloc(), &words, TWENTY, 23, 0x7)
}
