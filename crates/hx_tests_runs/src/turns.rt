//! Which workers come to their turns, how often, and with which numbers.

use super::runs::came_of;
use hx_io::Gate;
use std::alloc::{AllocError, Global};
use std::process::Abort;
use std::sync::Wait;
use std::sync::atomic::{AtomicU64, Ordering};
use std::test::Fail;
use std::thread::Threads;

/// Black's f1 on the board of 6 by 6 with White to move, which twenty units do not decide.
pub(crate) const LONG: &str = "hexpos 1
size 6 6
black 00000000000000000000000000000020
white 00000000000000000000000000000000
move white
";

/// The most workers.
const MOST_WORKERS: u32 = 64;

/// A gate that counts the calls of each worker. A call is wrong where its turn is not the number of that worker's calls
/// before it.
#[derive(Drop)]
struct Calls {
    of_workers: Vec<AtomicU64>,
    wrong: AtomicU64,
}

impl Calls {
    fn none(alloc: Global) -> Result<Calls, AllocError> {
        let mut of_workers = Vec::new(alloc);
        for _ in 0..MOST_WORKERS {
            of_workers.push(AtomicU64::new(0))?;
        }
        Ok(Calls {
            of_workers,
            wrong: AtomicU64::new(0),
        })
    }

    /// How many calls there were, and which workers called, the bit of each at the place of its number.
    fn seen(&self) -> (u64, u64) {
        let mut calls = 0u64;
        let mut workers = 0u64;
        for place in 0..self.of_workers.len() {
            let count = self.of_workers[place].load(Ordering::SeqCst);
            calls = calls.saturating_add(count);
            if count > 0 {
                workers |= 1 << (place % 64);
            }
        }
        (calls, workers)
    }
}

impl Gate for Calls {
    fn at_turn(&self, worker: u32, turn: u64) {
        let is_next = match self.of_workers.get(worker as usize) {
            Some(calls) => calls.fetch_add(1, Ordering::SeqCst) == turn,
            None => false,
        };
        if !is_next {
            self.wrong.fetch_add(1, Ordering::SeqCst);
        }
    }
}

/// These workers come to their turns, and no other one, so many times in all. Each unit has one turn, and so has the
/// end of each worker, which is refused a unit.
pub(crate) fn assert_turns<R: Threads + Wait + Sync + Abort>(
    rt: &R,
    alloc: Global,
    words: &[&str],
    answer: &str,
    turns: u64,
    workers: u64,
) -> Result<(), Fail> {
    let calls = Calls::none(alloc)?;
    let came = came_of(rt, alloc, words, LONG, &calls)?;
    assert_eq!(rt; came.output.as_slice(), answer.as_bytes());
    assert_eq!(rt; calls.seen(), (turns, workers));
    assert_eq!(rt; calls.wrong.load(Ordering::SeqCst), 0);
    Ok(())
}

#[test]
fn as_many_workers_search_as_were_asked_for(rt: HostRuntime) -> Result<(), Fail> {
    let spent = "unknown budget 20\n";
    let one = ["solve", "--budget", "20"];
    assert_turns(&rt, rt.alloc(), &one, spent, 21, 0x1)?;
    let three = ["solve", "--budget", "20", "--workers", "3"];
    assert_turns(&rt, rt.alloc(), &three, spent, 23, 0x7)
}

/// Where there is no unit, each worker is called once. So it is with each position that is drawn, of which the first is
/// left open.
#[test]
fn without_a_unit_each_worker_is_called_once(rt: HostRuntime) -> Result<(), Fail> {
    let none = "unknown budget 0\n";
    let all = ["solve", "--budget", "0", "--workers", "64"];
    assert_turns(&rt, rt.alloc(), &all, none, 64, u64::MAX)?;
    let drawn = ["demo", "7", "--budget", "0", "--workers", "3"];
    assert_turns(&rt, rt.alloc(), &drawn, none, 3, 0x7)
}
