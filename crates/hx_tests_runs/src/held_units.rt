//! A worker that is held at its gate has no unit yet.

use super::runs::came_of;
use super::turns::LONG;
use super::waits::comes;
use hx_io::Gate;
use std::sync::atomic::{AtomicU64, Ordering};
use std::test::Fail;

/// How many units there are.
const UNITS: u64 = 3;

/// Holds worker 0 at its first turn until worker 1 had all units, and worker 1 at its second turn until worker 0 is
/// held. So worker 0 asks while a unit is left, if it asks before it calls.
#[derive(Drop)]
struct Hold {
    is_held: AtomicU64,
    had_all: AtomicU64,
    missed: AtomicU64,
}

impl Hold {
    fn until(&self, flag: &AtomicU64) {
        if !comes(flag) {
            self.missed.fetch_add(1, Ordering::SeqCst);
        }
    }
}

impl Gate for Hold {
    fn at_turn(&self, worker: u32, turn: u64) {
        if worker == 0 && turn == 0 {
            self.is_held.store(1, Ordering::SeqCst);
            self.until(&self.had_all);
        }
        if worker == 1 && turn == 1 {
            self.until(&self.is_held);
        }
        if worker == 1 && turn == UNITS {
            self.had_all.store(1, Ordering::SeqCst);
        }
    }
}

#[test]
fn a_worker_that_is_held_has_no_unit(rt: HostRuntime) -> Result<(), Fail> {
    let gate = Hold {
        is_held: AtomicU64::new(0),
        had_all: AtomicU64::new(0),
        missed: AtomicU64::new(0),
    };
    let words = ["solve", "--workers", "2", "--budget", "3"];
    let came = came_of(&rt, rt.alloc(), &words, LONG, &gate)?;
    assert_eq!(rt; came.output.as_slice(), b"unknown budget 3\n".as_slice());
    assert_eq!(rt; gate.missed.load(Ordering::SeqCst), 0);
    Ok(())
}
