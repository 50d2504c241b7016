//! Two workers work at the same time.

use super::runs::came_of;
use super::waits::comes;
use hx_io::Gate;
use std::sync::atomic::{AtomicU64, Ordering};
use std::test::Fail;

/// The empty board of 4 by 4.
const FOUR_BY_FOUR: &str = "hexpos 1
size 4 4
black 00000000000000000000000000000000
white 00000000000000000000000000000000
move black
";

/// Holds worker 0 at its first turn until worker 1 has come to its first turn.
#[derive(Drop)]
struct Meeting {
    came: AtomicU64,
    met: AtomicU64,
}

impl Gate for Meeting {
    fn at_turn(&self, worker: u32, turn: u64) {
        if worker == 1 {
            self.came.store(1, Ordering::SeqCst);
        } else if turn == 0 && comes(&self.came) {
            self.met.store(1, Ordering::SeqCst);
        }
    }
}

#[test]
fn two_workers_meet(rt: HostRuntime) -> Result<(), Fail> {
    let gate = Meeting {
        came: AtomicU64::new(0),
        met: AtomicU64::new(0),
    };
    let words = ["solve", "--workers", "2"];
    let came = came_of(&rt, rt.alloc(), &words, FOUR_BY_FOUR, &gate)?;
    assert!(rt; came.output.as_slice().ends_with(b" black\n"));
    assert_eq!(rt; gate.met.load(Ordering::SeqCst), 1);
    Ok(())
}
