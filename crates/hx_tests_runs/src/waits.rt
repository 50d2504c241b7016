//! How a gate waits for another worker.

use std::sync::atomic::{AtomicU64, Ordering};

/// Whether a flag comes to be 1, within a thousand million looks.
pub(crate) fn comes(flag: &AtomicU64) -> bool {
    for _ in 0..1_000_000_000u32 {
        if flag.load(Ordering::SeqCst) == 1 {
            return true;
        }
    }
    false
}
