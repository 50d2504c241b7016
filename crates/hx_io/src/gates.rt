//! A gate is called at each turn of a worker. The program's own gate does nothing; a test's gate can
//! hold a worker back, to see that another one goes on meanwhile.

/// What a worker calls at the start of each turn. No clause sees it, so it changes no answer.
pub trait Gate {
    /// `worker` is the worker's number and `turn` the number of that worker's own turn; both count
    /// from 0.
    fn at_turn(&self, worker: u32, turn: u64);
}

/// The gate that does nothing.
#[derive(Clone, Copy, Debug, PartialEq, Eq)]
pub struct RealGate;

impl Gate for RealGate {
    fn at_turn(&self, _worker: u32, _turn: u64) {}
}
