//! How a service over lines ends.

/// How a service ended.
#[derive(Clone, Copy, Debug, PartialEq, Eq)]
pub enum Ended {
    /// By a line behind which the service stops.
    Stopped,
    /// By the end of the input.
    Over,
    /// By a read that failed.
    ReadFault,
    /// By a write that failed.
    WriteFault,
    /// By a line that is too long, or by one line too many.
    TooLong,
}
