//! The bounds of a search. They stand below the search, so that the words of the command line choose them without it.

ghost use Rattle.std.specs.Prelude.{◌≡◌};
ghost use Rattle.hx_limits.specs.Settings.{defaults};

/// The most workers that search at once.
pub const MOST_WORKERS: u32 = 64;

/// The most units that the workers of a search may spend.
pub const MOST_UNITS: u64 = 1_099_511_627_776;

/// The most proofs that their book may have room for.
pub const MOST_PROOFS: u32 = 1_048_576;

/// How many workers search at once where nobody chose a number.
const DEFAULT_WORKERS: u32 = 1;

/// How many units they may spend where nobody chose a number.
const DEFAULT_UNITS: u64 = 1_000_000;

/// How many proofs their book has room for where nobody chose a number.
const DEFAULT_PROOFS: u32 = 65_536;

/// How many workers search, and what they may use together.
#[derive(Clone, Copy, Debug, PartialEq, Eq)]
pub struct Settings {
    /// How many workers search at once, from 1 to 64.
    pub workers: u32,

    /// How many units they may spend, at most 2^40. A worker spends one for each visit of a position.
    pub budget: u64,

    /// How many proofs their book has room for, at most 1,048,576.
    pub slots: u32,
}

impl Default for Settings {
    ghost is_default = { λ settings. settings ≡ defaults };

    /// The bounds of a search for which nobody chose a number.
    fn default() -> Settings {
        Settings {
            workers: DEFAULT_WORKERS,
            budget: DEFAULT_UNITS,
            slots: DEFAULT_PROOFS,
        }
    }
}
