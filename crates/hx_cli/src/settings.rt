//! The settings that an option may choose: the name of each, and the limits of its number.

ghost use Rattle.std.specs.Prelude.{◌≡◌};
ghost use Rattle.hx_board.specs.Finds.{Finds};
ghost use Rattle.hx_cli.specs.Settings.{name_of, least_of, most_of};

use hx_limits::{MOST_PROOFS, MOST_UNITS, MOST_WORKERS};

/// What an option chooses.
#[derive(Clone, Copy, Debug, PartialEq, Eq)]
pub enum Setting {
    /// How many workers search at once.
    Workers,
    /// How many units they may spend.
    Budget,
    /// How many proofs their book has room for.
    Proofs,
}

impl Setting {
    /// The setting of this name.
    pub(crate) fn named(name: &[u8]) -> Option<Setting>
        ensures { Finds result (λ setting. name.now ≡ name_of setting) }
    {
        match name {
            b"--workers" => Some(Setting::Workers),
            b"--budget" => Some(Setting::Budget),
            b"--proofs" => Some(Setting::Proofs),
            _ => None,
        }
    }

    /// The least number that may be chosen.
    pub(crate) fn least(self) -> u64
        ensures { result ≡ least_of self }
    {
        match self {
            Setting::Workers => 1,
            Setting::Budget | Setting::Proofs => 0,
        }
    }

    /// The largest number that may be chosen.
    pub(crate) fn most(self) -> u64
        ensures { result ≡ most_of self }
    {
        match self {
            Setting::Workers => u64::from(MOST_WORKERS),
            Setting::Budget => MOST_UNITS,
            Setting::Proofs => u64::from(MOST_PROOFS),
        }
    }
}
