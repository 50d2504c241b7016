//! What options choose, one after the other, and the settings that come of it.

ghost use Rattle.std.specs.Prelude.{◌≡◌, ◌↔◌, IsTrue, IsSome, MatchOption, List, ℕ};
ghost use Rattle.hx_board.specs.Finds.{Finds};
ghost use Rattle.hx_cli.specs.Words.{words_of};
ghost use Rattle.hx_cli.specs.declared.choices.Chosen.{Chosen as ChosenNumbers};
ghost use Rattle.hx_cli.specs.Options.{AreOptions};
ghost use Rattle.hx_cli.specs.Choices.{nothing, number_for, Adds, LeadsAway, AreChoicesAfter, settings_of};

use crate::options::{Choice, first_option};
use crate::settings::Setting;
use hx_limits::Settings;

/// The numbers that were chosen so far.
#[derive(Clone, Copy, Debug, PartialEq, Eq)]
pub struct Chosen {
    pub workers: Option<u32>,
    pub budget: Option<u64>,
    pub slots: Option<u32>,
}

/// The settings of a search that has these words for its options.
pub(crate) fn settings_in(words: &[String]) -> Option<Settings>
    ensures { Finds result (AreOptions (words_of words.now)) }
{
    settings_after(Chosen::nothing(), words)
}

/// The settings of a search for which something is chosen already, and which has these words for its further options.
pub(crate) fn settings_after(before: Chosen, words: &[String]) -> Option<Settings>
    ensures { Finds result (AreChoicesAfter before (words_of words.now)) }
{
    let (chosen, rest) = take_options(before, words)?;
    if rest.is_empty() {
        Some(chosen.settings())
    } else {
        None
    }
}

/// What is chosen with all options that the words begin with, and the words after them, which begin with no option.
pub(crate) fn take_options(before: Chosen, words: &[String]) -> Option<(Chosen, &[String])>
    ensures { MatchOption result
        ((rest : List (List ℕ)) (now : ChosenNumbers)
        → LeadsAway (words_of words.now) before rest now → ⊥)
        (λ found. LeadsAway (words_of words.now) before (words_of found.1.now) found.0) }
{
    let mut chosen = before;
    let mut rest = words;
    while let Some((choice, later)) = first_option(rest) {
        chosen = chosen.with(choice)?;
        rest = later;
    }
    Some((chosen, rest))
}

impl Chosen {
    /// What is chosen before the first option.
    pub(crate) fn nothing() -> Chosen
        ensures { result ≡ nothing }
    {
        Chosen {
            workers: None,
            budget: None,
            slots: None,
        }
    }

    /// What is chosen with one option more. A setting is chosen once, and within its limits.
    fn with(self, choice: Choice) -> Option<Chosen>
        ensures { Finds result (Adds self choice) }
    {
        let Choice { setting, number } = choice;
        if self.has(setting) || number < setting.least() || number > setting.most() {
            return None;
        }
        Some(match setting {
            Setting::Workers => Chosen {
                workers: Some(number as u32),
                ..self
            },
            Setting::Budget => Chosen {
                budget: Some(number),
                ..self
            },
            Setting::Proofs => Chosen {
                slots: Some(number as u32),
                ..self
            },
        })
    }

    /// Whether a number was chosen for the setting.
    fn has(self, setting: Setting) -> bool
        ensures { IsTrue result ↔ IsSome (number_for self setting) }
    {
        match setting {
            Setting::Workers => self.workers.is_some(),
            Setting::Budget => self.budget.is_some(),
            Setting::Proofs => self.slots.is_some(),
        }
    }

    /// The settings, where each that nobody chose is what it is without an option.
    pub(crate) fn settings(self) -> Settings
        ensures { result ≡ settings_of self }
    {
        let defaults = Settings::default();
        Settings {
            workers: self.workers.unwrap_or(defaults.workers),
            budget: self.budget.unwrap_or(defaults.budget),
            slots: self.slots.unwrap_or(defaults.slots),
        }
    }
}
