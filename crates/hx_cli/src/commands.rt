//! The commands of the program. Each is told by its first word.
//!
//! Size and settings of `survey` are a struct, and no fields of `Command` as the seed of `demo` is: where a `match`
//! takes a `Size` by its own name out of an enum of another crate, the kit's borrow checker gives no proof.

ghost use Rattle.std.specs.Prelude.{IfSome};
ghost use Rattle.hx_board.specs.Finds.{Finds};
ghost use Rattle.hx_cli.specs.Words.{words_of};
ghost use Rattle.hx_cli.specs.Commands.{Asks, IsWithinLimits};

use crate::choices::settings_in;
use crate::searches::search_in;
use crate::seeds::seed_and_settings_in;
use crate::sizes::size_and_settings_in;
use hx_board::Size;
use hx_limits::Settings;

/// A command of the program, with its settings.
#[derive(Clone, Copy, Debug, PartialEq, Eq)]
pub enum Command {
    /// Judge the text of a tree.
    Check,
    /// Solve the position of a text, with a tree of plain nodes where it is to be plain.
    Solve {
        settings: Settings,
        plain_tree: bool,
    },
    /// Answer the lines of a session, and solve what they ask for.
    Htp(Settings),
    /// Draw positions with the seed, and solve each of them.
    Demo {
        seed: u64,
        settings: Settings,
    },
    /// Play by the text of a tree, against the moves that follow it.
    Play,
    /// Tell whether a template holds.
    Template,
    /// Tell who wins after each opening of a board.
    Survey(Survey),
}

/// The size of the board whose openings are asked for, and the settings of the search.
#[derive(Clone, Copy, Debug, PartialEq, Eq)]
pub struct Survey {
    pub size: Size,
    pub settings: Settings,
}

/// The command that the words are. The program's own name is not one of them.
pub fn command_of(words: &[String]) -> Option<Command>
    ensures finds { Finds result (λ command. Asks command (words_of words.now)) }
    ensures limits { IfSome result IsWithinLimits }
{
    let (name, rest) = words.split_first()?;
    match name.as_str() {
        "check" => {
            if rest.is_empty() {
                Some(Command::Check)
            } else {
                None
            }
        }
        "solve" => {
            let (settings, plain_tree) = search_in(rest)?;
            Some(Command::Solve {
                settings,
                plain_tree,
            })
        }
        "htp" => {
            let settings = settings_in(rest)?;
            Some(Command::Htp(settings))
        }
        "demo" => {
            let (seed, settings) = seed_and_settings_in(rest)?;
            Some(Command::Demo { seed, settings })
        }
        "play" => {
            if rest.is_empty() {
                Some(Command::Play)
            } else {
                None
            }
        }
        "template" => {
            if rest.is_empty() {
                Some(Command::Template)
            } else {
                None
            }
        }
        "survey" => {
            let (size, settings) = size_and_settings_in(rest)?;
            Some(Command::Survey(Survey { size, settings }))
        }
        _ => None,
    }
}
