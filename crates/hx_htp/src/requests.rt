//! What the words of a line ask for: a name, and the arguments that it needs. Further words are not looked at.

ghost use Rattle.std.specs.Prelude.{◌≡◌, Some};
ghost use Rattle.hx_htp.specs.Commands.{request_of, asked_by, asked};

use crate::answers::Refusal;
use crate::arguments;
use crate::names::Name;
use crate::words::Words;
use hx_board::{Cell, Colour};

/// What a line asks for.
#[derive(Clone, Copy, Debug, PartialEq, Eq)]
pub enum Request {
    ProtocolVersion,
    Name,
    Version,
    /// Whether a word is the name of a command, which it is or is not.
    KnownCommand { known: bool },
    ListCommands,
    Quit,
    /// So many columns and rows. Whether a board may have them is not asked yet.
    BoardSize { cols: u32, rows: u32 },
    ClearBoard,
    /// A move to a cell, which may lie off the board or be held.
    Play { colour: Colour, cell: Cell },
    Undo,
    /// A move that the program chooses for this player.
    GenMove { colour: Colour },
    ShowBoard,
    /// Who wins with this player to move, or else with the one who moves next.
    Solve { mover: Option<Colour> },
}

/// What words without a number ask for, or why they ask for nothing.
pub(crate) fn asked(words: &mut Words) -> Result<Request, Refusal>
    ensures { result ≡ asked words.old }
{
    match words.next() {
        None => Err(Refusal::UnknownCommand),
        Some(word) => match Name::named(word) {
            None => Err(Refusal::UnknownCommand),
            Some(name) => asked_by(name, words),
        },
    }
}

/// What a name and its arguments ask for, or why they ask for nothing.
fn asked_by(name: Name, arguments: &mut Words) -> Result<Request, Refusal>
    ensures { result ≡ asked_by (Some name) arguments.old }
{
    match request_of(name, arguments) {
        Some(request) => Ok(request),
        None => Err(Refusal::SyntaxError),
    }
}

/// What a name and its arguments ask for; nothing where an argument is missing or not of its form.
fn request_of(name: Name, arguments: &mut Words) -> Option<Request>
    ensures { result ≡ request_of name arguments.old }
{
    match name {
        Name::ProtocolVersion => Some(Request::ProtocolVersion),
        Name::Name => Some(Request::Name),
        Name::Version => Some(Request::Version),
        Name::KnownCommand => known_command(arguments),
        Name::ListCommands => Some(Request::ListCommands),
        Name::Quit => Some(Request::Quit),
        Name::BoardSize => board_size(arguments),
        Name::ClearBoard => Some(Request::ClearBoard),
        Name::Play => play(arguments),
        Name::Undo => Some(Request::Undo),
        Name::GenMove => gen_move(arguments),
        Name::ShowBoard => Some(Request::ShowBoard),
        Name::Solve => solve(arguments),
    }
}

fn known_command(arguments: &mut Words) -> Option<Request>
    ensures { result ≡ request_of Name.KnownCommand arguments.old }
{
    let word = arguments.next()?;
    Some(Request::KnownCommand {
        known: Name::named(word).is_some(),
    })
}

/// One number is that of a square board.
fn board_size(arguments: &mut Words) -> Option<Request>
    ensures { result ≡ request_of Name.BoardSize arguments.old }
{
    let cols = arguments::number(arguments.next()?)?;
    let rows = match arguments.next() {
        Some(word) => arguments::number(word)?,
        None => cols,
    };
    Some(Request::BoardSize { cols, rows })
}

fn play(arguments: &mut Words) -> Option<Request>
    ensures { result ≡ request_of Name.Play arguments.old }
{
    let colour = arguments.next()?;
    let vertex = arguments.next()?;
    Some(Request::Play {
        colour: arguments::colour(colour)?,
        cell: arguments::vertex(vertex)?,
    })
}

fn gen_move(arguments: &mut Words) -> Option<Request>
    ensures { result ≡ request_of Name.GenMove arguments.old }
{
    let colour = arguments::colour(arguments.next()?)?;
    Some(Request::GenMove { colour })
}

fn solve(arguments: &mut Words) -> Option<Request>
    ensures { result ≡ request_of Name.Solve arguments.old }
{
    match arguments.next() {
        None => Some(Request::Solve { mover: None }),
        Some(word) => Some(Request::Solve {
            mover: Some(arguments::colour(word)?),
        }),
    }
}
