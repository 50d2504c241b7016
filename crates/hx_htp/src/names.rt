//! The names of the commands: how each is spelled, and in which order they are listed. A line's command is looked up
//! here, `known_command` asks here, and `list_commands` lists what stands here.

ghost use Rattle.std.specs.Prelude.{◌≡◌, ◌≤◌, length};
ghost use Rattle.hx_htp.specs.Commands.{name_word, name_of};

/// The name of a command.
#[derive(Clone, Copy, Debug, PartialEq, Eq)]
pub enum Name {
    /// Asks for the version of the protocol.
    ProtocolVersion,
    /// Asks for the name of the program.
    Name,
    /// Asks for the version of the commands.
    Version,
    /// Asks whether a word is the name of a command.
    KnownCommand,
    /// Asks for the names of all commands.
    ListCommands,
    /// Ends the session.
    Quit,
    /// Takes a board of another size, without moves.
    BoardSize,
    /// Takes all moves away.
    ClearBoard,
    /// Makes a move.
    Play,
    /// Takes the last move away.
    Undo,
    /// Chooses a move and makes it.
    GenMove,
    /// Shows the board.
    ShowBoard,
    /// Asks who wins.
    Solve,
}

/// All names, in the order in which they are listed.
pub(crate) const NAMES: [Name; 13] = [
    Name::ProtocolVersion,
    Name::Name,
    Name::Version,
    Name::KnownCommand,
    Name::ListCommands,
    Name::Quit,
    Name::BoardSize,
    Name::ClearBoard,
    Name::Play,
    Name::Undo,
    Name::GenMove,
    Name::ShowBoard,
    Name::Solve,
];

impl Name {
    /// The name that a word is.
    pub(crate) fn named(word: &[u8]) -> Option<Name>
        ensures { result ≡ name_of word.now }
    {
        NAMES.iter().copied().find(|name| name.word() == word)
    }

    /// The word by which a line calls it.
    pub(crate) fn word(self) -> &'static [u8]
        ensures word { result.now ≡ name_word self }
        ensures short { length result.now ≤ 16 }
    {
        match self {
            Name::ProtocolVersion => b"protocol_version",
            Name::Name => b"name",
            Name::Version => b"version",
            Name::KnownCommand => b"known_command",
            Name::ListCommands => b"list_commands",
            Name::Quit => b"quit",
            Name::BoardSize => b"boardsize",
            Name::ClearBoard => b"clear_board",
            Name::Play => b"play",
            Name::Undo => b"undo",
            Name::GenMove => b"genmove",
            Name::ShowBoard => b"showboard",
            Name::Solve => b"solve",
        }
    }
}
