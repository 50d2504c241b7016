//! What words tell. The call does nothing; what it says stands in its contract.

ghost use Rattle.std.specs.Prelude.{◌≡◌, ℕ, List};
ghost use Rattle.hx_cli.specs.declared.commands.Command.{Command};
ghost use Rattle.hx_cli.specs.Commands.{Asks};

/// No list of words is two commands, so the words tell each setting too.
pub fn one_command()
    ensures { (words : List (List ℕ)) (a b : Command) → Asks a words → Asks b words → a ≡ b }
{}
