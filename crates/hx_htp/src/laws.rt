//! What holds of every run of a session. The calls do nothing; what they say stands in their contracts.

ghost use Rattle.std.specs.Prelude.{◌≡◌, ℕ, ◌<◌, ◌^◌, List, length};
ghost use Rattle.hx_htp.specs.States.{fresh};
ghost use Rattle.hx_htp.specs.Accounts.{Account};
ghost use Rattle.hx_htp.specs.Sessions.{Moment, moment};
ghost use Rattle.hx_htp.specs.Runs.{Run, SessionRun, until_quit};
ghost use Rattle.hx_htp.specs.Laws.{IsCounted, NamesWinners};

/// Where the counts begin at 0, no more replies say that a limit was used up than the counts tell in the end.
pub fn open_questions_are_counted()
    ensures { (before after : Account) (lines : List (List ℕ)) (replies : List ℕ)
        (run : SessionRun before lines replies after)
        → before.budgets ≡ 0 → before.proofs ≡ 0 → length (until_quit lines) < 2 ^ 64
        → IsCounted run }
{}

/// Each player whom a session names to `solve` wins the position, and the other one does not.
pub fn named_players_win()
    ensures { (before : Account) (after : Moment) (lines : List (List ℕ)) (replies : List ℕ)
        (run : Run (moment fresh before) lines replies after) → NamesWinners run }
{}
