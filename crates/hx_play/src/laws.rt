//! Why kept links are enough. The call does nothing; what it says stands in its contract.

ghost use Rattle.std.specs.Prelude.{◌≡◌, ℕ, List, [], Bool, None};
ghost use Rattle.hx_board.specs.declared.colours.Colour.{Colour};
ghost use Rattle.hx_board.specs.Colours.{other_of};
ghost use Rattle.hx_board.specs.Game.{Wins};
ghost use Rattle.hx_board.specs.Positions.{Board};
ghost use Rattle.hx_link.specs.declared.links.Link.{Link};
ghost use Rattle.hx_link.specs.declared.steps.Step.{Step};
ghost use Rattle.hx_link.specs.Steps.{AreRightSteps};
ghost use Rattle.hx_play.specs.Kept.{AreKept};

/// Who keeps links that right steps gave on an earlier board wins with the opponent to move. Each link holds on its own
/// cells, by Anshelevich's rules, and they share none, so the player can hold all of them at once.
pub fn kept_links_win()
    ensures { (base board : Board) (player : Colour) (steps : List Step) (links : List Link)
        (marks : List Bool)
        → AreRightSteps base player [] steps links
        → AreKept base player links marks None None board → Wins player board (other_of player) }
{}
