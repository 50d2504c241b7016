//! What follows from the promises of commands, and the numbers of limits. The calls do nothing; what they say stands in
//! their contracts.

ghost use Rattle.std.specs.Prelude.{◌≡◌, ℕ, ◌-◌, ◌^◌, ◌≤◌, List, length, Option, Some, IfSome, Bool, true};
ghost use Rattle.hx_board.specs.declared.cells.TheConstants.{CELLS};
ghost use Rattle.hx_board.specs.declared.vertices.TheConstants.{VERTICES};
ghost use Rattle.hx_link.specs.declared.parts.TheConstants.{MOST_PARTS};
ghost use Rattle.hx_tree.specs.declared.steps.TheConstants.{MOST_STEPS, MOST_THREATS};
ghost use Rattle.hx_tree.specs.declared.checkers.TheConstants.{MOST_NODES};
ghost use Rattle.hx_linkset.specs.declared.limits.TheConstants.{MOST_LINKS};
ghost use Rattle.hx_book.specs.declared.books.TheConstants.{MOST_SLOTS, MOST_BUCKETS};
ghost use Rattle.hx_count.specs.declared.events.TheConstants.{MOST_HELD};
ghost use Rattle.hx_count.specs.declared.hints.TheConstants.{HIGHEST_KEPT};
ghost use Rattle.hx_ordering.specs.declared.losses.TheConstants.{LOSS_WORDS};
ghost use Rattle.hx_pn.specs.declared.proof_numbers.TheConstants.{INF};
ghost use Rattle.hx_limits.specs.declared.settings.TheConstants.{MOST_WORKERS, MOST_UNITS, MOST_PROOFS};
ghost use Rattle.hx_io.specs.Sources.{Reading};
ghost use Rattle.hx_io.specs.Sinks.{Writing};
ghost use Rattle.hx_answers.specs.Endings.{IsUnlessStopped};
ghost use Rattle.hx_cmd_check.specs.Promises.{KeepsPromises as ChecksAsPromised};
ghost use Rattle.hx_finish.specs.declared.finishes.Finish.{Finish as FinishValue};
ghost use Rattle.hx_lines.specs.Lines.{longest};
ghost use Rattle.hx_limits.specs.declared.settings.Settings.{Settings as Bounds};
ghost use Rattle.hx_text.specs.declared.versions.Version.TheVariants.{One};
ghost use Rattle.hx_cmd_solve.specs.Positions.{IsNoPosition};
ghost use Rattle.hx_cmd_solve.specs.Promises.{SaysSolved, KeepsPromises as SolvesAsPromised};

/// `check` answers 0 to each tree that `solve` wrote with status 0, however long it is, unless a fault or want of
/// memory comes in its place.
pub fn check_accepts_what_solve_writes()
    ensures { (plain_tree : Bool) (input : List ℕ) (taken taken_now : Option (List ℕ))
        (solved : SaysSolved plain_tree input taken taken_now)
        (source source_now : Reading) (sink sink_now : Writing) (status : ℕ)
        → source.left ≡ Some solved.tree
        → ChecksAsPromised source source_now sink sink_now status
        → IsUnlessStopped status 0 }
{}

/// The text of a tree that is to be plain is of the first version, since no plain node is turned.
pub fn a_plain_tree_is_of_the_first_version()
    ensures { (input : List ℕ) (taken taken_now : Option (List ℕ))
        (solved : SaysSolved true input taken taken_now)
        → solved.is_text.preamble.version ≡ One }
{}

/// `solve` answers 4 to each input within the limit that is the text of no position, unless a fault or want of memory
/// comes in its place.
pub fn what_is_no_position_is_refused()
    ensures { (settings : Bounds) (plain_tree : Bool) (source source_now : Reading)
        (sink sink_now : Writing) (finish : FinishValue)
        → SolvesAsPromised settings plain_tree source source_now sink sink_now finish
        → IfSome source.left (λ input. length input ≤ longest → IsNoPosition input
        → IsUnlessStopped finish.status 4) }
{}

/// The limits that definitions of crates further down tell by constants of the code: each is this number. So a program
/// with another one is not proved.
pub fn limits()
    // The largest board, and with the two sides of a player.
    ensures cells { CELLS ≡ 121 }
    ensures vertices { VERTICES ≡ 123 }
    // A node's lists, and the nodes of a tree.
    ensures parts { MOST_PARTS ≡ 128 }
    ensures steps { MOST_STEPS ≡ 8192 }
    ensures threats { MOST_THREATS ≡ 128 }
    ensures nodes { MOST_NODES ≡ 1048576 }
    // The links that a set holds.
    ensures links { MOST_LINKS ≡ 8192 }
    // What a book has room for, and the chains that its entries stand in.
    ensures slots { MOST_SLOTS ≡ 1048576 }
    ensures buckets { MOST_BUCKETS ≡ 2097152 }
    // What a search may be given.
    ensures workers { MOST_WORKERS ≡ 64 }
    ensures units { MOST_UNITS ≡ 2 ^ 40 }
    ensures proofs { MOST_PROOFS ≡ 1048576 }
    // The loss words, and how many of them one worker holds.
    ensures loss_words { LOSS_WORDS ≡ 4096 }
    ensures held { MOST_HELD ≡ 1024 }
    // The number of what cannot be proved, and the highest number that a hint keeps.
    ensures infinite { INF ≡ 2 ^ 31 - 1 }
    ensures kept { HIGHEST_KEPT ≡ 2 ^ 22 - 1 }
{}
