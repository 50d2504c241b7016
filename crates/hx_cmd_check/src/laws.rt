//! What judgements and promises tell. The calls do nothing; what they say stands in their contracts.

ghost use Rattle.std.specs.Prelude.{◌≡◌, ℕ, List, Option, Some, IfSome};
ghost use Rattle.hx_io.specs.Causes.{Rose};
ghost use Rattle.hx_io.specs.Sources.{Reading};
ghost use Rattle.hx_io.specs.Sinks.{Writing};
ghost use Rattle.hx_answers.specs.Endings.{IsUnlessStopped};
ghost use Rattle.hx_cmd_check.specs.declared.judgements.Judgement.{Judgement};
ghost use Rattle.hx_cmd_check.specs.Judging.{NodesAreRight};
ghost use Rattle.hx_cmd_check.specs.Judgements.{IsDue, IsLong, status_of};
ghost use Rattle.hx_cmd_check.specs.Promises.{IsNoProof, KeepsPromises};

/// Two judgements with status 1 that are due to one input are the same: both name the same line, or both the same node.
pub fn one_fault()
    ensures { (input : List ℕ) (left other_left : Option (List ℕ)) (before now : ℕ)
        (a b : Judgement)
        → IsDue (Some input) left (Rose before now) a
        → IsDue (Some input) other_left (Rose before now) b
        → status_of a ≡ 1 → status_of b ≡ 1 → a ≡ b }
{}

/// `check` answers 1 to each input within the limits that is the text of no valid tree, unless a fault or want of
/// memory comes in its place.
pub fn what_is_no_proof_is_refused()
    ensures { (source source_now : Reading) (sink sink_now : Writing) (status : ℕ)
        → KeepsPromises source source_now sink sink_now status
        → IfSome source.left (λ input. ¬ IsLong NodesAreRight input → IsNoProof input
        → IsUnlessStopped status 1) }
{}
