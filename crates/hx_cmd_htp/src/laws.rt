//! What follows from how a session ended. The calls do nothing; what they say stands in their contracts.

ghost use Rattle.std.specs.Prelude.{ℕ, List, Option};
ghost use Rattle.hx_htp.specs.Accounts.{Account};
ghost use Rattle.hx_cmd_htp.specs.Serving.{IsDone, IsTooLong, IsWithinLimits};

/// A session that ends because of a limit has an input that is above one before `quit` or its end.
pub fn only_lines_above_a_limit_are_too_long()
    ensures { (start account : Account) (input : List ℕ) (taken now : Option (List ℕ))
        → IsTooLong start account input taken now → ¬ IsWithinLimits input }
{}

/// A session that is done has an input whose lines up to `quit` or its end are within the limits.
pub fn only_lines_within_the_limits_are_done()
    ensures { (start account : Account) (input : List ℕ) (left taken now : Option (List ℕ))
        → IsDone start account left taken now input → IsWithinLimits input }
{}
