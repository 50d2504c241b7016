//! Which child a search goes down to, and how far.
//!
//! This is the step of Nagai's df-pn: down to the child with the least delta, until that child is no longer the best
//! one, or the node itself has reached a threshold.

ghost use Rattle.std.specs.Prelude.{◌≡◌, ◌<◌, [], ◌∷◌, ◌++◌, List, length, MatchOption, IfSome};
ghost use Rattle.std.specs.List.{All};
ghost use Rattle.hx_pn.specs.declared.proof_numbers.Numbers.{Numbers as Child};
ghost use Rattle.hx_pn.specs.Numbers.{IsNumbers, HasReached, IsBest, IsChosen, child_limit};

use crate::proof_numbers::{INF, Numbers, combine};

/// The child with the least delta, and the least delta of the others.
#[derive(Clone, Copy)]
struct Best {
    place: usize,
    child: Numbers,
    second: u32,
}

/// The child with the least delta, the earlier one on a tie.
fn best_of(children: &[Numbers]) -> Option<Best>
    requires { All IsNumbers children.now }
    ensures { MatchOption result (children.now ≡ []) (IsBest children.now) }
{
    if children.is_empty() {
        return None;
    }
    let mut best = Best {
        place: 0,
        child: children[0],
        second: INF,
    };
    for place in 1..children.len() {
        best = better(best, place, children[place]);
    }
    Some(best)
}

/// The best child, after one more was looked at.
fn better(best: Best, place: usize, child: Numbers) -> Best
    ensures { (seen : List Child) → IsBest seen best → place ≡ length seen → IsNumbers child
        → IsBest (seen ++ child ∷ []) result }
{
    if child.delta < best.child.delta {
        Best {
            place,
            child,
            second: best.child.delta,
        }
    } else {
        Best {
            place: best.place,
            child: best.child,
            second: best.second.min(child.delta),
        }
    }
}

/// The child to go down to from a node with these thresholds and children, and the child's thresholds. None exactly
/// where phi or delta of the node has reached its threshold.
///
/// The child is the one with the least delta, the earlier one on a tie. Its delta may come up to the second least delta
/// and one more, or to the node's phi threshold where that is less; its phi up to what makes the node's delta reach its
/// threshold.
pub fn thresholds(limit: Numbers, children: &[Numbers]) -> Option<(usize, Numbers)>
    requires limit { IsNumbers limit }
    requires children { All IsNumbers children.now }
    ensures next { MatchOption result (HasReached limit children.now)
        (λ found. (¬ HasReached limit children.now)
        × ((child : Numbers) × (IsChosen children.now found.0 child
        × (found.1 ≡ child_limit limit children.now found.0 child)))) }

    // A child's thresholds may be passed down again, to the child at that place.
    ensures place { IfSome result (λ found. found.0 < length children.now) }
    ensures numbers { IfSome result (λ found. IsNumbers found.1) }
{
    let node = combine(children);
    if limit.phi <= node.phi || limit.delta <= node.delta {
        return None;
    }
    let best = best_of(children)?;
    let after_second = (best.second + 1).min(INF);
    let child_limit = Numbers {
        phi: limit.delta - node.delta + best.child.phi,
        delta: limit.phi.min(after_second),
    };
    Some((best.place, child_limit))
}
