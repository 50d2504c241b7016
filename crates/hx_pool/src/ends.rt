//! Which of the workers' ends counts: what a worker found before all others; then want of memory, since with more of it
//! the search might have gone on; then want of a slot; and want of a unit last.

ghost use Rattle.std.specs.Prelude.{◌≡◌, ◌<◌, ◌≤◌, Contains, vec_len};
ghost use Rattle.std.specs.List.{All};
ghost use Rattle.hx_pool.specs.Ends.{rank};

use hx_limits::RanOut;

/// The place of an end in the order in which ends count, from 0.
fn rank<F>(end: &Result<F, RanOut>) -> u32
    ensures { result ≡ rank end.now }
{
    match end {
        Ok(_) => 0,
        Err(RanOut::Memory) => 1,
        Err(RanOut::Slots(_)) => 2,
        Err(RanOut::Budget(_)) => 3,
    }
}

/// The end that counts: it is one of these, and none of them comes before it.
pub fn foremost<F: Drop>(ends: Vec<Result<F, RanOut>>) -> Result<F, RanOut>
    requires { 0 < vec_len ends }
    ensures one { Contains ends.items result }
    ensures first { All (λ end. rank result ≤ rank end) ends.items }
{
    let Some(best) = ends.into_iter().min_by_key(rank) else {
        unreachable!()
    };
    best
}
