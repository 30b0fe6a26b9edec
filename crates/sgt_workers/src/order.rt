//! The Dones of all workers, put in the order of their jobs.

ghost use Rattle.std.specs.Prelude.{◌≡◌, ℕ};
ghost use Rattle.std.specs.List.{All, range_with_len};
ghost use Rattle.std.specs.List.Sorted.{IsPermutation};
ghost use Rattle.sgt_workers.specs.Answers.{jobs_of, IsJob};
ghost use Rattle.sgt_workers.specs.Queue.{AreAll};

use crate::ticket::Done;

/// The Dones by rising job. Where they are those of some number of jobs, each once, they are in the order of these
/// jobs.
pub fn in_order(mut dones: Vec<Done>) -> Vec<Done>
    ensures same { IsPermutation dones.items result.items }
    ensures jobs { (jobs : ℕ) → All (λ d. IsJob jobs d.job) dones.items
        → AreAll jobs (jobs_of dones.items)
        → jobs_of result.items ≡ range_with_len 1 jobs }
{
    dones.sort_unstable_by_key(|done| done.job);
    dones
}
