//! The command `bench`.
ghost use Rattle.std.specs.Prelude.{◌<◌, ◌≤◌};
ghost use Rattle.esto_status.specs.Answers.{Answers};
ghost use Rattle.esto_top.specs.Bench.{bench_course};

use esto_bench::{MAX_SIZE, summary_text};
use esto_status::{Reply, Status};
use std::alloc::Global;

/// Sums up the made case of this size, 1 to `MAX_SIZE`, and prints the summary.
#[tactic(auto, using(crate::proofs::Steps::steps))]
pub fn bench(alloc: Global, size: usize) -> Result<Reply, Status>
    requires some { 0 < size }
    requires few { size ≤ MAX_SIZE }
    ensures { Answers (bench_course size) ⊥ result }
{
    let summary = esto_bench::bench(alloc, size)?;
    let text = summary_text(alloc, &summary)?;
    Ok(Reply::Done(text))
}
