//! The jobs that nobody has claimed in a world.
ghost use Rattle.std.specs.Prelude.{◌≡◌, not, IfOk};
ghost use Rattle.amo_sets.specs.Sets.{has};
ghost use Rattle.amo_params.specs.Givens.{IsJob};
ghost use Rattle.amo_kk.specs.Run.{claimed_jobs};
ghost use Rattle.amo_render.specs.Happened.{unclaimed_jobs};

use amo_world::World;
use std::alloc::{AllocError, Global};

/// Returns true if nobody has claimed the job.
fn is_unclaimed(world: &World, job: u32) -> bool
    requires { IsJob world.now.givens job }
    ensures { result ≡ not (has (claimed_jobs world.now.world.history) job) }
{
    world.is_unclaimed(job)
}

/// Returns the jobs that nobody has claimed, in rising order. Fails if there was no memory.
pub(crate) fn unclaimed_jobs(alloc: Global, world: &World) -> Result<Vec<u32>, AllocError>
    ensures { IfOk result (λ v. v.items ≡ unclaimed_jobs world.now.givens.jobs world.now.world.history) }
{
    let mut jobs = Vec::new(alloc);
    for before in 0..world.givens().jobs {
        if is_unclaimed(world, before + 1) {
            jobs.push(before + 1)?;
        }
    }
    Ok(jobs)
}
