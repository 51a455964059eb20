//! The key of a world.

use amo_kk::{Local, Phase};
use amo_world::World;
use std::alloc::{AllocError, Global};

/// Appends which phase this is, with its job and the other worker, or zeros.
fn push_phase(key: &mut Vec<u32>, phase: Phase) -> Result<(), AllocError> {
    let (kind, job, other) = match phase {
        Phase::Announcing(j) => (1, j, 0),
        Phase::Trying(j, q) => (2, j, q),
        Phase::Reading(j, q) => (3, j, q),
        Phase::Claiming(j) => (4, j, 0),
        Phase::Holding(j) => (5, j, 0),
        Phase::Over => (6, 0, 0),
        Phase::Left => (7, 0, 0),
    };
    key.push(kind)?;
    key.push(job)?;
    key.push(other)?;
    Ok(())
}

/// Appends what a worker knows of each job.
fn push_sets(key: &mut Vec<u32>, local: &Local) -> Result<(), AllocError> {
    for before in 0..local.givens().jobs {
        let j = before + 1;
        key.push(local.knows(j) as u32)?;
        key.push(local.tried(j) as u32)?;
    }
    Ok(())
}

/// Appends how far a worker has read the row of each other.
fn push_fronts(key: &mut Vec<u32>, local: &Local) -> Result<(), AllocError> {
    let own = local.number();
    for before in 0..local.givens().workers {
        if before + 1 != own {
            key.push(local.read_of(before + 1))?;
        }
    }
    Ok(())
}

/// Appends the jobs that a worker has performed, in their order, and a zero, which ends them.
fn push_dones(key: &mut Vec<u32>, local: &Local) -> Result<(), AllocError> {
    for job in local.dones() {
        key.push(*job)?;
    }
    key.push(0)?;
    Ok(())
}

/// Returns the key of a world. Two worlds of the same givens have the same key exactly if they
/// differ at most in their histories and their counts of steps. The key has for each worker whether
/// it is gone, its announcement, its phase and its sets. It also has how far it has read the row of
/// each other, and the jobs that it has performed.
pub(crate) fn key_of(alloc: Global, world: &World) -> Result<Vec<u32>, AllocError> {
    let mut key = Vec::new(alloc);
    for before in 0..world.givens().workers {
        let p = before + 1;
        key.push(world.is_gone(p) as u32)?;
        key.push(world.announced(p))?;
        let local = world.local(p);
        push_phase(&mut key, local.phase())?;
        push_sets(&mut key, local)?;
        push_fronts(&mut key, local)?;
        push_dones(&mut key, local)?;
    }
    Ok(key)
}
