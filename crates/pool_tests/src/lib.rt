//! Threads over one pool of jobs.
#![tactic(auto)]

ghost use Rattle.std.specs.Prelude.{◌≡◌, IfOk};

#[cfg(test)]
mod tests;

use job_pool::{JobPass, JobPool, Taken};
use seq_values::CellId;
use seq_vector::NoMemory;
use std::alloc::Global;
use std::sync::Wait;
use std::thread;

/// Pushes the jobs with the numbers from 1 to `count`, and closes the pool.
pub fn fill<R: Wait>(rt: &R, pool: &JobPool, pass: &mut JobPass, count: u32) -> Result<(), NoMemory>
    requires pool { pass.old.pool ≡ pool.now }
    ensures pool { pass.new.pool ≡ pool.now }
{
    for number in 0..count {
        if let Some(job) = CellId::of(number + 1) {
            pool.push(rt, pass, job).map_err(|_| NoMemory)?;
        }
    }
    pool.close(pass);
    Ok(())
}

/// Takes jobs until the pool is closed, and answers their numbers.
pub fn drain<R: Wait>(
    rt: &R,
    alloc: Global,
    pool: &JobPool,
    pass: &mut JobPass,
) -> Result<Vec<u32>, NoMemory>
    requires pool { pass.old.pool ≡ pool.now }
    ensures pool { pass.new.pool ≡ pool.now }
{
    let mut numbers = Vec::new(alloc);
    for _ in rt.forever() {
        match pool.take(rt, pass) {
            Taken::Job(job) => numbers.push(job.number()).map_err(|_| NoMemory)?,
            Taken::Nothing => thread::yield_now(),
            Taken::Closed => return Ok(numbers),
        }
    }
    unreachable!()
}

/// Fills the pool, and takes what nobody else takes.
pub fn fill_and_drain<R: Wait>(
    rt: &R,
    alloc: Global,
    pool: &JobPool,
    pass: &mut JobPass,
    count: u32,
) -> Result<Vec<u32>, NoMemory>
    requires pool { pass.old.pool ≡ pool.now }
    ensures pool { pass.new.pool ≡ pool.now }
{
    let filled = fill(rt, pool, pass, count);
    pool.close(pass);
    let numbers = drain(rt, alloc, pool, pass)?;
    filled?;
    Ok(numbers)
}
