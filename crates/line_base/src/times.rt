ghost use Rattle.std.specs.Prelude.{◌≡◌, ◌≤◌, IfOk};

use crate::items::Items;
use std::alloc::{AllocError, Global};

/// A date, or a length of time, in the plant's unit: a whole number from 0 on.
pub type Date = u64;

/// The job times of a station, in the plant's unit.
#[derive(Drop)]
pub enum Times {
    /// One time for every job.
    Fixed(u64),
    /// One time a job, that of job 1 first.
    Each(Items<u64>),
}

impl Times {
    ghost use Rattle.line_base.specs.Times.{time_at};

    /// The time of a job, counted from 1; 0 for a job past the end of a list of times.
    pub fn at(&self, job: u32) -> u64
        requires { 1 ≤ job }
        ensures { result ≡ time_at self.now job }
    {
        match self {
            Times::Fixed(time) => *time,
            Times::Each(times) => times.as_slice().get(job as usize - 1).copied().unwrap_or(0),
        }
    }

    /// A copy of the job times.
    pub fn copy(&self, alloc: Global) -> Result<Self, AllocError>
        ensures { IfOk result (λ copy. copy ≡ self.now) }
    {
        match self {
            Times::Fixed(time) => Ok(Times::Fixed(*time)),
            Times::Each(times) => Ok(Times::Each(times.copy(alloc)?)),
        }
    }
}
