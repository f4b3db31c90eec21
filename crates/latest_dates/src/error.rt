ghost use Rattle.std.specs.Prelude.{◌≡◌};
ghost use Rattle.latest_dates.specs.declared.error.LatestError.TheVariants.{NoMemory};

use std::alloc::AllocError;

/// Why there are no latest dates.
#[derive(Clone, Copy)]
pub enum LatestError {
    /// The job is the first that waits longer than it may, and `wait` is how long it waits, in the plant's unit. Jobs
    /// are counted from 1.
    Late { job: u32, wait: u64 },
    /// Memory ran out.
    NoMemory,
}

impl From<AllocError> for LatestError {
    ghost from_gives = { λ _ e. e ≡ NoMemory };

    fn from(_: AllocError) -> Self {
        LatestError::NoMemory
    }
}
