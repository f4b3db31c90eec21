ghost use Rattle.std.specs.Prelude.{◌≡◌};
ghost use Rattle.demand_feed.specs.declared.error.FeedError.{FeedError};

use std::alloc::AllocError;

/// Why a csv file gave no dates or times.
#[derive(Clone, Copy)]
pub enum FeedError {
    /// The first record that lacks a number within the limit in a used field. Records count from 1
    /// as they stand in the file, a header among them; 0 stands for a demand file without a date.
    BadRecord {
        /// Which record.
        number: u64,
    },
    /// Memory ran out.
    NoMemory,
}

impl From<AllocError> for FeedError {
    ghost from_gives = { λ _ e. e ≡ FeedError.NoMemory };

    fn from(_: AllocError) -> Self {
        FeedError::NoMemory
    }
}
