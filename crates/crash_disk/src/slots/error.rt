ghost use Rattle.std.specs.Prelude.{◌≡◌};
ghost use Rattle.crash_disk.specs.declared.disk.DiskError.TheVariants.{Failed};
ghost use Rattle.crash_disk.specs.declared.slots.error.SlotError.TheVariants.{DiskFault, NoMemory};

use crate::disk::DiskError;

/// Why a save or a load gave up.
#[derive(Clone, Copy, Debug, PartialEq, Eq)]
pub enum SlotError {
    /// The bytes are longer than the room of a slot; `have` is their number. The disk is untouched.
    TooLong { have: u64 },
    /// A call of the disk failed; its count of faults rose.
    DiskFault,
    /// No slot is open.
    NoneSaved,
    /// There was no memory for it.
    NoMemory,
}

impl From<DiskError> for SlotError {
    ghost use Rattle.crash_disk.specs.Errors.{error_of};

    ghost from_gives = { λ error e. e ≡ error_of error };

    fn from(error: DiskError) -> Self {
        match error {
            DiskError::Failed => SlotError::DiskFault,
            DiskError::NoMemory => SlotError::NoMemory,
        }
    }
}
