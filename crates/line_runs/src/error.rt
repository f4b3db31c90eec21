ghost use Rattle.std.specs.Prelude.{◌≡◌};
ghost use Rattle.line_runs.specs.ResumeSlots.{of_checkpoint_error};

use checkpoint::CheckpointError;

/// Why a run doesn't go on from what the slots of a disk hold.
#[derive(Clone, Copy)]
pub enum ResumeError {
    /// No slot is open.
    NothingSaved,
    /// What is saved is a text of no state that firings reach; this is the first thing that is
    /// wrong with it.
    Checkpoint(CheckpointError),
    /// A call of the disk failed; its count of faults rose.
    DiskFault,
    /// Memory ran out.
    NoMemory,
}

impl From<CheckpointError> for ResumeError {
    ghost from_gives = { λ refusal error. error ≡ of_checkpoint_error refusal };

    fn from(refusal: CheckpointError) -> Self {
        match refusal {
            CheckpointError::NoMemory => ResumeError::NoMemory,
            CheckpointError::Line { .. }
            | CheckpointError::Count { .. }
            | CheckpointError::Marking { .. }
            | CheckpointError::Date { .. }
            | CheckpointError::PlaceDate { .. } => ResumeError::Checkpoint(refusal),
        }
    }
}
