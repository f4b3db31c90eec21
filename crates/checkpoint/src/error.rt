ghost use Rattle.std.specs.Prelude.{◌≡◌};
ghost use Rattle.checkpoint.specs.Answers.{stopped_at};
ghost use Rattle.checkpoint.specs.Refusals.{of_state_error};

use line_core::StateError;

/// Why bytes are no checkpoint of a state that firings reach. Lines, jobs and tokens are counted from 1, stations and
/// arcs from 0, dates are in the plant's unit.
#[derive(Clone, Copy)]
pub enum CheckpointError {
    /// This line, the first such, is not of the form.
    Line {
        /// Which line.
        number: u64,
    },
    /// The log of this station, the first such, has more dates than there are jobs.
    Count {
        /// Which station.
        station: u32,
        /// How many dates its log has.
        have: u64,
        /// How many jobs there are.
        limit: u64,
    },
    /// The place of this arc, the first such, has another number of tokens than the logs leave there.
    Marking {
        /// Which arc.
        arc: u32,
        /// How many tokens it has.
        have: u64,
        /// How many the logs leave there.
        need: i64,
    },
    /// This date, the first such, isn't the one that the equations of the graph give over the logs.
    Date {
        /// Which station.
        station: u32,
        /// Which job.
        job: u32,
        /// The date that the log has.
        have: u64,
        /// The date that the equations give.
        need: u64,
    },
    /// This token, the first such, isn't the one that the logs leave on the arc.
    PlaceDate {
        /// Which arc.
        arc: u32,
        /// Which token.
        token: u32,
        /// The date that the place has.
        have: u64,
        /// The date that the logs leave there.
        need: u64,
    },
    /// Memory ran out.
    NoMemory,
}

impl From<StateError> for CheckpointError {
    ghost from_gives = { λ refusal error. error ≡ of_state_error refusal };

    fn from(refusal: StateError) -> Self {
        match refusal {
            StateError::Count {
                station,
                have,
                limit,
            } => CheckpointError::Count {
                station,
                have,
                limit,
            },
            StateError::Marking { arc, have, need } => CheckpointError::Marking { arc, have, need },
            StateError::Date {
                station,
                job,
                have,
                need,
            } => CheckpointError::Date {
                station,
                job,
                have,
                need,
            },
            StateError::PlaceDate {
                arc,
                token,
                have,
                need,
            } => CheckpointError::PlaceDate {
                arc,
                token,
                have,
                need,
            },
            StateError::NoMemory => CheckpointError::NoMemory,
        }
    }
}

/// Why a line was not read.
#[derive(Clone, Copy)]
pub enum Stop {
    /// It is not of the form.
    Form,
    /// Memory ran out.
    Memory,
}

impl Stop {
    /// The error, where line `number` was not read.
    pub fn at_line(self, number: u64) -> CheckpointError
        ensures { result ≡ stopped_at self number }
    {
        match self {
            Stop::Form => CheckpointError::Line { number },
            Stop::Memory => CheckpointError::NoMemory,
        }
    }
}
