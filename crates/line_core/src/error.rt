ghost use Rattle.std.specs.Prelude.{◌≡◌};
ghost use Rattle.line_core.specs.declared.error.ReplayError.{ReplayError};
ghost use Rattle.line_core.specs.declared.error.StateError.{StateError};

use std::alloc;

/// Why a station didn't fire.
#[derive(Clone, Copy)]
pub enum FireError {
    /// The station has fired once for each job.
    Done,
    /// The place of this arc, the first of the station's input places without a token, is empty.
    Empty { arc: u32 },
}

/// Why a schedule wasn't followed to its end. Lines are counted from 1.
#[derive(Clone, Copy)]
pub enum ReplayError {
    /// This line is the label of no station.
    NoStation { line: u64 },
    /// This line names a station that has fired once for each job.
    Done { line: u64, station: u32 },
    /// This line names a station that can't fire, since this input arc, the first such, has no token.
    Empty { line: u64, arc: u32 },
    /// Every line was followed, and this station, the first such, has fired only this many times.
    Unfinished { station: u32, have: u64 },
    /// Memory ran out.
    NoMemory,
}

/// Why logs and places are no state that firings reach: the first thing that is wrong with them. Stations and arcs are
/// counted from 0, jobs and tokens from 1, dates are in the plant's unit. Each kind is tried whole before the next, by
/// station and job, or by arc and token.
#[derive(Clone, Copy)]
pub enum StateError {
    /// The log of this station has more dates than there are jobs.
    Count {
        station: u32,
        have: u64,
        limit: u64,
    },
    /// The place of this arc has another number of tokens than its tokens of the start and the log where it starts,
    /// less the log where it ends.
    Marking {
        arc: u32,
        have: u64,
        need: i64,
    },
    /// This date isn't the one that the equations of the graph give over the logs.
    Date {
        station: u32,
        job: u32,
        have: u64,
        need: u64,
    },
    /// This token isn't the one that the logs leave on the arc.
    PlaceDate {
        arc: u32,
        token: u32,
        have: u64,
        need: u64,
    },
    /// Memory ran out.
    NoMemory,
}

impl From<alloc::AllocError> for ReplayError {
    ghost from_gives = { λ _ e. e ≡ ReplayError.NoMemory };

    fn from(_: alloc::AllocError) -> Self {
        ReplayError::NoMemory
    }
}

impl From<alloc::AllocError> for StateError {
    ghost from_gives = { λ _ e. e ≡ StateError.NoMemory };

    fn from(_: alloc::AllocError) -> Self {
        StateError::NoMemory
    }
}
