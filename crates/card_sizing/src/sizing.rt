//! The least count of cards that serves.
ghost use Rattle.std.specs.Prelude.{◌≡◌};
ghost use Rattle.card_sizing.specs.declared.sizing.SizingError.{SizingError};

use line_base::{Items, Label};
use std::alloc::AllocError;

/// Why a count of cards can't be one less.
#[derive(Drop)]
pub enum Below {
    /// It is the lowest with which each part of the starting stock has a card.
    Lowest,
    /// With one less this job, counted from 1, is the first that waits longer than it may. Its wait is in the plant's
    /// unit.
    Job { job: u32, wait: u64 },
    /// With one less the line isn't live: these are the labels of the stations along a circuit without a token, from
    /// the station with the least number on.
    Dead { labels: Items<Label> },
}

/// The least count of cards that serves, and why one less doesn't.
#[derive(Drop)]
pub struct Sizing {
    /// How many cards each stage has under kanban and extended kanban, and the line under CONWIP.
    pub cards: u32,
    /// Why it can't be one less.
    pub below: Below,
    /// How many counts were tried.
    pub tries: u32,
}

/// Why there is no count of cards to answer.
#[derive(Clone, Copy)]
pub enum SizingError {
    /// The plant has no count of cards to answer: it runs by base stock, or by kanban with a loop. `least_each`, which
    /// answers a count for each stage, refuses CONWIP so too.
    NoSingleCount,
    /// With 10,000 cards this job, counted from 1, is the first that waits longer than it may. Its wait is in the
    /// plant's unit.
    NoCount { job: u32, wait: u64 },
    /// Memory ran out.
    NoMemory,
}

impl From<AllocError> for SizingError {
    ghost from_gives = { λ _ e. e ≡ SizingError.NoMemory };

    fn from(_: AllocError) -> Self {
        SizingError::NoMemory
    }
}
