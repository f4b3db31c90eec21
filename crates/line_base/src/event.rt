use crate::items::Items;
use crate::name::Label;
use crate::times::{Date, Times};

/// An arc of a timed event graph, from one station to another, which holds tokens at the start.
#[derive(Clone, Copy)]
pub struct Arc {
    /// The station at its start, numbered from 0.
    pub from: u32,
    /// The station at its end, numbered from 0.
    pub to: u32,
    /// How many tokens it holds at the start.
    pub tokens: u32,
    /// Whether the job time of the station at its end is added to what comes through it.
    pub worked: bool,
}

/// The parts of a timed event graph. Stations and arcs are numbered from 0, in the order of the lists. Station 0 is the
/// feed, whose dates are the demand dates.
#[derive(Drop)]
pub struct Parts {
    /// One label a station.
    pub labels: Items<Label>,
    /// The job times of each station.
    pub times: Items<Times>,
    /// The demand date of each job, that of job 1 first.
    pub dates: Items<Date>,
    /// The arcs.
    pub arcs: Items<Arc>,
    /// The delay of each arc: a token put on it can be taken that much later.
    pub delays: Items<u64>,
}
