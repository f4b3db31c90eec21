use line_base::Date;

/// What makes a date as late as it is. Arcs are numbered from 0.
#[derive(Clone, Copy)]
pub enum Cause {
    /// The date at which the job is demanded: of the feed.
    DemandDate,
    /// A token of the start, on the first arc into the station whose term is the date.
    Start,
    /// The date at which this arc, the first into the station whose term is the date, begins, and what the arc adds.
    Along(u32),
}

/// One date of a chain of causes. Stations are counted from 0, jobs from 1, dates are in the plant's unit.
#[derive(Clone, Copy)]
pub struct Link {
    pub station: u32,
    pub job: u32,
    pub date: Date,
    pub cause: Cause,
    /// The time and the delay that the arc adds to the date before; the date itself where none is before.
    pub added: u64,
}
