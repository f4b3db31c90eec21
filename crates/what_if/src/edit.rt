use line_base::Date;

/// An edit of a plant's run. Stations are counted from 0, jobs from 1, times and dates are in the plant's unit.
#[derive(Clone, Copy)]
pub enum Edit {
    /// The job takes this time at the station, a machine.
    Time { station: u32, job: u32, time: u64 },
    /// The job is demanded at this date.
    Demand { job: u32, date: Date },
}
