/// A bar of a picture: a job at a machine.
#[derive(Clone, Copy)]
pub struct Bar {
    /// The station of the machine.
    pub station: u32,
    /// The job, counted from 1.
    pub job: u32,
    /// The date from which the machine works on it.
    pub start: u64,
    /// The machine's time for it.
    pub time: u64,
    /// The lane, counted from 0.
    pub lane: u64,
}
