/// What came of a step of a station.
#[derive(Clone, Copy)]
pub enum Stepped {
    /// The station fired.
    Fired,
    /// This arc has no token: the first such of those into the station, in the order of the arcs.
    Blocked(u32),
    /// The ring of this arc has no space: the first such of those out of the station, in the order of the arcs.
    Full(u32),
    /// The station has fired once for each job.
    Done,
}
