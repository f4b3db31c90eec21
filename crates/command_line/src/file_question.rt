/// What is asked of a live plant and the bytes of a further file.
#[derive(Clone, Copy)]
pub enum FileQuestion {
    /// `resume PLANT FILE [--workers W]`: the report, from a checkpoint on.
    Resume {
        /// The workers, 1 to 16.
        workers: u32,
    },
    /// `replay PLANT SCHEDULE`: the report, by the firings of a schedule.
    Replay,
    /// `whatif PLANT EDITS`: the dates that edits of job times and demand dates change.
    WhatIf,
}
