/// What is asked of a live plant and the slots of a disk.
#[derive(Clone, Copy)]
pub enum DiskQuestion {
    /// `run PLANT --every N --slots [--workers W]`: the report, and checkpoints into the slots on the way.
    RunSlots {
        /// The firings between two checkpoints, 1 to 1,000,000.
        every: u64,
        /// The workers, 1 to 16.
        workers: u32,
    },
    /// `resume PLANT --slots [--workers W]`: the report, from the newest slot on.
    ResumeSlots {
        /// The workers, 1 to 16.
        workers: u32,
    },
}
