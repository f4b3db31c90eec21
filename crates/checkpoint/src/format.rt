ghost use Rattle.std.specs.Prelude.{◌≡◌};
ghost use Rattle.checkpoint.specs.Reading.{head_count};

/// The two formats of a checkpoint.
#[derive(Clone, Copy)]
pub enum Format {
    /// Format 1: each date as it is. It says nothing of the delays of arcs, and is read alone.
    Dates,
    /// Format 2: each date as its difference from the one before.
    Differences,
}

impl Format {
    /// How many lines stand before those of the stations.
    pub fn head_count(self) -> u64
        ensures { result ≡ head_count self }
    {
        match self {
            Format::Dates => 1,
            Format::Differences => 2,
        }
    }
}
