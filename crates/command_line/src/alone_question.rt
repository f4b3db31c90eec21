use crate::topic::Topic;

/// What is asked with nothing read.
#[derive(Clone, Copy)]
pub enum AloneQuestion {
    /// `--help`, `help`, `help COMMAND` and `COMMAND --help`: how the program is used, or the command.
    Help {
        /// The command, where one is named.
        topic: Option<Topic>,
    },
    /// `--version`: the name and version of the program.
    Version,
    /// `big SEED [--workers W]`: the summary of the large plant of a seed.
    Big {
        /// The seed of the plant.
        seed: u64,
        /// The workers, 1 to 16.
        workers: u32,
    },
}
