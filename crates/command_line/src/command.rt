ghost use Rattle.std.specs.Prelude.{◌≡◌};
ghost use Rattle.command_line.specs.declared.command.WordsError.TheVariants.{NoMemory};

use crate::alone_question::AloneQuestion;
use crate::disk_question::DiskQuestion;
use crate::file_name::FileName;
use crate::file_question::FileQuestion;
use crate::plant_question::PlantQuestion;
use crate::plant_source::PlantSource;
use std::alloc::AllocError;

/// Where a run stops before its end: at the first burst's end where this many firings are made.
#[derive(Drop)]
pub struct Stop {
    /// The firings, 0 to 1,000,000.
    pub after: u64,
    /// The checkpoint that is written then.
    pub save: FileName,
}

/// What the words after the program's name ask for: what is read, and what is then asked of that.
#[derive(Drop)]
pub enum Command {
    /// Nothing is read.
    Alone {
        /// What is asked.
        question: AloneQuestion,
    },
    /// `lint PLANT`: all that is wrong with a plant file and with the files that it names, or what may not be meant.
    Lint {
        /// The plant file.
        file: FileName,
    },
    /// A live plant is asked.
    OnPlant {
        /// The plant.
        plant: PlantSource,
        /// What is asked.
        question: PlantQuestion,
    },
    /// A live plant is asked, and the bytes of a further file.
    OnFile {
        /// The plant.
        plant: PlantSource,
        /// The further file, which is read when the live plant is there.
        file: FileName,
        /// What is asked.
        question: FileQuestion,
    },
    /// `run PLANT --stand [--workers W]`: the report of a live plant, by workers that stand until all firings are made.
    Standing {
        /// The plant.
        plant: PlantSource,
        /// The workers, 1 to 16.
        workers: u32,
    },
    /// `run PLANT --stop-after N --save FILE [--workers W]`: a live plant is run until it stops, and its state is saved
    /// in a store.
    Stopping {
        /// The plant.
        plant: PlantSource,
        /// The workers, 1 to 16.
        workers: u32,
        /// Where the run stops.
        stop: Stop,
    },
    /// A live plant is run with the slots of a disk.
    OnDisk {
        /// The plant.
        plant: PlantSource,
        /// How it is run.
        question: DiskQuestion,
    },
}

/// Why words gave no command.
#[derive(Clone, Copy)]
pub enum WordsError {
    /// The words are no command.
    Usage,
    /// Memory ran out.
    NoMemory,
}

impl From<AllocError> for WordsError {
    ghost from_gives = { λ _ e. e ≡ NoMemory };

    fn from(_: AllocError) -> Self {
        WordsError::NoMemory
    }
}
