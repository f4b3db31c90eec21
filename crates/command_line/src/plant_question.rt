use line_base::Text;

/// What is asked of a live plant.
#[derive(Drop)]
pub enum PlantQuestion {
    /// `run PLANT [--workers W]`: its report.
    Run {
        /// The workers, 1 to 16.
        workers: u32,
    },
    /// `run PLANT --room B [--workers W]`: its report, with bounded rings between two workers.
    RunRoom {
        /// The room of a ring beyond the tokens with which its arc starts, 1 to 10,000.
        room: u32,
        /// The workers, 1 to 16.
        workers: u32,
    },
    /// `check PLANT`: how large its graph is, and its card circuits.
    Check,
    /// `cycle PLANT`: its cycle time, with a critical circuit and the potentials.
    Cycle,
    /// `cards PLANT WAIT`: the least count of cards with which no job waits longer.
    Cards {
        /// The longest wait of a job, 0 to 10^16 of the plant's unit of time.
        wait: u64,
    },
    /// `cards PLANT WAIT --each`: the least counts of cards, stage by stage, with which no job waits longer.
    CardsEach {
        /// The longest wait of a job, 0 to 10^16 of the plant's unit of time.
        wait: u64,
    },
    /// `curve PLANT FROM TO [--workers W]`: what each count of cards gives.
    Curve {
        /// The least count, 0 to 10,000.
        from: u32,
        /// The greatest count, from `from` to `from` + 999, at most 10,000.
        to: u32,
        /// The workers, 1 to 16.
        workers: u32,
    },
    /// `latest PLANT WAIT`: the latest dates of all jobs with which none waits longer.
    Latest {
        /// The longest wait of a job, 0 to 10^16 of the plant's unit of time.
        wait: u64,
    },
    /// `why PLANT LABEL JOB`: the chain of causes of the date of a job at a station.
    Why {
        /// The label of the station, 1 to 49 characters of `a-z 0-9 _ - .`.
        label: Text,
        /// The job, 1 to 20,000.
        job: u32,
    },
    /// `summary PLANT`: waits, means of stock and backlog, and how busy each machine is.
    Summary,
    /// `table PLANT`: every date as csv.
    Table,
    /// `chart PLANT [FROM TO]`: a picture of the run, of all its dates or of those of a window.
    Chart {
        /// The first date of the window and its end, 0 to 10^16, the first below the other; none for all dates.
        window: Option<(u64, u64)>,
    },
}
