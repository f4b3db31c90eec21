ghost use Rattle.std.specs.Prelude.{◌≡◌};
ghost use Rattle.line_base.specs.Limits.{most_stages, most_stations, most_demands, most_dates, most_loops, most_observed, last_observed, most_cards, longest_time, last_demand, last_column, most_workers, most_ring_room, most_bars, most_arcs, most_file_bytes, most_checkpoint_bytes};

/// The most stages of a plant.
pub const MAX_STAGES: u32 = 64;

/// The most stations of a plant: the feed, each stage's release and machines, and the delivery.
pub const MAX_STATIONS: u32 = 512;

/// The most demands of a plant, one a job.
pub const MAX_DEMANDS: u32 = 20_000;

/// The most dates of a table: stations times demands.
pub const MAX_TABLE: u32 = 1_000_000;

/// The most card loops of a plant.
pub const MAX_LOOPS: u32 = 64;

/// The most observe dates of a plant.
pub const MAX_OBSERVE: u32 = 1_000;

/// The last date that can be observed, in the plant's unit of time.
pub const MAX_OBSERVE_DATE: u64 = 10_000_000_000_000_000;

/// The most cards, the most starting stock and the most servers, each.
pub const MAX_CARDS: u32 = 10_000;

/// The longest job time, travel time and card time, each, in the plant's unit of time.
pub const MAX_TIME: u64 = 1_000_000_000;

/// The last demand date, in the plant's unit of time.
pub const MAX_DEMAND_DATE: u64 = 1_000_000_000_000;

/// The highest column of a times file, counted from 1.
pub const MAX_COLUMN: u32 = 512;

/// The most workers of a run.
pub const MAX_WORKERS: u32 = 16;

/// The most room of a ring between two workers, beyond the tokens with which its arc starts.
pub const MAX_RING_ROOM: u32 = 10_000;

/// The most bars and lanes of a chart, together.
pub const MAX_BARS: u64 = 20_000;

/// The most arcs of an event graph that is built by hand; a plant's has fewer.
pub const MAX_ARCS: u32 = 4_096;

/// The most bytes of a plant, csv, schedule or edits file: 64 MiB.
pub const MAX_FILE_BYTES: u64 = 67_108_864;

/// The most bytes of a checkpoint file, and of the content of a slot: 160 MiB.
pub const MAX_CHECKPOINT_BYTES: u64 = 167_772_160;

/// Each constant is the number that the definitions cite.
pub fn limits_are_those_of_the_definitions()
    ensures stages { MAX_STAGES ≡ most_stages }
    ensures stations { MAX_STATIONS ≡ most_stations }
    ensures demands { MAX_DEMANDS ≡ most_demands }
    ensures table { MAX_TABLE ≡ most_dates }
    ensures loops { MAX_LOOPS ≡ most_loops }
    ensures observed { MAX_OBSERVE ≡ most_observed }
    ensures observed_date { MAX_OBSERVE_DATE ≡ last_observed }
    ensures cards { MAX_CARDS ≡ most_cards }
    ensures time { MAX_TIME ≡ longest_time }
    ensures demand_date { MAX_DEMAND_DATE ≡ last_demand }
    ensures column { MAX_COLUMN ≡ last_column }
    ensures workers { MAX_WORKERS ≡ most_workers }
    ensures ring_room { MAX_RING_ROOM ≡ most_ring_room }
    ensures bars { MAX_BARS ≡ most_bars }
    ensures arcs { MAX_ARCS ≡ most_arcs }
    ensures file_bytes { MAX_FILE_BYTES ≡ most_file_bytes }
    ensures checkpoint_bytes { MAX_CHECKPOINT_BYTES ≡ most_checkpoint_bytes }
{}
