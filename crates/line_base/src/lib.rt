//! What every other crate of `pull` stands on: the limits of a plant, names, labels, texts and numbers as text, job
//! times, lists of dates with room taken beforehand, the parts of an event graph, and work that is shared among
//! threads.
#![tactic(auto)]

mod decimal;
mod event;
mod items;
mod limits;
mod log;
mod name;
mod number;
mod sharing;
mod text;
mod times;
mod transcript;

pub use decimal::{MAX_DIGITS, digit_count, write_decimal};
pub use event::{Arc, Parts};
pub use items::Items;
pub use limits::{
    MAX_ARCS, MAX_BARS, MAX_CARDS, MAX_CHECKPOINT_BYTES, MAX_COLUMN, MAX_DEMAND_DATE, MAX_DEMANDS,
    MAX_FILE_BYTES, MAX_LOOPS, MAX_OBSERVE, MAX_OBSERVE_DATE, MAX_RING_ROOM, MAX_STAGES,
    MAX_STATIONS, MAX_TABLE, MAX_TIME, MAX_WORKERS, limits_are_those_of_the_definitions,
};
pub use log::{Log, Logs, Places};
pub use name::{Label, Name, NameError, is_checkpoint_name, is_file_name, is_name};
pub use number::{digits, number_of};
pub use sharing::for_each_mut;
pub use text::Text;
pub use times::{Date, Times};
pub use transcript::Transcript;
