//! The least number of cards with which no job waits longer than it may.
#![tactic(auto)]

mod each;
mod late_job;
mod laws;
mod least;
mod lowering;
mod lowest;
mod sized;
mod sizing;
mod trying;
mod waits;

pub use each::{EachSizing, StageSizing};
pub use laws::{counts_in_order_are_one, more_cards_serve, sized_plants_are_sound};
pub use least::{least_cards, least_each};
pub use lowest::{has_single_count, lowest_count};
pub use sized::sized_plant;
pub use sizing::{Below, Sizing, SizingError};
