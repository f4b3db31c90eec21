//! The event graph of a plant, and the laws of its policies.
#![tactic(auto)]

mod circuit;
mod dead;
mod delays;
mod graph;
mod labels;
mod laws;
mod rows;
mod times;

pub use circuit::circuit_stations;
pub use dead::dead_labels;
pub use graph::graph_of;
pub use laws::{
    extended_is_base_stock, extended_is_kanban, more_cards_never_later, plants_keep_lists_in_order,
};
