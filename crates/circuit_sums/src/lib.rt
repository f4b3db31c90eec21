//! The card circuits of a plant's graph, and the bounds of its stages.
#![tactic(auto)]

mod circuit;
mod circuit_arcs;
mod laws;
mod listing;
mod tokens;

pub use circuit::{CardCircuit, CircuitKind};
pub use laws::{bounds_have_circuits, bounds_hold, onward_arcs_lead_on};
pub use listing::card_circuits;
pub use plant_model::bound_of;
pub use tokens::sum;
