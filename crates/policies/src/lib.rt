//! The arcs of each policy in the event graph of a plant, and those of its segment loops.
#![tactic(auto)]

pub mod base_stock;
pub mod conwip;
pub mod extended;
pub mod kanban;
pub mod loops;
