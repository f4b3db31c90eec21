//! The tree of a plant file: what stands at its keys, and all that its keys and names are refused for.
#![tactic(auto)]

mod allowed;
mod classes;
mod fault;
mod faults;
mod flow;
mod keys;
mod names;
mod rows;
mod rules;
mod tree;
mod twice;
mod values;
mod walk;

pub use fault::{Fault, Wants};
pub use faults::{Asked, FaultList, Faults, MOST_FAULTS};
pub use keys::{
    Key, has_column, has_line_cards, has_stage_cards, loop_keys, machine_keys, stage_keys, top_keys,
};
pub use names::Names;
pub use tree::find_in_plant;
pub use values::{elements_of, has, tables_at, text_at, text_of, value_at};
