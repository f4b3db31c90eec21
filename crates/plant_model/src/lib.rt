//! The plant as a value: its types, its paths, the numbers of its stations and arcs, and the refusals of a plant file.
#![tactic(auto)]

mod bound;
mod error;
mod laws;
mod layout;
mod line;
mod numbers;
mod path_table;
mod place;
mod plant;
mod reserved;

pub use bound::bound_of;
pub use error::PlantError;
pub use laws::soundness_is_plain;
pub use layout::Layout;
pub use line::stock_under;
pub use line_base::Text;
pub use numbers::{FEED, LineNumbers};
pub use path_table::PathTable;
pub use place::{FileTable, element_place, key_place, table_place};
pub use plant::{CardLoop, Machine, Plant, Policy, Stage};
pub use reserved::is_reserved;
