//! What a command writes when it is done: the texts of `check`, `cycle` and `cards`, the dates that edits change,
//! reports and summaries; each goes to a sink, and a long one piece by piece.
#![tactic(auto)]

mod answer;
mod cards;
mod change_lines;
mod changes;
mod check;
mod circuit;
mod curve;
mod cycle;
mod each_cards;
mod lines;
mod unwritten;
mod words;

pub use answer::{Answer, VERSION};
pub use cards::cards_text;
pub use changes::Changes;
pub use check::check_text;
pub use curve::Curve;
pub use cycle::cycle_text;
pub use each_cards::each_cards_text;
pub use lines::{put_line, put_text};
pub use unwritten::Unwritten;
