//! The least counts of cards that serve, stage by stage.
use crate::sizing::Below;
use line_base::{Items, Name};

/// The count of cards of one stage.
#[derive(Drop)]
pub struct StageSizing {
    /// The stage's name.
    pub stage: Name,
    /// How many cards it has.
    pub cards: u32,
    /// Why it can't have one less, where the others have theirs.
    pub below: Below,
}

/// The least counts of cards that serve, stage by stage.
#[derive(Drop)]
pub struct EachSizing {
    /// The stages, in order.
    pub stages: Items<StageSizing>,
    /// The sum of their cards.
    pub total: u32,
    /// How many tries of a count were made.
    pub tries: u32,
}
