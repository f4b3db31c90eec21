use crate::figures::Figures;

/// What a count of cards gives a plant.
#[derive(Clone, Copy)]
pub enum Point {
    /// It is below the lowest with which each part of the starting stock has a card.
    TooFew,
    /// The line isn't live.
    Dead,
    /// The line is live, and its least solution has these figures.
    Alive { figures: Figures },
}
