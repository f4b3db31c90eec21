use std::collections::LinkedList;

/// What a seat of a ring's table is.
pub enum Role {
    /// It puts. It is the first seat.
    Putter,
    /// It takes. The first split of the putter makes it.
    Taker,
    /// It carries what another seat knew. Every later split leaves one.
    Note,
    /// It was joined into another.
    Spent,
}

/// What a seat of a ring's table knows. It exists in proofs alone: no value of it is made.
pub struct View {
    /// What the seat is.
    pub role: Role,
    /// What was put, of the putter; what was taken, of the taker; of a note, the list of the seat
    /// that was split.
    pub list: LinkedList<u64>,
    /// The head that the putter has seen, or the tail that the taker has seen.
    pub seen: u64,
    /// How often the putter loaded the head, or the taker the tail.
    pub loads: u64,
    /// A date that the putter has stored in a cell and not published.
    pub stored: Option<u64>,
    /// Whether the putter was split.
    pub is_split: bool,
    /// Whether the taker has loaded a cell and not stored the head since.
    pub is_loaded: bool,
    /// The list of the note that was joined last.
    pub heard: LinkedList<u64>,
    /// How many tokens were taken at least, of a note, or heard from one.
    pub count: u64,
    /// How many tokens the ring may hold.
    pub room: u64,
}
