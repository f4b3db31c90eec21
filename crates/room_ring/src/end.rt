use crate::view::View;
use crate::words::Words;
use atomic_table::Seat;
use std::sync::Arc;

/// What either end of a ring holds: the words, which both ends share, its seat of their table, the room, how many
/// tokens it has put or taken, and how many the other end has taken or put, as far as it has seen.
#[derive(Drop)]
pub(crate) struct End {
    pub(crate) words: Arc<Words>,
    pub(crate) seat: Seat<(), View>,
    pub(crate) room: u32,
    pub(crate) count: u64,
    pub(crate) seen: u64,
}
