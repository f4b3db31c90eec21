ghost use Rattle.std.specs.Prelude.{◌≡◌, ◌≤◌, IfSome};
ghost use Rattle.command_line.specs.Numbers.{number_in};
ghost use Rattle.command_line.specs.Ranges.{AreWorkers, IsRingRoom};
ghost use Rattle.line_base.specs.Limits.{most_cards, most_workers, most_ring_room};

use line_base::{MAX_CARDS, MAX_RING_ROOM, MAX_WORKERS, number_of};

/// The number that a word is, where it is one from `least` to `most`.
pub fn number_in(word: &str, least: u64, most: u64) -> Option<u64>
    ensures read { result ≡ number_in least most word.now }
    ensures small { IfSome result (λ number. number ≤ most) }
    ensures large { IfSome result (λ number. least ≤ number) }
{
    let number = number_of(word.as_bytes(), most)?;
    if number < least { None } else { Some(number) }
}

/// The number of workers that a word is.
pub fn workers_in(word: &str) -> Option<u32>
    ensures read { result ≡ number_in 1 most_workers word.now }
    ensures range { IfSome result AreWorkers }
{
    let workers = number_in(word, 1, MAX_WORKERS as u64)?;
    Some(workers as u32)
}

/// The count of cards that a word is.
pub fn cards_in(word: &str) -> Option<u32>
    ensures read { result ≡ number_in 0 most_cards word.now }
    ensures range { IfSome result (λ number. number ≤ most_cards) }
{
    let cards = number_in(word, 0, MAX_CARDS as u64)?;
    Some(cards as u32)
}

/// The room that a word is.
pub fn room_in(word: &str) -> Option<u32>
    ensures read { result ≡ number_in 1 most_ring_room word.now }
    ensures range { IfSome result IsRingRoom }
{
    let room = number_in(word, 1, MAX_RING_ROOM as u64)?;
    Some(room as u32)
}
