//! The room in which the words of dates are written, from the last to the first, before they go to a text.
ghost use Rattle.std.specs.Prelude.{◌≡◌, ◌+◌, ◌<◌, ◌≤◌, ◌∷◌, ◌++◌, length, drop, decimal, IfOk};
ghost use Rattle.checkpoint.specs.Text.{date_word};
ghost use Rattle.checkpoint.specs.Writing.{date_before, words_from};
ghost use Rattle.checkpoint.specs.declared.format.Format.TheVariants.{Differences};

use itoa::write_digits;
use line_base::{Date, MAX_DIGITS};
use std::alloc::AllocError;

/// The most bytes of a word, with the space before it: the space, `-`, and the digits.
const MAX_WORD: usize = MAX_DIGITS + 2;

/// The most dates whose words are in the room at once.
const MAX_DATES: usize = 64;

/// The bytes of the room.
const ROOM: usize = MAX_DATES * MAX_WORD;

/// Writes a number in decimal so that it ends at `end`, and answers where it begins.
fn write_number(room: &mut [u8], end: usize, n: u64) -> usize
    requires wide { MAX_DIGITS ≤ end }
    requires within { end ≤ length room.old }
    ensures written { drop result room.new ≡ decimal n ++ drop end room.old }
    ensures begins { result ≤ end }
    ensures short { end ≤ result + MAX_DIGITS }
{
    write_digits(n, room, end)
}

/// Writes a byte in front of what begins at `at`, and answers where it stands.
fn write_front(room: &mut [u8], at: usize, byte: u8) -> usize
    requires wide { 1 ≤ at }
    requires within { at ≤ length room.old }
    ensures written { drop result room.new ≡ byte ∷ drop at room.old }
    ensures front { result + 1 ≡ at }
{
    room[at - 1] = byte;
    at - 1
}

/// Writes the word of a date that follows another one so that it ends at `end`, and answers where it begins.
fn write_word(room: &mut [u8], end: usize, before: Date, date: Date) -> usize
    requires wide { MAX_WORD ≤ end }
    requires within { end ≤ length room.old }
    ensures written { drop result room.new
        ≡ date_word Differences before date ++ drop end room.old }
    ensures begins { result ≤ end }
    ensures short { end < result + MAX_WORD }
{
    if date < before {
        let number = write_number(room, end, before - date);
        return write_front(room, number, b'-');
    }
    write_number(room, end, date - before)
}

/// The date that date number `i` follows: the one in front of it, or 0.
fn date_before(dates: &[Date], i: usize) -> Date
    requires { i ≤ length dates.now }
    ensures { result ≡ date_before dates.now i }
{
    if i == 0 { 0 } else { dates[i - 1] }
}

/// Writes the words of the dates from number `from` on and below number `to`, with a space before each, so that they
/// end where the room ends, and answers where they begin.
fn write_words(room: &mut [u8], dates: &[Date], from: usize, to: usize) -> usize
    requires room { length room.old ≡ ROOM }
    requires ordered { from ≤ to }
    requires few { to ≤ from + MAX_DATES }
    requires within { to ≤ length dates.now }
    ensures written { drop result room.new ++ words_from dates.now to ≡ words_from dates.now from }
    ensures begins { result ≤ ROOM }
{
    let mut at = ROOM;
    let mut left = to;
    while left > from {
        left -= 1;
        let word = write_word(room, at, date_before(dates, left), dates[left]);
        at = write_front(room, word, b' ');
    }
    at
}

/// Writes the words of the dates from number `first` on at the end of a text, as many at once as the room takes.
fn put_by_room(
    text: &mut Vec<u8>,
    room: &mut [u8],
    dates: &[Date],
    first: usize,
) -> Result<(), AllocError>
    requires room { length room.old ≡ ROOM }
    requires within { first ≤ length dates.now }
    ensures { IfOk result (λ _. text.new.items ≡ text.old.items ++ words_from dates.now first) }
{
    let count = dates.len();
    let mut from = first;
    while from < count {
        let to = from + (count - from).min(MAX_DATES);
        let start = write_words(room, dates, from, to);
        text.extend_from_slice(&room[start..])?;
        from = to;
    }
    Ok(())
}

/// Writes the words of the dates from number `first` on at the end of a text, with a space before each. The word of
/// the first of them follows the date in front of it.
pub fn put_words(text: &mut Vec<u8>, dates: &[Date], first: usize) -> Result<(), AllocError>
    requires { first ≤ length dates.now }
    ensures { IfOk result (λ _. text.new.items ≡ text.old.items ++ words_from dates.now first) }
{
    if first == dates.len() {
        return Ok(());
    }
    let mut room = [0; ROOM];
    put_by_room(text, &mut room, dates, first)
}
