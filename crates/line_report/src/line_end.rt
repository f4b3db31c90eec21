//! Numbers at the end of a line.
ghost use Rattle.std.specs.Prelude.{◌≡◌, ◌+◌, ◌<◌, ◌≤◌, ◌++◌, ◌∷◌, [], codes, decimal, length, take};

use line_base::{Date, MAX_DIGITS, write_decimal};

/// Writes a number in decimal and a byte from `at` on, and answers where they end.
pub(crate) fn write_number_and(room: &mut [u8], at: usize, n: u64, byte: u8) -> usize
    requires { at + length (decimal n) < length room.old }
    ensures written { take result room.new ≡ take at room.old ++ (decimal n ++ byte ∷ []) }
    ensures end { result ≡ at + length (decimal n) + 1 }
{
    let end = write_decimal(room, at, n);
    room[end] = byte;
    end + 1
}

/// Writes a number in decimal from `at` on, and answers where it ends.
pub fn write_number(room: &mut [u8], at: usize, n: u64) -> usize
    requires { at + MAX_DIGITS ≤ length room.old }
    ensures written { take result room.new ≡ take at room.old ++ decimal n }
    ensures end { result ≤ at + MAX_DIGITS }
{
    write_decimal(room, at, n)
}

/// Writes the last number of a line, a date, and a line feed from `at` on, and answers where they end.
pub(crate) fn write_last_number(room: &mut [u8], at: usize, date: Date) -> usize
    requires { at + MAX_DIGITS < length room.old }
    ensures written { take result room.new ≡ take at room.old ++ (decimal date ++ codes "\n") }
    ensures end { result ≤ at + MAX_DIGITS + 1 }
{
    write_number_and(room, at, date, b'\n')
}
