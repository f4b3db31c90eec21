//! Numbers in decimal, written where there is room for them.
ghost use Rattle.std.specs.Prelude.{◌≡◌, ◌+◌, ◌<◌, ◌≤◌, ◌++◌, decimal, length, take};

use itoa::write_digits;

/// The most digits of a number of 64 bits.
pub const MAX_DIGITS: usize = 20;

/// How many digits a number has.
pub fn digit_count(n: u64) -> usize
    ensures count { result ≡ length (decimal n) }
    ensures few { result ≤ MAX_DIGITS }
{
    let mut left = n;
    let mut count = 0;
    while left >= 10_000 {
        left /= 10_000;
        count += 4;
    }
    count + short_count(left)
}

/// How many digits a number of at most four digits has.
fn short_count(n: u64) -> usize
    requires { n < 10_000 }
    ensures { result ≡ length (decimal n) }
{
    match n {
        0..=9 => 1,
        10..=99 => 2,
        100..=999 => 3,
        _ => 4,
    }
}

/// Writes a number in decimal over the bytes from `at` on, with room for its digits alone, and answers where it ends.
pub fn write_decimal(room: &mut [u8], at: usize, n: u64) -> usize
    requires { at + length (decimal n) ≤ length room.old }
    ensures written { take result room.new ≡ take at room.old ++ decimal n }
    ensures end { result ≡ at + length (decimal n) }
{
    let end = at + digit_count(n);
    let _ = write_digits(n, room, end);
    end
}
