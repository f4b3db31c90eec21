ghost use Rattle.std.specs.Prelude.{◌≡◌, ◌≤◌, ℕ, take, drop, decimal, IfSome, Some};
ghost use Rattle.line_base.specs.Text.{starts_plainly};

use itoa::Buffer;

/// Writes a number in decimal without leading zeros at the beginning of the buffer, and answers how many bytes it
/// takes. The rest of the buffer stays.
pub fn digits(n: u128, buffer: &mut [u8; 40]) -> u32
    ensures written { take result buffer.new ≡ decimal n }
    ensures rest { drop result buffer.new ≡ drop result buffer.old }
    ensures short { result ≤ 40 }
{
    let mut text = Buffer::new();
    let text = text.format(n).as_bytes();
    buffer[..text.len()].copy_from_slice(text);
    text.len() as u32
}

/// The number that a text writes in decimal, without a sign and without a leading zero but for `0` itself, where it is
/// at most `most`; `None` exactly where the text is no such number.
pub fn number_of(text: &[u8], most: u64) -> Option<u64>
    ensures read { IfSome result (λ n. text.now ≡ decimal n) }
    ensures small { IfSome result (λ n. n ≤ most) }
    ensures tells { (n : ℕ) → n ≤ most → text.now ≡ decimal n → result ≡ Some n }
{
    if !starts_plainly(text) {
        return None;
    }
    let Ok(text) = str::from_utf8(text) else {
        return None;
    };
    let Ok(number) = text.parse::<u64>() else {
        return None;
    };
    if number <= most { Some(number) } else { None }
}

/// Whether a text begins with no plus sign, and with no zero that another byte follows.
fn starts_plainly(text: &[u8]) -> bool
    ensures { result ≡ starts_plainly text.now }
{
    match text {
        [b'+', ..] => false,
        [b'0', ..] => text.len() == 1,
        _ => true,
    }
}
