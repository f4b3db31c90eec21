//! The words of dates.
ghost use Rattle.std.specs.Prelude.{◌≡◌, ℕ, ◌-◌, ◌<◌, ◌≤◌, decimal, IfSome, Some};
ghost use Rattle.checkpoint.specs.Text.{date_word};
ghost use Rattle.checkpoint.specs.declared.format.Format.TheVariants.{Differences};
ghost use Rattle.line_core.specs.Parts.{LATEST_GIVEN};

use crate::format::Format;
use line_base::{Date, number_of};

/// The latest date that a text may give.
const MAX_GIVEN_DATE: Date = 1_000_000_000_000_000_000;

/// The number that a text writes in decimal, where it is just one digit, or two without a zero in front.
#[inline]
fn short_number(text: &[u8]) -> Option<u64>
    ensures read { IfSome result (λ n. text.now ≡ decimal n) }
    ensures small { IfSome result (λ n. n < 100) }
{
    match text {
        [ones @ b'0'..=b'9'] => Some(u64::from(ones - b'0')),
        [tens @ b'1'..=b'9', ones @ b'0'..=b'9'] => {
            Some(u64::from(tens - b'0') * 10 + u64::from(ones - b'0'))
        }
        _ => None,
    }
}

/// The number that a text writes, as `number_of` reads it. Most differences of dates have one digit or two, and these
/// are read at once.
fn difference_of(text: &[u8], most: u64) -> Option<u64>
    ensures read { IfSome result (λ n. text.now ≡ decimal n) }
    ensures small { IfSome result (λ n. n ≤ most) }
    ensures tells { (n : ℕ) → n ≤ most → text.now ≡ decimal n → result ≡ Some n }
{
    match short_number(text) {
        None => number_of(text, most),
        Some(number) if number <= most => Some(number),
        Some(_) => None,
    }
}

/// The date that is earlier than another one by the number that a text writes.
fn earlier_date(text: &[u8], before: Date) -> Option<Date>
    ensures read { IfSome result (λ date. text.now ≡ decimal (before - date)) }
    ensures earlier { IfSome result (λ date. date < before) }
    ensures tells { (date : ℕ) → date < before → text.now ≡ decimal (before - date)
        → result ≡ Some date }
{
    let less = difference_of(text, before)?;
    if less == 0 {
        return None;
    }
    Some(before - less)
}

/// The date that is later than another one by the number that a text writes.
fn later_date(text: &[u8], before: Date) -> Option<Date>
    requires { before ≤ LATEST_GIVEN }
    ensures read { IfSome result (λ date. text.now ≡ decimal (date - before)) }
    ensures later { IfSome result (λ date. before ≤ date) }
    ensures given { IfSome result (λ date. date ≤ LATEST_GIVEN) }
    ensures tells { (date : ℕ) → before ≤ date → date ≤ LATEST_GIVEN
        → text.now ≡ decimal (date - before)
        → result ≡ Some date }
{
    let more = difference_of(text, MAX_GIVEN_DATE - before)?;
    Some(before + more)
}

/// The date whose difference from another one is this word.
fn date_by_difference(word: &[u8], before: Date) -> Option<Date>
    requires { before ≤ LATEST_GIVEN }
    ensures read { IfSome result (λ date. word.now ≡ date_word Differences before date) }
    ensures given { IfSome result (λ date. date ≤ LATEST_GIVEN) }
    ensures tells { (date : ℕ) → date ≤ LATEST_GIVEN → word.now ≡ date_word Differences before date
        → result ≡ Some date }
{
    match word.strip_prefix(b"-") {
        Some(text) => earlier_date(text, before),
        None => later_date(word, before),
    }
}

/// The date whose word in a text of this format this is, where the date `before` stands in front of it.
pub fn date_of(word: &[u8], format: Format, before: Date) -> Option<Date>
    requires { before ≤ LATEST_GIVEN }
    ensures read { IfSome result (λ date. word.now ≡ date_word format before date) }
    ensures given { IfSome result (λ date. date ≤ LATEST_GIVEN) }
    ensures tells { (date : ℕ) → date ≤ LATEST_GIVEN → word.now ≡ date_word format before date
        → result ≡ Some date }
{
    match format {
        Format::Dates => number_of(word, MAX_GIVEN_DATE),
        Format::Differences => date_by_difference(word, before),
    }
}
