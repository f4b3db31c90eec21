//! Words and numbers that are added to a text.
ghost use Rattle.std.specs.Prelude.{◌≡◌, ◌++◌, OnOk};

use itoa::{Buffer, Integer};
use std::alloc::AllocError;

/// Adds two words.
pub(crate) fn add_words(text: &mut Vec<u8>, first: &[u8], second: &[u8]) -> Result<(), AllocError>
    ensures { OnOk result (text.new.items ≡ text.old.items ++ (first.now ++ second.now)) }
{
    text.extend_from_slice(first)?;
    text.extend_from_slice(second)
}

/// Adds a word, and a number in decimal.
pub(crate) fn add_number<N: Integer>(
    text: &mut Vec<u8>,
    word: &[u8],
    number: N,
) -> Result<(), AllocError>
    ensures { OnOk result (text.new.items ≡ text.old.items ++ (word.now ++ N.text number)) }
{
    let mut digits = Buffer::new();
    add_words(text, word, digits.format(number).as_bytes())
}
