ghost use Rattle.std.specs.List.{prefix_len};
ghost use Rattle.std.specs.Prelude.{◌≡◌, ◌≤◌, ◌++◌, length, true, false, decimal};
ghost use Rattle.checkpoint.specs.Reading.{is_word_byte, TellsPassing, TellsWord};

use line_base::digits;
use std::marker::Model;

/// A text that is read from its beginning, with the place up to which it is read.
#[derive(Drop)]
pub struct Reader<'a> {
    text: &'a [u8],
    at: usize,
}

impl<'a> Model for Reader<'a> {
    ghost use Rattle.std.specs.Prelude.{◌≤◌, drop, length};
    ghost use Rattle.checkpoint.specs.Reading.{Reading};

    ghost Value = { Reading };

    ghost view = { λ r. record { text = r.text.now; rest = drop r.at r.text.now } };

    ghost invariant = { λ r. r.at ≤ length r.text.now };
}

/// Whether a byte is one of a word: no space, and no line feed.
fn is_word_byte(byte: u8) -> bool
    ensures { result ≡ is_word_byte byte }
{
    byte != b' ' && byte != b'\n'
}

/// How many bytes the word has with which a text begins.
fn word_len(text: &[u8]) -> usize
    ensures count { result ≡ prefix_len is_word_byte text.now }
    ensures within { result ≤ length text.now }
{
    text.iter().take_while(|byte| is_word_byte(**byte)).count()
}

impl<'a> Reader<'a> {
    /// A reader at the beginning of a text.
    pub fn new(text: &'a [u8]) -> Reader<'a>
        ensures { result ≡ record { text = text.now; rest = text.now } }
    {
        Reader { text, at: 0 }
    }

    /// What is left to read.
    pub fn rest(&self) -> &[u8]
        ensures { result.now ≡ self.now.rest }
    {
        &self.text[self.at..]
    }

    /// Passes over this, where it stands next; else nothing is passed over.
    pub fn pass(&mut self, expected: &[u8]) -> bool
        ensures passed { result ≡ true → self.old.rest ≡ expected.now ++ self.new.rest }
        ensures tells { TellsPassing expected.now self.old.rest result self.new.rest }
        ensures kept { result ≡ false → self.new.rest ≡ self.old.rest }
        ensures text { self.new.text ≡ self.old.text }
    {
        if !self.rest().starts_with(expected) {
            return false;
        }
        self.at += expected.len();
        true
    }

    /// Passes over the decimal text of this number, where it stands next.
    pub fn pass_number(&mut self, number: u32) -> bool
        ensures passed { result ≡ true → self.old.rest ≡ decimal number ++ self.new.rest }
        ensures tells { TellsPassing (decimal number) self.old.rest result self.new.rest }
        ensures text { self.new.text ≡ self.old.text }
    {
        let mut buffer = [0; 40];
        let count = digits(u128::from(number), &mut buffer);
        self.pass(&buffer[..count as usize])
    }

    /// Passes over the word that stands next, up to a space, a line feed or the end.
    pub fn word(&mut self) -> &'a [u8]
        ensures word { self.old.rest ≡ result.now ++ self.new.rest }
        ensures tells { TellsWord self.old.rest result.now self.new.rest }
        ensures text { self.new.text ≡ self.old.text }
    {
        let start = self.at;
        self.at += word_len(self.rest());
        &self.text[start..self.at]
    }
}
