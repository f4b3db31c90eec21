//! The words of a line of a case file, with a space between two of them.
use crate::reason::{Reason, add_to, value_if_ok};
use std::alloc::Global;

/// The words of a line that are left.
#[derive(Clone, Copy)]
pub struct Words<'a> {
    rest: &'a str,
}

/// What stands before and behind the first space; all of it before where there is none.
fn cut(text: &str) -> (&str, &str) {
    match text.split_once(" ") {
        Some(parts) => parts,
        None => (text, ""),
    }
}

/// The first word of a line.
pub fn first_word(line: &str) -> &str {
    let (word, _) = cut(line);
    word
}

impl<'a> Words<'a> {
    /// The words of a line.
    pub fn of(line: &'a str) -> Self {
        Words { rest: line }
    }

    /// The words that are left, as they stand.
    pub fn rest(&self) -> &'a str {
        self.rest
    }

    /// The next word; an empty one at the end.
    pub fn word(&mut self) -> &'a str {
        let (word, rest) = cut(self.rest);
        self.rest = rest;
        word
    }

    /// The number that the next word is.
    pub fn number(&mut self) -> Result<u32, Reason> {
        self.word().parse::<u32>().ok().ok_or(Reason::BadNumber)
    }

    /// Whether the next word is this one, which is then passed over.
    pub fn passes(&mut self, word: &str) -> bool {
        let (next, rest) = cut(self.rest);
        if next != word {
            return false;
        }
        self.rest = rest;
        true
    }

    /// Errs where words are left.
    pub fn expect_end(&self) -> Result<(), Reason> {
        if self.rest.is_empty() {
            Ok(())
        } else {
            Err(Reason::NoDirective)
        }
    }
}

/// The words of a command.
pub fn command_words(alloc: Global, line: &str) -> Result<Vec<String>, Reason> {
    let mut list = Vec::new(alloc);
    let added = add_words(alloc, &mut list, line);
    value_if_ok(list, added)
}

/// Adds the words of a line.
fn add_words(alloc: Global, list: &mut Vec<String>, line: &str) -> Result<(), Reason> {
    for word in line.split(" ") {
        add_word(alloc, list, word)?;
    }
    Ok(())
}

/// Adds a word.
fn add_word(alloc: Global, list: &mut Vec<String>, word: &str) -> Result<(), Reason> {
    add_to(list, String::from_str(alloc, word)?)
}
