//! Whether words are a command, or begin one.

use pull_cli::{WordsError, read_words};
use std::alloc::{AllocError, Global};

/// Words behind which each command can end: one of them makes a command of any words with which one begins, but for the
/// counts of `curve`, of which the second is at least the first.
const ENDS: [&[&str]; 19] = [
    &[],
    &["--help"],
    &["a.toml"],
    &["a.ckpt"],
    &["0"],
    &["1"],
    &["a", "1"],
    &["0", "0"],
    &["10000000000000000"],
    &["--slots"],
    &["1", "--slots"],
    &["--every", "1"],
    &["1", "--every", "1"],
    &["--save", "a.ckpt"],
    &["0", "--save", "a.ckpt"],
    &["1", "--save", "a.ckpt"],
    &["--stop-after", "0"],
    &["a.ckpt", "--stop-after", "0"],
    &["1", "--stop-after", "0"],
];

/// Whether a command begins with these words.
pub fn begins_command(alloc: Global, words: &[&str]) -> Result<bool, AllocError> {
    for end in &ENDS {
        if is_command_with(alloc, words, end)? {
            return Ok(true);
        }
    }
    match words.last() {
        Some(word) => is_command_with(alloc, words, &[*word]),
        None => Ok(false),
    }
}

/// Whether words are a command, with these behind them.
pub fn is_command_with(alloc: Global, words: &[&str], end: &[&str]) -> Result<bool, AllocError> {
    let mut all = Vec::new(alloc);
    let answer = match add_words(alloc, &mut all, words, end) {
        Ok(()) => are_command(alloc, all.as_slice()),
        Err(error) => Err(error),
    };
    drop(all);
    answer
}

/// Adds words, and these behind them.
fn add_words(
    alloc: Global,
    all: &mut Vec<String>,
    words: &[&str],
    end: &[&str],
) -> Result<(), AllocError> {
    for word in words {
        add_word(all, String::from_str(alloc, word)?)?;
    }
    for word in end {
        add_word(all, String::from_str(alloc, word)?)?;
    }
    Ok(())
}

/// Adds a word.
fn add_word(all: &mut Vec<String>, word: String) -> Result<(), AllocError> {
    Ok(all.push(word)?)
}

/// Whether words are a command.
fn are_command(alloc: Global, words: &[String]) -> Result<bool, AllocError> {
    match read_words(alloc, words) {
        Ok(command) => {
            drop(command);
            Ok(true)
        }
        Err(WordsError::Usage) => Ok(false),
        Err(WordsError::NoMemory) => Err(AllocError),
    }
}
