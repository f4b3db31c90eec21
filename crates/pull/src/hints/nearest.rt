//! Which word of the usage was meant by a word that can't be used.

use super::completions::begins_command;
use pull_cli::USAGE;
use std::alloc::{AllocError, Global};
use strsim::osa_distance;

/// The most edits by which a word may differ from the one that it is taken for. An edit is a letter more, a letter less,
/// another letter, or two neighbours exchanged; a capital letter is none.
const MAX_EDITS: usize = 2;

/// How many letters a word has at least for each edit.
const LETTERS_FOR_AN_EDIT: usize = 3;

/// The most bytes of a word that is taken for another.
const MAX_BYTES: usize = 24;

/// Options of other programs, each with the one that is meant here.
const HABITS: [(&str, &str); 5] = [
    ("-h", "--help"),
    ("-?", "--help"),
    ("-v", "--version"),
    ("-V", "--version"),
    ("-w", "--workers"),
];

/// A word of the usage, and how many edits lead to it.
#[derive(Clone, Copy)]
struct Near {
    word: &'static str,
    edits: usize,
}

/// The word that was meant, where one is near: of the words of the usage with which a command goes on behind those
/// before it the nearest, and of several the first. Behind the first word only options are looked for. None is further
/// away than two edits, nor than one edit for every three letters.
pub fn nearest(
    alloc: Global,
    before: &[&str],
    word: &str,
) -> Result<Option<&'static str>, AllocError> {
    if let Some(option) = habit(word) {
        if goes_on(alloc, before, option)? {
            return Ok(Some(option));
        }
    }
    if word.len() > MAX_BYTES {
        return Ok(None);
    }
    let mut best = None;
    for candidate in USAGE.split_whitespace() {
        let edits = edits_between(alloc, word, candidate)?;
        if is_better(edits, best, word) && may_stand(before, candidate) {
            if goes_on(alloc, before, candidate)? {
                best = Some(Near {
                    word: candidate,
                    edits,
                });
            }
        }
    }
    Ok(best.map(|near| near.word))
}

/// The option that a word of other programs stands for.
fn habit(word: &str) -> Option<&'static str> {
    for (of, option) in &HABITS {
        if *of == word {
            return Some(*option);
        }
    }
    None
}

/// How many edits lead from one word to another.
fn edits_between(alloc: Global, word: &str, candidate: &str) -> Result<usize, AllocError> {
    if word.eq_ignore_ascii_case(candidate) {
        return Ok(0);
    }
    osa_distance(alloc, word, candidate)
}

/// Whether so few edits are within the bounds, and fewer than those to the best word before.
fn is_better(edits: usize, best: Option<Near>, word: &str) -> bool {
    let is_nearer = match best {
        Some(near) => edits < near.edits,
        None => true,
    };
    is_nearer && edits <= MAX_EDITS && edits <= word.len() / LETTERS_FOR_AN_EDIT
}

/// Of names the nearest to a word, within the same bounds, and of several the first.
pub fn nearest_name<'a>(
    alloc: Global,
    names: &[&'a str],
    word: &str,
) -> Result<Option<&'a str>, AllocError> {
    if word.len() > MAX_BYTES {
        return Ok(None);
    }
    let mut best = None;
    let mut fewest = MAX_EDITS + 1;
    for name in names {
        let edits = edits_between(alloc, word, name)?;
        if edits < fewest && edits <= word.len() / LETTERS_FOR_AN_EDIT {
            fewest = edits;
            best = Some(*name);
        }
    }
    Ok(best)
}

/// Whether a word of the usage may stand behind these words: the first is a command, all others are options.
fn may_stand(before: &[&str], candidate: &str) -> bool {
    before.is_empty() || candidate.starts_with('-')
}

/// Whether a command begins with these words and this one behind them.
fn goes_on<'a>(alloc: Global, before: &[&'a str], word: &'a str) -> Result<bool, AllocError> {
    let mut words = Vec::from_slice(alloc, before)?;
    words.push(word)?;
    begins_command(alloc, words.as_slice())
}
