//! What is wrong with words that are no command, and what to do about it.

use super::completions::{begins_command, is_command_with};
use super::nearest::nearest;
use super::shown::is_plain;
use std::alloc::{AllocError, Global};

/// What to do where nothing more is known.
const ALL_COMMANDS: &str = "'pull --help' lists the commands";

/// The line for words that are no command.
pub fn words_hint(alloc: Global, words: &[String]) -> Result<String, AllocError> {
    let texts = texts_of(alloc, words)?;
    let words = texts.as_slice();
    let index = first_unusable(alloc, words)?;
    let fault = fault(alloc, words, index)?;
    let next = advice(alloc, words, index)?;
    format!(in alloc; "pull: status 2, the words are no command: {fault}; {next}")
}

/// The texts of words.
fn texts_of(alloc: Global, words: &[String]) -> Result<Vec<&str>, AllocError> {
    let mut texts = Vec::new(alloc);
    for word in words {
        texts.push(word.as_str())?;
    }
    Ok(texts)
}

/// The first word that no command with the words before it can go on with: no command begins with these.
fn first_unusable(alloc: Global, words: &[&str]) -> Result<Option<usize>, AllocError> {
    for index in 0..words.len() {
        if !begins_command(alloc, &words[..=index])? {
            return Ok(Some(index));
        }
    }
    Ok(None)
}

/// Which word can't be used, the one at this index, or that there are too few.
fn fault(alloc: Global, words: &[&str], index: Option<usize>) -> Result<String, AllocError> {
    let Some(index) = index else {
        return String::from_str(alloc, "words are missing");
    };
    match words.get(index) {
        Some(word) if is_plain(word) => format!(in alloc; "'{word}' can't be used there"),
        _ => format!(in alloc; "word {} can't be used there", index.saturating_add(1)),
    }
}

/// What to do, where the word at this index can't be used, or where words are missing.
fn advice(alloc: Global, words: &[&str], index: Option<usize>) -> Result<String, AllocError> {
    if let Some(index) = index {
        if let Some(advice) = advice_at(alloc, words, index)? {
            return Ok(advice);
        }
    }
    match words.first() {
        Some(word) if is_command_with(alloc, &[*word], &["--help"])? => {
            format!(in alloc; "'pull help {word}' shows its words, {ALL_COMMANDS}")
        }
        _ => String::from_str(alloc, ALL_COMMANDS),
    }
}

/// What to do about the word at this index, where that is known.
fn advice_at(alloc: Global, words: &[&str], index: usize) -> Result<Option<String>, AllocError> {
    let Some(word) = words.get(index) else {
        return Ok(None);
    };
    let before = &words[..index];
    if is_named_checkpoint(before, word) {
        let advice = String::from_str(alloc, "the name of a checkpoint ends in .ckpt")?;
        return Ok(Some(advice));
    }
    if index == 0 && word.ends_with(".toml") {
        return Ok(Some(command_first(alloc, words)?));
    }
    if let Some(meant) = nearest(alloc, before, word)? {
        return Ok(Some(format!(in alloc; "did you mean '{meant}'?")?));
    }
    if let Some(advice) = turned(alloc, words, index)? {
        return Ok(Some(advice));
    }
    number_wanted(alloc, before, word)
}

/// Whether a word stands where a checkpoint is named: behind `--save`, or behind the plant of `resume`.
fn is_named_checkpoint(before: &[&str], word: &str) -> bool {
    let of_resume = before.len() == 2 && is_word(before.first(), "resume");
    !word.starts_with('-') && (of_resume || is_word(before.last(), "--save"))
}

/// Whether there is a word, and it is this one.
fn is_word(word: Option<&&str>, wanted: &str) -> bool {
    match word {
        Some(word) => *word == wanted,
        None => false,
    }
}

/// That the command comes first, of words that begin with the name of a plant file.
fn command_first(alloc: Global, words: &[&str]) -> Result<String, AllocError> {
    let (plant, command) = match words {
        [plant, command, ..] if begins_command(alloc, &[*command])? => (*plant, *command),
        [plant, ..] => (*plant, "run"),
        [] => ("PLANT", "run"),
    };
    if is_plain(plant) {
        format!(in alloc; "the command comes first: 'pull {command} {plant}'")
    } else {
        String::from_str(alloc, "the command comes first")
    }
}

/// That the words are a command where the one at this index changes places with the one before it. A plant file does so
/// only with a word that looks like one.
fn turned(alloc: Global, words: &[&str], index: usize) -> Result<Option<String>, AllocError> {
    let mut turned = Vec::from_slice(alloc, words)?;
    if index == 0 || index >= turned.len() {
        return Ok(None);
    }
    if index == 2 && !words[index].ends_with(".toml") {
        return Ok(None);
    }
    turned.swap(index - 1, index);
    let turned = turned.as_slice();
    if !turned.iter().all(|word| is_plain(word)) || !is_command_with(alloc, turned, &[])? {
        return Ok(None);
    }
    let why = if is_number(words[index]) && is_number(words[index - 1]) {
        "FROM is above TO"
    } else if is_word(words.first(), "why") {
        "a label, then a job"
    } else {
        "these two the other way round"
    };
    let mut text = format!(in alloc; "{why}: 'pull")?;
    for word in turned {
        text.push_str(" ")?;
        text.push_str(word)?;
    }
    text.push_str("'")?;
    Ok(Some(text))
}

/// Whether a word has digits alone.
fn is_number(word: &str) -> bool {
    !word.is_empty() && word.bytes().all(|byte| byte.is_ascii_digit())
}

/// That a whole number is wanted, where one may stand and a word looks like a number that is none.
fn number_wanted(alloc: Global, before: &[&str], word: &str) -> Result<Option<String>, AllocError> {
    if is_number(word) || !looks_like_number(word) || !may_be_number(alloc, before)? {
        return Ok(None);
    }
    let text = if is_word(before.last(), "--workers") || before.len() > 3 {
        "a whole number is wanted there"
    } else {
        "a whole number of the plant's unit is wanted there"
    };
    Ok(Some(String::from_str(alloc, text)?))
}

/// Whether a word begins as a number does, maybe behind a sign.
fn looks_like_number(word: &str) -> bool {
    let digits = match word.strip_prefix('-') {
        Some(rest) => rest,
        None => word,
    };
    match digits.bytes().next() {
        Some(byte) => byte.is_ascii_digit(),
        None => false,
    }
}

/// Whether a command begins with these words and a number behind them.
fn may_be_number(alloc: Global, before: &[&str]) -> Result<bool, AllocError> {
    let mut words = Vec::from_slice(alloc, before)?;
    words.push("1")?;
    begins_command(alloc, words.as_slice())
}
