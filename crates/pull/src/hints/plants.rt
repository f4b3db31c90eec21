//! What is said of a plant beside an answer: why it is refused, and how many notes there are on it.

use super::keys::key_advice;
use super::nearest::nearest_name;
use super::places::{stage_names, with_line};
use super::shown::shown;
use live_plant::{Refusal, lint_plant_file, read_file};
use outside_io::Store;
use std::alloc::{AllocError, Global};
use std::str;

/// What the lines of `lint` begin with that say why a plant is refused.
const OF_PLANT: &str = "plant: ";

/// What the fault begins with that a stage is to feed what isn't there.
const FEEDS: &str = "feeds no later stage: ";

/// What the fault begins with that a table has a key that none of its kind may have.
const UNKNOWN: &str = "unknown key: ";

/// What the lines of `lint` begin with that say what may not be meant.
const NOTE: &str = "note: ";

/// The first fault of a plant file, as `lint` tells it, with the line of the file on which it stands, if it has one.
pub fn first_fault<S: Store>(
    alloc: Global,
    store: &mut S,
    plant: &str,
) -> Result<Option<String>, AllocError> {
    let Err(Refusal::Faults { lines }) = lint_plant_file(alloc, store, plant) else {
        return Ok(None);
    };
    let Some(fault) = first_line(alloc, lines.as_str())? else {
        return Ok(None);
    };
    let Ok(bytes) = read_file(alloc, store, plant) else {
        return Ok(Some(fault));
    };
    match str::from_utf8(bytes.as_slice()) {
        Ok(text) => Ok(Some(with_text(alloc, fault.as_str(), text)?)),
        Err(_) => Ok(Some(fault)),
    }
}

/// A fault of a plant file, with what its text tells of it: the line, the stage that was meant where one is to be fed
/// that isn't there, and the key that was meant where its table has none such.
fn with_text(alloc: Global, fault: &str, text: &str) -> Result<String, AllocError> {
    let told = with_line(alloc, fault, text)?;
    if let Some(path) = fault.strip_prefix(UNKNOWN) {
        let path = first_word(path);
        let advice = key_advice(alloc, text.as_bytes(), path)?;
        return format!(in alloc; "{told}{advice}");
    }
    let Some((_, word)) = fault.rsplit_once(' ') else {
        return Ok(told);
    };
    if !fault.starts_with(FEEDS) {
        return Ok(told);
    }
    let names = stage_names(alloc, text)?;
    match nearest_name(alloc, names.as_slice(), word)? {
        Some(near) if near != word => format!(in alloc; "{told}, did you mean '{near}'?"),
        _ => Ok(told),
    }
}

/// What stands before the first blank of a text.
fn first_word(text: &str) -> &str {
    match text.split_once(' ') {
        Some((word, _)) => word,
        None => text,
    }
}

/// The first line of a text, without what all such lines begin with.
fn first_line(alloc: Global, text: &str) -> Result<Option<String>, AllocError> {
    match text.lines().next() {
        Some(line) => {
            let fault = match line.strip_prefix(OF_PLANT) {
                Some(fault) => fault,
                None => line,
            };
            Ok(Some(String::from_str(alloc, fault)?))
        }
        None => Ok(None),
    }
}

/// The line that says how many notes `lint` has on a plant file, where it has any.
pub fn notes_line<S: Store>(
    alloc: Global,
    store: &mut S,
    plant: &str,
) -> Result<Option<String>, AllocError> {
    let Ok(text) = lint_plant_file(alloc, store, plant) else {
        return Ok(None);
    };
    let notes = match str::from_utf8(text.as_slice()) {
        Ok(text) => text.lines().filter(|line| line.starts_with(NOTE)).count(),
        Err(_) => 0,
    };
    let plant = shown(plant);
    let line = match notes {
        0 => return Ok(None),
        1 => format!(in alloc; "pull: 1 note on {plant}; 'pull lint {plant}' tells it")?,
        _ => format!(in alloc; "pull: {notes} notes on {plant}; 'pull lint {plant}' tells them")?,
    };
    Ok(Some(line))
}
