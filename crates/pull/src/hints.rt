//! What is said on standard error beside an answer: which status it is, and what to do next.

mod completions;
mod edits;
mod files;
mod keys;
mod labels;
mod nearest;
mod places;
mod plants;
mod shown;
mod sizes;
mod words;

use edits::edits_advice;
use files::files_advice;
use labels::date_advice;
use outside_io::Store;
use plants::{first_fault, notes_line};
use pull_cli::USAGE;
use sizes::limit_advice;
use std::alloc::{AllocError, Global};
use std::fs::Files;
use words::words_hint;

/// The status of words that are no command.
const NO_COMMAND: u8 = 2;

/// The status of a plant file that is refused.
const REFUSED: u8 = 3;

/// The status of a file that can't be read or written.
const NO_FILE: u8 = 5;

/// The status where no count of cards keeps a wait.
const NO_COUNT: u8 = 13;

/// The status of edits that can't be followed.
const NOT_EDITED: u8 = 16;

/// The status of a plant that has no single count of cards.
const NO_SINGLE_COUNT: u8 = 17;

/// The status of a date that the plant doesn't have.
const NO_DATE: u8 = 18;

/// What to do next at each status, in which the name of the plant file replaces `{}`.
const NEXT: [(u8, &str); 18] = [
    (1, "write them in UTF-8"),
    (REFUSED, "'pull lint {}' tells more"),
    (
        4,
        "the stations that are named wait for each other: give one of them a card or a server",
    ),
    (
        NO_FILE,
        "see that it is in this folder, and that you may read and write it",
    ),
    (
        6,
        "see that there is room for it, and that its reader goes on",
    ),
    (7, "resume with the plant file that was run, or run it anew"),
    (8, "'pull summary {}' tells how busy each machine is"),
    (9, "end other programs, or ask for less at once"),
    (10, "see that it is the file that you meant"),
    (11, "mend the line that is named, or add what is missing"),
    (
        12,
        "see that you may read and write pull.slots in this folder",
    ),
    (NO_COUNT, "'pull cycle {}' tells what holds the line"),
    (
        14,
        "'pull run {} --every N --slots' saves each N firings, where the run makes as many",
    ),
    (NOT_EDITED, "mend the line that is named"),
    (
        NO_SINGLE_COUNT,
        "change its cards or its stock, and ask 'pull summary {}'",
    ),
    (NO_DATE, "'pull run {}' lists all stations and jobs"),
    (
        19,
        "give a longer wait, or ask 'pull cards {} WAIT' how many cards keep it",
    ),
    (20, "give a shorter span of dates: 'pull chart {} FROM TO'"),
];

/// What the lines of the usage begin with that say what a status means.
const STATUS: &str = "status ";

/// The line on standard error beside an answer, where there is one: of a status that isn't 0, which it is and what to do
/// next; of a summary, how many notes there are on the plant.
pub fn line_beside<R: Files, S: Store>(
    rt: &R,
    alloc: Global,
    store: &mut S,
    status: u8,
    words: &[String],
) -> Result<Option<String>, AllocError> {
    if status != 0 {
        return Ok(Some(hint(rt, alloc, store, status, words)?));
    }
    if is_word(words, 0, "summary") {
        notes_line(alloc, store, plant_of(words))
    } else {
        Ok(None)
    }
}

/// The line for a status that isn't 0, of a command of these words.
fn hint<R: Files, S: Store>(
    rt: &R,
    alloc: Global,
    store: &mut S,
    status: u8,
    words: &[String],
) -> Result<String, AllocError> {
    if status == NO_COMMAND {
        return words_hint(alloc, words);
    }
    let what = meaning(status);
    let next = advice(status, words);
    let plant = plant_of(words);
    let third = third_of(words);
    let (cause, instead) = match status {
        NO_FILE => (
            None,
            Some(files_advice(rt, alloc, store, plant, third, next)?),
        ),
        REFUSED if !is_word(words, 0, "lint") => (first_fault(alloc, store, plant)?, None),
        NO_COUNT => (None, limit_advice(alloc, store, plant, third)?),
        NOT_EDITED => (None, edits_advice(alloc, store, plant, third)?),
        NO_DATE => (None, date_advice(alloc, store, plant, third)?),
        _ => (None, None),
    };
    let next = match instead {
        Some(next) => next,
        None => for_plant(alloc, next, plant)?,
    };
    match cause {
        Some(cause) => format!(in alloc; "pull: status {status}, {what}: {cause}; {next}"),
        None => format!(in alloc; "pull: status {status}, {what}; {next}"),
    }
}

/// What to do next, with the name of the plant file in the place of `{}`.
fn for_plant(alloc: Global, next: &str, plant: &str) -> Result<String, AllocError> {
    match next.split_once("{}") {
        Some((before, behind)) => format!(in alloc; "{before}{plant}{behind}"),
        None => String::from_str(alloc, next),
    }
}

/// What a status means, as the usage says it.
fn meaning(status: u8) -> &'static str {
    for line in USAGE.lines() {
        if let Some((number, what)) = status_line(line) {
            if number == status {
                return what;
            }
        }
    }
    "it is not done"
}

/// The number of a status and what it means, of a line of the usage that says so.
fn status_line(line: &str) -> Option<(u8, &str)> {
    let (number, what) = line.strip_prefix(STATUS)?.split_once(' ')?;
    match number.parse::<u8>() {
        Ok(number) => Some((number, what.trim_start())),
        Err(_) => None,
    }
}

/// What to do next: what the table says, but where `lint` has already said what is wrong, and where counts stage by
/// stage were asked for, which a line under CONWIP doesn't have.
fn advice(status: u8, words: &[String]) -> &'static str {
    if status == REFUSED && is_word(words, 0, "lint") {
        return "mend what the lines name, and ask again";
    }
    if status == NO_SINGLE_COUNT && is_word(words, 3, "--each") {
        return "under conwip ask without --each, else change the cards or the stock, and ask 'pull summary {}'";
    }
    for (of, next) in &NEXT {
        if *of == status {
            return *next;
        }
    }
    "'pull --help' lists all statuses"
}

/// The plant file of a command, which its second word names.
fn plant_of(words: &[String]) -> &str {
    match words.get(1) {
        Some(word) => word.as_str(),
        None => "PLANT",
    }
}

/// The word behind the plant file: the wait, the edits or the label that a command asks of, empty where there is none.
fn third_of(words: &[String]) -> &str {
    match words.get(2) {
        Some(word) => word.as_str(),
        None => "",
    }
}

/// Whether the word at this index is this one.
fn is_word(words: &[String], index: usize, wanted: &str) -> bool {
    match words.get(index) {
        Some(word) => word.as_str() == wanted,
        None => false,
    }
}
