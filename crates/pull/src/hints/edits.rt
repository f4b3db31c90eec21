//! Why a line of an edits file can't be followed.

use super::labels::{is_label, is_of_machine, labels_of, meant};
use super::nearest::nearest_name;
use super::shown::shown;
use line_base::{MAX_DEMAND_DATE, MAX_TIME, number_of};
use live_plant::{LivePlant, read_file, read_live_plant};
use outside_io::Store;
use std::alloc::{AllocError, Global};
use std::str;

/// The words that a line of an edits file begins with.
const FIRST_WORDS: [&str; 2] = ["time", "demand"];

/// Why the first line that can't be followed can't, of the edits file of a plant file, where that is known.
pub fn edits_advice<S: Store>(
    alloc: Global,
    store: &mut S,
    plant: &str,
    edits: &str,
) -> Result<Option<String>, AllocError> {
    let Ok(live) = read_live_plant(alloc, store, plant) else {
        return Ok(None);
    };
    match read_file(alloc, store, edits) {
        Ok(bytes) => match str::from_utf8(bytes.as_slice()) {
            Ok(text) => first_fault(alloc, &live, text),
            Err(_) => Ok(Some(String::from_str(alloc, "the edits are no UTF-8")?)),
        },
        Err(_) => Ok(None),
    }
}

/// The first line of edits of a plant that can't be followed, and why.
fn first_fault(alloc: Global, live: &LivePlant, text: &str) -> Result<Option<String>, AllocError> {
    let labels = labels_of(alloc, live.live.graph())?;
    let mut demands = Vec::from_slice(alloc, live.plant.demands.as_slice())?;
    let mut number: u64 = 0;
    for line in text.lines() {
        number = number.saturating_add(1);
        if let Some(fault) = fault_of(alloc, labels.as_slice(), &mut demands, line)? {
            return Ok(Some(format!(in alloc; "line {number}: {fault}")?));
        }
    }
    Ok(None)
}

/// Why a line can't be followed, if it can't. A demand date that it gives is changed in these.
fn fault_of(
    alloc: Global,
    labels: &[&str],
    demands: &mut Vec<u64>,
    line: &str,
) -> Result<Option<String>, AllocError> {
    if line.is_empty() {
        return Ok(None);
    }
    let mut words = Vec::new(alloc);
    for word in line.split(' ') {
        words.push(word)?;
    }
    match words.as_slice() {
        ["time", label, job, time] => fault_of_time(alloc, labels, demands.len(), label, job, time),
        ["demand", job, date] => fault_of_demand(alloc, demands, job, date),
        other => fault_of_form(alloc, other),
    }
}

/// Why a time can't be given to a job of a machine, if it can't.
fn fault_of_time(
    alloc: Global,
    labels: &[&str],
    jobs: usize,
    label: &str,
    job: &str,
    time: &str,
) -> Result<Option<String>, AllocError> {
    if !is_label(labels, label) {
        return no_machine(alloc, labels, label);
    }
    if !is_of_machine(label) {
        return not_a_machine(alloc, labels, label);
    }
    if index_of(job, jobs).is_none() {
        return no_job(alloc, job, jobs);
    }
    if number_of(time.as_bytes(), MAX_TIME).is_none() {
        return no_number(alloc, "a time", time, MAX_TIME);
    }
    Ok(None)
}

/// That no machine has a label, and which is near.
fn no_machine(alloc: Global, labels: &[&str], label: &str) -> Result<Option<String>, AllocError> {
    let label = shown(label);
    let text = match meant(alloc, labels, label)? {
        Some(near) => format!(in alloc; "there is no machine '{label}'; did you mean '{near}'?")?,
        None => format!(in alloc; "there is no machine '{label}'")?,
    };
    Ok(Some(text))
}

/// That a label is that of no machine, and of which stage the machines are.
fn not_a_machine(
    alloc: Global,
    labels: &[&str],
    label: &str,
) -> Result<Option<String>, AllocError> {
    let text = match meant(alloc, labels, label)? {
        Some(machine) => {
            format!(in alloc; "'{label}' is a stage, and a machine is wanted: '{machine}'")?
        }
        None => format!(in alloc; "'{label}' is no machine")?,
    };
    Ok(Some(text))
}

/// Why a job can't be demanded at a date, if it can't; else it is.
fn fault_of_demand(
    alloc: Global,
    demands: &mut Vec<u64>,
    job: &str,
    date: &str,
) -> Result<Option<String>, AllocError> {
    let jobs = demands.len();
    let Some(index) = index_of(job, jobs) else {
        return no_job(alloc, job, jobs);
    };
    let Some(date) = number_of(date.as_bytes(), MAX_DEMAND_DATE) else {
        return no_number(alloc, "a date", date, MAX_DEMAND_DATE);
    };
    let before = index.checked_sub(1);
    if let Some(index) = before {
        if let Some(earlier) = demands.get(index) {
            if date < *earlier {
                let job = index.saturating_add(1);
                let text = format!(in alloc; "{date} is below {earlier}, the date of job {job}")?;
                return Ok(Some(text));
            }
        }
    }
    let after = index.saturating_add(1);
    if let Some(later) = demands.get(after) {
        if date > *later {
            let job = after.saturating_add(1);
            let text = format!(in alloc; "{date} is above {later}, the date of job {job}")?;
            return Ok(Some(text));
        }
    }
    if let Some(present) = demands.get_mut(index) {
        *present = date;
    }
    Ok(None)
}

/// That a word is no job.
fn no_job(alloc: Global, job: &str, jobs: usize) -> Result<Option<String>, AllocError> {
    let job = shown(job);
    let text = format!(in alloc; "jobs are 1 to {jobs}, not '{job}'")?;
    Ok(Some(text))
}

/// That a word is no number of this kind.
fn no_number(
    alloc: Global,
    kind: &str,
    word: &str,
    most: u64,
) -> Result<Option<String>, AllocError> {
    let word = shown(word);
    let text = format!(in alloc; "{kind} is a whole number from 0 to {most}, not '{word}'")?;
    Ok(Some(text))
}

/// Why words are no edit by their form alone.
fn fault_of_form(alloc: Global, words: &[&str]) -> Result<Option<String>, AllocError> {
    if words.iter().any(|word| word.is_empty()) {
        let text =
            "words have one blank between them, and none before the first or behind the last";
        return Ok(Some(String::from_str(alloc, text)?));
    }
    let first = match words.first() {
        Some(word) => shown(word),
        None => "",
    };
    let text = match first {
        "time" => String::from_str(alloc, "'time LABEL JOB TIME' is wanted")?,
        "demand" => String::from_str(alloc, "'demand JOB DATE' is wanted")?,
        _ => match nearest_name(alloc, &FIRST_WORDS, first)? {
            Some(near) => format!(in alloc;
                "no edit begins with '{first}'; did you mean '{near}'?"
            )?,
            None => format!(in alloc;
                "no edit begins with '{first}', but with 'time' or 'demand'"
            )?,
        },
    };
    Ok(Some(text))
}

/// The index of a job that a word counts from 1, of so many.
fn index_of(word: &str, jobs: usize) -> Option<usize> {
    let job = number_of(word.as_bytes(), jobs as u64)?;
    (job as usize).checked_sub(1)
}
