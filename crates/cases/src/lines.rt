//! The lines of a case file.
use crate::reason::{Reason, add_to, value_if_ok};
use crate::words::first_word;
use std::alloc::Global;

/// The lines of a text.
pub fn lines_of(alloc: Global, text: &str) -> Result<Vec<&str>, Reason> {
    let mut lines = Vec::new(alloc);
    let added = add_lines_of(&mut lines, text);
    value_if_ok(lines, added)
}

/// Adds the lines of a text.
fn add_lines_of<'a>(lines: &mut Vec<&'a str>, text: &'a str) -> Result<(), Reason> {
    for line in text.lines() {
        add_to(lines, line)?;
    }
    Ok(())
}

/// The line of this index, and those below it; an empty one where there is none.
pub fn line_at<'a>(lines: &'a [&'a str], index: usize) -> (&'a str, &'a [&'a str]) {
    match lines.get(index..) {
        Some([line, below @ ..]) => (*line, below),
        _ => ("", &[]),
    }
}

/// Whether a line says nothing.
pub fn is_comment(line: &str) -> bool {
    line.is_empty() || line.starts_with("#")
}

/// Whether a line may stand below a step that began with this word: any line below a command, which is read with
/// it, and lines of a text below a file.
pub fn belongs(line: &str, opener: &str) -> bool {
    is_comment(line) || opener == "$" || (opener == "file" && first_word(line) == "|")
}

/// Whether a line begins a step, or the next case.
fn is_step(line: &str) -> bool {
    line.starts_with("$") || line.starts_with("file ") || line.starts_with("case ")
}

/// The lines that say what is wanted of a command, of those below it: behind the commands that stand next, and up
/// to the next step.
pub fn wanted_lines<'a>(below: &'a [&'a str]) -> &'a [&'a str] {
    let first = below
        .iter()
        .position(|line| !line.starts_with("$") && !is_comment(*line));
    match first {
        Some(index) => up_to_step(below.get(index..).unwrap_or(&[])),
        None => &[],
    }
}

/// The lines up to the next step.
fn up_to_step<'a>(lines: &'a [&'a str]) -> &'a [&'a str] {
    match lines.iter().position(|line| is_step(*line)) {
        Some(end) => lines.get(..end).unwrap_or(lines),
        None => lines,
    }
}
