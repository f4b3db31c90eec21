//! The texts of a case, and the files that hold them.
use crate::lines::{is_comment, line_at};
use crate::reason::{Reason, add_to, both_if_ok, value_if_ok};
use crate::words::Words;
use line_base::MAX_FILE_BYTES;
use outside_io::{Files, Store};
use std::alloc::Global;

/// Puts a file among others, in the place of one of its name: the words name it, and say with the lines below them
/// what it holds.
pub fn put_file<S: Store>(
    alloc: Global,
    words: Words,
    below: &[&str],
    files: &mut Files,
    folder: &mut S,
) -> Result<(), Reason> {
    let mut words = words;
    let name = words.word();
    let bytes = text_of(alloc, &mut words, below, folder)?;
    let (bytes, name) = both_if_ok(bytes, name_of(alloc, name))?;
    let _ = files.insert(name, bytes)?;
    Ok(())
}

/// A name of its own.
fn name_of(alloc: Global, name: &str) -> Result<String, Reason> {
    Ok(String::from_str(alloc, name)?)
}

/// The files that a command is to leave: those that it finds, with those of the lines `after ..` among these.
pub fn wanted_files<S: Store>(
    alloc: Global,
    lines: &[&str],
    found: &Files,
    folder: &mut S,
) -> Result<Files, Reason> {
    let mut wanted = found.clone()?;
    let put = put_after(alloc, lines, &mut wanted, folder);
    value_if_ok(wanted, put)
}

/// Puts the files of the lines `after ..` among others.
fn put_after<S: Store>(
    alloc: Global,
    lines: &[&str],
    files: &mut Files,
    folder: &mut S,
) -> Result<(), Reason> {
    for index in 0..lines.len() {
        let (line, below) = line_at(&*lines, index);
        let mut words = Words::of(line);
        if words.passes("after") {
            put_file(alloc, words, below, files, folder)?;
        }
    }
    Ok(())
}

/// What the line `output ..` among these says; nothing where there is none.
pub fn output_of<S: Store>(
    alloc: Global,
    lines: &[&str],
    folder: &mut S,
) -> Result<Vec<u8>, Reason> {
    for index in 0..lines.len() {
        let (line, below) = line_at(&*lines, index);
        let mut words = Words::of(line);
        if words.passes("output") {
            return text_of(alloc, &mut words, below, folder);
        }
    }
    Ok(Vec::new(alloc))
}

/// What the words and the lines below them say: a file of the folder, or these lines, or as many bytes of it as stand
/// behind `first`.
fn text_of<S: Store>(
    alloc: Global,
    words: &mut Words,
    below: &[&str],
    folder: &mut S,
) -> Result<Vec<u8>, Reason> {
    let count = count_of(words)?;
    let mut text = if words.passes("from") {
        read_file(alloc, folder, words.word())?
    } else {
        text_of_lines(alloc, below)?
    };
    text.truncate(count);
    value_if_ok(text, words.expect_end())
}

/// How many bytes of a text are meant.
fn count_of(words: &mut Words) -> Result<usize, Reason> {
    if words.passes("first") {
        Ok(words.number()? as usize)
    } else {
        Ok(usize::MAX)
    }
}

/// The text of these lines.
fn text_of_lines(alloc: Global, lines: &[&str]) -> Result<Vec<u8>, Reason> {
    let mut text = Vec::new(alloc);
    let added = add_text(&mut text, lines);
    value_if_ok(text, added)
}

/// What a file of the folder of the case files holds.
pub fn read_file<S: Store>(alloc: Global, folder: &mut S, name: &str) -> Result<Vec<u8>, Reason> {
    match folder.read(alloc, name, MAX_FILE_BYTES) {
        Ok(bytes) => Ok(bytes),
        Err(_) => Err(Reason::NoSuchFile),
    }
}

/// Adds the text that these lines begin with.
fn add_text(text: &mut Vec<u8>, lines: &[&str]) -> Result<(), Reason> {
    for line in lines {
        if !add_line(text, *line)? {
            break;
        }
    }
    Ok(())
}

/// Adds a line of a text. Answers whether the text may go on below it.
fn add_line(text: &mut Vec<u8>, line: &str) -> Result<bool, Reason> {
    let mut words = Words::of(line);
    if !words.passes("|") {
        return Ok(is_comment(line));
    }
    text.extend_from_slice(words.rest().as_bytes())?;
    add_to(text, b'\n')?;
    Ok(true)
}

/// What a file holds; nothing where it isn't there.
pub fn content_of<'a>(files: &'a Files, name: &str) -> &'a [u8] {
    match files.get(name) {
        Some(bytes) => bytes.as_slice(),
        None => &[],
    }
}
