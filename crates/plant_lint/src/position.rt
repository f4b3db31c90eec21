//! Where a byte stands in a text.
ghost use Rattle.std.specs.Prelude.{◌≡◌, ◌≤◌, ◌+◌, ◌^◌, if◌then◌else◌, length, take, string_bytes, IfOk};
ghost use Rattle.plant_lint.specs.Positions.{ends_line, begins_character, line_after, column_after, position_line};

use std::alloc::{AllocError, Global};

/// That a file is no TOML, with the line and the column of the byte at which the reader's error begins.
pub(crate) fn position_line(alloc: Global, bytes: &[u8], at: usize) -> Result<String, AllocError>
    requires { at ≤ length bytes.now }
    ensures { IfOk result (λ text. string_bytes text ≡ position_line (take at bytes.now)) }
{
    let line = line_at(bytes, at);
    let column = column_at(bytes, at);
    format!(in alloc; "line {line} column {column}: not toml")
}

/// The line of a byte, from 1.
fn line_at(bytes: &[u8], at: usize) -> usize
    requires { at ≤ length bytes.now }
    ensures { result ≡ line_after (take at bytes.now) }
{
    let mut ended = 0;
    for n in 0..at {
        if ends_line(bytes[n]) {
            ended += 1;
        }
    }
    ended + 1
}

/// Whether a byte ends a line.
pub(crate) fn ends_line(byte: u8) -> bool
    ensures { result ≡ ends_line byte }
{
    byte == b'\n'
}

/// The column of a byte, from 1: how many characters of its line begin before it, and one more.
fn column_at(bytes: &[u8], at: usize) -> usize
    requires { at ≤ length bytes.now }
    ensures { result ≡ column_after (take at bytes.now) }
{
    let mut begun = 0;
    for n in 0..at {
        begun = begun_after(bytes[n], begun);
    }
    begun + 1
}

/// How many characters of a line have begun after a byte, where this many had before it.
fn begun_after(byte: u8, before: usize) -> usize
    requires { before ≤ 2 ^ 63 }
    ensures { result ≡ (if ends_line byte then 0 else if begins_character byte then before + 1 else before) }
{
    if byte == b'\n' {
        0
    } else if begins_character(byte) {
        before + 1
    } else {
        before
    }
}

/// Whether a byte of UTF-8 begins a character.
fn begins_character(byte: u8) -> bool
    ensures { result ≡ begins_character byte }
{
    !matches!(byte, 128..=191)
}
