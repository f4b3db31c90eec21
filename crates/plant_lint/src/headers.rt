//! What lint says where the head of a table stands a second time.
ghost use Rattle.std.specs.List.{prefix_len};
ghost use Rattle.std.specs.Prelude.{◌≡◌, ◌≤◌, ◌<◌, ◌+◌, ◌++◌, get_or, length, take, drop, string_bytes, IfOk, OnOk};
ghost use Rattle.plant_lint.specs.Headers.{begins_line, has_line, has_line_with, head_of, head_part, is_head_byte, list_head, list_question, name_behind, no_toml_line, stands_twice, twice_question};

use crate::position::{ends_line, position_line};
use std::alloc::{AllocError, Global};

/// The most bytes of a name that is asked about.
const MOST_SHOWN: usize = 60;

/// That a file is no TOML, with where the reader's error begins, and a question where the head of a table stands there
/// a second time.
pub(crate) fn no_toml_line(alloc: Global, bytes: &[u8], at: usize) -> Result<String, AllocError>
    requires { at ≤ length bytes.now }
    ensures { IfOk result (λ text. string_bytes text ≡ no_toml_line (take at bytes.now) (drop at bytes.now)) }
{
    let mut text = position_line(alloc, bytes, at)?;
    add_question(alloc, &mut text, &bytes[..at], &bytes[at..])?;
    text.push_str("\n")?;
    Ok(text)
}

/// Adds the question, if the head with which the rest begins stands before it too.
fn add_question(
    alloc: Global,
    text: &mut String,
    before: &[u8],
    rest: &[u8],
) -> Result<(), AllocError>
    ensures { OnOk result (string_bytes text.new ≡ string_bytes text.old ++ twice_question before.now rest.now) }
{
    let name = name_behind(rest);
    if !stands_twice(alloc, name, before, rest)? {
        return Ok(());
    }
    add_list_question(text, text_of(name)?)
}

/// Adds whether this name is that of a list.
fn add_list_question(text: &mut String, name: &str) -> Result<(), AllocError>
    ensures { OnOk result (string_bytes text.new ≡ string_bytes text.old ++ list_question name.now) }
{
    text.push_str(" is '")?;
    text.push_str(name)?;
    text.push_str("' a list? write ")?;
    add_list_head(text, name)
}

/// Adds the head of an element of the list of this name.
fn add_list_head(text: &mut String, name: &str) -> Result<(), AllocError>
    ensures { OnOk result (string_bytes text.new ≡ string_bytes text.old ++ list_head name.now) }
{
    text.push_str("[[")?;
    text.push_str(name)?;
    text.push_str("]]")
}

/// A name as text. It takes no memory.
fn text_of(name: &[u8]) -> Result<&str, AllocError>
    ensures { IfOk result (λ text. text.now ≡ name.now) }
{
    match str::from_utf8(name) {
        Ok(text) => Ok(text),
        // The bytes of a head are ASCII.
        Err(_) => Err(AllocError),
    }
}

/// Whether the rest of a text begins with the head of the table of this name, and a line before it too.
fn stands_twice(alloc: Global, name: &[u8], before: &[u8], rest: &[u8]) -> Result<bool, AllocError>
    ensures { IfOk result (λ twice. twice ≡ stands_twice name.now before.now rest.now) }
{
    if name.is_empty() || name.len() > MOST_SHOWN {
        return Ok(false);
    }
    let head = head_of(alloc, name)?;
    Ok(rest.starts_with(head.as_slice()) && has_line_with(head.as_slice(), before))
}

/// The head of the table of this name.
fn head_of(alloc: Global, name: &[u8]) -> Result<Vec<u8>, AllocError>
    ensures { IfOk result (λ head. head.items ≡ head_of name.now) }
{
    let mut head = Vec::from_slice(alloc, b"[")?;
    head.extend_from_slice(name)?;
    head.extend_from_slice(b"]")?;
    Ok(head)
}

/// The name behind the bracket with which a text begins.
fn name_behind(text: &[u8]) -> &[u8]
    ensures { result.now ≡ name_behind text.now }
{
    match text {
        [_, rest @ ..] => head_part(rest),
        [] => &[],
    }
}

/// The bytes of a head with which a text begins.
fn head_part(text: &[u8]) -> &[u8]
    ensures { result.now ≡ head_part text.now }
{
    &text[..head_count(text)]
}

/// With how many bytes of a head a text begins.
fn head_count(text: &[u8]) -> usize
    ensures count { result ≡ prefix_len is_head_byte text.now }
    ensures within { result ≤ length text.now }
{
    text.iter().take_while(|byte| is_head_byte(**byte)).count()
}

/// Whether a byte is one of a key, or the dot.
fn is_head_byte(byte: u8) -> bool
    ensures { result ≡ is_head_byte byte }
{
    matches!(byte, b'A'..=b'Z' | b'a'..=b'z' | b'0'..=b'9' | b'_' | b'-' | b'.')
}

/// Whether a line of a text begins so.
fn has_line_with(start: &[u8], text: &[u8]) -> bool
    ensures { result ≡ has_line_with start.now text.now }
{
    text.starts_with(start) || has_line(start, text)
}

/// Whether a line of a text behind its first one begins so.
fn has_line(start: &[u8], text: &[u8]) -> bool
    ensures { result ≡ has_line start.now text.now }
{
    for n in 0..text.len() {
        if begins_line_behind(start, text, n) {
            return true;
        }
    }
    false
}

/// Whether byte `n` of a text ends a line, and what comes behind it begins so.
fn begins_line_behind(start: &[u8], text: &[u8], n: usize) -> bool
    requires { n < length text.now }
    ensures { result ≡ begins_line start.now (get_or text.now n 0) (drop (n + 1) text.now) }
{
    ends_line(text[n]) && text[n + 1..].starts_with(start)
}
