//! The lines of a text: where the first one ends, and what stands behind it.
ghost use Rattle.std.specs.List.{position_or_len};
ghost use Rattle.std.specs.Prelude.{◌≡◌, ◌==◌, ◌≤◌, length, take, drop};
ghost use Rattle.std.specs.Str.Lines.{strip_carriage_return};

/// How many bytes of a text stand before the first that is this one: all, where none is. A line ends before a line
/// feed, a word before a space.
pub fn end_before(text: &[u8], stop: u8) -> usize
    ensures { result ≡ position_or_len (λ byte. byte == stop) text.now }
{
    text.iter()
        .position(|byte| *byte == stop)
        .unwrap_or(text.len())
}

/// The first bytes of a text.
pub fn prefix(text: &[u8], count: usize) -> &[u8]
    requires { count ≤ length text.now }
    ensures { result.now ≡ take count text.now }
{
    &text[..count]
}

/// What stands behind the first bytes of a text.
pub fn behind(text: &[u8], count: usize) -> &[u8]
    requires { count ≤ length text.now }
    ensures { result.now ≡ drop count text.now }
{
    &text[count..]
}

/// A line without the carriage return that may stand at its end.
pub fn without_return(line: &[u8]) -> &[u8]
    ensures { result.now ≡ strip_carriage_return line.now }
{
    line.strip_suffix(b"\r").unwrap_or(line)
}
