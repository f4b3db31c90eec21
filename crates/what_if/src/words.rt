ghost use Rattle.std.specs.Prelude.{MatchOption};
ghost use Rattle.what_if.specs.Edits.{IsSplit, HasNoSpace};

use line_core::{behind, end_before, prefix};

/// The word before the first space of a text, and what stands behind that space.
pub fn split_word(text: &[u8]) -> Option<(&[u8], &[u8])>
    ensures { MatchOption result (HasNoSpace text.now)
        (λ parts. IsSplit text.now parts.0.now parts.1.now) }
{
    let end = end_before(text, b' ');
    if end == text.len() {
        return None;
    }
    Some((prefix(text, end), behind(text, end + 1)))
}
