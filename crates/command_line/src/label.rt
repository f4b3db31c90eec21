ghost use Rattle.std.specs.List.{list_all};
ghost use Rattle.std.specs.Prelude.{◌≡◌};
ghost use Rattle.command_line.specs.Labels.{is_label_byte, is_label_word};

/// The most characters of the label of a station: a stage's name, a dot, and a machine's name.
const MAX_LABEL_BYTES: usize = 49;

/// Whether a word may be the label of a station: 1 to 49 characters of `a-z 0-9 _ - .`.
pub fn is_label_word(word: &[u8]) -> bool
    ensures { result ≡ is_label_word word.now }
{
    !word.is_empty() && word.len() <= MAX_LABEL_BYTES && has_label_bytes(word)
}

/// Whether each byte of a word may stand in a label.
fn has_label_bytes(word: &[u8]) -> bool
    ensures { result ≡ list_all is_label_byte word.now }
{
    word.iter().all(|byte| is_in_labels(*byte))
}

/// Whether a byte may stand in a label.
fn is_in_labels(byte: u8) -> bool
    ensures { result ≡ is_label_byte byte }
{
    matches!(byte, b'a'..=b'z' | b'0'..=b'9' | b'_' | b'-' | b'.')
}
