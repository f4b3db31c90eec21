//! Words as they can be shown on one line.

/// The most bytes of a word that is shown.
const MAX_SHOWN: usize = 255;

/// Whether a word can be shown as it is.
pub fn is_plain(word: &str) -> bool {
    !word.is_empty()
        && word.len() <= MAX_SHOWN
        && word.bytes().all(|byte| byte >= 32 && byte != 127)
}

/// A word where it can be shown as it is, else a question mark.
pub fn shown(word: &str) -> &str {
    if is_plain(word) { word } else { "?" }
}
