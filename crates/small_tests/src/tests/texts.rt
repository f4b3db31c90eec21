/// What is written or saved one after the other.
pub const TEXTS: [&[u8]; 3] = [b"hello", b"world", b"again"];

/// What a file of a store holds before.
pub const OLD: &[u8] = b"old";

/// Stands for the rank of bytes that are none of the texts.
pub const NO_TEXT: usize = 9;

/// The rank of these bytes among the texts, 3 for `OLD`, or `NO_TEXT` for any others.
pub fn rank_among(bytes: &[u8]) -> usize {
    for (text, rank) in &[(TEXTS[0], 0), (TEXTS[1], 1), (TEXTS[2], 2), (OLD, 3)] {
        if bytes == *text {
            return *rank;
        }
    }
    NO_TEXT
}
