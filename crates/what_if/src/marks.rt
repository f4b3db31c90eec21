ghost use Rattle.std.specs.Int.{bit_at};
ghost use Rattle.std.specs.Prelude.{◌≡◌, ◌+◌, ◌≤◌, ◌<◌, ◌*◌, ◌^◌, ℕ, length, IfOk, MatchOption, slice_set, true, false};
ghost use Rattle.what_if.specs.Marks.{bits_of, is_at, count_of, HasNone, IsFirstFrom};

use std::alloc::{AllocError, Global};
use std::marker::Model;

/// A set of numbers below a fixed one, a bit each. Contracts see a list that says of each number whether it is marked.
#[derive(Drop)]
pub struct Marks {
    words: Vec<u64>,
    count: u64,
}

impl Model for Marks {
    ghost use Rattle.std.specs.Int.{bit_at};
    ghost use Rattle.std.specs.Prelude.{List, Bool};
    ghost use Rattle.what_if.specs.Marks.{bits_of, AreCounted};

    ghost Value = { List Bool };

    ghost view = { λ marks. bits_of marks.words.items };

    ghost invariant = { λ marks. AreCounted marks.words.items marks.count };
}

impl Marks {
    /// No mark, with room for the numbers below `size`.
    pub fn none(alloc: Global, size: u32) -> Result<Marks, AllocError>
        requires { size < 2 ^ 25 }
        ensures room { IfOk result (λ marks. size ≤ length marks) }
        ensures none { IfOk result (λ marks. (k : ℕ) → is_at marks k ≡ false) }
    {
        let words = vec![in alloc; 0; size as usize / 64 + 1]?;
        Ok(Marks { words, count: 0 })
    }

    /// Whether number `k` is marked.
    pub fn has(&self, k: u32) -> bool
        requires { k < length self.now }
        ensures { result ≡ is_at self.now k }
    {
        has_bit(&self.words, k)
    }

    /// How many numbers are marked.
    pub fn count(&self) -> u64
        ensures { result ≡ count_of self.now }
    {
        self.count
    }

    /// The first marked number from this one on, found 64 numbers a step.
    pub fn first_from(&self, from: u32) -> Option<u32>
        ensures { MatchOption result (HasNone self.now from (length self.now))
            (IsFirstFrom self.now from) }
    {
        first_bit(&self.words, from)
    }

    /// Marks number `k`.
    pub fn insert(&mut self, k: u32)
        requires { k < length self.old }
        ensures { self.new ≡ slice_set self.old k true }
    {
        if !has_bit(&self.words, k) {
            set_bit(&mut self.words, k);
            self.count += 1;
        }
    }

    /// Takes the mark of number `k` away.
    pub fn remove(&mut self, k: u32)
        requires { k < length self.old }
        ensures { self.new ≡ slice_set self.old k false }
    {
        if has_bit(&self.words, k) {
            clear_bit(&mut self.words, k);
            self.count -= 1;
        }
    }
}

/// Whether bit `k` of the words is set.
fn has_bit(words: &[u64], k: u32) -> bool
    requires { k < 64 * length words.now }
    ensures { result ≡ is_at (bits_of words.now) k }
{
    words[k as usize / 64] >> (k % 64) & 1 == 1
}

/// Sets bit `k` of the words.
fn set_bit(words: &mut Vec<u64>, k: u32)
    requires { k < 64 * length words.old.items }
    ensures bits { bits_of words.new.items ≡ slice_set (bits_of words.old.items) k true }
    ensures len { length words.new.items ≡ length words.old.items }
{
    let word = words[k as usize / 64];
    words[k as usize / 64] = word | 1 << (k % 64);
}

/// Clears bit `k` of the words.
fn clear_bit(words: &mut Vec<u64>, k: u32)
    requires { k < 64 * length words.old.items }
    ensures bits { bits_of words.new.items ≡ slice_set (bits_of words.old.items) k false }
    ensures len { length words.new.items ≡ length words.old.items }
{
    let word = words[k as usize / 64];
    words[k as usize / 64] = word & !(1 << (k % 64));
}

/// The lowest bit of a word that has one.
fn lowest_bit(word: u64) -> u32
    requires { 0 < word }
    ensures within { result < 64 }
    ensures set { bit_at word result ≡ 1 }
    ensures none_below { (i : ℕ) → i < result → bit_at word i ≡ 0 }
{
    word.trailing_zeros()
}

/// The bits of a word from this one on.
fn bits_from(word: u64, from: u32) -> u64
    requires { from < 64 }
    ensures kept { (i : ℕ) → from ≤ i → i < 64 → bit_at result i ≡ bit_at word i }
    ensures cleared { (i : ℕ) → i < from → bit_at result i ≡ 0 }
{
    word & u64::MAX << from
}

/// The first bit from this one on that is set.
fn first_bit(words: &[u64], from: u32) -> Option<u32>
    requires { 64 * length words.now ≤ 2 ^ 26 }
    ensures { MatchOption result (HasNone (bits_of words.now) from (64 * length words.now))
        (IsFirstFrom (bits_of words.now) from) }
{
    let at = from as usize / 64;
    if at >= words.len() {
        return None;
    }
    let rest = bits_from(words[at], from % 64);
    if rest != 0 {
        return Some(64 * at as u32 + lowest_bit(rest));
    }
    first_bit_of_rest(words, from, at + 1)
}

/// The first bit of the words from this one on, where the bits before them, from `from` on, are not set.
fn first_bit_of_rest(words: &[u64], from: u32, at: usize) -> Option<u32>
    requires few { 64 * length words.now ≤ 2 ^ 26 }
    requires there { at ≤ length words.now }
    requires before { from ≤ 64 * at }
    requires none { HasNone (bits_of words.now) from (64 * at) }
    ensures { MatchOption result (HasNone (bits_of words.now) from (64 * length words.now))
        (IsFirstFrom (bits_of words.now) from) }
{
    for k in at..words.len() {
        if words[k] != 0 {
            return Some(64 * k as u32 + lowest_bit(words[k]));
        }
    }
    None
}
