ghost use Rattle.std.specs.List.{list_all};
ghost use Rattle.std.specs.Prelude.{◌≡◌, ◌≤◌, IsTrue, IfOk, IsErrOf, ◌↔◌, false};
ghost use Rattle.line_base.specs.Text.{is_between, is_letter, is_name_byte, is_file_byte, is_name, is_label, ends_in_ckpt, may_name_file, is_own_file, is_file_name, is_checkpoint_name};

use std::alloc::{AllocError, Global};
use std::marker::Model;

/// The name of a stage or of a machine: 1 to 24 characters of `a-z 0-9 _ -`, the first a letter.
#[derive(Drop)]
pub struct Name {
    text: Vec<u8>,
}

impl Model for Name {
    ghost use Rattle.std.specs.Prelude.{List, ℕ, IsTrue};
    ghost use Rattle.line_base.specs.Text.{is_name};

    ghost Value = { List ℕ };

    ghost view = { λ name. name.text.items };

    ghost invariant = { λ name. IsTrue (is_name name.text.items) };
}

/// Why a text gave no name.
#[derive(Clone, Copy)]
pub enum NameError {
    /// The text breaks the rule of names.
    BadName,
    /// Memory ran out.
    NoMemory,
}

impl Name {
    /// The name with this text. `BadName` comes exactly where the text breaks the rule of names.
    pub fn of(alloc: Global, text: &[u8]) -> Result<Self, NameError>
        ensures named { IfOk result (λ name. name ≡ text.now) }
        ensures refused { IsErrOf result NameError.BadName ↔ (is_name text.now ≡ false) }
    {
        if !is_name(text) {
            return Err(NameError::BadName);
        }
        match Vec::from_slice(alloc, text) {
            Ok(text) => Ok(Name { text }),
            Err(_) => Err(NameError::NoMemory),
        }
    }

    /// A copy of the name.
    pub fn copy(&self, alloc: Global) -> Result<Self, AllocError>
        ensures { IfOk result (λ copy. copy ≡ self.now) }
    {
        Ok(Name {
            text: Vec::from_slice(alloc, self.text.as_slice())?,
        })
    }

    /// The text of the name, in ASCII.
    pub fn text(&self) -> &[u8]
        ensures text { result.now ≡ self.now }
        ensures rule { IsTrue (is_name result.now) }
    {
        self.text.as_slice()
    }
}

/// The label of a station as reports show it: 1 to 49 bytes from 33 to 126.
#[derive(Drop)]
pub struct Label {
    text: Vec<u8>,
}

impl Model for Label {
    ghost use Rattle.std.specs.Prelude.{List, ℕ, IsTrue};
    ghost use Rattle.line_base.specs.Text.{is_label};

    ghost Value = { List ℕ };

    ghost view = { λ label. label.text.items };

    ghost invariant = { λ label. IsTrue (is_label label.text.items) };
}

impl Label {
    /// The label with this text.
    pub fn of(alloc: Global, text: &[u8]) -> Result<Self, AllocError>
        requires { IsTrue (is_label text.now) }
        ensures { IfOk result (λ label. label ≡ text.now) }
    {
        Ok(Label {
            text: Vec::from_slice(alloc, text)?,
        })
    }

    /// The text of the label, in ASCII.
    pub fn text(&self) -> &[u8]
        ensures text { result.now ≡ self.now }
        ensures rule { IsTrue (is_label result.now) }
    {
        self.text.as_slice()
    }
}

/// Whether a text is a name: 1 to 24 characters of `a-z 0-9 _ -`, the first a letter.
pub fn is_name(text: &[u8]) -> bool
    ensures { result ≡ is_name text.now }
{
    let [first, ..] = text else {
        return false;
    };
    text.len() <= 24 && first.is_ascii_lowercase() && has_name_bytes(text)
}

/// Whether each byte of a text may stand in a name.
fn has_name_bytes(text: &[u8]) -> bool
    ensures { result ≡ list_all is_name_byte text.now }
{
    text.iter().all(|byte| is_name_byte(*byte))
}

/// Whether a byte may stand in a name.
fn is_name_byte(byte: u8) -> bool
    ensures { result ≡ is_name_byte byte }
{
    matches!(byte, b'a'..=b'z' | b'0'..=b'9' | b'_' | b'-')
}

/// Whether a text may name a file of any kind: 1 to 255 bytes, none below 32 and none 127, the first no `-`.
fn may_name_file(text: &[u8]) -> bool
    ensures { result ≡ may_name_file text.now }
{
    let [first, ..] = text else {
        return false;
    };
    text.len() <= 255 && *first != b'-' && has_file_bytes(text)
}

/// Whether each byte of a text may stand in a file's name.
fn has_file_bytes(text: &[u8]) -> bool
    ensures { result ≡ list_all is_file_byte text.now }
{
    text.iter().all(|byte| *byte >= 32 && *byte != 127)
}

/// Whether a text names a file that runs make for themselves, also in a folder: the spare that a checkpoint is written
/// into first, which ends in `.ckpt.new`, and the file of the slots, `pull.slots`.
fn is_own_file(text: &[u8]) -> bool
    ensures { result ≡ is_own_file text.now }
{
    text.ends_with(b".ckpt.new")
        || text == b"pull.slots".as_slice()
        || text.ends_with(b"/pull.slots")
}

/// Whether a text names a plant, csv, schedule or edits file: a file name that doesn't end in `.ckpt`, and that is no
/// name of a file that runs make for themselves (`.ckpt.new`, `pull.slots`).
pub fn is_file_name(text: &[u8]) -> bool
    ensures { result ≡ is_file_name text.now }
{
    may_name_file(text) && !text.ends_with(b".ckpt") && !is_own_file(text)
}

/// Whether a text names a checkpoint: a file name that ends in `.ckpt`.
pub fn is_checkpoint_name(text: &[u8]) -> bool
    ensures { result ≡ is_checkpoint_name text.now }
{
    may_name_file(text) && text.ends_with(b".ckpt")
}
