ghost use Rattle.std.specs.List.{list_all};
ghost use Rattle.std.specs.Prelude.{◌≡◌, ◌||◌};
ghost use Rattle.plant_keys.specs.Code.{views};
ghost use Rattle.plant_keys.specs.Readers.{is_filled};
ghost use Rattle.plant_keys.specs.Rules.{has_kind, keeps_name_rule, is_policy, is_plain, may_be_number, shown_key};
ghost use Rattle.toml.specs.View.{view};

use crate::keys::Kind;
use crate::values::{Element, is_list_of, is_within};
use line_base::{is_file_name, is_name};
use plant_model::is_reserved;
use toml::Value;

/// Whether a value is of a kind.
pub(crate) fn has_kind(kind: Kind, value: &Value) -> bool
    ensures { result ≡ has_kind kind (view value.now) }
{
    match kind {
        Kind::PolicyWord
        | Kind::StageName
        | Kind::MachineName
        | Kind::FileName
        | Kind::StageReference => value.is_str(),
        Kind::Number { .. } => value.is_integer(),
        Kind::Numbers { .. } => is_list_of(Element::Number, value),
        Kind::Tables { .. } => is_list_of(Element::Table, value),
    }
}

/// Whether a list has an element, or needs none.
pub(crate) fn has_right_size(may_be_empty: bool, elements: &[Value]) -> bool
    ensures { result ≡ (may_be_empty || is_filled (views elements.now)) }
{
    may_be_empty || !elements.is_empty()
}

/// Whether a value, if it is a whole number, is one within limits.
pub(crate) fn may_be_number(value: &Value, least: u64, most: u64) -> bool
    ensures { result ≡ may_be_number least most (view value.now) }
{
    match value.as_integer() {
        Some(number) => is_within(number, least, most),
        None => true,
    }
}

/// Whether a text keeps the rule of what it names.
pub(crate) fn keeps_name_rule(kind: Kind, text: &str) -> bool
    ensures { result ≡ keeps_name_rule kind text.now }
{
    let text = text.as_bytes();
    match kind {
        Kind::StageName => is_name(text) && !is_reserved(text),
        Kind::MachineName => is_name(text),
        Kind::FileName => is_file_name(text),
        Kind::PolicyWord
        | Kind::StageReference
        | Kind::Number { .. }
        | Kind::Numbers { .. }
        | Kind::Tables { .. } => true,
    }
}

/// Whether a text is one of the four words for a policy.
pub(crate) fn is_policy(word: &str) -> bool
    ensures { result ≡ is_policy word.now }
{
    matches!(word, "kanban" | "conwip" | "base-stock" | "extended")
}

/// A key as paths show it: one that has a character other than `A-Z a-z 0-9 _ -` is a question mark.
pub(crate) fn shown_key(key: &str) -> &str
    ensures { result.now ≡ shown_key key.now }
{
    if has_plain_bytes(key.as_bytes()) {
        key
    } else {
        "?"
    }
}

/// Whether each byte of a key can be shown.
fn has_plain_bytes(key: &[u8]) -> bool
    ensures { result ≡ list_all is_plain key.now }
{
    for byte in key {
        if !is_plain(*byte) {
            return false;
        }
    }
    true
}

/// Whether a byte of a key can be shown.
fn is_plain(byte: u8) -> bool
    ensures { result ≡ is_plain byte }
{
    matches!(byte, b'A'..=b'Z' | b'a'..=b'z' | b'0'..=b'9' | b'_' | b'-')
}
