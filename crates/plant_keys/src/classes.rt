//! What a class of refusals asks of the value at a key, what it wants there, and what it says where it refuses.
ghost use Rattle.std.specs.Prelude.{◌≡◌, if◌then◌else◌};
ghost use Rattle.plant_keys.specs.Code.{views};
ghost use Rattle.plant_keys.specs.Readers.{is_filled};
ghost use Rattle.plant_keys.specs.Classes.{passes, is_in_range, limit_of_numbers, limit_in};
ghost use Rattle.plant_keys.specs.Faults.{wants_of, wanted_name, wanted_range, wanted_type};
ghost use Rattle.toml.specs.View.{view};

use crate::fault::Wants;
use crate::keys::{Class, Kind};
use crate::rules::{has_kind, has_right_size, is_policy, keeps_name_rule, may_be_number};
use crate::values::{elements_of, tables_of, text_of};
use plant_model::is_reserved;
use toml::Value;

/// Whether what stands at a key passes a class. The numbers of a list are asked one by one after that.
pub(crate) fn passes(class: Class, kind: Kind, value: &Value) -> bool
    ensures { result ≡ passes class kind (view value.now) }
{
    match class {
        Class::UnknownKeys | Class::MissingKeys => true,
        Class::WrongTypes => has_kind(kind, value),
        Class::BadNames => keeps_name_rule(kind, text_of(value)),
        Class::OutOfRanges => is_in_range(kind, value),
    }
}

/// Whether what stands at a key is within its limits.
fn is_in_range(kind: Kind, value: &Value) -> bool
    ensures { result ≡ is_in_range kind (view value.now) }
{
    match kind {
        Kind::PolicyWord => is_policy(text_of(value)),
        Kind::StageName | Kind::MachineName | Kind::FileName | Kind::StageReference => true,
        Kind::Number { least, most } => may_be_number(value, least, most),
        Kind::Numbers { may_be_empty, .. } => has_right_size(may_be_empty, elements_of(value)),
        Kind::Tables { may_be_empty } => has_right_size(may_be_empty, tables_of(value)),
    }
}

/// The limit of each number of a list, where the class is that of limits.
pub(crate) fn limit_of_numbers(class: Class, kind: Kind) -> Option<u64>
    ensures { result ≡ limit_of_numbers class kind }
{
    match class {
        Class::OutOfRanges => limit_in(kind),
        Class::UnknownKeys | Class::MissingKeys | Class::WrongTypes | Class::BadNames => None,
    }
}

/// The limit of each number of a list.
fn limit_in(kind: Kind) -> Option<u64>
    ensures { result ≡ limit_in kind }
{
    match kind {
        Kind::Numbers { most, .. } => Some(most),
        Kind::PolicyWord
        | Kind::StageName
        | Kind::MachineName
        | Kind::FileName
        | Kind::StageReference
        | Kind::Number { .. }
        | Kind::Tables { .. } => None,
    }
}

/// What is wanted where a class refuses what stands at a key.
pub(crate) fn wants_of(class: Class, kind: Kind, value: &Value) -> Wants
    ensures { result ≡ wants_of class kind (view value.now) }
{
    match class {
        Class::UnknownKeys | Class::MissingKeys => Wants::Nothing,
        Class::WrongTypes => wanted_type(kind),
        Class::BadNames => wanted_name(kind, text_of(value)),
        Class::OutOfRanges => wanted_range(kind, value),
    }
}

/// What a value of a kind has to be.
fn wanted_type(kind: Kind) -> Wants
    ensures { result ≡ wanted_type kind }
{
    match kind {
        Kind::PolicyWord
        | Kind::StageName
        | Kind::MachineName
        | Kind::FileName
        | Kind::StageReference => Wants::AText,
        Kind::Number { .. } => Wants::ANumber,
        Kind::Numbers { .. } => Wants::ListOfNumbers,
        Kind::Tables { .. } => Wants::ListOfTables,
    }
}

/// What a name of a kind has to be, where this text stands.
fn wanted_name(kind: Kind, text: &str) -> Wants
    ensures { result ≡ wanted_name kind text.now }
{
    match kind {
        Kind::StageName if is_reserved(text.as_bytes()) => Wants::FreeName,
        Kind::StageName | Kind::MachineName => Wants::AName,
        Kind::FileName => Wants::AFileName,
        Kind::PolicyWord
        | Kind::StageReference
        | Kind::Number { .. }
        | Kind::Numbers { .. }
        | Kind::Tables { .. } => Wants::Nothing,
    }
}

/// Within which limits a value of a kind has to be, where this value stands.
fn wanted_range(kind: Kind, value: &Value) -> Wants
    ensures { result ≡ wanted_range kind (view value.now) }
{
    match kind {
        Kind::PolicyWord => Wants::APolicy,
        Kind::StageName | Kind::MachineName | Kind::FileName | Kind::StageReference =>
            Wants::Nothing,
        Kind::Number { least, most } => Wants::Between { least, most },
        Kind::Numbers { most, .. } => wanted_numbers(most, elements_of(value)),
        Kind::Tables { .. } => Wants::AnElement,
    }
}

/// Within which limits the numbers of a list have to be; where there is none, one.
fn wanted_numbers(most: u64, numbers: &[Value]) -> Wants
    ensures { result ≡ (if is_filled (views numbers.now) then Wants.Between 0 most else Wants.AnElement) }
{
    if numbers.is_empty() {
        Wants::AnElement
    } else {
        Wants::Between { least: 0, most }
    }
}
