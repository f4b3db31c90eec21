ghost use Rattle.std.specs.List.{list_any};
ghost use Rattle.std.specs.Prelude.{◌≡◌, map, codes};
ghost use Rattle.plant_keys.specs.Code.{key_of};
ghost use Rattle.plant_keys.specs.Keys.{optional, required_if, required_key, choice, has_stage_cards, has_line_cards, stage_has_column, has_column, top_keys, stage_keys, machine_keys, loop_keys};
ghost use Rattle.plant_keys.specs.Readers.{has};
ghost use Rattle.toml.specs.View.{view};

use crate::values::{has, tables_at, text_at};
use line_base::{MAX_CARDS, MAX_COLUMN, MAX_DEMAND_DATE, MAX_OBSERVE_DATE, MAX_TIME};
use toml::Value;

/// What stands at a key of a plant file.
#[derive(Clone, Copy)]
pub enum Kind {
    /// One of the four words for a policy.
    PolicyWord,
    /// The name of a stage, which is not a reserved one.
    StageName,
    /// The name of a machine.
    MachineName,
    /// The name of a file that is no checkpoint.
    FileName,
    /// The name of another stage.
    StageReference,
    /// A whole number between its limits.
    Number { least: u64, most: u64 },
    /// A list of whole numbers from 0 to a limit, empty only where it may be.
    Numbers { most: u64, may_be_empty: bool },
    /// A list of tables, empty only where it may be.
    Tables { may_be_empty: bool },
}

/// Which of the refusals that a single key may meet is tried.
#[derive(Clone, Copy, PartialEq, Eq)]
pub enum Class {
    /// 2: a key is none of its table's, or may not be there beside the others, or without one of them.
    UnknownKeys,
    /// 3: a required key isn't there.
    MissingKeys,
    /// 4: a value is of another kind than its key's.
    WrongTypes,
    /// 5: a name breaks its rule.
    BadNames,
    /// 7: a number is outside its limits, the policy is none of the four words, or a list is empty that may not be.
    OutOfRanges,
}

/// A key of a table.
#[derive(Clone, Copy)]
pub struct Key {
    /// Its name.
    pub name: &'static str,
    /// What stands there.
    pub kind: Kind,
    /// Whether it has to be there.
    pub required: bool,
    /// Whether it may not be there: another key of the table excludes it, or one that it needs isn't there.
    pub excluded: bool,
}

/// A number of cards, of stock or of servers.
const COUNT: Kind = Kind::Number {
    least: 0,
    most: MAX_CARDS as u64,
};

/// A length of time.
const TIME: Kind = Kind::Number {
    least: 0,
    most: MAX_TIME,
};

/// The number of a column.
const COLUMN: Kind = Kind::Number {
    least: 1,
    most: MAX_COLUMN as u64,
};

/// Demand dates, at least one.
const DATES: Kind = Kind::Numbers {
    most: MAX_DEMAND_DATE,
    may_be_empty: false,
};

/// Dates at which the line is looked at.
const OBSERVED: Kind = Kind::Numbers {
    most: MAX_OBSERVE_DATE,
    may_be_empty: true,
};

/// Job times, one a job.
const TIMES: Kind = Kind::Numbers {
    most: MAX_TIME,
    may_be_empty: true,
};

/// Stages, or machines, at least one.
const TABLES: Kind = Kind::Tables {
    may_be_empty: false,
};

/// A key that may be absent.
fn optional(name: &'static str, kind: Kind) -> Key
    ensures { key_of result ≡ optional name.now kind }
{
    choice(name, kind, false, false)
}

/// A key that has to be there where `test` holds.
fn required_if(test: bool, name: &'static str, kind: Kind) -> Key
    ensures { key_of result ≡ required_if test name.now kind }
{
    choice(name, kind, test, false)
}

/// A key that has to be there.
fn required_key(name: &'static str, kind: Kind) -> Key
    ensures { key_of result ≡ required_key name.now kind }
{
    choice(name, kind, true, false)
}

/// A key that has to be there where `required` holds, and may not be where `excluded` does.
fn choice(name: &'static str, kind: Kind, required: bool, excluded: bool) -> Key
    ensures { key_of result ≡ choice required excluded name.now kind }
{
    Key {
        name,
        kind,
        required,
        excluded,
    }
}

/// The keys of a stage, in byte order. Its cards are required where the policy gives each stage cards.
pub fn stage_keys(with_cards: bool) -> [Key; 7]
    ensures { map key_of result ≡ stage_keys with_cards }
{
    [
        optional("card_time", TIME),
        required_if(with_cards, "cards", COUNT),
        optional("feeds", Kind::StageReference),
        required_key("machine", TABLES),
        required_key("name", Kind::StageName),
        optional("stock", COUNT),
        optional("travel", TIME),
    ]
}

/// Whether the policy gives each stage cards of its own.
pub fn has_stage_cards(top: &Value) -> bool
    ensures { result ≡ has_stage_cards (view top.now) }
{
    let policy = text_at(top, "policy");
    policy == "kanban" || policy == "extended"
}

/// Whether the policy gives the line cards.
pub fn has_line_cards(top: &Value) -> bool
    ensures { result ≡ has_line_cards (view top.now) }
{
    text_at(top, "policy") == "conwip"
}

/// Whether a machine names a column of the times file.
#[tactic(auto, using(crate::proofs::ValueLists::list_any_views))]
pub fn has_column(top: &Value) -> bool
    ensures { result ≡ has_column (view top.now) }
{
    any_stage_has_column(tables_at(top, "stage"))
}

/// Whether a machine of one of these stages names a column.
fn any_stage_has_column(stages: &[Value]) -> bool
    ensures { result ≡ list_any (λ s. stage_has_column (view s)) stages.now }
{
    for stage in stages {
        if stage_has_column(stage) {
            return true;
        }
    }
    false
}

/// Whether a machine of a stage names a column.
#[tactic(auto, using(crate::proofs::ValueLists::list_any_views))]
fn stage_has_column(stage: &Value) -> bool
    ensures { result ≡ stage_has_column (view stage.now) }
{
    any_has_column(tables_at(stage, "machine"))
}

/// Whether one of these machines names a column.
fn any_has_column(machines: &[Value]) -> bool
    ensures { result ≡ list_any (λ m. has (codes "column") (view m)) machines.now }
{
    for machine in machines {
        if has(machine, "column") {
            return true;
        }
    }
    false
}

/// The keys at the top, in byte order. The column of the demand file stays only where that file is named.
pub fn top_keys(top: &Value) -> [Key; 10]
    ensures { map key_of result ≡ top_keys (view top.now) }
{
    let has_dates = has(top, "demands");
    let has_file = has(top, "demands_file");
    let with_cards = has_line_cards(top);
    let with_column = has_column(top);
    [
        optional("card_time", TIME),
        required_if(with_cards, "cards", COUNT),
        required_if(!has_file, "demands", DATES),
        choice("demands_column", COLUMN, false, !has_file),
        choice("demands_file", Kind::FileName, false, has_dates),
        optional("loop", Kind::Tables { may_be_empty: true }),
        optional("observe", OBSERVED),
        required_key("policy", Kind::PolicyWord),
        required_key("stage", TABLES),
        required_if(with_column, "times_file", Kind::FileName),
    ]
}

/// The keys of a machine, in byte order. Of `column`, `time` and `times` the first that is there stays.
pub fn machine_keys(machine: &Value) -> [Key; 5]
    ensures { map key_of result ≡ machine_keys (view machine.now) }
{
    let column = has(machine, "column");
    let time = has(machine, "time");
    let times = has(machine, "times");
    let needs_time = !(column || times);
    let bars_times = column || time;
    [
        optional("column", COLUMN),
        required_key("name", Kind::MachineName),
        optional("servers", COUNT),
        choice("time", TIME, needs_time, column),
        choice("times", TIMES, false, bars_times),
    ]
}

/// The keys of a loop, in byte order.
pub fn loop_keys() -> [Key; 4]
    ensures { map key_of result ≡ loop_keys }
{
    [
        optional("card_time", TIME),
        required_key("cards", COUNT),
        required_key("from", Kind::StageReference),
        required_key("to", Kind::StageReference),
    ]
}
