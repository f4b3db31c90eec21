//! The walk over a plant file for one class of faults: each function finds all of the class in its part of the tree.
ghost use Rattle.std.specs.Prelude.{◌≡◌, IfOk};
ghost use Rattle.plant_model.specs.Place.{at, key_of};
ghost use Rattle.plant_model.specs.Refusals.{refuse_if};
ghost use Rattle.plant_model.specs.declared.error.PlantError.TheVariants.{Missing};
ghost use Rattle.plant_keys.specs.Classes.{limit_faults};
ghost use Rattle.plant_keys.specs.Code.{keys_of, key_of as key_seen, refusal};
ghost use Rattle.plant_keys.specs.Faults.{plain};
ghost use Rattle.plant_keys.specs.Found.{Finds};
ghost use Rattle.plant_keys.specs.Readers.{members_in};
ghost use Rattle.plant_keys.specs.Rules.{absence_refusals, unknown_key, unknown_keys};
ghost use Rattle.plant_keys.specs.Walk.{key_faults, keys_faults, table_faults, walk_faults, value_faults};
ghost use Rattle.toml.specs.View.{view, table_view};

use crate::allowed::is_allowed;
use crate::classes::{limit_of_numbers, passes, wants_of};
use crate::fault::{Fault, Wants};
use crate::faults::Faults;
use crate::keys::{Class, Key, has_stage_cards, loop_keys, machine_keys, stage_keys, top_keys};
use crate::rows::{Rows, find_in_rows};
use crate::rules::{may_be_number, shown_key};
use crate::values::{elements_of, tables_at, value_at};
use plant_model::{FileTable, PlantError, Text, element_place, key_place};
use std::alloc::{AllocError, Global};
use toml::Value;

/// Finds all that the class refuses of a plant file.
#[tactic(auto, unfolding(crate::specs::Walk::walk_faults))]
pub(crate) fn find_in_tree(class: Class, top: &Value, faults: &mut Faults)
    ensures { Finds faults.old faults.new (walk_faults class (view top.now)) }
{
    if faults.is_done() {
        return;
    }
    let whole = Table {
        class,
        place: FileTable::Top,
        value: top,
    };
    whole.find(&top_keys(top), faults);
    let with_cards = has_stage_cards(top);
    let stages = Stages { class, with_cards };
    find_in_rows(&stages, tables_at(top, "stage"), faults);
    find_in_rows(&Loops { class }, tables_at(top, "loop"), faults);
}

/// The search in stages, whose cards are required or not.
#[derive(Clone, Copy)]
struct Stages {
    class: Class,
    with_cards: bool,
}

/// The search in loops.
#[derive(Clone, Copy)]
struct Loops {
    class: Class,
}

/// The search in the machines of stage `i`.
#[derive(Clone, Copy)]
struct Machines {
    class: Class,
    i: usize,
}

/// A stage's keys, then its machines.
impl Rows for Stages {
    ghost use Rattle.plant_keys.specs.Walk.{stage_faults};

    ghost found = { λ stages. stage_faults stages.class stages.with_cards };

    fn find_in_row(&self, i: usize, value: &Value, faults: &mut Faults) {
        let class = self.class;
        let place = FileTable::InStage(i);
        let stage = Table {
            class,
            place,
            value,
        };
        stage.find(&stage_keys(self.with_cards), faults);
        find_in_rows(&Machines { class, i }, tables_at(value, "machine"), faults);
    }
}

impl Rows for Machines {
    ghost use Rattle.plant_keys.specs.Walk.{machine_faults};

    ghost found = { λ machines. machine_faults machines.class machines.i };

    fn find_in_row(&self, j: usize, value: &Value, faults: &mut Faults) {
        let machine = Table {
            class: self.class,
            place: FileTable::InMachine(self.i, j),
            value,
        };
        machine.find(&machine_keys(value), faults);
    }
}

impl Rows for Loops {
    ghost use Rattle.plant_keys.specs.Walk.{loop_faults};

    ghost found = { λ loops. loop_faults loops.class };

    fn find_in_row(&self, k: usize, value: &Value, faults: &mut Faults) {
        let class = self.class;
        let place = FileTable::InLoop(k);
        Table {
            class,
            place,
            value,
        }
        .find(&loop_keys(), faults);
    }
}

/// The search for all faults of a class in one table.
#[derive(Clone, Copy)]
struct Table<'a> {
    class: Class,
    place: FileTable,
    value: &'a Value,
}

impl<'a> Table<'a> {
    /// Finds what the class refuses of the table, which has these keys.
    fn find(&self, keys: &[Key], faults: &mut Faults)
        ensures { Finds faults.old faults.new
            (table_faults self.now.class self.now.place (view self.now.value.now) (keys_of keys.now)) }
    {
        match self.class {
            Class::UnknownKeys => self.find_unknown(keys, faults),
            Class::MissingKeys | Class::WrongTypes | Class::BadNames | Class::OutOfRanges => {
                self.find_in_keys(keys, faults)
            }
        }
    }

    /// Finds each key of the table that isn't one of these, or is excluded.
    fn find_unknown(&self, keys: &[Key], faults: &mut Faults)
        ensures { Finds faults.old faults.new
            (plain (unknown_keys self.now.place (keys_of keys.now) (members_in (view self.now.value.now)))) }
    {
        if let Some(members) = self.value.as_table() {
            find_members(self.place, members, keys, faults);
        }
    }

    /// Finds what the class refuses of these keys.
    fn find_in_keys(&self, keys: &[Key], faults: &mut Faults)
        ensures { Finds faults.old faults.new
            (keys_faults self.now.class self.now.place (view self.now.value.now) (keys_of keys.now)) }
    {
        for key in keys {
            self.find_at_key(key, faults);
        }
    }

    /// Finds what the class refuses of a key.
    fn find_at_key(&self, key: &Key, faults: &mut Faults)
        ensures { Finds faults.old faults.new
            (key_faults self.now.class self.now.place (view self.now.value.now) (key_seen key.now)) }
    {
        match value_at(self.value, key.name) {
            Some(found) => self.find_value(key, found, faults),
            None => self.find_absence(key, faults),
        }
    }

    /// Finds what the class refuses of a key that isn't there.
    fn find_absence(&self, key: &Key, faults: &mut Faults)
        ensures { Finds faults.old faults.new
            (plain (absence_refusals self.now.class key.now.required (key_of self.now.place key.now.name.now))) }
    {
        match self.class {
            Class::MissingKeys => self.find_missing(key, faults),
            Class::UnknownKeys | Class::WrongTypes | Class::BadNames | Class::OutOfRanges => {}
        }
    }

    /// Finds that a key is missing, if it has to be there.
    fn find_missing(&self, key: &Key, faults: &mut Faults)
        ensures { Finds faults.old faults.new
            (plain (refuse_if key.now.required (Missing (key_of self.now.place key.now.name.now)))) }
    {
        if key.required {
            let class = Class::MissingKeys;
            faults.add(fault_at(faults.alloc, class, self.place, key.name, Wants::Nothing));
        }
    }

    /// Finds what the class refuses of what stands at a key: that it doesn't pass, and each number of a list.
    fn find_value(&self, key: &Key, value: &Value, faults: &mut Faults)
        ensures { Finds faults.old faults.new (value_faults self.now.class key.now.kind
            (key_of self.now.place key.now.name.now) (view value.now)) }
    {
        if passes(self.class, key.kind, value) {
            return self.find_numbers(key, value, faults);
        }
        let wants = wants_of(self.class, key.kind, value);
        faults.add(fault_at(faults.alloc, self.class, self.place, key.name, wants));
    }

    /// Finds each number of a list that is outside its limits, where the class is that of limits.
    fn find_numbers(&self, key: &Key, value: &Value, faults: &mut Faults)
        ensures { Finds faults.old faults.new (limit_faults self.now.class key.now.kind
            (key_of self.now.place key.now.name.now) (view value.now)) }
    {
        if let Some(most) = limit_of_numbers(self.class, key.kind) {
            let numbers = Numbers {
                table: self.place,
                name: key.name,
                most,
            };
            find_in_rows(&numbers, elements_of(value), faults);
        }
    }
}

/// The numbers of a list at a key, from 0 to a limit.
#[derive(Clone, Copy)]
struct Numbers<'a> {
    table: FileTable,
    name: &'a str,
    most: u64,
}

impl<'a> Rows for Numbers<'a> {
    ghost use Rattle.plant_model.specs.Place.{key_of};
    ghost use Rattle.plant_keys.specs.Classes.{number_faults};

    ghost found = { λ numbers. number_faults numbers.most (key_of numbers.table numbers.name.now) };

    fn find_in_row(&self, k: usize, number: &Value, faults: &mut Faults) {
        if !may_be_number(number, 0, self.most) {
            faults.add(self.fault_of(faults.alloc, k));
        }
    }
}

impl<'a> Numbers<'a> {
    /// That number `k` of the list is outside its limits.
    fn fault_of(&self, alloc: Global, k: usize) -> Result<Fault, AllocError>
        ensures { IfOk result (λ fault. fault ≡ record {
          error = PlantError.OutOfRange (at (key_of self.now.table self.now.name.now) k);
          wants = Wants.Between 0 self.now.most;
        }) }
    {
        let place = element_place(alloc, self.table, self.name, k)?;
        let wants = Wants::Between {
            least: 0,
            most: self.most,
        };
        Ok(Fault {
            error: PlantError::OutOfRange { place },
            wants,
        })
    }
}

/// Finds each member of a table whose key isn't one of these, or is excluded.
fn find_members(table: FileTable, members: &toml::Table, keys: &[Key], faults: &mut Faults)
    ensures { Finds faults.old faults.new (plain (unknown_keys table (keys_of keys.now) (table_view members.now))) }
{
    for (name, _) in members {
        if faults.is_done() {
            return;
        }
        find_member(table, name.as_str(), keys, faults);
    }
}

/// Finds that a key isn't one of these, or is excluded.
fn find_member(table: FileTable, name: &str, keys: &[Key], faults: &mut Faults)
    ensures { Finds faults.old faults.new (plain (unknown_key table (keys_of keys.now) name.now)) }
{
    if !is_allowed(keys, name) {
        let key = shown_key(name);
        faults.add(fault_at(faults.alloc, Class::UnknownKeys, table, key, Wants::Nothing));
    }
}

/// That a class refuses what stands at a key, or that nothing does, with what is wanted there.
fn fault_at(
    alloc: Global,
    class: Class,
    table: FileTable,
    name: &str,
    wants: Wants,
) -> Result<Fault, AllocError>
    ensures { IfOk result (λ fault. fault
        ≡ record { error = refusal class (key_of table name.now); wants = wants }) }
{
    let error = refusal(class, key_place(alloc, table, name)?);
    Ok(Fault { error, wants })
}

/// The refusal of a class at a path.
fn refusal(class: Class, place: Text) -> PlantError
    ensures { result ≡ refusal class place }
{
    match class {
        Class::UnknownKeys => PlantError::UnknownKey { place },
        Class::MissingKeys => PlantError::Missing { place },
        Class::WrongTypes => PlantError::WrongType { place },
        Class::BadNames => PlantError::BadName { place },
        Class::OutOfRanges => PlantError::OutOfRange { place },
    }
}
