//! Which keys a table of a plant file may have, and which of them was meant.

use super::nearest::nearest_name;
use super::places::{FileTable, table_of};
use plant_keys::{Key, has, loop_keys, machine_keys, stage_keys, tables_at, top_keys};
use std::alloc::{AllocError, Global};
use toml::Value;

/// What is said of a key that its table doesn't have, by the bytes of the plant file and the path of the key: the key
/// that was meant, where one is near, and all that such a table may have.
pub fn key_advice(alloc: Global, bytes: &[u8], path: &str) -> Result<String, AllocError> {
    let Ok(table) = toml::table_from_slice(alloc, bytes) else {
        return Ok(String::new(alloc));
    };
    let top = Value::Table(table);
    let Some((place, key)) = table_of(path) else {
        return Ok(String::new(alloc));
    };
    match (place, table_at(&top, place)) {
        (FileTable::Top, _) => advice(alloc, "at the top", &top_keys(&top), &top, key),
        (FileTable::Stage(_), Some(stage)) => {
            advice(alloc, "of a stage", &stage_keys(false), stage, key)
        }
        (FileTable::Machine(_, _), Some(machine)) => {
            advice(alloc, "of a machine", &machine_keys(machine), machine, key)
        }
        (FileTable::Loop(_), Some(table)) => advice(alloc, "of a loop", &loop_keys(), table, key),
        _ => Ok(String::new(alloc)),
    }
}

/// The table that stands at a place of a tree.
fn table_at(top: &Value, place: FileTable) -> Option<&Value> {
    match place {
        FileTable::Top => Some(top),
        FileTable::Stage(stage) => nth(tables_at(top, "stage"), stage),
        FileTable::Machine(stage, machine) => {
            let stage = nth(tables_at(top, "stage"), stage)?;
            nth(tables_at(stage, "machine"), machine)
        }
        FileTable::Loop(number) => nth(tables_at(top, "loop"), number),
        FileTable::Other => None,
    }
}

/// A table of a list by its number, from 1.
fn nth(tables: &[Value], number: usize) -> Option<&Value> {
    tables.get(number.checked_sub(1)?)
}

/// What is said of a key that a table with these keys doesn't have.
fn advice(
    alloc: Global,
    whose: &str,
    keys: &[Key],
    table: &Value,
    word: &str,
) -> Result<String, AllocError> {
    if keys.iter().any(|key| key.name == word) {
        return String::from_str(
            alloc,
            "; another key of the table excludes it, or one that it needs isn't there",
        );
    }
    let names = names_of(alloc, keys)?;
    let mut absent = Vec::new(alloc);
    for name in &names {
        if !has(table, name) {
            absent.push(*name)?;
        }
    }
    let all = names.join(alloc, ", ")?;
    match nearest_name(alloc, absent.as_slice(), word)? {
        Some(near) => format!(in alloc; ", did you mean '{near}'? The keys {whose}: {all}"),
        None => format!(in alloc; "; the keys {whose}: {all}"),
    }
}

/// The names of keys, in their order.
fn names_of(alloc: Global, keys: &[Key]) -> Result<Vec<&'static str>, AllocError> {
    let mut names = Vec::new(alloc);
    for key in keys {
        names.push(key.name)?;
    }
    Ok(names)
}
