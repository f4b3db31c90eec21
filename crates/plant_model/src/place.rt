ghost use Rattle.std.specs.Prelude.{◌≡◌, IfOk, string_bytes};
ghost use Rattle.plant_model.specs.Place.{at, place_of, key_of};

use line_base::Text;
use std::alloc::{AllocError, Global};

/// A table of a plant file. Stages, machines and loops are numbered from 0 here, and from 1 in the text of a path.
#[derive(Clone, Copy)]
pub enum FileTable {
    /// The top of the file.
    Top,
    /// A stage.
    InStage(usize),
    /// A machine of a stage: the stage's number, then the machine's.
    InMachine(usize, usize),
    /// A loop.
    InLoop(usize),
}

/// The path of a table, as `stage[2].machine[1]`; that of the top is empty.
pub fn table_place(alloc: Global, table: FileTable) -> Result<Text, AllocError>
    ensures { IfOk result (λ place. place ≡ place_of table) }
{
    Ok(Text::from_string(write_table(alloc, table)?))
}

/// The path of a key of a table, as `stage[2].machine[1].time`.
pub fn key_place(alloc: Global, table: FileTable, key: &str) -> Result<Text, AllocError>
    ensures { IfOk result (λ place. place ≡ key_of table key.now) }
{
    Ok(Text::from_string(write_key(alloc, table, key)?))
}

/// The path of element `k` of a list at a key, counted from 0, as `demands[3]` where `k` is 2.
pub fn element_place(
    alloc: Global,
    table: FileTable,
    key: &str,
    k: usize,
) -> Result<Text, AllocError>
    ensures { IfOk result (λ place. place ≡ at (key_of table key.now) k) }
{
    let list = write_key(alloc, table, key)?;
    Ok(Text::from_string(write_element(alloc, &list, k)?))
}

/// The text of a table's path.
fn write_table(alloc: Global, table: FileTable) -> Result<String, AllocError>
    ensures { IfOk result (λ text. string_bytes text ≡ place_of table) }
{
    match table {
        FileTable::Top => Ok(String::new(alloc)),
        FileTable::InStage(i) => write_element(alloc, "stage", i),
        FileTable::InMachine(i, j) => {
            let stage = write_element(alloc, "stage", i)?;
            write_element(alloc, &format!(in alloc; "{stage}.machine")?, j)
        }
        FileTable::InLoop(k) => write_element(alloc, "loop", k),
    }
}

/// The text of a key's path.
fn write_key(alloc: Global, table: FileTable, key: &str) -> Result<String, AllocError>
    ensures { IfOk result (λ text. string_bytes text ≡ key_of table key.now) }
{
    if matches!(table, FileTable::Top) {
        return String::from_str(alloc, key);
    }
    let table = write_table(alloc, table)?;
    format!(in alloc; "{table}.{key}")
}

/// The text of the path of element `k` of a list.
fn write_element(alloc: Global, list: &str, k: usize) -> Result<String, AllocError>
    ensures { IfOk result (λ text. string_bytes text ≡ at list.now k) }
{
    let number = k as u128 + 1;
    format!(in alloc; "{list}[{number}]")
}
