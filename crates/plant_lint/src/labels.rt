//! The names of the stage and of the machine in whose table a path stands.
ghost use Rattle.std.specs.Option.{option_map_or};
ghost use Rattle.std.specs.Prelude.{◌≡◌, ◌++◌, [], IfOk, OnOk, option_map, slice_get, string_bytes, codes};
ghost use Rattle.plant_keys.specs.Code.{views};
ghost use Rattle.plant_keys.specs.Readers.{tables_at};
ghost use Rattle.plant_lint.specs.Labels.{dotted, file_label, in_brackets, known_name, plant_label, row_machines, row_name};
ghost use Rattle.plant_model.specs.Line.{machine_at, stage_at};
ghost use Rattle.toml.specs.View.{view};

use line_base::{Name, is_name};
use plant_keys::{tables_at, text_at};
use plant_model::{FileTable, Plant};
use std::alloc::AllocError;
use toml::Value;

/// Adds the names of a table, where these are the stages of the file.
pub(crate) fn add_file_label(
    text: &mut String,
    stages: &[Value],
    table: FileTable,
) -> Result<(), AllocError>
    ensures { OnOk result (string_bytes text.new ≡ string_bytes text.old ++ file_label (views stages.now) table) }
{
    match table {
        FileTable::Top | FileTable::InLoop(_) => Ok(()),
        FileTable::InStage(i) => add_in_brackets(text, row_name(stages, i), ""),
        FileTable::InMachine(i, j) => {
            let machine = row_name(row_machines(stages, i), j);
            add_in_brackets(text, row_name(stages, i), machine)
        }
    }
}

/// Adds the names of a table of a plant.
pub(crate) fn add_plant_label(
    text: &mut String,
    plant: &Plant,
    table: FileTable,
) -> Result<(), AllocError>
    ensures { OnOk result (string_bytes text.new ≡ string_bytes text.old ++ plant_label plant.now table) }
{
    match table {
        FileTable::Top | FileTable::InLoop(_) => Ok(()),
        FileTable::InStage(i) => add_in_brackets(text, stage_name(plant, i)?, ""),
        FileTable::InMachine(i, j) => {
            let machine = machine_name(plant, i, j)?;
            add_in_brackets(text, stage_name(plant, i)?, machine)
        }
    }
}

/// Adds the names of a stage and of a machine in brackets, if the stage has one.
fn add_in_brackets(text: &mut String, stage: &str, machine: &str) -> Result<(), AllocError>
    ensures { OnOk result (string_bytes text.new ≡ string_bytes text.old ++ in_brackets stage.now machine.now) }
{
    if stage.is_empty() {
        return Ok(());
    }
    text.push_str(" (")?;
    text.push_str(stage)?;
    add_dotted(text, machine)?;
    text.push_str(")")
}

/// Adds the name of a machine behind that of its stage, if it has one.
fn add_dotted(text: &mut String, machine: &str) -> Result<(), AllocError>
    ensures { OnOk result (string_bytes text.new ≡ string_bytes text.old ++ dotted machine.now) }
{
    if machine.is_empty() {
        return Ok(());
    }
    text.push_str(".")?;
    text.push_str(machine)
}

/// The name of row `n` of a list of tables, empty where it is none.
fn row_name(rows: &[Value], n: usize) -> &str
    ensures { result.now ≡ row_name (views rows.now) n }
{
    match row_at(rows, n) {
        Some(row) => known_name(row),
        None => "",
    }
}

/// The machines of row `n` of a list of stages.
fn row_machines(rows: &[Value], n: usize) -> &[Value]
    ensures { views result.now ≡ row_machines (views rows.now) n }
{
    match row_at(rows, n) {
        Some(row) => tables_at(row, "machine"),
        None => &[],
    }
}

/// Row `n` of a list of tables, if there is one.
fn row_at(rows: &[Value], n: usize) -> Option<&Value>
    ensures { option_map (λ row. view row.now) result ≡ slice_get (views rows.now) n }
{
    rows.get(n)
}

/// The name of a table, empty where it is none.
fn known_name(table: &Value) -> &str
    ensures { result.now ≡ known_name (view table.now) }
{
    let name = text_at(table, "name");
    if is_name(name.as_bytes()) { name } else { "" }
}

/// The name of stage `i`, empty where there is none.
fn stage_name(plant: &Plant, i: usize) -> Result<&str, AllocError>
    ensures { IfOk result (λ name. name.now ≡ (stage_at plant.now i).name) }
{
    match plant.stages.as_slice().get(i) {
        Some(stage) => text_of(&stage.name),
        None => Ok(""),
    }
}

/// The name of machine `j` of stage `i`, empty where there is none.
fn machine_name(plant: &Plant, i: usize, j: usize) -> Result<&str, AllocError>
    ensures { IfOk result (λ name. name.now ≡ (machine_at plant.now i j).name) }
{
    match plant.stages.as_slice().get(i) {
        Some(stage) => match stage.machines.as_slice().get(j) {
            Some(machine) => text_of(&machine.name),
            None => Ok(""),
        },
        None => Ok(""),
    }
}

/// A name as text. It takes no memory.
fn text_of(name: &Name) -> Result<&str, AllocError>
    ensures { IfOk result (λ text. text.now ≡ name.now) }
{
    match str::from_utf8(name.text()) {
        Ok(text) => Ok(text),
        // The characters of a name are ASCII.
        Err(_) => Err(AllocError),
    }
}
