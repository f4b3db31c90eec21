//! The names that stand twice.
ghost use Rattle.std.specs.Prelude.{◌≡◌, [], IfOk, OnOk, codes, map, take};
ghost use Rattle.plant_model.specs.Place.{key_of};
ghost use Rattle.plant_keys.specs.Code.{views, with_name};
ghost use Rattle.plant_keys.specs.Faults.{plain, all_of};
ghost use Rattle.plant_keys.specs.Found.{Finds};
ghost use Rattle.plant_keys.specs.Readers.{name_in};
ghost use Rattle.plant_keys.specs.Rules.{machine_name_twice, stage_name_twice};
ghost use Rattle.plant_keys.specs.Seen.{AreNamesSeen};
ghost use Rattle.plant_keys.specs.Walk.{name_faults};
ghost use Rattle.toml.specs.View.{view};

use crate::fault::{Fault, Wants};
use crate::faults::Faults;
use crate::names::Names;
use crate::values::{tables_at, text_at};
use plant_model::{FileTable, PlantError, key_place};
use std::alloc::{AllocError, Global};
use toml::Value;

/// Finds each name that an earlier stage, or an earlier machine of the same stage, has, and gathers the names of the
/// stages, of which none came before.
pub(crate) fn find_twice<'a>(
    stages: &'a [Value],
    seen: &mut Names<'a>,
    faults: &mut Faults,
) -> Result<(), AllocError>
    requires { seen.old ≡ [] }
    ensures names { OnOk result (AreNamesSeen seen.new (views stages.now)) }
    ensures found { OnOk result (Finds faults.old faults.new (all_of (λ i s. plain
        (stage_name_twice (take i (map name_in (views stages.now))) i (view s))) stages.now)) }
{
    for (i, stage) in stages.iter().enumerate() {
        find_in_stage(seen, i, stage, faults)?;
    }
    Ok(())
}

/// Adds the name of stage `i` to those before, and finds whether it, or one of its machines' names, stands twice.
fn find_in_stage<'a>(
    seen: &mut Names<'a>,
    i: usize,
    stage: &'a Value,
    faults: &mut Faults,
) -> Result<(), AllocError>
    ensures added { OnOk result (seen.new ≡ with_name (name_in (view stage.now)) seen.old) }
    ensures found { OnOk result (Finds faults.old faults.new
        (plain (stage_name_twice seen.old i (view stage.now)))) }
{
    let is_new = seen.add(text_at(stage, "name"))?;
    find_name(FileTable::InStage(i), is_new, faults);
    let mut names = Names::new(faults.alloc);
    let found = find_in_machines(i, tables_at(stage, "machine"), &mut names, faults);
    drop(names);
    found
}

/// Finds each name of a machine of stage `i` that an earlier one has, where none came before.
fn find_in_machines<'a>(
    i: usize,
    machines: &'a [Value],
    seen: &mut Names<'a>,
    faults: &mut Faults,
) -> Result<(), AllocError>
    requires { seen.old ≡ [] }
    ensures { OnOk result (Finds faults.old faults.new (all_of (λ j m. plain
        (machine_name_twice i (map name_in (views machines.now)) j (view m))) machines.now)) }
{
    for (j, machine) in machines.iter().enumerate() {
        let is_new = seen.add(text_at(machine, "name"))?;
        find_name(FileTable::InMachine(i, j), is_new, faults);
    }
    Ok(())
}

/// Finds that the name of a table stands twice, unless it is new.
fn find_name(table: FileTable, is_new: bool, faults: &mut Faults)
    ensures { Finds faults.old faults.new (name_faults table is_new) }
{
    if !is_new {
        faults.add(name_twice(faults.alloc, table));
    }
}

/// That the name of a table stands twice.
fn name_twice(alloc: Global, table: FileTable) -> Result<Fault, AllocError>
    ensures { IfOk result (λ fault. fault ≡ record {
      error = PlantError.NameTwice (key_of table (codes "name"));
      wants = Wants.Nothing;
    }) }
{
    let place = key_place(alloc, table, "name")?;
    Ok(Fault {
        error: PlantError::NameTwice { place },
        wants: Wants::Nothing,
    })
}
