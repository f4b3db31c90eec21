ghost use Rattle.std.specs.List.{list_any};
ghost use Rattle.std.specs.Prelude.{◌≡◌, ◌≤◌, length, bytes_eq};
ghost use Rattle.plant_model.specs.Refusals.{AnswersFirst, each, bad_name, bad_names, machine_name_twice, stage_name_twice, names_twice};

use line_base::Name;
use plant_model::{FileTable, Machine, Plant, PlantError, Stage, is_reserved, key_place};
use std::alloc::Global;

/// Whether no stage has a reserved name.
pub(crate) fn check_reserved(alloc: Global, plant: &Plant) -> Result<(), PlantError>
    ensures { AnswersFirst result (bad_names plant.now) }
{
    let stages = plant.stages.as_slice();
    for (i, stage) in stages.iter().enumerate() {
        check_stage_reserved(alloc, i, stage)?;
    }
    Ok(())
}

/// Whether a stage has no reserved name.
fn check_stage_reserved(alloc: Global, i: usize, stage: &Stage) -> Result<(), PlantError>
    ensures { AnswersFirst result (bad_name i stage.now) }
{
    if !is_reserved(stage.name.text()) {
        return Ok(());
    }
    let place = key_place(alloc, FileTable::InStage(i), "name")?;
    Err(PlantError::BadName { place })
}

/// Whether no two stages, and no two machines of a stage, have one name.
pub(crate) fn check_repeated(alloc: Global, plant: &Plant) -> Result<(), PlantError>
    ensures { AnswersFirst result (names_twice plant.now) }
{
    let stages = plant.stages.as_slice();
    for (i, stage) in stages.iter().enumerate() {
        check_stage_repeated(alloc, stages, i, stage)?;
    }
    Ok(())
}

/// Whether no earlier stage has the name of stage `i`, and no two of its machines have one name.
fn check_stage_repeated(
    alloc: Global,
    stages: &[Stage],
    i: usize,
    stage: &Stage,
) -> Result<(), PlantError>
    requires { i ≤ length stages.now }
    ensures { AnswersFirst result (stage_name_twice stages.now i stage.now) }
{
    if has_stage(&stages[..i], &stage.name) {
        let place = key_place(alloc, FileTable::InStage(i), "name")?;
        return Err(PlantError::NameTwice { place });
    }
    check_machines_repeated(alloc, i, stage.machines.as_slice())
}

/// Whether no two of these machines of stage `i` have one name.
fn check_machines_repeated(alloc: Global, i: usize, machines: &[Machine]) -> Result<(), PlantError>
    ensures { AnswersFirst result (each (machine_name_twice i machines.now) machines.now) }
{
    for (j, machine) in machines.iter().enumerate() {
        check_machine_repeated(alloc, i, machines, j, machine)?;
    }
    Ok(())
}

/// Whether no earlier machine of stage `i` has the name of machine `j`.
fn check_machine_repeated(
    alloc: Global,
    i: usize,
    machines: &[Machine],
    j: usize,
    machine: &Machine,
) -> Result<(), PlantError>
    requires { j ≤ length machines.now }
    ensures { AnswersFirst result (machine_name_twice i machines.now j machine.now) }
{
    if !has_machine(&machines[..j], &machine.name) {
        return Ok(());
    }
    let place = key_place(alloc, FileTable::InMachine(i, j), "name")?;
    Err(PlantError::NameTwice { place })
}

/// Whether one of these stages has the name.
fn has_stage(stages: &[Stage], name: &Name) -> bool
    ensures { result ≡ list_any (λ other. bytes_eq other.name name.now) stages.now }
{
    stages.iter().any(|other| is_same(&other.name, name))
}

/// Whether one of these machines has the name.
fn has_machine(machines: &[Machine], name: &Name) -> bool
    ensures { result ≡ list_any (λ other. bytes_eq other.name name.now) machines.now }
{
    machines.iter().any(|other| is_same(&other.name, name))
}

/// Whether two names are the same.
fn is_same(one: &Name, other: &Name) -> bool
    ensures { result ≡ bytes_eq one.now other.now }
{
    one.text() == other.text()
}
