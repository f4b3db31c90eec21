ghost use Rattle.std.specs.Prelude.{◌≡◌, ◌∷◌, [], ◌++◌, IfOk, OnOk, IsTrue, codes};
ghost use Rattle.line_base.specs.Text.{is_label};
ghost use Rattle.line_graph.specs.Labels.{AreLabels};
ghost use Rattle.plant_model.specs.Graph.{labels, stage_labels};

use line_base::{Label, Name};
use plant_model::{Plant, Stage};
use std::alloc::{AllocError, Global};

/// The labels of the stations: `feed`, then each stage's, then `deliver`.
pub(crate) fn station_labels(alloc: Global, plant: &Plant) -> Result<Vec<Label>, AllocError>
    ensures all { IfOk result (λ all. all.items ≡ labels plant.now) }
    ensures rule { IfOk result (λ all. AreLabels all.items) }
{
    let mut all = Vec::new(alloc);
    if let Err(error) = fill_labels(alloc, plant, &mut all) {
        drop(all);
        return Err(error);
    }
    Ok(all)
}

/// Puts the labels of the stations into an empty list.
#[tactic(auto, unfolding(plant_model::specs::Graph::labels))]
fn fill_labels(alloc: Global, plant: &Plant, all: &mut Vec<Label>) -> Result<(), AllocError>
    requires { all.old.items ≡ [] }
    ensures all { OnOk result (all.new.items ≡ labels plant.now) }
    ensures rule { OnOk result (AreLabels all.new.items) }
{
    add_label(alloc, b"feed", all)?;
    for stage in plant.stages.as_slice() {
        add_stage_labels(alloc, stage, all)?;
    }
    add_label(alloc, b"deliver", all)?;
    Ok(())
}

/// Adds the labels of a stage: its own for the release, then one a machine.
fn add_stage_labels(alloc: Global, stage: &Stage, all: &mut Vec<Label>) -> Result<(), AllocError>
    ensures added { OnOk result (all.new.items ≡ all.old.items ++ stage_labels stage.now) }
    ensures rule { OnOk result (AreLabels all.old.items → AreLabels all.new.items) }
{
    add_label(alloc, stage.name.text(), all)?;
    for machine in stage.machines.as_slice() {
        add_machine_label(alloc, &stage.name, &machine.name, all)?;
    }
    Ok(())
}

/// Adds the label of a machine: its stage's name, a dot, its own name.
fn add_machine_label(
    alloc: Global,
    stage: &Name,
    machine: &Name,
    all: &mut Vec<Label>,
) -> Result<(), AllocError>
    ensures added { OnOk result (all.new.items ≡
        all.old.items ++ (stage.now ++ codes "." ++ machine.now) ∷ []) }
    ensures rule { OnOk result (AreLabels all.old.items → AreLabels all.new.items) }
{
    let mut text = Vec::from_slice(alloc, stage.text())?;
    text.push(b'.')?;
    text.extend_from_slice(machine.text())?;
    add_label(alloc, text.as_slice(), all)?;
    Ok(())
}

/// Adds a label of this text.
fn add_label(alloc: Global, text: &[u8], all: &mut Vec<Label>) -> Result<(), AllocError>
    requires { IsTrue (is_label text.now) }
    ensures added { OnOk result (all.new.items ≡ all.old.items ++ text.now ∷ []) }
    ensures rule { OnOk result (AreLabels all.old.items → AreLabels all.new.items) }
{
    all.push(Label::of(alloc, text)?)?;
    Ok(())
}
