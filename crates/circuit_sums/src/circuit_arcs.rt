//! The arcs of a circuit, written out along a path.
ghost use Rattle.std.specs.Prelude.{◌≡◌, ◌<◌, ◌∷◌, [], ◌++◌, length, IfOk, OnOk};
ghost use Rattle.plant_model.specs.ArcNumbers.{onward_arcs, onward_arcs_between};
ghost use Rattle.plant_model.specs.Sound.{IsSound};

use line_base::Items;
use plant_model::Layout;
use std::alloc::{AllocError, Global};

/// The arcs of a circuit: those on which parts go on in the stages from `first` to `last` on the path of `first`, and
/// then the arc of the cards.
pub(crate) fn circuit_arcs(
    alloc: Global,
    layout: &Layout,
    first: u32,
    last: u32,
    card_arc: u32,
) -> Result<Items<u32>, AllocError>
    requires sound { IsSound layout.now }
    requires exists { first < length layout.now.stages }
    ensures { IfOk result (λ arcs. arcs ≡ onward_arcs_between layout.now first last ++ card_arc ∷ []) }
{
    let mut arcs = Vec::new(alloc);
    add_path(layout, first, last, &mut arcs)?;
    arcs.push(card_arc)?;
    Ok(Items::from_vec(arcs))
}

/// Adds the arcs on which parts go on in the stages from `first` to `last` on the path of `first`.
fn add_path(layout: &Layout, first: u32, last: u32, arcs: &mut Vec<u32>) -> Result<(), AllocError>
    requires sound { IsSound layout.now }
    requires exists { first < length layout.now.stages }
    ensures { OnOk result (arcs.new.items ≡ arcs.old.items ++ onward_arcs_between layout.now first last) }
{
    let mut next = Some(first);
    while let Some(stage) = next {
        add_stage(layout, stage, arcs)?;
        if stage == last {
            return Ok(());
        }
        next = layout.next(stage);
    }
    Ok(())
}

/// Adds the arcs on which parts go on in a stage: into its first machine, from machine to machine, and out of the last.
fn add_stage(layout: &Layout, stage: u32, arcs: &mut Vec<u32>) -> Result<(), AllocError>
    requires sound { IsSound layout.now }
    requires exists { stage < length layout.now.stages }
    ensures { OnOk result (arcs.new.items ≡ arcs.old.items ++ onward_arcs layout.now stage) }
{
    let entry = layout.entry_arc(stage);
    let machines = layout.stage(stage).machines.len() as u32;
    for step in 0..machines + 1 {
        arcs.push(entry + 3 * step)?;
    }
    Ok(())
}
