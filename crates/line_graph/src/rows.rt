ghost use Rattle.std.specs.List.{flat_map};
ghost use Rattle.std.specs.Prelude.{◌≡◌, ◌∷◌, [], ◌<◌, ◌++◌, length, IfOk, OnOk};
ghost use Rattle.plant_model.specs.Graph.{arcs_of, delays_of, worked_row, plain_row, onward, machine_rows, stage_rows, feed_row, policy_rows, rows};
ghost use Rattle.plant_model.specs.Line.{stage_at, stage_numbers};
ghost use Rattle.plant_model.specs.Sound.{IsSound};

use crate::delays::{loop_delays, policy_delays};
use line_base::Arc;
use plant_model::{FEED, Layout, Plant, Policy};
use policies::{base_stock, conwip, extended, kanban, loops};
use std::alloc::{AllocError, Global};

/// Arcs in their order, and the delay of each, in the plant's unit.
#[derive(Drop)]
pub(crate) struct Rows {
    pub(crate) arcs: Vec<Arc>,
    pub(crate) delays: Vec<u64>,
}

impl Rows {
    /// Adds an arc with its delay.
    fn push(&mut self, arc: Arc, delay: u64) -> Result<(), AllocError>
        ensures arcs { OnOk result (self.new.arcs.items ≡ self.old.arcs.items ++ arc ∷ []) }
        ensures delays { OnOk result (self.new.delays.items ≡ self.old.delays.items ++ delay ∷ []) }
    {
        self.arcs.push(arc)?;
        self.delays.push(delay)?;
        Ok(())
    }

    /// Adds arcs with their delays.
    fn append(&mut self, arcs: &[Arc], delays: &[u64]) -> Result<(), AllocError>
        ensures arcs { OnOk result (self.new.arcs.items ≡ self.old.arcs.items ++ arcs.now) }
        ensures delays { OnOk result (self.new.delays.items ≡ self.old.delays.items ++ delays.now) }
    {
        self.arcs.extend_from_slice(arcs)?;
        self.delays.extend_from_slice(delays)?;
        Ok(())
    }
}

/// The rows of the graph: those of the stages in order, the demands of the delivery, those of the policy, those of the
/// loops.
pub(crate) fn line_rows(alloc: Global, plant: &Plant) -> Result<Rows, AllocError>
    requires { IsSound plant.now }
    ensures arcs { IfOk result (λ all. all.arcs.items ≡ arcs_of (rows plant.now)) }
    ensures delays { IfOk result (λ all. all.delays.items ≡ delays_of (rows plant.now)) }
{
    let layout = Layout::of(alloc, plant)?;
    let of_stages = rows_of_stages(alloc, &layout);
    drop(layout);
    let mut all = of_stages?;
    let arcs = policy_arcs(alloc, plant)?;
    let delays = policy_delays(alloc, plant, arcs.len())?;
    all.append(arcs.as_slice(), delays.as_slice())?;
    let loop_arcs = loops::arcs(alloc, plant)?;
    let loop_times = loop_delays(alloc, plant.loops.as_slice())?;
    all.append(loop_arcs.as_slice(), loop_times.as_slice())?;
    Ok(all)
}

/// The arcs of the policy.
fn policy_arcs(alloc: Global, plant: &Plant) -> Result<Vec<Arc>, AllocError>
    requires { IsSound plant.now }
    ensures { IfOk result (λ arcs. arcs.items ≡ arcs_of (policy_rows plant.now)) }
{
    match plant.policy {
        Policy::Kanban => kanban::arcs(alloc, plant),
        Policy::Conwip(_) => conwip::arcs(alloc, plant),
        Policy::BaseStock => base_stock::arcs(alloc, plant),
        Policy::Extended => extended::arcs(alloc, plant),
    }
}

/// The rows of the stages in order, and then the demands of the delivery.
fn rows_of_stages(alloc: Global, layout: &Layout) -> Result<Rows, AllocError>
    requires { IsSound layout.now }
    ensures arcs { IfOk result (λ all. all.arcs.items ≡
        arcs_of (flat_map (stage_rows layout.now) (stage_numbers layout.now)) ++ (feed_row layout.now).arc ∷ []) }
    ensures delays { IfOk result (λ all. all.delays.items ≡
        delays_of (flat_map (stage_rows layout.now) (stage_numbers layout.now)) ++ 0 ∷ []) }
{
    let mut all = Rows {
        arcs: Vec::new(alloc),
        delays: Vec::new(alloc),
    };
    for number in 0..layout.stages() {
        add_stage_rows(layout, number, &mut all)?;
    }
    all.push(plain_arc(FEED, layout.deliver(), 0), 0)?;
    Ok(all)
}

/// Adds the rows of a stage: from its release to its first machine, then those of its machines.
fn add_stage_rows(layout: &Layout, stage: u32, all: &mut Rows) -> Result<(), AllocError>
    requires sound { IsSound layout.now }
    requires exists { stage < length layout.now.stages }
    ensures arcs { OnOk result (all.new.arcs.items ≡
        all.old.arcs.items ++ arcs_of (stage_rows layout.now stage)) }
    ensures delays { OnOk result (all.new.delays.items ≡
        all.old.delays.items ++ delays_of (stage_rows layout.now stage)) }
{
    all.push(
        worked_arc(layout.release(stage), layout.machine(stage, 0), 0),
        0,
    )?;
    for number in 0..layout.stage(stage).machines.len() {
        add_machine_rows(layout, stage, number as u32, all)?;
    }
    Ok(())
}

/// Adds the rows of a machine: with a token a server, with one token that keeps the parts in order, and from it on.
/// Only the last machine's parts take time on their way.
fn add_machine_rows(
    layout: &Layout,
    stage: u32,
    number: u32,
    all: &mut Rows,
) -> Result<(), AllocError>
    requires exists { stage < length layout.now.stages }
    requires machine { number < length (stage_at layout.now stage).machines }
    ensures arcs { OnOk result (all.new.arcs.items ≡
        all.old.arcs.items ++ arcs_of (machine_rows layout.now stage number)) }
    ensures delays { OnOk result (all.new.delays.items ≡
        all.old.delays.items ++ delays_of (machine_rows layout.now stage number)) }
{
    let here = layout.machine(stage, number);
    let machine = &layout.stage(stage).machines.as_slice()[number as usize];
    all.push(worked_arc(here, here, machine.servers), 0)?;
    all.push(plain_arc(here, here, 1), 0)?;
    all.push(
        onward_arc(layout, stage, number),
        onward_delay(layout, stage, number),
    )
}

/// The arc from a machine on: to the next machine of the stage, or from the last one, over the starting stock, to what
/// takes the stage's parts.
fn onward_arc(layout: &Layout, stage: u32, number: u32) -> Arc
    requires exists { stage < length layout.now.stages }
    requires machine { number < length (stage_at layout.now stage).machines }
    ensures { result ≡ (onward layout.now stage number).arc }
{
    let here = layout.machine(stage, number);
    if number as usize + 1 == layout.stage(stage).machines.len() {
        plain_arc(here, layout.receiver(stage), layout.starting(stage))
    } else {
        worked_arc(here, layout.machine(stage, number + 1), 0)
    }
}

/// The delay on the arc from a machine on: the travel of the stage's parts from the last one, else none.
fn onward_delay(layout: &Layout, stage: u32, number: u32) -> u64
    requires exists { stage < length layout.now.stages }
    ensures { result ≡ (onward layout.now stage number).delay }
{
    let feeder = layout.stage(stage);
    if number as usize + 1 == feeder.machines.len() {
        feeder.travel
    } else {
        0
    }
}

/// An arc on which the job time of the station at its end is added.
fn worked_arc(from: u32, to: u32, tokens: u32) -> Arc
    ensures { result ≡ (worked_row from to tokens).arc }
{
    Arc {
        from,
        to,
        tokens,
        worked: true,
    }
}

/// An arc on which no job time is added.
fn plain_arc(from: u32, to: u32, tokens: u32) -> Arc
    ensures { result ≡ (plain_row from to tokens 0).arc }
{
    Arc {
        from,
        to,
        tokens,
        worked: false,
    }
}
