ghost use Rattle.std.specs.Prelude.{◌≡◌, ◌+◌, ◌-◌, ◌<◌, ◌≤◌, ◌++◌, length, IfOk, OnOk, All};
ghost use Rattle.circuit_sums.specs.Circuits.{stage_circuit, kanban_circuits, extended_circuits, conwip_circuits, policy_circuits, loop_circuits, circuits_with, circuits, IsCardCircuit};
ghost use Rattle.plant_model.specs.Graph.{graph as plant_graph};
ghost use Rattle.plant_model.specs.Sound.{IsSound};

use crate::circuit::{CardCircuit, CircuitKind};
use crate::circuit_arcs::circuit_arcs;
use event_graph::Graph;
use line_base::{Items, MAX_ARCS};
use plant_model::{Layout, Plant, Policy};
use std::alloc::{AllocError, Global};

/// The card circuits of a plant, on its graph: under kanban and extended kanban one a stage, under CONWIP one a first
/// stage, under base stock none, each in the order of the stages; then one a loop, in order. A stage's circuit goes
/// from its release through its machines to what it feeds, and back by the arc of its cards; the line's circuit of a
/// first stage goes along the stage's path to the delivery, and back by the arc of the line's cards; a loop's goes from
/// the release of its first stage to what its last one feeds, and back by its own arc.
pub fn card_circuits(
    alloc: Global,
    plant: &Plant,
    graph: &Graph,
) -> Result<Items<CardCircuit>, AllocError>
    requires sound { IsSound plant.now }
    requires graph { graph.now ≡ plant_graph plant.now }
    ensures circuits { IfOk result (λ list. list ≡ circuits plant.now) }
    ensures closed { IfOk result (All (IsCardCircuit graph.now)) }
{
    let list = list_circuits(alloc, plant, graph.arcs().len())?;
    Ok(Items::from_vec(list))
}

/// The card circuits of a plant whose graph has this many arcs, the last of which are those of the loops.
fn list_circuits(alloc: Global, plant: &Plant, arcs: usize) -> Result<Vec<CardCircuit>, AllocError>
    requires sound { IsSound plant.now }
    requires loops { length plant.now.loops ≤ arcs }
    requires few { arcs ≤ MAX_ARCS }
    ensures { IfOk result (λ list. list.items ≡ circuits_with plant.now (arcs - length plant.now.loops)) }
{
    let layout = Layout::of(alloc, plant)?;
    let mut list = policy_circuits(alloc, &layout)?;
    let first_loop_arc = (arcs - plant.loops.len()) as u32;
    add_loop_circuits(alloc, &layout, first_loop_arc, &mut list)?;
    Ok(list)
}

/// The circuits of the policy.
fn policy_circuits(alloc: Global, layout: &Layout) -> Result<Vec<CardCircuit>, AllocError>
    requires { IsSound layout.now }
    ensures { IfOk result (λ list. list.items ≡ policy_circuits layout.now) }
{
    match layout.policy() {
        Policy::Kanban => kanban_circuits(alloc, layout),
        Policy::Conwip(cards) => conwip_circuits(alloc, layout, cards),
        Policy::BaseStock => Ok(Vec::new(alloc)),
        Policy::Extended => extended_circuits(alloc, layout),
    }
}

/// The circuits of the stages under kanban, whose card arcs stand one after the other.
fn kanban_circuits(alloc: Global, layout: &Layout) -> Result<Vec<CardCircuit>, AllocError>
    requires { IsSound layout.now }
    ensures { IfOk result (λ list. list.items ≡ kanban_circuits layout.now) }
{
    let mut list = Vec::with_capacity(alloc, layout.stages() as usize)?;
    for stage in 0..layout.stages() {
        let card_arc = layout.policy_arc() + stage;
        list.push(stage_circuit(alloc, layout, stage, card_arc)?)?;
    }
    Ok(list)
}

/// The circuits of the stages under extended kanban, where the arc of a stage's demands stands before that of its
/// cards.
fn extended_circuits(alloc: Global, layout: &Layout) -> Result<Vec<CardCircuit>, AllocError>
    requires { IsSound layout.now }
    ensures { IfOk result (λ list. list.items ≡ extended_circuits layout.now) }
{
    let mut list = Vec::with_capacity(alloc, layout.stages() as usize)?;
    for stage in 0..layout.stages() {
        let card_arc = layout.policy_arc() + 2 * stage + 1;
        list.push(stage_circuit(alloc, layout, stage, card_arc)?)?;
    }
    Ok(list)
}

/// The circuits of the line under CONWIP, whose card arcs stand one after the other.
fn conwip_circuits(
    alloc: Global,
    layout: &Layout,
    cards: u32,
) -> Result<Vec<CardCircuit>, AllocError>
    requires { IsSound layout.now }
    ensures { IfOk result (λ list. list.items ≡ conwip_circuits layout.now cards) }
{
    let final_stage = layout.stages() - 1;
    let mut list = Vec::new(alloc);
    let mut card_arc = layout.policy_arc();
    for stage in 0..layout.stages() {
        if layout.is_first(stage) {
            list.push(CardCircuit {
                kind: CircuitKind::Conwip(stage),
                arcs: circuit_arcs(alloc, layout, stage, final_stage, card_arc)?,
                number: cards,
            })?;
            card_arc += 1;
        }
    }
    Ok(list)
}

/// The circuit of a stage's cards, which go back by this arc.
fn stage_circuit(
    alloc: Global,
    layout: &Layout,
    stage: u32,
    card_arc: u32,
) -> Result<CardCircuit, AllocError>
    requires sound { IsSound layout.now }
    requires exists { stage < length layout.now.stages }
    ensures { IfOk result (λ circuit. circuit ≡ stage_circuit layout.now (λ _. card_arc) stage) }
{
    Ok(CardCircuit {
        kind: CircuitKind::Stage(stage),
        arcs: circuit_arcs(alloc, layout, stage, stage, card_arc)?,
        number: layout.stage(stage).cards,
    })
}

/// Adds the circuits of the loops, whose arcs stand one after the other.
fn add_loop_circuits(
    alloc: Global,
    layout: &Layout,
    first_arc: u32,
    list: &mut Vec<CardCircuit>,
) -> Result<(), AllocError>
    requires sound { IsSound layout.now }
    requires few { first_arc + length layout.now.loops ≤ MAX_ARCS }
    ensures { OnOk result (list.new.items ≡ list.old.items ++ loop_circuits layout.now first_arc) }
{
    for (number, card_loop) in layout.loops().iter().enumerate() {
        list.push(CardCircuit {
            kind: CircuitKind::CardLoop(number as u32),
            arcs: circuit_arcs(
                alloc,
                layout,
                card_loop.first,
                card_loop.last,
                first_arc + number as u32,
            )?,
            number: card_loop.cards,
        })?;
    }
    Ok(())
}
