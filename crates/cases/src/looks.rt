//! What no command shows of a plant: the arcs of its graph, and those of its card circuits.
ghost use Rattle.std.specs.Prelude.{◌<◌, IfOk};
ghost use Rattle.event_graph.specs.Network.{arc_count};
ghost use Rattle.plant_model.specs.Sound.{IsSound};

use crate::reason::Reason;
use circuit_sums::{CardCircuit, CircuitKind, card_circuits};
use event_graph::{Arc, Graph};
use line_base::Items;
use line_graph::graph_of;
use plant_file::{complete_draft, read_plant};
use plant_model::Plant;
use std::alloc::{AllocError, Global};

/// The plant of a plant file that names no other files.
fn plant_of(alloc: Global, bytes: &[u8]) -> Result<Plant, Reason>
    ensures { IfOk result IsSound }
{
    let draft = match read_plant(alloc, bytes) {
        Ok(draft) => draft,
        Err(error) => {
            drop(error);
            return Err(Reason::NoPlant);
        }
    };
    if draft.demands_file().is_some() || draft.times_file().is_some() {
        drop(draft);
        return Err(Reason::NoPlant);
    }
    match complete_draft(alloc, draft, None, None) {
        Ok(plant) => Ok(plant),
        Err(error) => {
            drop(error);
            Err(Reason::NoPlant)
        }
    }
}

/// The arcs of a plant's graph in order, a line each: its number, the stations at its start and its end, its
/// tokens, whether it is worked, and its delay.
pub fn arcs_of(alloc: Global, bytes: &[u8]) -> Result<Vec<u8>, Reason> {
    let graph = graph_for(alloc, bytes)?;
    let lines = arc_lines(alloc, &graph);
    drop(graph);
    lines
}

/// The graph of the plant of a plant file. What its contract says is let go here.
fn graph_for(alloc: Global, bytes: &[u8]) -> Result<Graph, Reason> {
    let plant = plant_of(alloc, bytes)?;
    let graph = graph_of(alloc, &plant);
    drop(plant);
    Ok(graph?)
}

/// The lines of the arcs of a graph.
fn arc_lines(alloc: Global, graph: &Graph) -> Result<Vec<u8>, Reason> {
    let mut text = String::new(alloc);
    let arcs = graph.arcs().len() as u32;
    for a in 0..arcs {
        write_arc(&mut text, graph, a)?;
    }
    Ok(text.into_bytes())
}

/// Writes the line of an arc.
fn write_arc(text: &mut String, graph: &Graph, a: u32) -> Result<(), AllocError>
    requires { a < arc_count graph.now }
{
    let arc = graph.arc(a);
    write!(text, "{a} {} {} {}", arc.from, arc.to, arc.tokens)?;
    write!(text, " {} {}\n", kind_of(arc), graph.delay(a))
}

/// The word for whether an arc is worked.
fn kind_of(arc: Arc) -> &'static str {
    if arc.worked { "worked" } else { "plain" }
}

/// The card circuits of a plant in order, a line each: whose cards they are, their number, and the arcs.
pub fn circuits_of(alloc: Global, bytes: &[u8]) -> Result<Vec<u8>, Reason> {
    let plant = plant_of(alloc, bytes)?;
    let lines = circuit_lines(alloc, &plant);
    drop(plant);
    lines
}

/// The lines of the card circuits of a plant.
fn circuit_lines(alloc: Global, plant: &Plant) -> Result<Vec<u8>, Reason>
    requires { IsSound plant.now }
{
    let circuits = circuits_in(alloc, plant)?;
    let lines = lines_of(alloc, circuits.as_slice());
    drop(circuits);
    Ok(lines?)
}

/// The lines of card circuits.
fn lines_of(alloc: Global, circuits: &[CardCircuit]) -> Result<Vec<u8>, AllocError> {
    let mut text = String::new(alloc);
    write_circuits(&mut text, circuits)?;
    Ok(text.into_bytes())
}

/// The card circuits of a plant. What their contract says is let go here.
fn circuits_in(alloc: Global, plant: &Plant) -> Result<Items<CardCircuit>, AllocError>
    requires { IsSound plant.now }
{
    match graph_of(alloc, plant) {
        Ok(graph) => {
            let circuits = card_circuits(alloc, plant, &graph);
            drop(graph);
            circuits
        }
        Err(error) => Err(error),
    }
}

/// Writes the lines of card circuits.
fn write_circuits(text: &mut String, circuits: &[CardCircuit]) -> Result<(), AllocError> {
    for circuit in circuits {
        write_circuit(text, circuit)?;
    }
    Ok(())
}

/// Writes the line of a card circuit.
fn write_circuit(text: &mut String, circuit: &CardCircuit) -> Result<(), AllocError> {
    let (kind, number) = match circuit.kind {
        CircuitKind::Stage(stage) => ("stage", stage),
        CircuitKind::Conwip(stage) => ("conwip", stage),
        CircuitKind::CardLoop(number) => ("loop", number),
    };
    write!(text, "{kind} {number} cards {} arcs", circuit.number)?;
    for arc in circuit.arcs.as_slice() {
        write!(text, " {arc}")?;
    }
    text.push_str("\n")
}
