ghost use Rattle.std.specs.List.{flat_map};
ghost use Rattle.std.specs.Prelude.{◌≡◌, ◌++◌, IfOk, OnOk};
ghost use Rattle.plant_model.specs.Graph.{graph as graph_of};
ghost use Rattle.plant_model.specs.Line.{loop_at};
ghost use Rattle.plant_model.specs.Sound.{IsSound};
ghost use Rattle.answers.specs.CheckText.{name_of, kind_words, circuit_line, live_line, check_text};

use crate::words::{add_number, add_words};
use circuit_sums::{CardCircuit, CircuitKind, card_circuits};
use event_graph::Graph;
use line_base::Items;
use plant_model::Plant;
use std::alloc::{AllocError, Global};

/// What `check` writes of a plant that is live: how large its graph is, and its card circuits.
pub fn check_text(alloc: Global, plant: &Plant, graph: &Graph) -> Result<Items<u8>, AllocError>
    requires sound { IsSound plant.now }
    requires graph { graph.now ≡ graph_of plant.now }
    ensures { IfOk result (λ text. text ≡ check_text plant.now) }
{
    let circuits = card_circuits(alloc, plant, graph)?;
    let mut text = Vec::new(alloc);
    add_live(&mut text, graph)?;
    add_circuits(&mut text, plant, circuits.as_slice())?;
    Ok(Items::from_vec(text))
}

/// Adds how many stations, arcs and jobs a live graph has.
fn add_live(text: &mut Vec<u8>, graph: &Graph) -> Result<(), AllocError>
    ensures { OnOk result (text.new.items ≡ text.old.items ++ live_line graph.now) }
{
    add_number(text, b"live ", graph.stations())?;
    add_number(text, b" stations ", graph.arcs().len())?;
    add_number(text, b" arcs ", graph.jobs())?;
    text.extend_from_slice(b" jobs\n")
}

/// Adds the lines of card circuits.
fn add_circuits(
    text: &mut Vec<u8>,
    plant: &Plant,
    circuits: &[CardCircuit],
) -> Result<(), AllocError>
    ensures { OnOk result (text.new.items ≡ text.old.items ++ flat_map (circuit_line plant.now) circuits.now) }
{
    for circuit in circuits {
        add_circuit(text, plant, circuit)?;
    }
    Ok(())
}

/// Adds the line of a card circuit.
fn add_circuit(text: &mut Vec<u8>, plant: &Plant, circuit: &CardCircuit) -> Result<(), AllocError>
    ensures { OnOk result (text.new.items ≡ text.old.items ++ circuit_line plant.now circuit.now) }
{
    add_kind(text, plant, circuit.kind)?;
    add_number(text, b" ", circuit.number)?;
    text.extend_from_slice(b"\n")
}

/// Adds whose cards go round a circuit.
fn add_kind(text: &mut Vec<u8>, plant: &Plant, kind: CircuitKind) -> Result<(), AllocError>
    ensures { OnOk result (text.new.items ≡ text.old.items ++ kind_words plant.now kind) }
{
    match kind {
        CircuitKind::Stage(stage) => add_words(text, b"circuit stage ", name_of(plant, stage)),
        CircuitKind::Conwip(stage) => add_words(text, b"circuit conwip ", name_of(plant, stage)),
        CircuitKind::CardLoop(number) => add_loop(text, plant, number),
    }
}

/// Adds the names of the first and the last stage of a loop.
fn add_loop(text: &mut Vec<u8>, plant: &Plant, number: u32) -> Result<(), AllocError>
    ensures { OnOk result (text.new.items ≡ text.old.items ++ kind_words plant.now (CircuitKind.CardLoop number)) }
{
    let (first, last) = loop_ends(plant, number);
    text.extend_from_slice(b"circuit loop ")?;
    text.extend_from_slice(name_of(plant, first))?;
    text.push(b' ')?;
    text.extend_from_slice(name_of(plant, last))?;
    Ok(())
}

/// The first and the last stage of a loop.
fn loop_ends(plant: &Plant, number: u32) -> (u32, u32)
    ensures first { result.0 ≡ (loop_at plant.now number).first }
    ensures last { result.1 ≡ (loop_at plant.now number).last }
{
    match plant.loops.as_slice().get(number as usize) {
        Some(card_loop) => (card_loop.first, card_loop.last),
        None => (0, 0),
    }
}

/// The name of a stage.
fn name_of(plant: &Plant, stage: u32) -> &[u8]
    ensures { result.now ≡ name_of plant.now stage }
{
    match plant.stages.as_slice().get(stage as usize) {
        Some(stage) => stage.name.text(),
        None => b"",
    }
}
