//! What `cycle` writes.
ghost use Rattle.std.specs.Prelude.{◌≡◌, ◌++◌, IfOk, OnOk};
ghost use Rattle.answers.specs.CycleText.{IsCycleText, HaveOneEach, ratio_line, sums_words, potential_words, potential_lines};
ghost use Rattle.cycle_time.specs.Certificate.{IsSmall};

use crate::circuit::add_circuit_stations;
use crate::words::{add_number, add_words};
use cycle_time::{Certificate, time_of, tokens_of};
use event_graph::Graph;
use line_base::Items;
use std::alloc::{AllocError, Global};

/// What `cycle` writes of a certificate: the ratio, the circuit with its time and its tokens, and a potential for each
/// station. The certificate is one that `cycle` answers for the graph, or of the same sizes.
pub fn cycle_text(
    alloc: Global,
    graph: &Graph,
    certificate: &Certificate,
) -> Result<Items<u8>, AllocError>
    requires { IsSmall graph.now certificate.now }
    ensures { IfOk result (IsCycleText graph.now certificate.now) }
{
    let circuit = certificate.circuit.as_slice();
    let mut text = Vec::new(alloc);
    add_ratio(&mut text, certificate.time, certificate.cards)?;
    text.extend_from_slice(b"circuit")?;
    add_circuit_stations(alloc, &mut text, graph, circuit)?;
    add_sums(
        &mut text,
        time_of(graph, circuit),
        tokens_of(graph, circuit),
    )?;
    add_potentials(&mut text, graph, certificate.potentials.as_slice())?;
    Ok(Items::from_vec(text))
}

/// Adds the ratio of time to cards.
fn add_ratio(text: &mut Vec<u8>, time: u64, cards: u64) -> Result<(), AllocError>
    ensures { OnOk result (text.new.items ≡ text.old.items ++ ratio_line time cards) }
{
    add_number(text, b"cycle ", time)?;
    add_number(text, b"/", cards)?;
    text.extend_from_slice(b"\n")
}

/// Adds the time and the tokens of a circuit.
fn add_sums(text: &mut Vec<u8>, time: u64, cards: u64) -> Result<(), AllocError>
    ensures { OnOk result (text.new.items ≡ text.old.items ++ sums_words time cards) }
{
    add_number(text, b" time ", time)?;
    add_number(text, b" cards ", cards)?;
    text.extend_from_slice(b"\n")
}

/// Adds the lines of the potentials, in the order of the stations.
fn add_potentials(text: &mut Vec<u8>, graph: &Graph, potentials: &[i128]) -> Result<(), AllocError>
    requires { HaveOneEach graph.now potentials.now }
    ensures { OnOk result (text.new.items ≡ text.old.items ++ potential_lines graph.now potentials.now) }
{
    for t in 0..graph.stations() {
        add_potential(text, graph.label(t), &potentials[t as usize])?;
    }
    Ok(())
}

/// Adds the line of a station's potential.
fn add_potential(text: &mut Vec<u8>, label: &[u8], potential: &i128) -> Result<(), AllocError>
    ensures { OnOk result (text.new.items ≡ text.old.items ++ potential_words label.now potential.now) }
{
    add_words(text, b"potential ", label)?;
    add_number(text, b" ", *potential)?;
    text.extend_from_slice(b"\n")
}
