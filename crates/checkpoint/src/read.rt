ghost use Rattle.std.specs.Prelude.{◌≡◌, ℕ, ◌^◌, ◌<◌, [], length, List, None, Some, IfOk, IfErr, OnOk};
ghost use Rattle.checkpoint.specs.Answers.{IsRefused, Tells, FindsStates};
ghost use Rattle.checkpoint.specs.Reading.{HasRead, IsReadOf, head_count, end_from};
ghost use Rattle.checkpoint.specs.Text.{lines, lines_text, IsReadFor, IsTextOf};
ghost use Rattle.checkpoint.specs.Given.{AreGiven};
ghost use Rattle.checkpoint.specs.declared.format.Format.TheVariants.{Differences};
ghost use Rattle.event_graph.specs.Network.{stations, arc_count};
ghost use Rattle.line_base.specs.Roomy.{dates_of};
ghost use Rattle.line_core.specs.ArcTokens.{HasRoom};
ghost use Rattle.line_core.specs.Run.{IsReached};

use crate::error::CheckpointError;
use crate::format::Format;
use crate::lists::{PlaceLines, StationLines, read_places, read_stations};
use crate::reader::Reader;
use crate::writer::{has_delays, put_delays};
use event_graph::Graph;
use line_core::{State, StateError};
use live_check::Live;
use std::alloc::Global;

/// Reads the line of the delays, which is the graph's.
fn read_delays(reader: &mut Reader, alloc: Global, graph: &Graph) -> Result<(), CheckpointError>
    requires short { length reader.old.text < 2 ^ 32 }
    requires read { HasRead Differences graph.now 1 [] reader.old }
    ensures read { OnOk result (HasRead Differences graph.now 2 [] reader.new) }
    ensures refused { IfErr result (Tells graph.now reader.old.text) }
    ensures text { reader.new.text ≡ reader.old.text }
{
    let mut expected = Vec::new(alloc);
    let Ok(()) = put_delays(&mut expected, graph) else {
        return Err(CheckpointError::NoMemory);
    };
    if !reader.pass(expected.as_slice()) {
        return Err(CheckpointError::Line { number: 2 });
    }
    Ok(())
}

/// Reads the first lines: which format the text has, and in format 2 the delays.
fn read_head(reader: &mut Reader, alloc: Global, graph: &Graph) -> Result<Format, CheckpointError>
    requires short { length reader.old.text < 2 ^ 32 }
    requires fresh { reader.old.rest ≡ reader.old.text }
    ensures read { IfOk result
        (λ format. HasRead format graph.now (head_count format) [] reader.new) }
    ensures readable { IfOk result (λ format. IsReadFor format graph.now) }
    ensures refused { IfErr result (Tells graph.now reader.old.text) }
    ensures text { reader.new.text ≡ reader.old.text }
{
    if reader.pass(b"pull-checkpoint 2\n") {
        read_delays(reader, alloc, graph)?;
        return Ok(Format::Differences);
    }
    if has_delays(graph) {
        return Err(CheckpointError::Line { number: 1 });
    }
    if !reader.pass(b"pull-checkpoint 1\n") {
        return Err(CheckpointError::Line { number: 1 });
    }
    Ok(Format::Dates)
}

/// Reads the last line, behind which nothing stands.
fn read_end(reader: &mut Reader, graph: &Graph, format: Format) -> Result<(), CheckpointError>
    requires short { length reader.old.text < 2 ^ 32 }
    requires readable { IsReadFor format graph.now }
    requires read { (lists : List (List ℕ))
        × HasRead format graph.now (end_from format graph.now) lists reader.old }
    ensures read { OnOk result ((lists : List (List ℕ))
        → HasRead format graph.now (end_from format graph.now) lists reader.old
        → reader.old.text ≡ lines_text format (lines format graph.now) lists) }
    ensures refused { IfErr result (Tells graph.now reader.old.text) }
{
    let before = format.head_count() + u64::from(graph.stations()) + graph.arcs().len() as u64;
    if !reader.pass(b"end\n") {
        return Err(CheckpointError::Line { number: before + 1 });
    }
    if !reader.rest().is_empty() {
        return Err(CheckpointError::Line { number: before + 2 });
    }
    Ok(())
}

/// Reads the logs of a text, and its places beside what these leave.
fn read_parts(
    reader: &mut Reader,
    alloc: Global,
    graph: &Graph,
) -> Result<(StationLines, PlaceLines), CheckpointError>
    requires short { length reader.old.text < 2 ^ 32 }
    requires fresh { reader.old.rest ≡ reader.old.text }
    ensures read { IfOk result (λ lines. IsReadOf graph.now reader.old.text
        lines.0.logs lines.0.long lines.1.marking lines.1.wrong) }
    ensures a_log_each { IfOk result (λ lines. length lines.0.logs.logs ≡ stations graph.now) }
    ensures given { IfOk result (λ lines. AreGiven (dates_of lines.0.logs)) }
    ensures room { IfOk result (λ lines. HasRoom graph.now lines.0.logs) }
    ensures refused { IfErr result (Tells graph.now reader.old.text) }
{
    let format = read_head(reader, alloc, graph)?;
    let stations = read_stations(reader, alloc, graph, format)?;
    match read_places(reader, alloc, graph, format, &stations.logs) {
        Ok(places) => match read_end(reader, graph, format) {
            Ok(()) => Ok((stations, places)),
            Err(error) => {
                drop(stations);
                drop(places);
                Err(error)
            }
        },
        Err(error) => {
            drop(stations);
            Err(error)
        }
    }
}

/// Nothing, where no refusal was noted, else that refusal.
fn check_noted(noted: Option<StateError>) -> Result<(), StateError>
    ensures none { OnOk result (noted ≡ None) }
    ensures refused { IfErr result (λ refusal. noted ≡ Some refusal) }
{
    match noted {
        None => Ok(()),
        Some(refusal) => Err(refusal),
    }
}

/// The state that these lines say, or the first thing that is wrong with them.
fn state_of(
    alloc: Global,
    live: &Live,
    logs: StationLines,
    places: &PlaceLines,
) -> Result<State, StateError>
    requires a_log_each { length logs.logs.logs ≡ stations live.now.graph }
    requires a_count_each { length places.now.marking ≡ arc_count live.now.graph }
    requires given { AreGiven (dates_of logs.logs) }
    requires room { HasRoom live.now.graph logs.logs }
    ensures made_for { IfOk result (λ state. state.graph ≡ live.now.graph) }
    ensures reached { IfOk result IsReached }
    ensures text { IfOk result (λ state. (bytes : List ℕ)
        → IsReadOf live.now.graph bytes logs.logs logs.long places.now.marking places.now.wrong
        → IsTextOf live.now.graph state.state bytes) }
    ensures refused { IfErr result (λ refusal. (bytes : List ℕ)
        → IsReadOf live.now.graph bytes logs.logs logs.long places.now.marking places.now.wrong
        → IsRefused live.now.graph bytes refusal) }
{
    match check_noted(logs.long) {
        Ok(()) => match State::of_logs(alloc, live, logs.logs, &places.marking) {
            Ok(state) => match check_noted(places.wrong) {
                Ok(()) => Ok(state),
                Err(refusal) => {
                    drop(state);
                    Err(refusal)
                }
            },
            Err(refusal) => Err(refusal),
        },
        Err(refusal) => {
            drop(logs);
            Err(refusal)
        }
    }
}

/// The state that these bytes say, or the first thing that is wrong with them.
fn read_bytes(
    alloc: Global,
    live: &Live,
    graph: &Graph,
    bytes: &[u8],
) -> Result<State, CheckpointError>
    requires short { length bytes.now < 2 ^ 32 }
    requires same { graph.now ≡ live.now.graph }
    ensures made_for { IfOk result (λ state. state.graph ≡ live.now.graph) }
    ensures text { IfOk result (λ state. IsTextOf live.now.graph state.state bytes.now) }
    ensures reached { IfOk result IsReached }
    ensures refused { IfErr result (Tells live.now.graph bytes.now) }
{
    let mut reader = Reader::new(bytes);
    let (stations, places) = read_parts(&mut reader, alloc, graph)?;
    let said = state_of(alloc, live, stations, &places);
    drop(places);
    Ok(said?)
}

/// The state whose text these bytes are: fewer than 2^32 bytes, in format 2, or in format 1 where no arc of the graph
/// has a delay. The state can go on firing: it takes the room of all later firings.
///
/// Every other answer but out of memory is the first thing that is wrong with the bytes. The first line that is not of
/// the form is refused; where each line is of it, the logs and places that they say are refused as `State::of_parts`
/// refuses them.
pub fn read_state(alloc: Global, live: &Live, bytes: &[u8]) -> Result<State, CheckpointError>
    requires { length bytes.now < 2 ^ 32 }
    ensures made_for { IfOk result (λ state. state.graph ≡ live.now.graph) }
    ensures text { IfOk result (λ state. IsTextOf live.now.graph state.state bytes.now) }
    ensures reached { IfOk result IsReached }
    ensures found { FindsStates live.now.graph bytes.now result }
    ensures refused { IfErr result (Tells live.now.graph bytes.now) }
{
    read_bytes(alloc, live, live.graph(), bytes)
}
