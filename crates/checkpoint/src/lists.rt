//! The lines of stations and arcs.
ghost use Rattle.std.specs.Prelude.{◌≡◌, ℕ, ◌^◌, ◌<◌, ◌++◌, [], length, List, true, nat_lt, IfOk, IfErr};
ghost use Rattle.checkpoint.specs.Answers.{Tells};
ghost use Rattle.checkpoint.specs.Reading.{HasRead, HasReadLogs, HasReadPlaces, KeepsLine, or_first, head_count, arcs_from, TellsPassing, TellsLine};
ghost use Rattle.checkpoint.specs.Text.{station_words, IsReadFor};
ghost use Rattle.checkpoint.specs.Given.{AreGiven};
ghost use Rattle.event_graph.specs.Network.{stations, jobs, arc_count};
ghost use Rattle.line_base.specs.Roomy.{dates_of};
ghost use Rattle.line_core.specs.ArcTokens.{HasRoom};
ghost use Rattle.line_core.specs.Parts.{refuse_if};
ghost use Rattle.line_core.specs.declared.error.StateError.TheVariants as Core;

use crate::error::{CheckpointError, Stop};
use crate::format::Format;
use crate::log::{LineDates, read_log};
use crate::reader::Reader;
use crate::tokens::read_place;
use event_graph::{Graph, Marking};
use line_base::Logs;
use line_core::StateError;
use std::alloc::Global;

/// Passes over the words with which the line of station `t` begins.
fn pass_station(reader: &mut Reader, graph: &Graph, t: u32) -> bool
    requires { t < stations graph.now }
    ensures passed { result ≡ true
        → reader.old.rest ≡ station_words graph.now t ++ reader.new.rest }
    ensures tells { TellsPassing (station_words graph.now t) reader.old.rest result reader.new.rest }
    ensures text { reader.new.text ≡ reader.old.text }
{
    if !reader.pass(b"station ") {
        return false;
    }
    if !reader.pass(graph.label(t)) {
        return false;
    }
    reader.pass(b" ")
}

/// Reads the line of station `t`, of which a log keeps the first dates, one a job.
fn read_station(
    reader: &mut Reader,
    alloc: Global,
    graph: &Graph,
    format: Format,
    t: u32,
) -> Result<LineDates, Stop>
    requires short { length reader.old.rest < 2 ^ 32 }
    requires station { t < stations graph.now }
    ensures read { IfOk result
        (λ line. KeepsLine format (station_words graph.now t) line.count (jobs graph.now)
        reader.old.rest line.log.dates reader.new.rest) }
    ensures room { IfOk result (λ line. line.log.room ≡ jobs graph.now) }
    ensures tells { TellsLine format (station_words graph.now t) reader.old.rest result }
    ensures text { reader.new.text ≡ reader.old.text }
{
    if !pass_station(reader, graph, t) {
        return Err(Stop::Form);
    }
    read_log(reader, alloc, format, graph.jobs())
}

/// Notes a log with this many dates, where these are more than there are jobs and nothing is noted yet.
fn note_log(noted: &mut Option<StateError>, graph: &Graph, station: u32, have: u32)
    ensures { noted.new ≡ or_first noted.old
        (refuse_if (nat_lt (jobs graph.now) have) (Core.Count station have (jobs graph.now))) }
{
    let limit = graph.jobs();
    if noted.is_none() && have > limit {
        *noted = Some(StateError::Count {
            station,
            have: u64::from(have),
            limit: u64::from(limit),
        });
    }
}

/// What the lines of the stations say.
#[derive(Drop)]
pub struct StationLines {
    /// The log of each station, up to its first dates, one a job.
    pub logs: Logs,
    /// The first log that is too long.
    pub long: Option<StateError>,
}

/// Reads the lines of the stations.
pub fn read_stations(
    reader: &mut Reader,
    alloc: Global,
    graph: &Graph,
    format: Format,
) -> Result<StationLines, CheckpointError>
    requires short { length reader.old.text < 2 ^ 32 }
    requires readable { IsReadFor format graph.now }
    requires read { HasRead format graph.now (head_count format) [] reader.old }
    ensures read { IfOk result
        (λ lines. HasReadLogs format graph.now (stations graph.now) lines.logs lines.long reader.new) }
    ensures a_log_each { IfOk result (λ lines. length lines.logs.logs ≡ stations graph.now) }
    ensures room { IfOk result (λ lines. HasRoom graph.now lines.logs) }
    ensures refused { IfErr result (Tells graph.now reader.old.text) }
    ensures text { reader.new.text ≡ reader.old.text }
{
    let stations = graph.stations();
    let Ok(mut logs) = Logs::new(alloc, stations) else {
        return Err(CheckpointError::NoMemory);
    };
    let mut long = None;
    for t in 0..stations {
        match read_station(reader, alloc, graph, format, t) {
            Ok(line) => {
                note_log(&mut long, graph, t, line.count);
                logs.add(line.log);
            }
            Err(stop) => return Err(stop.at_line(format.head_count() + u64::from(t) + 1)),
        }
    }
    Ok(StationLines { logs, long })
}

/// What the lines of the arcs say.
#[derive(Drop)]
pub struct PlaceLines {
    /// How many tokens each arc has.
    pub marking: Marking,
    /// The first token that is unlike what the logs leave.
    pub wrong: Option<StateError>,
}

/// Reads the lines of the arcs, whose tokens are compared with what the logs leave as they are read.
pub fn read_places(
    reader: &mut Reader,
    alloc: Global,
    graph: &Graph,
    format: Format,
    logs: &Logs,
) -> Result<PlaceLines, CheckpointError>
    requires short { length reader.old.text < 2 ^ 32 }
    requires readable { IsReadFor format graph.now }
    requires a_log_each { length logs.now.logs ≡ stations graph.now }
    requires given { AreGiven (dates_of logs.now) }
    requires read { (lists : List (List ℕ))
        × HasRead format graph.now (arcs_from format graph.now) lists reader.old }
    ensures read { IfOk result
        (λ lines. HasReadPlaces format graph.now (dates_of logs.now) (arc_count graph.now)
        lines.marking lines.wrong reader.old reader.new) }
    ensures refused { IfErr result (Tells graph.now reader.old.text) }
    ensures text { reader.new.text ≡ reader.old.text }
{
    let arcs = graph.arcs().len() as u32;
    let before = format.head_count() + u64::from(graph.stations());
    let Ok(mut counts) = Vec::with_capacity(alloc, arcs as usize) else {
        return Err(CheckpointError::NoMemory);
    };
    let mut wrong = None;
    for a in 0..arcs {
        match read_place(reader, format, graph, logs, a, &mut wrong) {
            Ok(count) => counts.push_reserved(count),
            Err(stop) => return Err(stop.at_line(before + u64::from(a) + 1)),
        }
    }
    Ok(PlaceLines {
        marking: Marking::from_vec(counts),
        wrong,
    })
}
