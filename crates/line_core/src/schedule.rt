ghost use Rattle.std.specs.Prelude.{◌≡◌, ◌<◌, Ok, Err, IfOk, IfErr, IfSome, OnOk};
ghost use Rattle.event_graph.specs.Network.{stations};
ghost use Rattle.line_core.specs.Consistent.{IsFinished};
ghost use Rattle.line_core.specs.Run.{IsReached};
ghost use Rattle.line_core.specs.Schedule.{station_with, LineGives, LinesGive, run_end, follow, IsRefusal};

use crate::error::{FireError, ReplayError};
use crate::lines::{behind, end_before, prefix, without_return};
use crate::state::State;
use event_graph::Graph;
use live_check::Live;
use std::alloc::Global;

/// The first station with this label.
fn station_with(graph: &Graph, text: &[u8]) -> Option<u32>
    ensures found { result ≡ station_with graph.now text.now }
    ensures exists { IfSome result (λ t. t < stations graph.now) }
{
    for t in 0..graph.stations() {
        if graph.label(t) == text {
            return Some(t);
        }
    }
    None
}

/// Follows one line of a schedule: fires the station with this label, or passes over an empty line.
fn follow_line(state: &mut State, live: &Live, line: u64, text: &[u8]) -> Result<(), ReplayError>
    requires made_for { live.now.graph ≡ state.old.graph }
    ensures followed { OnOk result (LineGives state.old line text.now (Ok state.new.state)) }
    ensures refused { IfErr result (λ error. LineGives state.old line text.now (Err error)) }
    ensures graph { state.new.graph ≡ state.old.graph }
{
    if text.is_empty() {
        return Ok(());
    }
    match station_with(live.graph(), text) {
        None => Err(ReplayError::NoStation { line }),
        Some(station) => match state.fire(live, station) {
            Ok(()) => Ok(()),
            Err(FireError::Done) => Err(ReplayError::Done { line, station }),
            Err(FireError::Empty { arc }) => Err(ReplayError::Empty { line, arc }),
        },
    }
}

/// Follows all lines of a schedule, one after the other.
fn follow_lines(state: &mut State, live: &Live, schedule: &[u8]) -> Result<(), ReplayError>
    requires made_for { live.now.graph ≡ state.old.graph }
    ensures followed { OnOk result (LinesGive state.old schedule.now (run_end state.new)) }
    ensures refused { IfErr result (λ error. LinesGive state.old schedule.now (Err error)) }
    ensures graph { state.new.graph ≡ state.old.graph }
{
    let mut rest = schedule;
    let mut line = 1;
    loop {
        let end = end_before(rest, b'\n');
        let text = without_return(prefix(rest, end));
        follow_line(state, live, line, text)?;
        if end == rest.len() {
            return Ok(());
        }
        rest = behind(rest, end + 1);
        line += 1;
    }
}

/// The state, where every station has fired once for each job.
fn run_end(state: State, live: &Live) -> Result<State, ReplayError>
    requires made_for { live.now.graph ≡ state.graph }
    ensures same { IfOk result (λ end. end ≡ state) }
    ensures finished { OnOk result (IsFinished state.graph state.state) }
    ensures followed { IfOk result (λ end. run_end state ≡ Ok end.state) }
    ensures refused { IfErr result (λ error. run_end state ≡ Err error) }
{
    match state.first_unfinished(live) {
        None => Ok(state),
        Some(station) => {
            let have = state.log(station).len() as u64;
            drop(state);
            Err(ReplayError::Unfinished { station, have })
        }
    }
}

/// The state after the firings that a schedule names, from the start on, in which every station has fired once for
/// each job.
///
/// Each line of a schedule, ended by a line feed, is the label of a station, byte for byte; where two stations have
/// one label, the first is meant. The last line may lack its line feed, a carriage return at a line's end is dropped,
/// and an empty line is passed over and counted. The first line that can't be followed is refused, and then the first
/// station that has fired too few times.
pub fn replay(alloc: Global, live: &Live, schedule: &[u8]) -> Result<State, ReplayError>
    ensures made_for { IfOk result (λ state. state.graph ≡ live.now.graph) }
    ensures followed { IfOk result (λ state. follow live.now.graph schedule.now ≡ Ok state.state) }
    ensures finished { IfOk result (λ state. IsFinished state.graph state.state) }
    ensures reached { IfOk result IsReached }
    ensures refused { IfErr result (IsRefusal live.now.graph schedule.now) }
{
    let mut state = State::start(alloc, live)?;
    match follow_lines(&mut state, live, schedule) {
        Ok(()) => run_end(state, live),
        Err(error) => {
            drop(state);
            Err(error)
        }
    }
}
