ghost use Rattle.std.specs.Prelude.{◌≡◌, ◌⊎◌, ◌++◌, codes, decimal, IfOk};
ghost use Rattle.live_plant.specs.Schedules.{schedule_refusal, NamesExisting};

use crate::refusals::Refusal;
use event_graph::Graph;
use line_base::Items;
use line_core::ReplayError;
use std::alloc::{AllocError, Global};

/// The refusal of a schedule, with its line. Stations go by their labels.
pub fn schedule_refusal(alloc: Global, graph: &Graph, error: ReplayError) -> Refusal
    requires { NamesExisting graph.now error }
    ensures { (result ≡ Refusal.NoMemory) ⊎ (result ≡ schedule_refusal graph.now error) }
{
    labelled_refusal(alloc, graph, error).unwrap_or(Refusal::NoMemory)
}

/// The refusal, if there is memory for its line.
fn labelled_refusal(alloc: Global, graph: &Graph, error: ReplayError) -> Result<Refusal, AllocError>
    requires { NamesExisting graph.now error }
    ensures { IfOk result (λ refusal. refusal ≡ schedule_refusal graph.now error) }
{
    match error {
        ReplayError::NoStation { line } => no_station_line(alloc, line),
        ReplayError::Done { line, station } => done_line(alloc, line, graph.label(station)),
        ReplayError::Empty { line, arc } => {
            let arc = graph.arc(arc);
            waiting_line(alloc, line, graph.label(arc.to), graph.label(arc.from))
        }
        ReplayError::Unfinished { station, have } => {
            unfinished_line(alloc, graph.label(station), have, graph.jobs())
        }
        ReplayError::NoMemory => Ok(Refusal::NoMemory),
    }
}

/// The refusal of a line that names no station.
fn no_station_line(alloc: Global, line: u64) -> Result<Refusal, AllocError>
    ensures { IfOk result (λ refusal. refusal ≡ Refusal.NotFollowed (codes "replay: line "
        ++ decimal line ++ codes " is no station")) }
{
    let text = format!(in alloc; "replay: line {line} is no station")?.into_bytes();
    Ok(not_followed(text))
}

/// The refusal of a line that names the station with this label, which has fired once for each job.
fn done_line(alloc: Global, line: u64, label: &[u8]) -> Result<Refusal, AllocError>
    ensures { IfOk result (λ refusal. refusal ≡ Refusal.NotFollowed (codes "replay: line "
        ++ decimal line ++ codes ": " ++ label.now ++ codes " is done")) }
{
    let mut text = line_words(alloc, line, label)?;
    text.extend_from_slice(b" is done")?;
    Ok(not_followed(text))
}

/// The refusal of a line that names the station with this label, which waits for a token of another one.
fn waiting_line(
    alloc: Global,
    line: u64,
    label: &[u8],
    source: &[u8],
) -> Result<Refusal, AllocError>
    ensures { IfOk result (λ refusal. refusal ≡ Refusal.NotFollowed (codes "replay: line "
        ++ decimal line ++ codes ": " ++ label.now ++ codes " waits for " ++ source.now)) }
{
    let mut text = line_words(alloc, line, label)?;
    text.extend_from_slice(b" waits for ")?;
    text.extend_from_slice(source)?;
    Ok(not_followed(text))
}

/// The refusal at the schedule's end, where the station with this label hasn't fired once for each job.
fn unfinished_line(alloc: Global, label: &[u8], have: u64, jobs: u32) -> Result<Refusal, AllocError>
    ensures { IfOk result (λ refusal. refusal ≡ Refusal.NotFollowed (codes "replay: "
        ++ label.now ++ codes " made " ++ decimal have ++ codes " of " ++ decimal jobs)) }
{
    let mut text = Vec::from_slice(alloc, b"replay: ")?;
    text.extend_from_slice(label)?;
    let fired = format!(in alloc; " made {have} of {jobs}")?;
    text.extend_from_slice(fired.as_bytes())?;
    Ok(not_followed(text))
}

/// The refusal with this line.
fn not_followed(line: Vec<u8>) -> Refusal
    ensures { result ≡ Refusal.NotFollowed line.items }
{
    Refusal::NotFollowed {
        line: Items::from_vec(line),
    }
}

/// A line of a schedule, and the station that it names.
fn line_words(alloc: Global, line: u64, label: &[u8]) -> Result<Vec<u8>, AllocError>
    ensures { IfOk result
        (λ text. text.items ≡ codes "replay: line " ++ decimal line ++ codes ": " ++ label.now) }
{
    let mut text = format!(in alloc; "replay: line {line}: ")?.into_bytes();
    text.extend_from_slice(label)?;
    Ok(text)
}
