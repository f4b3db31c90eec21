ghost use Rattle.std.specs.Prelude.{◌≡◌, ◌⊎◌, ◌++◌, codes, decimal, string_bytes, IfOk};
ghost use Rattle.live_plant.specs.Checkpoints.{checkpoint_refusal, has_date, NamesStation};

use crate::refusals::Refusal;
use checkpoint::CheckpointError;
use event_graph::Graph;
use line_base::Items;
use std::alloc::{AllocError, Global};

/// The refusal of a checkpoint, with its line. Stations go by their labels.
pub fn checkpoint_refusal(alloc: Global, graph: &Graph, error: CheckpointError) -> Refusal
    requires { NamesStation graph.now error }
    ensures { (result ≡ Refusal.NoMemory) ⊎ (result ≡ checkpoint_refusal graph.now error) }
{
    labelled_refusal(alloc, graph, error).unwrap_or(Refusal::NoMemory)
}

/// The refusal, if there is memory for its line.
fn labelled_refusal(
    alloc: Global,
    graph: &Graph,
    error: CheckpointError,
) -> Result<Refusal, AllocError>
    requires { NamesStation graph.now error }
    ensures { IfOk result (λ refusal. refusal ≡ checkpoint_refusal graph.now error) }
{
    match error {
        CheckpointError::Line { number } => {
            let line = format!(in alloc; "checkpoint: line {number}")?;
            Ok(not_reached(line.into_bytes()))
        }
        CheckpointError::Count {
            station,
            have,
            limit,
        } => {
            let count = format!(in alloc; " has {have} of {limit}")?;
            station_line(alloc, graph.label(station), count)
        }
        CheckpointError::Marking { arc, have, need } => {
            let line = format!(in alloc;
                "checkpoint: place {arc} has {have} tokens, needs {need}"
            )?;
            Ok(not_reached(line.into_bytes()))
        }
        CheckpointError::Date {
            station,
            job,
            have,
            need,
        } => date_line(alloc, graph.label(station), job, have, need),
        CheckpointError::PlaceDate {
            arc,
            token,
            have,
            need,
        } => {
            let line = format!(in alloc;
                "checkpoint: place {arc} token {token} has date {have}, needs {need}"
            )?;
            Ok(not_reached(line.into_bytes()))
        }
        CheckpointError::NoMemory => Ok(Refusal::NoMemory),
    }
}

/// The refusal with this line.
fn not_reached(line: Vec<u8>) -> Refusal
    ensures { result ≡ Refusal.NotReached line.items }
{
    Refusal::NotReached {
        line: Items::from_vec(line),
    }
}

/// The refusal of the date of a job at the station with this label.
fn date_line(
    alloc: Global,
    label: &[u8],
    job: u32,
    have: u64,
    need: u64,
) -> Result<Refusal, AllocError>
    ensures { IfOk result (λ refusal. refusal ≡ Refusal.NotReached (codes "checkpoint: "
        ++ (label.now ++ (codes " " ++ (decimal job ++ has_date have need))))) }
{
    let date = format!(in alloc; " {job} has date {have}, needs {need}")?;
    station_line(alloc, label, date)
}

/// The refusal that says what is wrong with the log of a station.
fn station_line(alloc: Global, label: &[u8], what: String) -> Result<Refusal, AllocError>
    ensures { IfOk result
        (λ refusal. refusal ≡ Refusal.NotReached (codes "checkpoint: " ++ (label.now ++ string_bytes what))) }
{
    let mut line = Vec::from_slice(alloc, b"checkpoint: ")?;
    line.extend_from_slice(label)?;
    line.extend_from_slice(what.as_bytes())?;
    Ok(not_reached(line))
}
