//! The labels of a plant's stations: which of them was meant.

use super::nearest::nearest_name;
use event_graph::Graph;
use live_plant::read_live_plant;
use outside_io::Store;
use std::alloc::{AllocError, Global};
use std::str;

/// The labels of a graph's stations, in order.
pub fn labels_of(alloc: Global, graph: &Graph) -> Result<Vec<&str>, AllocError> {
    let mut labels = Vec::new(alloc);
    for station in 0..graph.stations() {
        if let Ok(label) = str::from_utf8(graph.label(station)) {
            labels.push(label)?;
        }
    }
    Ok(labels)
}

/// Whether a word is one of these labels.
pub fn is_label(labels: &[&str], word: &str) -> bool {
    labels.iter().any(|label| *label == word)
}

/// Whether a label is that of a machine: of a stage, a dot and the machine's name.
pub fn is_of_machine(label: &str) -> bool {
    label.contains('.')
}

/// The label that was meant by a word: that of the one machine of that name, in whichever stage; of the first machine
/// of the stage of that name; or the nearest.
pub fn meant<'a>(
    alloc: Global,
    labels: &[&'a str],
    word: &str,
) -> Result<Option<&'a str>, AllocError> {
    for label in labels {
        if let Some((stage, machine)) = label.split_once('.') {
            if machine == word || stage == word {
                return Ok(Some(*label));
            }
        }
    }
    nearest_name(alloc, labels, word)
}

/// What to do where no station of a plant has this label, or it has fewer jobs: the label that was meant, or how many
/// jobs there are.
pub fn date_advice<S: Store>(
    alloc: Global,
    store: &mut S,
    plant: &str,
    label: &str,
) -> Result<Option<String>, AllocError> {
    let Ok(live) = read_live_plant(alloc, store, plant) else {
        return Ok(None);
    };
    let graph = live.live.graph();
    let labels = labels_of(alloc, graph)?;
    let labels = labels.as_slice();
    if is_label(labels, label) {
        let jobs = graph.jobs();
        return Ok(Some(format!(in alloc; "jobs are 1 to {jobs}")?));
    }
    match meant(alloc, labels, label)? {
        Some(near) => Ok(Some(format!(in alloc; "did you mean '{near}'?")?)),
        None => Ok(None),
    }
}
