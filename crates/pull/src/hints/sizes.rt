//! What holds a line back that no count of cards makes quick enough.

use card_sizing::sized_plant;
use date_causes::{Cause, Link, causes};
use event_graph::Graph;
use line_base::{Date, MAX_CARDS};
use line_core::run;
use live_plant::{LivePlant, live_plant_of, read_plant_files};
use outside_io::Store;
use plant_check::check;
use plant_model::FEED;
use std::alloc::{AllocError, Global};
use std::str;

/// What holds back the first job that waits too long with the most cards, of a plant file and of the word for a wait: a
/// machine whose servers are busy, or the stock of the last stage.
pub fn limit_advice<S: Store>(
    alloc: Global,
    store: &mut S,
    file: &str,
    wait: &str,
) -> Result<Option<String>, AllocError> {
    let Ok(wait) = wait.parse::<u64>() else {
        return Ok(None);
    };
    let Ok(plant) = read_plant_files(alloc, store, file) else {
        return Ok(None);
    };
    let most = sized_plant(alloc, &plant, MAX_CARDS)?;
    if check(alloc, &most).is_err() {
        return Ok(None);
    }
    match live_plant_of(alloc, most) {
        Ok(live) => limit_of(alloc, &live, wait, file),
        Err(_) => Ok(None),
    }
}

/// What holds back the first job of a live plant that waits too long.
fn limit_of(
    alloc: Global,
    live: &LivePlant,
    wait: u64,
    file: &str,
) -> Result<Option<String>, AllocError> {
    let table = run(alloc, &live.live)?.into_table(&live.live);
    let stations = live.live.graph().stations();
    let jobs = live.live.graph().jobs();
    if stations == 0 {
        return Ok(None);
    }
    let deliver = stations - 1;
    let Some(job) = first_late(table.dates(FEED), table.dates(deliver), wait) else {
        return Ok(None);
    };
    if job == 0 || job > jobs {
        return Ok(None);
    }
    let links = causes(alloc, &live.live, &table, deliver, job)?;
    let graph = live.live.graph();
    if let Some(machine) = last_busy(graph, links.as_slice()) {
        return Ok(Some(format!(in alloc;
            "cards don't help, '{machine}' is busy: 'pull cycle {file}' tells what holds the line"
        )?));
    }
    match live.plant.stages.as_slice().last() {
        Some(stage) => {
            let stage = text_of(stage.name.text());
            Ok(Some(format!(in alloc;
                "cards don't help, the stock of '{stage}' is too small: 'pull why {file} deliver {job}' tells how long parts take"
            )?))
        }
        None => Ok(None),
    }
}

/// The first job that is delivered later than it may wait, of the dates of the demands and of the deliveries.
fn first_late(demanded: &[Date], delivered: &[Date], wait: u64) -> Option<u32> {
    let waits = demanded.iter().zip(delivered.iter());
    let mut job: u32 = 0;
    for (demand, delivery) in waits {
        job = job.saturating_add(1);
        if delivery.saturating_sub(*demand) > wait {
            return Some(job);
        }
    }
    None
}

/// The label of the last machine along a chain of causes at which a job waits for a server.
fn last_busy<'a>(graph: &'a Graph, links: &[Link]) -> Option<&'a str> {
    for link in links.iter().rev() {
        if link.station < graph.stations() && waits_for_server(graph, *link) {
            return Some(text_of(graph.label(link.station)));
        }
    }
    None
}

/// Whether a date is as late as it is since the servers of its machine work on jobs before: the arc leads from the
/// machine to itself and takes its time.
fn waits_for_server(graph: &Graph, link: Link) -> bool {
    let Cause::Along(arc) = link.cause else {
        return false;
    };
    match graph.arcs().get(arc as usize) {
        Some(arc) => arc.from == arc.to && arc.worked,
        None => false,
    }
}

/// A name or a label as text.
fn text_of(name: &[u8]) -> &str {
    match str::from_utf8(name) {
        Ok(text) => text,
        Err(_) => "?",
    }
}
