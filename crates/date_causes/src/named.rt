ghost use Rattle.std.specs.Prelude.{◌≡◌, ◌<◌, ◌≤◌, IfOk, OnOk, OnErr, Some};
ghost use Rattle.date_causes.specs.Named.{HasNoDate};
ghost use Rattle.event_graph.specs.Network.{stations, jobs};
ghost use Rattle.line_core.specs.Schedule.{station_with};

use event_graph::Graph;

/// There is no such date: no station has the label, or there are fewer jobs.
#[derive(Clone, Copy)]
pub struct NoDate;

/// The first station with this label.
fn station_with(graph: &Graph, label: &[u8]) -> Option<u32>
    ensures { result ≡ station_with graph.now label.now }
{
    (0..graph.stations()).find(|t| graph.label(*t) == label)
}

/// The first station with this label, where there are as many jobs as `n`.
pub fn station_of(graph: &Graph, label: &[u8], n: u32) -> Result<u32, NoDate>
    ensures named { IfOk result (λ t. station_with graph.now label.now ≡ Some t) }
    ensures station { IfOk result (λ t. t < stations graph.now) }
    ensures job { OnOk result (n ≤ jobs graph.now) }
    ensures none { OnErr result (HasNoDate graph.now label.now n) }
{
    match station_with(graph, label) {
        Some(t) if n <= graph.jobs() => Ok(t),
        _ => Err(NoDate),
    }
}
