ghost use Rattle.std.specs.Prelude.{MatchOption};
ghost use Rattle.cycle_time.specs.Certificate.{NoneVaries};
ghost use Rattle.event_graph.specs.Faults.{IsFirst};
ghost use Rattle.event_graph.specs.Network.{stations};
ghost use Rattle.event_graph.specs.Varying.{Varies};

use event_graph::Graph;

/// The first station with a list of times.
pub fn first_varying(graph: &Graph) -> Option<u32>
    ensures { MatchOption result (NoneVaries graph.now)
        (IsFirst (Varies graph.now) (stations graph.now)) }
{
    for t in 0..graph.stations() {
        if graph.varies(t) {
            return Some(t);
        }
    }
    None
}
