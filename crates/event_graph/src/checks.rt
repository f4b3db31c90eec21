ghost use Rattle.std.specs.Prelude.{◌≡◌, ◌^◌, ◌<◌, MatchResult};
ghost use Rattle.event_graph.specs.Faults.{AllNameStations, NoneEntersFeed, NoneLacksInput, IsFirstFault};
ghost use Rattle.event_graph.specs.Lists.{lists_at};
ghost use Rattle.event_graph.specs.Network.{stations, arc_count};
ghost use Rattle.event_graph.specs.declared.lists.End.TheVariants.{Finish};

use crate::error::GraphError;
use crate::lists::ArcLists;
use line_base::Parts;

/// Refuses parts in which an arc names no station.
pub fn check_ends(parts: &Parts) -> Result<(), GraphError>
    requires { arc_count parts.now < 2 ^ 32 }
    ensures { MatchResult result (λ _. AllNameStations parts.now) (IsFirstFault parts.now) }
{
    let stations = parts.labels.len();
    for (number, arc) in parts.arcs.as_slice().iter().enumerate() {
        if arc.from as usize >= stations || arc.to as usize >= stations {
            return Err(GraphError::EndOutOfRange { arc: number as u32 });
        }
    }
    Ok(())
}

/// Refuses parts in which an arc enters the feed.
pub fn check_feed(parts: &Parts) -> Result<(), GraphError>
    requires few { arc_count parts.now < 2 ^ 32 }
    requires ends { AllNameStations parts.now }
    ensures { MatchResult result (λ _. NoneEntersFeed parts.now) (IsFirstFault parts.now) }
{
    for (number, arc) in parts.arcs.as_slice().iter().enumerate() {
        if arc.to == 0 {
            return Err(GraphError::FeedInput { arc: number as u32 });
        }
    }
    Ok(())
}

/// Refuses parts in which no arc enters a station that isn't the feed.
pub fn check_inputs(parts: &Parts, into: &ArcLists) -> Result<(), GraphError>
    requires few { stations parts.now < 2 ^ 32 }
    requires ends { AllNameStations parts.now }
    requires feed { NoneEntersFeed parts.now }
    requires listed { into.now ≡ lists_at Finish parts.now }
    ensures { MatchResult result (λ _. NoneLacksInput parts.now) (IsFirstFault parts.now) }
{
    for station in 1..parts.labels.len() as u32 {
        if into.of(station).is_empty() {
            return Err(GraphError::NoInput { station });
        }
    }
    Ok(())
}
