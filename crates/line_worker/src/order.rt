ghost use Rattle.std.specs.Prelude.{◌+◌, ◌-◌, ◌<◌, ◌≤◌, ◌^◌, IfOk, SomeIff};
ghost use Rattle.event_graph.specs.Network.{stations};
ghost use Rattle.line_worker.specs.Worker.{IsOrder};

use live_check::Live;
use std::alloc::{AllocError, Global};

/// The number of station `t` among this many stations from the first on, if it is one of them.
fn number_in(first: u32, count: u32, t: u32) -> Option<u32>
    requires { first + count < 2 ^ 32 }
    ensures { SomeIff result ((first ≤ t) × (t < first + count)) (t - first) }
{
    if first <= t && t < first + count {
        Some(t - first)
    } else {
        None
    }
}

/// The order in which this many stations from the first on step: their numbers among them, by their ranks.
pub(crate) fn order_of(
    alloc: Global,
    live: &Live,
    first: u32,
    count: u32,
) -> Result<Vec<u32>, AllocError>
    requires { first + count ≤ stations live.now.graph }
    ensures { IfOk result (λ order. IsOrder live.now.ranks first count order.items) }
{
    let mut order = Vec::with_capacity(alloc, count as usize)?;
    for rank in 0..live.graph().stations() {
        if let Some(number) = number_in(first, count, live.station_at(rank)) {
            order.push(number)?;
        }
    }
    Ok(order)
}
