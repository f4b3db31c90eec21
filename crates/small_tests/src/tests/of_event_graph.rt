use crate::tests::assert_same::assert_same;
use crate::tests::samples::{plain, two_stations};
use event_graph::{Arc, GraphError};
use std::alloc::Global;
use std::process::Abort;
use std::test::Fail;

/// Asserts the fault of two stations with these arcs, none of which has a delay.
fn assert_refused(
    rt: &impl Abort,
    alloc: Global,
    arcs: &[Arc],
    fault: GraphError,
) -> Result<(), Fail> {
    let delays = vec![in alloc; 0; arcs.len()]?;
    assert_same(rt, two_stations(alloc, arcs, &delays)?.err(), Some(fault));
    Ok(())
}

// No plant has such a graph.
#[test]
fn the_first_fault_of_the_arcs_is_named(rt: HostRuntime) -> Result<(), Fail> {
    let alloc = rt.alloc();
    let outside = [plain(1, 0, 1), plain(0, 1, 1), plain(2, 1, 1)];
    assert_refused(&rt, alloc, &outside, GraphError::EndOutOfRange { arc: 2 })?;
    let into_the_feed = [plain(0, 1, 1), plain(1, 0, 1), plain(0, 0, 1)];
    assert_refused(&rt, alloc, &into_the_feed, GraphError::FeedInput { arc: 1 })?;
    assert_refused(&rt, alloc, &[], GraphError::NoInput { station: 1 })
}
