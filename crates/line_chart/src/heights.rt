//! How high the parts of a picture are, in its own units.
ghost use Rattle.std.specs.Prelude.{◌≡◌, ◌≤◌};
ghost use Rattle.line_chart.specs.Bars.{lane_count};
ghost use Rattle.line_chart.specs.ChartText.{area_count, areas_end};
ghost use Rattle.line_chart.specs.Picture.{IsOfRun};

use crate::run::ChartRun;

/// The height of a lane: that of its bars, and of the gap to the next lane.
pub const LANE_HEIGHT: u64 = 16;

/// The height of a lane in the units of the field of the bars, which is stretched to `LANE_HEIGHT`.
pub const LANE_UNITS: u64 = 10;

/// The height of an area, and of the gap to the next one.
const AREA_HEIGHT: u64 = 50;

/// The height of the axis above the lanes, and of the gap between the lanes and the areas.
const AROUND_LANES: u64 = 60;

/// The height at which this many areas end, where the next one begins.
pub fn areas_end(run: &ChartRun, areas: u64) -> u64
    requires run { IsOfRun run.now }
    requires few { areas ≤ area_count run.now.plant }
    ensures end { result ≡ areas_end (lane_count run.now.plant) areas }
    ensures small { result ≤ 100_000_000 }
{
    AROUND_LANES + LANE_HEIGHT * run.lanes + AREA_HEIGHT * areas
}
