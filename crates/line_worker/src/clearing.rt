ghost use Rattle.std.specs.Prelude.{◌≡◌, map};
ghost use Rattle.line_worker.specs.Cleared.{cleared_station};

use station_step::Station;

/// Counts the turns of these stations from 0 again. Nothing else changes.
pub(crate) fn clear_stations(stations: &mut Vec<Station>)
    ensures { stations.new.items ≡ map cleared_station stations.old.items }
{
    for station in stations.iter_mut() {
        station.clear_turns();
    }
}
