ghost use Rattle.std.specs.Thread.{IsSend};
ghost use Rattle.station_step.specs.contracts.shelf.Shelf.{the_row as shelf_row};
ghost use Rattle.station_step.specs.contracts.station.Station.{the_row as station_row};

/// A law of the types: a station and a shelf may move to another thread, each with the ends of its queues.
pub fn stations_may_move_to_another_thread()
    ensures station { IsSend station_row }
    ensures shelf { IsSend shelf_row }
{}
