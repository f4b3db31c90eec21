ghost use Rattle.std.specs.Prelude.{◌≡◌, ◌+◌, ◌-◌, ◌*◌, ◌^◌, ◌<◌, ◌≤◌};
ghost use Rattle.event_graph.specs.Network.{stations};
ghost use Rattle.what_if.specs.Page.{IsDate, slot};
ghost use Rattle.what_if.specs.Sheet.{date_count};

use live_check::Live;

/// The slot of job `n` at the station with this rank, of this many stations.
pub fn slot_at(rank: u32, stations: u32, n: u32) -> u32
    requires from_one { 1 ≤ n }
    requires small { (n - 1) * stations + rank < 2 ^ 32 }
    ensures { result ≡ (n - 1) * stations + rank }
{
    (n - 1) * stations + rank
}

/// The slot of job `n` at station `t`.
pub fn slot(live: &Live, t: u32, n: u32) -> u32
    requires { IsDate live.now.graph t n }
    ensures slot { result ≡ slot live.now t n }
    ensures below { result < date_count live.now.graph }
{
    slot_at(live.place_of(t), live.graph().stations(), n)
}

/// The station and the job of the date at a slot.
pub fn date_at_slot(live: &Live, at: u32) -> (u32, u32)
    requires { at < date_count live.now.graph }
    ensures date { IsDate live.now.graph result.0 result.1 }
    ensures slot { slot live.now result.0 result.1 ≡ at }
{
    let stations = live.graph().stations();
    (live.station_at(at % stations), at / stations + 1)
}
