ghost use Rattle.std.specs.Prelude.{◌≡◌, ◌≤◌, ◌<◌, ℕ};
ghost use Rattle.line_base.specs.Limits.{most_stations, most_workers};
ghost use Rattle.line_worker.specs.Share.{worker_of, first_of};

/// The worker that has station `t`.
pub fn worker_of(worker_count: u32, stations: u32, t: u32) -> u32
    requires worker_count { worker_count ≤ most_workers }
    requires stations { stations ≤ most_stations }
    requires station { t < stations }
    ensures { result ≡ worker_of worker_count stations t }
{
    t * worker_count / stations
}

/// The first station of worker `w`. Those of the next one begin where its own end.
pub fn first_of(worker_count: u32, stations: u32, w: u32) -> u32
    requires some { 1 ≤ worker_count }
    requires worker_count { worker_count ≤ most_workers }
    requires stations { stations ≤ most_stations }
    requires worker_number { w ≤ worker_count }
    ensures { result ≡ first_of worker_count stations w }
{
    (w * stations + (worker_count - 1)) / worker_count
}

/// The law *Shares*: the first station of a worker that has one is its own, and the least of its stations.
pub fn first_is_least()
    ensures own { (worker_count stations w t : ℕ) → 1 ≤ worker_count → 1 ≤ stations →
        worker_of worker_count stations t ≡ w →
        worker_of worker_count stations (first_of worker_count stations w) ≡ w }
    ensures least { (worker_count stations w t : ℕ) → 1 ≤ worker_count → 1 ≤ stations →
        worker_of worker_count stations t ≡ w →
        first_of worker_count stations w ≤ t }
{}
