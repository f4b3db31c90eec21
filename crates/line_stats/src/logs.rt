//! Looks at the dates of a station, which don't decrease. None takes memory.
ghost use Rattle.std.specs.List.Sorted.{IsNonDecreasing};
ghost use Rattle.std.specs.Prelude.{◌≡◌, ◌<◌, ◌≤◌, length};
ghost use Rattle.event_graph.specs.Network.{stations};
ghost use Rattle.event_graph.specs.Table.{date_in};
ghost use Rattle.line_core.specs.Run.{IsLeastTable};
ghost use Rattle.line_stats.specs.Between.{dates_until};
ghost use Rattle.line_stats.specs.Counts.{jobs_done};
ghost use Rattle.live_check.specs.MoreTokens.{ListsKeepOrder};

use line_base::Date;
use line_core::Table;

/// How many of the dates are at most `at`, by halving.
pub fn dates_until(dates: &[Date], at: Date) -> usize
    requires { IsNonDecreasing dates.now }
    ensures count { result ≡ dates_until dates.now at }
    ensures within { result ≤ length dates.now }
{
    dates.partition_point(|date| *date <= at)
}

/// How many of the dates are at most `at`, where the first `known` are: it goes on from them.
pub fn dates_until_from(dates: &[Date], known: usize, at: Date) -> usize
    requires order { IsNonDecreasing dates.now }
    requires known { known ≤ dates_until dates.now at }
    ensures count { result ≡ dates_until dates.now at }
{
    let mut count = known;
    while count < dates.len() && dates[count] <= at {
        count += 1;
    }
    count
}

/// How many jobs station `t` has done by a date.
pub fn jobs_done(table: &Table, t: u32, at: Date) -> u32
    requires station { t < stations table.now.graph }
    requires order { ListsKeepOrder table.now.graph }
    ensures count { result ≡ jobs_done table.now.graph (date_in table.now.rows) t at }
    ensures least { IsLeastTable table.now }
{
    dates_until(table.dates(t), at) as u32
}
