//! The dates of all jobs at all stations, one line each: threads format them, portion by portion.
ghost use Rattle.std.specs.Prelude.{◌≡◌, ◌+◌, ◌-◌, ◌*◌, ◌<◌, ◌≤◌, length, min};
ghost use Rattle.event_graph.specs.Network.{stations, jobs};
ghost use Rattle.event_graph.specs.Table.{date_in};
ghost use Rattle.outside_io.specs.Outgoing.{Pushed, stream};
ghost use Rattle.line_report.specs.Portions.{HasLines, HaveShares, share_start, numbered_line, numbered_lines};
ghost use Rattle.line_report.specs.ReportText.{date_lines};

use crate::portion::{Portion, fitting_lines};
use event_graph::Graph;
use line_base::for_each_mut;
use line_core::Table;
use outside_io::{Outgoing, Sink};
use std::thread::Threads;

/// Writes the line of a number.
fn write_line<K: Sink>(out: &mut Outgoing, sink: &mut K, graph: &Graph, table: &Table, i: u32)
    requires of_graph { table.now.graph ≡ graph.now }
    requires within { i < stations graph.now * jobs graph.now }
    ensures { Pushed (stream (K.shown sink.old) out.old)
        (stream (K.shown sink.new) out.new) (numbered_line graph.now (date_in table.now.rows) i) }
{
    let jobs = graph.jobs();
    let t = i / jobs;
    let job = i % jobs + 1;
    out.push(sink, graph.label(t));
    out.push_last_two_numbers(sink, job as u64, table.date(t, job));
}

/// Writes the lines from number `from` on and below number `to`.
fn write_lines<K: Sink>(
    out: &mut Outgoing,
    sink: &mut K,
    graph: &Graph,
    table: &Table,
    from: u32,
    to: u32,
)
    requires of_graph { table.now.graph ≡ graph.now }
    requires ordered { from ≤ to }
    requires within { to ≤ stations graph.now * jobs graph.now }
    ensures { Pushed (stream (K.shown sink.old) out.old)
        (stream (K.shown sink.new) out.new) (numbered_lines graph.now (date_in table.now.rows) from (to - from)) }
{
    for i in from..to {
        write_line(out, sink, graph, table, i);
    }
}

/// Writes the lines from number `from` on and below number `to`: those that a portion has, and then the others.
fn write_portion<K: Sink>(
    out: &mut Outgoing,
    sink: &mut K,
    graph: &Graph,
    table: &Table,
    portion: &Portion,
    from: u32,
    to: u32,
)
    requires of_graph { table.now.graph ≡ graph.now }
    requires within { to ≤ stations graph.now * jobs graph.now }
    requires lines { HasLines graph.now (date_in table.now.rows) from to portion.now }
    ensures { Pushed (stream (K.shown sink.old) out.old)
        (stream (K.shown sink.new) out.new) (numbered_lines graph.now (date_in table.now.rows) from (to - from)) }
{
    out.push(sink, portion.text());
    write_lines(out, sink, graph, table, portion.end(), to);
}

/// The number of the first line of a share.
fn share_start(from: u32, to: u32, each: u32, i: usize) -> u32
    ensures { result ≡ share_start from to each i }
{
    let behind = (i as u64).saturating_mul(u64::from(each));
    u64::from(from).saturating_add(behind).min(u64::from(to)) as u32
}

/// The number of the line behind a share.
fn share_end(start: u32, to: u32, each: u32) -> u32
    ensures { result ≡ min (start + each) to }
{
    start.saturating_add(each).min(to)
}

/// Formats the lines from number `from` on and below number `to`, as many in each portion, each portion by a thread.
fn fill_portions<R: Threads + Sync>(
    rt: &R,
    graph: &Graph,
    table: &Table,
    from: u32,
    to: u32,
    each: u32,
    portions: &mut [Portion],
)
    requires of_graph { table.now.graph ≡ graph.now }
    requires ordered { from ≤ to }
    requires within { to ≤ stations graph.now * jobs graph.now }
    requires some { 0 < length portions.old }
    ensures number { length portions.new ≡ length portions.old }
    ensures shares { HaveShares graph.now (date_in table.now.rows) from to each portions.new }
{
    let threads = portions.len();
    for_each_mut(
        rt,
        portions,
        threads,
        &|i: usize, portion: &mut Portion|
            requires { (table.now.graph ≡ graph.now) × (from ≤ to) × (to ≤ stations graph.now * jobs graph.now) }
            ensures { HasLines graph.entry.now (date_in table.entry.now.rows) (share_start from to each i)
                (min (share_start from to each i + each) to) portion.exit.now }
        {
            let start = share_start(from, to, each, i);
            portion.fill(graph, table, start, share_end(start, to, each));
        },
    );
}

/// Writes the lines from number `from` on and below number `to`: of each portion its share, and then the others.
fn write_portions<K: Sink>(
    out: &mut Outgoing,
    sink: &mut K,
    graph: &Graph,
    table: &Table,
    portions: &[Portion],
    each: u32,
    from: u32,
    to: u32,
)
    requires of_graph { table.now.graph ≡ graph.now }
    requires ordered { from ≤ to }
    requires within { to ≤ stations graph.now * jobs graph.now }
    requires shares { HaveShares graph.now (date_in table.now.rows) from to each portions.now }
    ensures { Pushed (stream (K.shown sink.old) out.old)
        (stream (K.shown sink.new) out.new) (numbered_lines graph.now (date_in table.now.rows) from (to - from)) }
{
    let mut next = from;
    for portion in portions {
        let end = share_end(next, to, each);
        write_portion(out, sink, graph, table, portion, next, end);
        next = end;
    }
    write_lines(out, sink, graph, table, next, to);
}

/// How many lines each of this many portions gets in a round: as many as fit, or fewer, so that all rounds are alike.
fn lines_each(graph: &Graph, table: &Table, portions: u32) -> u32
    requires { table.now.graph ≡ graph.now }
    ensures { 1 ≤ result }
{
    let lines = graph.stations() * graph.jobs();
    let most = fitting_lines(graph, table, portions)
        .saturating_mul(portions)
        .max(1);
    let shares = lines.div_ceil(most).saturating_mul(portions).max(1);
    lines.div_ceil(shares).max(1)
}

/// Writes the dates of all jobs at all stations, station by station. Each portion is formatted by a thread, and where
/// there is one portion, no thread is begun.
pub fn write_dates<R: Threads + Sync, K: Sink>(
    rt: &R,
    out: &mut Outgoing,
    sink: &mut K,
    graph: &Graph,
    table: &Table,
    portions: &mut [Portion],
)
    requires of_graph { table.now.graph ≡ graph.now }
    requires some { 0 < length portions.old }
    ensures number { length portions.new ≡ length portions.old }
    ensures lines { Pushed (stream (K.shown sink.old) out.old)
        (stream (K.shown sink.new) out.new) (date_lines graph.now (date_in table.now.rows)) }
{
    let lines = graph.stations() * graph.jobs();
    let count = u32::try_from(portions.len()).unwrap_or(u32::MAX);
    let each = lines_each(graph, table, count);
    let round = each.saturating_mul(count).max(1);
    let mut next = 0;
    while next < lines {
        let end = share_end(next, lines, round);
        fill_portions(rt, graph, table, next, end, each, portions);
        write_portions(out, sink, graph, table, portions, each, next, end);
        next = end;
    }
}
