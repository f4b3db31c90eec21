//! The lines of the latest dates.
ghost use Rattle.std.specs.Prelude.{◌≡◌, ◌+◌, ◌-◌, ◌*◌, ◌<◌, ◌≤◌, ◌++◌, Some, codes, decimal, length, take};
ghost use Rattle.event_graph.specs.Network.{stations, jobs, label};
ghost use Rattle.event_graph.specs.Table.{date_in};
ghost use Rattle.latest_dates.specs.Found.{found_of, latest_of, text_of, IsRun};
ghost use Rattle.latest_dates.specs.JobLines.{job_lines, tight_jobs};
ghost use Rattle.latest_dates.specs.Latest.{IsNoLater};
ghost use Rattle.latest_dates.specs.LatestText.{slack_words, line_words, has_no_slack, station_lines, tight_at, all_lines, tight_count};
ghost use Rattle.outside_io.specs.Outgoing.{Pushed, stream};

use crate::bounds::latest_at;
use crate::run::LatestRun;
use line_base::{Date, MAX_DIGITS};
use line_report::line_end::write_number;
use line_report::line_start::{LineStart, WIDTH};
use outside_io::{Outgoing, Sink};

/// The most bytes of a line, and of what writing it may change behind it.
const MAX_LINE: usize = WIDTH + 2 * MAX_DIGITS + 8;

/// The most lines that are formatted at once.
const MAX_LINES: usize = 64;

/// The bytes of the room in which lines are formatted.
const ROOM: usize = MAX_LINES * MAX_LINE;

/// Writes bytes from `at` on, and answers where they end.
fn write_bytes(room: &mut [u8], at: usize, bytes: &[u8]) -> usize
    requires { at + length bytes.now ≤ length room.old }
    ensures written { take result room.new ≡ take at room.old ++ bytes.now }
    ensures end { result ≡ at + length bytes.now }
{
    let end = at + bytes.len();
    room[at..end].copy_from_slice(bytes);
    end
}

/// Writes a latest date with its slack, and the end of the line, from `at` on, and answers where it ends.
fn write_two(room: &mut [u8], at: usize, latest: Date, slack: u64) -> usize
    requires { at + 2 * MAX_DIGITS + 8 ≤ length room.old }
    ensures written { take result room.new
        ≡ take at room.old ++ (decimal latest ++ (codes " slack " ++ (decimal slack ++ codes "\n"))) }
    ensures end { result ≤ at + 2 * MAX_DIGITS + 8 }
{
    let end = write_number(room, at, latest);
    let end = write_bytes(room, end, b" slack ");
    let end = write_number(room, end, slack);
    write_bytes(room, end, b"\n")
}

/// Writes a latest date with its slack, or `none`, and the end of the line, from `at` on, and answers where it ends.
fn write_slack(room: &mut [u8], at: usize, latest: Option<Date>, date: Date) -> usize
    requires early { IsNoLater (Some date) latest }
    requires room { at + 2 * MAX_DIGITS + 8 ≤ length room.old }
    ensures written { take result room.new ≡ take at room.old ++ slack_words latest date }
    ensures end { result ≤ at + 2 * MAX_DIGITS + 8 }
{
    match latest {
        None => write_bytes(room, at, b"none\n"),
        Some(latest) => write_two(room, at, latest, latest - date),
    }
}

/// Writes the line of a job from `at` on, and answers where it ends.
fn write_line(
    room: &mut [u8],
    at: usize,
    start: &LineStart,
    latest: Option<Date>,
    date: Date,
) -> usize
    requires early { IsNoLater (Some date) latest }
    requires room { at + MAX_LINE ≤ length room.old }
    ensures written { take result room.new
        ≡ take at room.old ++ line_words start.now.label start.now.job latest date }
    ensures end { result ≤ at + MAX_LINE }
{
    let end = start.write(room, at);
    write_slack(room, end, latest, date)
}

/// Whether the slack is 0.
fn has_no_slack(latest: Option<Date>, date: Date) -> bool
    requires { IsNoLater (Some date) latest }
    ensures { result ≡ has_no_slack latest date }
{
    match latest {
        None => false,
        Some(latest) => latest - date == 0,
    }
}

/// Where lines end that were written, and how many of them have no slack.
#[derive(Clone, Copy)]
struct Written {
    end: usize,
    tight: u32,
}

/// Writes the lines of this many jobs of station `t` behind the first few into a room, from its start on.
fn write_jobs(
    room: &mut [u8],
    start: &mut LineStart,
    run: &LatestRun,
    t: u32,
    before: u32,
    count: u32,
) -> Written
    requires run { IsRun run.now }
    requires station { t < stations run.now.live.graph }
    requires jobs { before + count ≤ jobs run.now.live.graph }
    requires few { count ≤ MAX_LINES }
    requires room { length room.old ≡ ROOM }
    requires start { start.old ≡ record { label = label run.now.live.graph t; job = before + 1 } }
    ensures next { start.new ≡ record { label = label run.now.live.graph t; job = before + count + 1 } }
    ensures end { result.end ≤ ROOM }
    ensures lines { let f = found_of run.now in
        take result.end room.new ≡ job_lines f.live.graph (date_in f.rows) (latest_of f) t before count }
    ensures tight { let f = found_of run.now in
        result.tight ≡ tight_jobs (date_in f.rows) (latest_of f) t before count }
    ensures few_tight { result.tight ≤ count }
{
    let mut end = 0;
    let mut tight = 0;
    for done in 0..count {
        let job = before + done + 1;
        let latest = latest_at(run.dates.as_slice(), &run.live, t, job).date();
        let date = run.table.date(t, job);
        end = write_line(room, end, start, latest, date);
        if has_no_slack(latest, date) {
            tight += 1;
        }
        start.next();
    }
    Written { end, tight }
}

/// Writes the lines of all jobs at station `t`, and answers how many of them have no slack. They are formatted in a
/// room.
fn write_station<K: Sink>(
    out: &mut Outgoing,
    sink: &mut K,
    room: &mut [u8],
    run: &LatestRun,
    t: u32,
) -> u32
    requires run { IsRun run.now }
    requires station { t < stations run.now.live.graph }
    requires room { length room.old ≡ ROOM }
    ensures written { let f = found_of run.now in
        Pushed (stream (K.shown sink.old) out.old) (stream (K.shown sink.new) out.new)
        (station_lines f.live.graph (date_in f.rows) (latest_of f) t) }
    ensures tight { let f = found_of run.now in
        result ≡ tight_at f.live.graph (date_in f.rows) (latest_of f) t }
    ensures few { result ≤ jobs run.now.live.graph }
{
    let graph = run.live.graph();
    let jobs = graph.jobs();
    let mut start = LineStart::of(graph.label(t), 1);
    let mut tight = 0;
    let mut next = 0;
    while next < jobs {
        let count = (jobs - next).min(MAX_LINES as u32);
        let added = write_jobs(room, &mut start, run, t, next, count);
        out.push(sink, &room[..added.end]);
        tight += added.tight;
        next += count;
    }
    tight
}

/// Writes the lines of all stations but the feed, and answers how many of them have no slack.
fn write_stations<K: Sink>(
    out: &mut Outgoing,
    sink: &mut K,
    room: &mut [u8],
    run: &LatestRun,
) -> u32
    requires run { IsRun run.now }
    requires room { length room.old ≡ ROOM }
    ensures written { let f = found_of run.now in
        Pushed (stream (K.shown sink.old) out.old) (stream (K.shown sink.new) out.new)
        (all_lines f.live.graph (date_in f.rows) (latest_of f)) }
    ensures tight { let f = found_of run.now in
        result ≡ tight_count f.live.graph (date_in f.rows) (latest_of f) }
{
    let mut tight = 0;
    for before in 0..run.live.graph().stations() - 1 {
        tight += write_station(out, sink, room, run, before + 1);
    }
    tight
}

/// Writes the lines of all stations but the feed, and how many of them have no slack.
pub fn write_latest<K: Sink>(out: &mut Outgoing, sink: &mut K, run: &LatestRun)
    requires { IsRun run.now }
    ensures { Pushed (stream (K.shown sink.old) out.old) (stream (K.shown sink.new) out.new)
        (text_of (found_of run.now)) }
{
    let mut room = [0; ROOM];
    let tight = write_stations(out, sink, &mut room, run);
    out.push(sink, b"tight ");
    out.push_number(sink, tight as u64);
    out.push(sink, b"\n");
}
