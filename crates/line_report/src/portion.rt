//! Lines that a thread formats in a buffer of its own.
ghost use Rattle.std.specs.Prelude.{◌≡◌, ◌+◌, ◌-◌, ◌*◌, ◌<◌, ◌≤◌, ◌++◌, ◌∷◌, [], decimal, length, take, IfOk};
ghost use Rattle.event_graph.specs.Network.{stations, jobs};
ghost use Rattle.event_graph.specs.Table.{date_in};
ghost use Rattle.line_report.specs.Portions.{HasLines, job_lines, numbered_lines};
ghost use Rattle.line_report.specs.ReportText.{line};

use crate::line_end::write_last_number;
use crate::line_start::{LineStart, WIDTH};
use event_graph::Graph;
use line_base::{Date, MAX_DIGITS, digit_count};
use line_core::Table;
use std::alloc::{AllocError, Global};
use std::marker::Model;

/// The bytes that a portion has room for where one thread formats all lines.
const ROOM: usize = 262_144;

/// The bytes that a portion has room for where several threads do: to begin them takes about as long as to fill `ROOM`.
const ROOM_OF_THREADS: usize = 1_048_576;

/// The most bytes of a line, and of what writing it may change behind it.
const MAX_LINE: usize = WIDTH + MAX_DIGITS + 1;

/// Lines of the dates that follow one another, formatted. Contracts see their text, and the number of the line behind
/// the last.
#[derive(Drop)]
pub struct Portion {
    room: Vec<u8>,
    filled: usize,
    end: u32,
}

impl Model for Portion {
    ghost use Rattle.std.specs.Prelude.{◌≤◌, length, take};
    ghost use Rattle.line_report.specs.Portions.{Formatted};

    ghost Value = { Formatted };

    ghost view = { λ p. record { lines = take p.filled p.room.items; end = p.end } };

    ghost invariant = { λ p. p.filled ≤ length p.room.items };
}

/// Where lines end that were written, and how many these are.
#[derive(Clone, Copy)]
struct Written {
    end: usize,
    count: u32,
}

/// Writes the line of a date from `at` on, and answers where it ends.
fn write_line(room: &mut [u8], at: usize, start: &LineStart, date: Date) -> usize
    requires { at + MAX_LINE ≤ length room.old }
    ensures written { take result room.new
        ≡ take at room.old ++ line (start.now.label ∷ decimal start.now.job ∷ decimal date ∷ []) }
    ensures end { result ≤ at + MAX_LINE }
{
    let end = start.write(room, at);
    write_last_number(room, end, date)
}

/// Writes lines of a station from `at` on, of the jobs behind the first few, as far as they fit. What is counted stands
/// in locals, since another thread's portion may lie in the same cache line.
fn write_jobs(
    room: &mut [u8],
    at: usize,
    graph: &Graph,
    table: &Table,
    t: u32,
    before: u32,
    count: u32,
) -> Written
    requires of_graph { table.now.graph ≡ graph.now }
    requires station { t < stations graph.now }
    requires jobs { before + count ≤ jobs graph.now }
    requires room { at ≤ length room.old }
    ensures few { result.count ≤ count }
    ensures end { result.end ≤ length room.old }
    ensures lines { take result.end room.new
        ≡ take at room.old ++ job_lines graph.now (date_in table.now.rows) t before result.count }
{
    let dates = table.dates(t);
    let mut start = LineStart::of(graph.label(t), before + 1);
    let mut end = at;
    for done in 0..count {
        if room.len() - end < MAX_LINE {
            return Written { end, count: done };
        }
        end = write_line(room, end, &start, dates[(before + done) as usize]);
        start.next();
    }
    Written { end, count }
}

/// Writes the lines from number `from` on and below number `to`, as far as they fit.
fn write_lines(room: &mut [u8], graph: &Graph, table: &Table, from: u32, to: u32) -> Written
    requires of_graph { table.now.graph ≡ graph.now }
    requires ordered { from ≤ to }
    requires within { to ≤ stations graph.now * jobs graph.now }
    ensures few { result.count ≤ to - from }
    ensures end { result.end ≤ length room.old }
    ensures lines { take result.end room.new
        ≡ numbered_lines graph.now (date_in table.now.rows) from result.count }
{
    let jobs = graph.jobs();
    let mut end = 0;
    let mut next = from;
    while next < to {
        let before = next % jobs;
        let count = (jobs - before).min(to - next);
        let added = write_jobs(room, end, graph, table, next / jobs, before, count);
        end = added.end;
        next += added.count;
        if added.count < count {
            break;
        }
    }
    Written {
        end,
        count: next - from,
    }
}

/// The bytes that each of this many portions has room for.
fn room_of(portions: u32) -> usize
    ensures least { ROOM ≤ result }
    ensures most { result ≤ ROOM_OF_THREADS }
{
    if portions > 1 { ROOM_OF_THREADS } else { ROOM }
}

/// How many lines of the dates fit into each of this many portions, or about that many: each as long as the longest
/// label with the greatest number of a job, and as the last date of the last station.
pub fn fitting_lines(graph: &Graph, table: &Table, portions: u32) -> u32
    requires { table.now.graph ≡ graph.now }
    ensures { 1 ≤ result }
{
    let stations = graph.stations();
    let mut longest = 0;
    for t in 0..stations {
        longest = graph.label(t).len().max(longest);
    }
    let dates = table.dates(stations - 1);
    let last = dates.last().copied().unwrap_or(0);
    let line = longest + digit_count(graph.jobs() as u64) + digit_count(last) + 3;
    ((room_of(portions) - MAX_LINE) / line) as u32
}

impl Portion {
    /// One of this many portions, without lines yet. The other calls take no memory.
    pub fn new(alloc: Global, portions: u32) -> Result<Portion, AllocError>
        ensures { IfOk result (λ portion. portion ≡ record { lines = []; end = 0 }) }
    {
        Ok(Portion {
            room: vec![in alloc; 0; room_of(portions)]?,
            filled: 0,
            end: 0,
        })
    }

    /// Formats the lines from number `from` on and below number `to`, as far as they fit.
    pub fn fill(&mut self, graph: &Graph, table: &Table, from: u32, to: u32)
        requires of_graph { table.now.graph ≡ graph.now }
        requires ordered { from ≤ to }
        requires within { to ≤ stations graph.now * jobs graph.now }
        ensures { HasLines graph.now (date_in table.now.rows) from to self.new }
    {
        let written = write_lines(&mut self.room, graph, table, from, to);
        self.filled = written.end;
        self.end = from + written.count;
    }

    /// The text of the lines.
    pub fn text(&self) -> &[u8]
        ensures { result.now ≡ self.now.lines }
    {
        &self.room.as_slice()[..self.filled]
    }

    /// The number of the line behind the last.
    pub fn end(&self) -> u32
        ensures { result ≡ self.now.end }
    {
        self.end
    }
}
