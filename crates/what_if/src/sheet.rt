ghost use Rattle.std.specs.Prelude.{◌≡◌, ◌≢◌, ◌-◌, ◌^◌, ◌<◌, ◌≤◌, ◌↔◌, if◌then◌else◌, IsTrue, IfOk, MatchOption, length, slice_index};
ghost use Rattle.event_graph.specs.Network.{arc_count, jobs, time};
ghost use Rattle.event_graph.specs.Table.{date_in};
ghost use Rattle.event_graph.specs.Term.{term};
ghost use Rattle.line_base.specs.Limits.{longest_time, last_demand};
ghost use Rattle.what_if.specs.Edited.{FitsBetween};
ghost use Rattle.what_if.specs.Evaluation.{with_new_time, with_new_demand, after_evaluation};
ghost use Rattle.what_if.specs.Marks.{HasNone, IsFirstFrom};
ghost use Rattle.what_if.specs.Page.{graph_of, IsDate, date_at, greatest_term, is_marked, mark_count};
ghost use Rattle.what_if.specs.Sheet.{IsSheet, IsBegun};

use crate::copies::{all_times, demands_of, ranks_of, rows_of};
use crate::marks::Marks;
use crate::renewal::renew_marks;
use crate::row::Row;
use crate::slots::{slot, slot_at};
use event_graph::Arc;
use line_base::Date;
use line_core::Table;
use live_check::Live;
use std::alloc::{AllocError, Global};
use std::marker::Model;
use std::snapshot::Snapshot;

/// The dates of a run whose job times and demand dates can be edited. An edit changes no date: it marks the date that
/// it bears on, and an evaluation of a marked date marks those that follow from it. Contracts see the sheet as a
/// `Page`.
///
/// Each call that takes a `Live` takes the one that the sheet was made for. Stations are counted from 0, jobs from 1,
/// dates and times are in the plant's unit.
#[derive(Drop)]
pub struct Sheet {
    ranks: Vec<u32>,
    times: Vec<Row>,
    demands: Row,
    first: Vec<Row>,
    dates: Vec<Row>,
    marks: Marks,
    evaluations: u64,
    // The live graph that the sheet was made for. Contracts alone read it.
    live: Snapshot<Live>,
}

impl Model for Sheet {
    ghost use Rattle.what_if.specs.Page.{Page};
    ghost use Rattle.what_if.specs.Sheet.{page_of, IsSheetWithRanks};

    ghost Value = { Page };

    ghost view = { λ s. page_of s.live.value s.times.items s.demands s.first.items s.dates.items
        s.marks s.evaluations };

    ghost invariant = { λ s. IsSheetWithRanks
        (page_of s.live.value s.times.items s.demands s.first.items s.dates.items
        s.marks s.evaluations)
        s.ranks.items };
}

impl Sheet {
    /// The sheet of a graph's table, with the graph's own job times and demand dates, and no mark. It takes all the
    /// memory that later calls need.
    pub fn new(alloc: Global, live: &Live, table: &Table) -> Result<Sheet, AllocError>
        requires { table.now.graph ≡ live.now.graph }
        ensures begun { IfOk result (IsBegun live.now table.now.rows) }
        ensures kept { IfOk result IsSheet }
    {
        let graph = live.graph();
        let ranks = ranks_of(alloc, live)?;
        let times = all_times(alloc, graph)?;
        let demands = demands_of(alloc, graph)?;
        let first = rows_of(alloc, table)?;
        let dates = rows_of(alloc, table)?;
        let marks = Marks::none(alloc, graph.stations() * graph.jobs())?;
        Ok(Sheet {
            ranks,
            times,
            demands,
            first,
            dates,
            marks,
            evaluations: 0,
            live: Snapshot::of(live),
        })
    }

    /// Another time of job `n` at station `t`, which isn't the feed. It marks that date, and takes no memory.
    pub fn set_time(&mut self, live: &Live, t: u32, n: u32, time: u64)
        requires made_for { live.now ≡ self.old.live }
        requires not_the_feed { 1 ≤ t }
        requires date { IsDate self.old.live.graph t n }
        requires short { time ≤ longest_time }
        ensures retimed { self.new ≡ with_new_time self.old t n time }
        ensures kept { IsSheet self.new }
    {
        self.times[t as usize].set(n - 1, time);
        self.marks.insert(slot(live, t, n));
    }

    /// Another demand date of job `n`, neither before that of the job before nor after that of the job after. It marks
    /// the feed's date, and takes no memory.
    pub fn set_demand(&mut self, live: &Live, n: u32, date: Date)
        requires made_for { live.now ≡ self.old.live }
        requires in_order { FitsBetween self.old.inputs.demands n date }
        requires early { date ≤ last_demand }
        ensures redemanded { self.new ≡ with_new_demand self.old n date }
        ensures kept { IsSheet self.new }
    {
        self.demands.set(n - 1, date);
        self.marks.insert(slot(live, 0, n));
    }

    /// How many jobs there are.
    pub(crate) fn jobs(&self) -> u32
        ensures count { result ≡ jobs self.now.live.graph }
        ensures demands { result ≡ length self.now.inputs.demands }
        ensures kept { IsSheet self.now }
    {
        self.demands.len()
    }

    /// The present demand date of job `n`.
    pub fn demand(&self, n: u32) -> Date
        requires from_one { 1 ≤ n }
        requires job { n ≤ jobs self.now.live.graph }
        ensures date { result ≡ slice_index self.now.inputs.demands (n - 1) }
        ensures kept { IsSheet self.now }
    {
        self.demands.at(n - 1)
    }

    /// The present date of job `n` at station `t`.
    pub fn date(&self, t: u32, n: u32) -> Date
        requires { IsDate self.now.live.graph t n }
        ensures date { result ≡ date_at self.now t n }
        ensures kept { IsSheet self.now }
    {
        self.dates[t as usize].at(n - 1)
    }

    /// The date of job `n` at station `t` in the table that the sheet was made of.
    pub fn first(&self, t: u32, n: u32) -> Date
        requires { IsDate self.now.live.graph t n }
        ensures date { result ≡ date_in self.now.first t n }
        ensures kept { IsSheet self.now }
    {
        self.first[t as usize].at(n - 1)
    }

    /// Whether the date of job `n` at station `t` is marked.
    pub fn marked(&self, t: u32, n: u32) -> bool
        requires { IsDate self.now.live.graph t n }
        ensures marked { result ≡ is_marked self.now t n }
        ensures kept { IsSheet self.now }
    {
        self.marks.has(slot_at(self.ranks[t as usize], self.ranks.len() as u32, n))
    }

    /// How many dates are marked.
    pub fn marks(&self) -> u64
        ensures marks { result ≡ mark_count self.now }
        ensures kept { IsSheet self.now }
    {
        self.marks.count()
    }

    /// How many dates were evaluated, counted once for each evaluation.
    pub fn evaluations(&self) -> u64
        ensures evaluations { result ≡ self.now.evaluations }
        ensures kept { IsSheet self.now }
    {
        self.evaluations
    }

    /// Makes the date of job `n` at station `t` the greatest of its terms over the present dates, and takes its mark
    /// away. Where the date changed, each date with a term that reads it is marked. It answers whether the date
    /// changed, and takes no memory.
    ///
    /// Source of the rule: Baccelli, Cohen, Olsder and Quadrat, Synchronization and Linearity, evolution equations.
    pub fn evaluate(&mut self, live: &Live, t: u32, n: u32) -> bool
        requires made_for { live.now ≡ self.old.live }
        requires date { IsDate self.old.live.graph t n }
        requires few { self.old.evaluations < 2 ^ 60 }
        ensures changed { IsTrue result ↔ (date_at self.new t n ≢ date_at self.old t n) }
        ensures evaluated { self.new ≡ after_evaluation self.old t n }
        ensures kept { IsSheet self.new }
    {
        let date = self.greatest_term(live, t, n);
        let changed = self.date(t, n) != date;
        self.dates[t as usize].set(n - 1, date);
        renew_marks(&mut self.marks, live, t, n, changed);
        self.evaluations += 1;
        changed
    }

    /// The greatest of the terms of a date over the present dates; of the feed it is the demand date.
    fn greatest_term(&self, live: &Live, t: u32, n: u32) -> Date
        requires made_for { live.now ≡ self.now.live }
        requires date { IsDate self.now.live.graph t n }
        ensures { result ≡ greatest_term self.now t n }
    {
        if t == 0 {
            return self.demand(n);
        }
        let mut latest = 0;
        for a in live.graph().ins(t) {
            latest = latest.max(self.term(live, *a, n));
        }
        latest
    }

    /// What arc `a` asks of the date of job `n` at the station that it enters.
    fn term(&self, live: &Live, a: u32, n: u32) -> Date
        requires made_for { live.now ≡ self.now.live }
        requires arc { a < arc_count self.now.live.graph }
        requires from_one { 1 ≤ n }
        requires job { n ≤ jobs self.now.live.graph }
        ensures { result ≡ term (graph_of self.now) (date_in self.now.dates) a n }
    {
        let graph = live.graph();
        let arc = graph.arc(a);
        let work = self.work(arc, n);
        if n <= arc.tokens {
            work
        } else {
            work + (self.date(arc.from, n - arc.tokens) + graph.delay(a))
        }
    }

    /// The time of job `n` at the station that an arc enters, where the arc is worked, else 0.
    fn work(&self, arc: Arc, n: u32) -> u64
        requires date { IsDate self.now.live.graph arc.to n }
        ensures work { result ≡ (if arc.worked then time (graph_of self.now) arc.to n else 0) }
        ensures short { result ≤ longest_time }
    {
        if arc.worked { self.time(arc.to, n) } else { 0 }
    }

    /// The present time of job `n` at station `t`.
    fn time(&self, t: u32, n: u32) -> u64
        requires { IsDate self.now.live.graph t n }
        ensures time { result ≡ date_in self.now.inputs.times t n }
        ensures kept { IsSheet self.now }
    {
        self.times[t as usize].at(n - 1)
    }

    /// The first slot from this one on whose date is marked.
    pub(crate) fn first_marked(&self, from: u32) -> Option<u32>
        ensures first { MatchOption result (HasNone self.now.marks from (length self.now.marks))
            (IsFirstFrom self.now.marks from) }
        ensures kept { IsSheet self.now }
    {
        self.marks.first_from(from)
    }
}
