ghost use Rattle.std.specs.Prelude.{◌≡◌, ℕ, ◌+◌, ◌-◌, ◌<◌, ◌≤◌, ◌^◌, List, take, length, slice_index, option_to_list, IfSome, IfNone};
ghost use Rattle.card_queue.specs.Plain.{plain_waiting};
ghost use Rattle.station_step.specs.Counts.{IsTally, new_tally, origin_of, next_place, dates_for, seen_queue, one_taken, one_returned};

use line_base::{Date, Log};
use std::marker::Model;
use std::snapshot::Snapshot;

/// A place behind the dates of every log.
const NOT_YET: usize = usize::MAX;

/// Where the tokens of a queue come from, and what else is so of it as long as there is a shelf.
#[derive(Clone, Copy)]
pub(crate) struct Origin {
    pub(crate) delay: u64,
    // How many dates the log of its source had when the queue was made.
    pub(crate) made: u32,
    // The place behind the last token that it began with, among those that the queues began with.
    pub(crate) end: usize,
}

/// What a shelf notes of one of its queues while tokens are taken, in sixteen bytes. Contracts see how many were taken:
/// first those that it began with, and then dates of its source's log.
#[derive(Drop)]
pub(crate) struct Tally {
    // The place in that log of the next date to be taken, or NOT_YET while tokens are left with which the queue began.
    next: usize,
    station: u32,
    // How many of the tokens that it began with are left. They are taken first.
    left: u32,
    // Its origin, which stands in another list of the shelf, and how many tokens it began with. Contracts alone read
    // them.
    origin: Snapshot<Origin>,
    initial: Snapshot<u32>,
}

impl Model for Tally {
    ghost use Rattle.station_step.specs.Counts.{QueueTally};
    ghost use Rattle.station_step.specs.Taken.{IsTaken, seen_tally};

    ghost Value = { QueueTally };

    ghost view = { λ t. seen_tally t.next t.station t.left t.origin.value t.initial.value };

    ghost invariant = { λ t. IsTaken t.next t.left t.origin.value t.initial.value };
}

impl Tally {
    /// The tally of a queue of this origin, whose further tokens come from this station and which begins with this many.
    pub(crate) fn new(origin: &Origin, station: u32, initial: u32) -> Tally
        requires { initial ≤ origin.now.end }
        ensures { result ≡ new_tally origin.now station initial }
    {
        Tally {
            next: if initial == 0 {
                origin.made as usize
            } else {
                NOT_YET
            },
            station,
            left: initial,
            origin: Snapshot::of(origin),
            initial: Snapshot::of(&initial),
        }
    }

    /// Takes the next date of the source's log, without the delay, where no token is left of those with which the queue
    /// began and a date is there.
    #[inline(always)]
    pub(crate) fn take_date(&mut self, logs: &[Log]) -> Option<Date>
        requires there { self.old.source.station < length logs.now }
        ensures past { IfSome result (λ _. self.old.initial ≤ self.old.taken) }
        ensures more { IfSome result (λ _. next_place self.old < length (dates_for logs.now self.old)) }
        ensures date { IfSome result (λ date. date ≡
            slice_index (dates_for logs.now self.old) (next_place self.old)) }
        ensures counted { IfSome result (λ _. self.new ≡ one_taken self.old) }
        ensures none { IfNone result (self.old.initial ≤ self.old.taken →
            length (dates_for logs.now self.old) ≤ next_place self.old) }
        ensures stays { IfNone result (self.new ≡ self.old) }
    {
        let dates = logs[self.station as usize].dates();
        if self.next >= dates.len() {
            return None;
        }
        let date = dates[self.next];
        self.next += 1;
        Some(date)
    }

    /// Takes the next of the tokens with which the queue began, if one is left.
    fn take_first(&mut self, origin: &Origin, firsts: &[Date]) -> Option<Date>
        requires origin { origin.now ≡ origin_of self.old }
        requires began { self.old.start + self.old.initial ≤ length firsts.now }
        ensures before { IfSome result (λ _. self.old.taken < self.old.initial) }
        ensures token { IfSome result (λ token. token ≡
            slice_index firsts.now (self.old.start + self.old.taken)) }
        ensures counted { IfSome result (λ _. self.new ≡ one_taken self.old) }
        ensures none { IfNone result (self.old.initial ≤ self.old.taken) }
        ensures stays { IfNone result (self.new ≡ self.old) }
    {
        if self.left == 0 {
            return None;
        }
        let token = firsts[origin.end - self.left as usize];
        self.left -= 1;
        if self.left == 0 {
            self.next = origin.made as usize;
        }
        Some(token)
    }

    /// Takes the front token of the queue, if there is one: one of those that the queue began with, or else the next
    /// date of its source, with the delay.
    pub(crate) fn take(&mut self, origin: &Origin, firsts: &[Date], logs: &[Log]) -> Option<Date>
        requires origin { origin.now ≡ origin_of self.old }
        requires began { self.old.start + self.old.initial ≤ length firsts.now }
        requires there { self.old.source.station < length logs.now }
        ensures front { (room : ℕ) → IsTally firsts.now room logs.now self.old →
            option_to_list result ≡ take 1 (plain_waiting (seen_queue firsts.now room logs.now self.old)) }
        ensures counted { IfSome result (λ _. self.new ≡ one_taken self.old) }
        ensures stays { IfNone result (self.new ≡ self.old) }
    {
        if let Some(date) = self.take_date(logs) {
            return Some(date.saturating_add(origin.delay));
        }
        self.take_first(origin, firsts)
    }

    /// Puts the date back that was taken last.
    pub(crate) fn give_back(&mut self)
        requires { self.old.initial < self.old.taken }
        ensures { self.new ≡ one_returned self.old }
    {
        self.next -= 1;
    }

    /// How many tokens of the queue wait.
    #[inline]
    pub(crate) fn waiting(&self, origin: &Origin, logs: &[Log]) -> usize
        requires origin { origin.now ≡ origin_of self.now }
        requires there { self.now.source.station < length logs.now }
        requires made_there { self.now.made ≤ length (dates_for logs.now self.now) }
        requires taken_there { self.now.taken ≤
            self.now.initial + (length (dates_for logs.now self.now) - self.now.made) }
        requires few { self.now.initial + length (dates_for logs.now self.now) < 2 ^ 64 }
        ensures { result ≡
            self.now.initial + (length (dates_for logs.now self.now) - self.now.made) - self.now.taken }
    {
        let next = if self.left == 0 {
            self.next
        } else {
            origin.made as usize
        };
        self.left as usize + (logs[self.station as usize].dates().len() - next)
    }
}
