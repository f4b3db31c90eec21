ghost use Rattle.std.specs.Prelude.{◌≡◌, ◌+◌, ◌^◌, ◌<◌, ◌≤◌, [], length, slice_index, All, IfOk};
ghost use Rattle.event_graph.specs.Limits.{IsWithinLimits};
ghost use Rattle.event_graph.specs.Network.{stations, jobs, arc_count, arc};
ghost use Rattle.event_graph.specs.Table.{date_in};
ghost use Rattle.event_graph.specs.Term.{term, token_date};
ghost use Rattle.line_base.specs.Roomy.{dates_of};
ghost use Rattle.line_core.specs.Consistent.{due_date};
ghost use Rattle.line_core.specs.Marked.{wrong_marked, wrong_counts, marked_refusals};
ghost use Rattle.line_core.specs.Parts.{LATEST_GIVEN, AreLogs, AreParts, list_at, long_log, long_logs, wrong_count, wrong_marking, wrong_markings, wrong_date, wrong_dates_at, wrong_dates, wrong_tokens_on, wrong_tokens, state_refusals, AnswersFirst};

use crate::error::StateError;
use crate::logs::log_with;
use event_graph::{Graph, Marking};
use line_base::{Date, Logs, Places};
use std::alloc::{AllocError, Global};

/// The dates of list number `k`.
fn dates_at(lists: &Logs, k: u32) -> &[Date]
    requires { k < length lists.now.logs }
    ensures { result.now ≡ list_at (dates_of lists.now) k }
{
    lists.get(k).dates()
}

/// Refuses a log that is longer than there are jobs.
fn check_log(graph: &Graph, logs: &Logs, station: u32) -> Result<(), StateError>
    requires { station < length logs.now.logs }
    ensures { AnswersFirst result (long_log graph.now (dates_of logs.now) station) }
{
    let have = dates_at(logs, station).len() as u64;
    let limit = u64::from(graph.jobs());
    if have > limit {
        return Err(StateError::Count {
            station,
            have,
            limit,
        });
    }
    Ok(())
}

/// Refuses the first log that is longer than there are jobs.
#[tactic(auto, using(crate::proofs::FirstRefusals::none_so_far))]
fn check_logs(graph: &Graph, logs: &Logs) -> Result<(), StateError>
    requires { length logs.now.logs ≡ stations graph.now }
    ensures { AnswersFirst result (long_logs graph.now (dates_of logs.now)) }
{
    for station in 0..graph.stations() {
        check_log(graph, logs, station)?;
    }
    Ok(())
}

/// Refuses this many tokens in the place of an arc, where the logs leave another number there.
fn check_count(graph: &Graph, logs: &Logs, arc: u32, have: usize) -> Result<(), StateError>
    requires a_log_each { length logs.now.logs ≡ stations graph.now }
    requires few { long_logs graph.now (dates_of logs.now) ≡ [] }
    requires arc { arc < arc_count graph.now }
    requires small { have < 2 ^ 62 }
    ensures { AnswersFirst result (wrong_count graph.now (dates_of logs.now) arc have) }
{
    let ends = graph.arc(arc);
    let put = ends.tokens as usize + dates_at(logs, ends.from).len();
    let taken = dates_at(logs, ends.to).len();
    if have + taken != put {
        return Err(StateError::Marking {
            arc,
            have: have as u64,
            need: put as i64 - taken as i64,
        });
    }
    Ok(())
}

/// Refuses a place with another number of tokens than the logs leave there.
fn check_marking(graph: &Graph, logs: &Logs, places: &Places, arc: u32) -> Result<(), StateError>
    requires parts { AreParts graph.now logs.now places.now }
    requires few { long_logs graph.now (dates_of logs.now) ≡ [] }
    requires arc { arc < arc_count graph.now }
    ensures { AnswersFirst result (wrong_marking graph.now (dates_of logs.now) (dates_of places.now) arc) }
{
    check_count(graph, logs, arc, dates_at(places, arc).len())
}

/// Refuses the first place with another number of tokens than the logs leave there.
#[tactic(auto, using(crate::proofs::FirstRefusals::none_so_far))]
fn check_markings(graph: &Graph, logs: &Logs, places: &Places) -> Result<(), StateError>
    requires parts { AreParts graph.now logs.now places.now }
    requires few { long_logs graph.now (dates_of logs.now) ≡ [] }
    ensures { AnswersFirst result
        (wrong_markings graph.now (dates_of logs.now) (dates_of places.now)) }
{
    for arc in 0..graph.arcs().len() as u32 {
        check_marking(graph, logs, places, arc)?;
    }
    Ok(())
}

/// Refuses a place that has another number of tokens by a marking than the logs leave there.
fn check_marked_at(
    graph: &Graph,
    logs: &Logs,
    marking: &Marking,
    arc: u32,
) -> Result<(), StateError>
    requires a_log_each { length logs.now.logs ≡ stations graph.now }
    requires few { long_logs graph.now (dates_of logs.now) ≡ [] }
    requires a_count_each { length marking.now ≡ arc_count graph.now }
    requires arc { arc < arc_count graph.now }
    ensures { AnswersFirst result (wrong_marked graph.now (dates_of logs.now) marking.now arc) }
{
    let counts = marking.as_slice();
    check_count(graph, logs, arc, counts[arc as usize] as usize)
}

/// Refuses the first place that has another number of tokens by a marking than the logs leave there.
#[tactic(auto, using(crate::proofs::FirstRefusals::none_so_far))]
fn check_counts(graph: &Graph, logs: &Logs, marking: &Marking) -> Result<(), StateError>
    requires a_log_each { length logs.now.logs ≡ stations graph.now }
    requires few { long_logs graph.now (dates_of logs.now) ≡ [] }
    requires a_count_each { length marking.now ≡ arc_count graph.now }
    ensures { AnswersFirst result (wrong_counts graph.now (dates_of logs.now) marking.now) }
{
    for arc in 0..graph.arcs().len() as u32 {
        check_marked_at(graph, logs, marking, arc)?;
    }
    Ok(())
}

/// The date of job `n` at station `t`, and 0 where the log is shorter.
fn date_or_none(logs: &Logs, t: u32, n: u32) -> Date
    requires early { All (All (λ date. date ≤ LATEST_GIVEN)) (dates_of logs.now) }
    requires station { t < length logs.now.logs }
    requires from_one { 1 ≤ n }
    ensures date { result ≡ date_in (dates_of logs.now) t n }
    ensures early { result ≤ LATEST_GIVEN }
{
    dates_at(logs, t).get(n as usize - 1).copied().unwrap_or(0)
}

/// The date from which the token that job `n` takes from arc `a` can be taken: 0 for a token of the start.
fn token_date(graph: &Graph, logs: &Logs, a: u32, n: u32) -> Date
    requires logs { AreLogs graph.now logs.now }
    requires arc { a < arc_count graph.now }
    ensures date { result ≡ token_date graph.now (date_in (dates_of logs.now)) a n }
    ensures early { result ≤ LATEST_GIVEN + 1_000_000_000 }
{
    let arc = graph.arc(a);
    if n <= arc.tokens {
        return 0;
    }
    date_or_none(logs, arc.from, n - arc.tokens) + graph.delay(a)
}

/// What arc `a` asks of the date of job `n` at the station that it enters.
fn term_of(graph: &Graph, logs: &Logs, a: u32, n: u32) -> Date
    requires logs { AreLogs graph.now logs.now }
    requires arc { a < arc_count graph.now }
    requires from_one { 1 ≤ n }
    requires job { n ≤ jobs graph.now }
    ensures { result ≡ term graph.now (date_in (dates_of logs.now)) a n }
{
    graph.work(a, n) + token_date(graph, logs, a, n)
}

/// The date that the equations of the graph give to job `n` at station `t` over the logs.
fn due_date(graph: &Graph, logs: &Logs, t: u32, n: u32) -> Date
    requires logs { AreLogs graph.now logs.now }
    requires station { t < stations graph.now }
    requires from_one { 1 ≤ n }
    requires job { n ≤ jobs graph.now }
    ensures { result ≡ due_date graph.now (dates_of logs.now) t n }
{
    if t == 0 {
        return graph.demand(n);
    }
    let ins = graph.ins(t);
    let mut latest = 0;
    for a in ins {
        latest = latest.max(term_of(graph, logs, *a, n));
    }
    latest
}

/// Refuses a date that isn't the one of its equation over the logs.
fn check_date(
    graph: &Graph,
    logs: &Logs,
    station: u32,
    job: u32,
    have: Date,
) -> Result<(), StateError>
    requires logs { AreLogs graph.now logs.now }
    requires station { station < stations graph.now }
    requires job { job < jobs graph.now }
    requires limits { IsWithinLimits graph.now }
    requires date { have ≡ slice_index (list_at (dates_of logs.now) station) job }
    ensures { AnswersFirst result (wrong_date graph.now (dates_of logs.now) station job) }
{
    let need = due_date(graph, logs, station, job + 1);
    if have == need {
        return Ok(());
    }
    Err(StateError::Date {
        station,
        job: job + 1,
        have,
        need,
    })
}

/// Refuses the first date of a station that isn't the one of its equation over the logs.
fn check_dates_at(graph: &Graph, logs: &Logs, station: u32) -> Result<(), StateError>
    requires logs { AreLogs graph.now logs.now }
    requires few { length (list_at (dates_of logs.now) station) ≤ jobs graph.now }
    requires limits { IsWithinLimits graph.now }
    requires station { station < stations graph.now }
    ensures { AnswersFirst result (wrong_dates_at graph.now (dates_of logs.now) station) }
{
    let dates = dates_at(logs, station);
    for job in 0..dates.len() as u32 {
        check_date(graph, logs, station, job, dates[job as usize])?;
    }
    Ok(())
}

/// Refuses the first date that isn't the one of its equation over the logs.
#[tactic(auto, using(crate::proofs::FirstRefusals::none_so_far))]
fn check_dates(graph: &Graph, logs: &Logs) -> Result<(), StateError>
    requires logs { AreLogs graph.now logs.now }
    requires few { long_logs graph.now (dates_of logs.now) ≡ [] }
    ensures { AnswersFirst result (wrong_dates graph.now (dates_of logs.now)) }
{
    for station in 0..graph.stations() {
        check_dates_at(graph, logs, station)?;
    }
    Ok(())
}

/// Refuses the first token of an arc that isn't the one that the logs leave there.
fn check_tokens_on(graph: &Graph, logs: &Logs, places: &Places, arc: u32) -> Result<(), StateError>
    requires parts { AreParts graph.now logs.now places.now }
    requires few { long_logs graph.now (dates_of logs.now) ≡ [] }
    requires marking { wrong_markings graph.now (dates_of logs.now) (dates_of places.now) ≡ [] }
    requires arc { arc < arc_count graph.now }
    requires limits { IsWithinLimits graph.now }
    ensures { AnswersFirst result
        (wrong_tokens_on graph.now (dates_of logs.now) (dates_of places.now) arc) }
{
    let taken = dates_at(logs, graph.arc(arc).to).len() as u32;
    let dates = dates_at(places, arc);
    for token in 0..dates.len() as u32 {
        let have = dates[token as usize];
        let need = token_date(graph, logs, arc, taken + token + 1);
        if have != need {
            return Err(StateError::PlaceDate {
                arc,
                token: token + 1,
                have,
                need,
            });
        }
    }
    Ok(())
}

/// Refuses the first token that isn't the one that the logs leave there.
#[tactic(auto, using(crate::proofs::FirstRefusals::none_so_far))]
fn check_tokens(graph: &Graph, logs: &Logs, places: &Places) -> Result<(), StateError>
    requires parts { AreParts graph.now logs.now places.now }
    requires few { long_logs graph.now (dates_of logs.now) ≡ [] }
    requires marking { wrong_markings graph.now (dates_of logs.now) (dates_of places.now) ≡ [] }
    ensures { AnswersFirst result
        (wrong_tokens graph.now (dates_of logs.now) (dates_of places.now)) }
{
    for arc in 0..graph.arcs().len() as u32 {
        check_tokens_on(graph, logs, places, arc)?;
    }
    Ok(())
}

/// Refuses logs and places by the first thing that is wrong with them.
#[tactic(auto, using(crate::proofs::FirstRefusals::one_after_other), unfolding(crate::specs::Parts::state_refusals))]
pub fn check_parts(graph: &Graph, logs: &Logs, places: &Places) -> Result<(), StateError>
    requires { AreParts graph.now logs.now places.now }
    ensures { AnswersFirst result
        (state_refusals graph.now (dates_of logs.now) (dates_of places.now)) }
{
    check_logs(graph, logs)?;
    check_markings(graph, logs, places)?;
    check_dates(graph, logs)?;
    check_tokens(graph, logs, places)
}

/// Refuses logs, and the numbers of tokens of places, by the first thing that is wrong with them.
#[tactic(auto, using(crate::proofs::FirstRefusals::one_after_other), unfolding(crate::specs::Marked::marked_refusals))]
pub fn check_marked(graph: &Graph, logs: &Logs, marking: &Marking) -> Result<(), StateError>
    requires logs { AreLogs graph.now logs.now }
    requires a_count_each { length marking.now ≡ arc_count graph.now }
    ensures { AnswersFirst result (marked_refusals graph.now (dates_of logs.now) marking.now) }
{
    check_logs(graph, logs)?;
    check_counts(graph, logs, marking)?;
    check_dates(graph, logs)
}

/// The same logs, each with room for this many dates.
pub fn with_room(alloc: Global, logs: &Logs, room: u32) -> Result<Logs, AllocError>
    requires few { All (λ dates. length dates ≤ room) (dates_of logs.now) }
    requires number { length logs.now.logs < 2 ^ 32 }
    ensures dates { IfOk result (λ copy. dates_of copy ≡ dates_of logs.now) }
    ensures room { IfOk result (λ copy. All (λ log. log.room ≡ room) copy.logs) }
{
    let number = logs.len() as u32;
    let mut copy = Logs::new(alloc, number)?;
    for k in 0..number {
        copy.add(log_with(alloc, dates_at(logs, k), room)?);
    }
    Ok(copy)
}
