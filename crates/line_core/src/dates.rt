ghost use Rattle.std.specs.Prelude.{◌≡◌, ◌+◌, ◌<◌, ◌≤◌, length, slice_index, IfSome};
ghost use Rattle.event_graph.specs.Firing.{CanFire, new_date};
ghost use Rattle.event_graph.specs.Network.{stations, jobs, arc_count, arc};
ghost use Rattle.event_graph.specs.State.{log, place};
ghost use Rattle.event_graph.specs.Term.{work};
ghost use Rattle.line_base.specs.Roomy.{dates_of};
ghost use Rattle.line_core.specs.Consistent.{state_of, all_tokens};
ghost use Rattle.line_core.specs.Refusals.{first_empty, first_unfinished};
ghost use Rattle.line_core.specs.Run.{IsRunWithRoom};

use event_graph::Graph;
use line_base::{Date, Logs};

/// How many dates station `t` has made.
pub fn count_at(logs: &Logs, graph: &Graph, t: u32) -> usize
    requires has_room { IsRunWithRoom graph.now logs.now }
    requires station { t < stations graph.now }
    ensures count { result ≡ length (log (state_of graph.now (dates_of logs.now)) t) }
    ensures within { result ≤ jobs graph.now }
{
    logs.get(t).dates().len()
}

/// How many tokens are on arc `a`.
pub fn tokens_on(logs: &Logs, graph: &Graph, a: u32) -> usize
    requires has_room { IsRunWithRoom graph.now logs.now }
    requires arc { a < arc_count graph.now }
    ensures { result ≡ length (place (state_of graph.now (dates_of logs.now)) a) }
{
    let arc = graph.arc(a);
    let put = arc.tokens as usize + count_at(logs, graph, arc.from);
    put - count_at(logs, graph, arc.to)
}

/// The first arc into station `t` without a token.
pub fn first_empty(logs: &Logs, graph: &Graph, t: u32) -> Option<u32>
    requires has_room { IsRunWithRoom graph.now logs.now }
    requires station { t < stations graph.now }
    ensures { result ≡ first_empty graph.now (state_of graph.now (dates_of logs.now)) t }
{
    let ins = graph.ins(t);
    for a in ins {
        if tokens_on(logs, graph, *a) == 0 {
            return Some(*a);
        }
    }
    None
}

/// The first station that hasn't made a date for each job.
pub fn first_unfinished(logs: &Logs, graph: &Graph) -> Option<u32>
    requires has_room { IsRunWithRoom graph.now logs.now }
    ensures found { result ≡ first_unfinished graph.now (state_of graph.now (dates_of logs.now)) }
    ensures exists { IfSome result (λ t. t < stations graph.now) }
{
    let jobs = graph.jobs() as usize;
    for t in 0..graph.stations() {
        if count_at(logs, graph, t) < jobs {
            return Some(t);
        }
    }
    None
}

/// The date of token `k` of arc `a`, counted from 0 over all tokens that the arc has held.
fn token(logs: &Logs, graph: &Graph, a: u32, k: usize) -> Date
    requires has_room { IsRunWithRoom graph.now logs.now }
    requires arc { a < arc_count graph.now }
    requires token { k < length (all_tokens graph.now (dates_of logs.now) a) }
    ensures date { result ≡ slice_index (all_tokens graph.now (dates_of logs.now) a) k }
    ensures small { result ≤ 2_002_000_000_000_000 }
{
    let arc = graph.arc(a);
    let initial = arc.tokens as usize;
    if k < initial {
        return 0;
    }
    logs.get(arc.from).dates()[k - initial] + graph.delay(a)
}

/// What token `k` of arc `a` asks of the date of job `k + 1` at the station that the arc enters.
fn asked_date(logs: &Logs, graph: &Graph, a: u32, k: usize) -> Date
    requires has_room { IsRunWithRoom graph.now logs.now }
    requires arc { a < arc_count graph.now }
    requires token { k < length (all_tokens graph.now (dates_of logs.now) a) }
    requires job { k < jobs graph.now }
    ensures { result ≡
        work graph.now a (k + 1) + slice_index (all_tokens graph.now (dates_of logs.now) a) k }
{
    graph.work(a, k as u32 + 1) + token(logs, graph, a, k)
}

/// The date of the next job of station `t`.
pub fn next_date(logs: &Logs, graph: &Graph, t: u32) -> Date
    requires has_room { IsRunWithRoom graph.now logs.now }
    requires can { CanFire graph.now (state_of graph.now (dates_of logs.now)) t }
    ensures { result ≡ new_date graph.now (state_of graph.now (dates_of logs.now)) t }
{
    let done = count_at(logs, graph, t);
    if t == 0 {
        return graph.demand(done as u32 + 1);
    }
    let ins = graph.ins(t);
    let mut latest = 0;
    for a in ins {
        let date = asked_date(logs, graph, *a, done);
        latest = latest.max(date);
    }
    latest
}
