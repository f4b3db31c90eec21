ghost use Rattle.std.specs.Prelude.{◌≡◌, ◌<◌, ◌≤◌, IfOk};
ghost use Rattle.date_causes.specs.Chain.{IsFirstTight, IsCaused, IsLink, IsChain, HasArc, IsBefore};
ghost use Rattle.event_graph.specs.Network.{stations, jobs};
ghost use Rattle.event_graph.specs.Table.{date_in};

use crate::link::{Cause, Link};
use crate::terms::term_of;
use event_graph::Graph;
use line_base::{Date, Items};
use line_core::Table;
use live_check::Live;
use plant_model::FEED;
use std::alloc::{AllocError, Global};

/// The first arc into station `t`, in the order of arcs, whose term is the date of job `n`.
fn first_tight(graph: &Graph, table: &Table, t: u32, n: u32) -> u32
    requires of_graph { table.now.graph ≡ graph.now }
    requires not_the_feed { 1 ≤ t }
    requires station { t < stations graph.now }
    requires from_one { 1 ≤ n }
    requires job { n ≤ jobs graph.now }
    ensures { IsFirstTight graph.now (date_in table.now.rows) t n result }
{
    let date = table.date(t, n);
    let ins = graph.ins(t);
    for a in ins {
        if term_of(graph, table, *a, n) == date {
            return *a;
        }
    }
    unreachable!()
}

/// The cause of the date of job `n` at station `t`, which isn't the feed, and what the cause adds.
fn cause_of(graph: &Graph, table: &Table, t: u32, n: u32) -> (Cause, Date)
    requires of_graph { table.now.graph ≡ graph.now }
    requires not_the_feed { 1 ≤ t }
    requires station { t < stations graph.now }
    requires from_one { 1 ≤ n }
    requires job { n ≤ jobs graph.now }
    ensures { IsCaused graph.now (date_in table.now.rows) t n result.0 result.1 }
{
    let a = first_tight(graph, table, t, n);
    let arc = graph.arc(a);
    let date = table.date(t, n);
    if n <= arc.tokens {
        return (Cause::Start, date);
    }
    let before = table.date(arc.from, n - arc.tokens);
    (Cause::Along(a), date - before)
}

/// The date of job `n` at station `t`, with its cause.
fn link_of(graph: &Graph, table: &Table, t: u32, n: u32) -> Link
    requires of_graph { table.now.graph ≡ graph.now }
    requires station { t < stations graph.now }
    requires from_one { 1 ≤ n }
    requires job { n ≤ jobs graph.now }
    ensures link { IsLink graph.now (date_in table.now.rows) result }
    ensures station { result.station ≡ t }
    ensures job { result.job ≡ n }
{
    let date = table.date(t, n);
    let (cause, added) = if t == FEED {
        (Cause::DemandDate, date)
    } else {
        cause_of(graph, table, t, n)
    };
    Link {
        station: t,
        job: n,
        date,
        cause,
        added,
    }
}

/// The station and the job of the date before this one in its chain.
fn before(graph: &Graph, link: Link) -> Option<(u32, u32)>
    requires exists { HasArc graph.now link }
    ensures { IsBefore graph.now link result }
{
    match link.cause {
        Cause::Along(a) => {
            let arc = graph.arc(a);
            Some((arc.from, link.job - arc.tokens))
        }
        _ => None,
    }
}

/// The chain of causes of the date of job `n` at station `t`, from its beginning on: each link but the first is the
/// date at the start of the first arc into the next one's station whose term is that date, and the first is a demand
/// date or takes a token of the start. It takes memory for the chain alone, and as many steps as there are arcs into
/// its stations.
///
/// Source of the rule: Baccelli, Cohen, Olsder and Quadrat, Synchronization and Linearity, critical paths.
pub fn causes(
    alloc: Global,
    live: &Live,
    table: &Table,
    t: u32,
    n: u32,
) -> Result<Items<Link>, AllocError>
    requires of_graph { table.now.graph ≡ live.now.graph }
    requires station { t < stations live.now.graph }
    requires from_one { 1 ≤ n }
    requires job { n ≤ jobs live.now.graph }
    ensures chain { IfOk result (IsChain live.now.graph (date_in table.now.rows) t n) }
{
    let graph = live.graph();
    let mut links = Vec::new(alloc);
    let mut next = Some((t, n));
    while let Some((station, job)) = next {
        let link = link_of(graph, table, station, job);
        links.push(link)?;
        next = before(graph, link);
    }
    links.reverse();
    Ok(Items::from_vec(links))
}
