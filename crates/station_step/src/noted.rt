ghost use Rattle.std.specs.List.{list_any};
ghost use Rattle.std.specs.Prelude.{◌≡◌, ℕ, ◌<◌, ◌≤◌, IsTrue, IfOk, length};
ghost use Rattle.event_graph.specs.Network.{stations, jobs, ins, outs};
ghost use Rattle.station_step.specs.Ends.{is_bounded, is_ring};
ghost use Rattle.station_step.specs.Noted.{inputs_of, extras_of, outlets_of, delays_of, worked_into, extras_for, extras_into, delays_from};

use crate::ends::Outlet;
use crate::input::Input;
use event_graph::Graph;
use std::alloc::{AllocError, Global};

/// An input, and beside it what the time of the job adds to its token: that time where its arc is worked, else 0.
#[derive(Drop)]
pub(crate) struct NotedInput {
    pub(crate) input: Input,
    pub(crate) extra: u64,
}

/// An outlet, and beside it the delay of its arc, in the plant's unit.
#[derive(Drop)]
pub(crate) struct NotedOutlet {
    pub(crate) outlet: Outlet,
    pub(crate) delay: u64,
}

/// Of each arc into station `t`, whether it is worked.
pub(crate) fn worked_into(alloc: Global, graph: &Graph, t: u32) -> Result<Vec<bool>, AllocError>
    requires { t < stations graph.now }
    ensures { IfOk result (λ worked. worked.items ≡ worked_into graph.now t) }
{
    graph
        .ins(t)
        .iter()
        .map(|a| graph.arc(*a).worked)
        .collect(alloc)
}

/// Notes beside each input what a job that takes so long adds to its token.
pub(crate) fn note_time(inputs: &mut Vec<NotedInput>, worked: &[bool], time: u64)
    requires { length worked.now ≡ length inputs.old.items }
    ensures inputs { inputs_of inputs.new.items ≡ inputs_of inputs.old.items }
    ensures extras { extras_of inputs.new.items ≡ extras_for worked.now time }
{
    for (k, noted) in inputs.iter_mut().enumerate() {
        noted.extra = if worked[k] { time } else { 0 };
    }
}

/// Notes beside each input of station `t` what this job adds to its token, where the station does not take one time for
/// every job, which is noted already.
#[inline]
pub(crate) fn note_job(
    fixed: bool,
    inputs: &mut Vec<NotedInput>,
    worked: &[bool],
    graph: &Graph,
    t: u32,
    job: u32,
)
    requires station { t < stations graph.now }
    requires from_one { 1 ≤ job }
    requires job { job ≤ jobs graph.now }
    requires an_input_each { length (inputs_of inputs.old.items) ≡ length (ins graph.now t) }
    requires worked { worked.now ≡ worked_into graph.now t }
    requires noted { IsTrue fixed → (n : ℕ) →
        extras_of inputs.old.items ≡ extras_into graph.now t n }
    ensures inputs { inputs_of inputs.new.items ≡ inputs_of inputs.old.items }
    ensures extras { extras_of inputs.new.items ≡ extras_into graph.now t job }
    ensures stays { IsTrue fixed → extras_of inputs.new.items ≡ extras_of inputs.old.items }
{
    if !fixed {
        note_time(inputs, worked, graph.time(t, job));
    }
}

/// The outlets of station `t`, each with the delay of its arc.
pub(crate) fn with_delays(
    alloc: Global,
    graph: &Graph,
    t: u32,
    outlets: Vec<Outlet>,
) -> Result<Vec<NotedOutlet>, AllocError>
    requires exists { t < stations graph.now }
    requires an_outlet_each { length outlets.items ≡ length (outs graph.now t) }
    ensures outlets { IfOk result (λ noted. outlets_of noted.items ≡ outlets.items) }
    ensures delays { IfOk result (λ noted. delays_of noted.items ≡ delays_from graph.now t) }
{
    let outs = graph.outs(t);
    let mut noted = Vec::with_capacity(alloc, outs.len())?;
    for outlet in outlets {
        let delay = graph.delay(outs[noted.len()]);
        noted.push(NotedOutlet { outlet, delay })?;
    }
    Ok(noted)
}

/// Whether one of these outlets can lack space, and whether one is over a ring.
pub(crate) fn kinds_of(outlets: &[Outlet]) -> (bool, bool)
    ensures bounded { result.0 ≡ list_any is_bounded outlets.now }
    ensures rings { result.1 ≡ list_any is_ring outlets.now }
{
    let (mut bounded, mut rings) = (false, false);
    for outlet in outlets {
        bounded |= outlet.is_bounded();
        rings |= outlet.is_ring();
    }
    (bounded, rings)
}
