//! How a list is shared: the calls of each part in a thread of its own.
ghost use Rattle.std.specs.Prelude.{◌<◌};
ghost use Rattle.std.specs.Fork.{AcceptsAt, ChangesAt, AcceptsEach, ChangesEach};
ghost use Rattle.line_base.specs.Shared.{IsReady, IsDone};

use std::thread;
use std::thread::Threads;

/// Calls f(i, item).
fn call_one<T, F: Fn(usize, &mut T)>(f: &F, i: usize, item: &mut T)
    requires { AcceptsAt F.Fn f.now i item.old }
    ensures { ChangesAt F.Fn f.now i item.old item.new }
{
    f(i, item);
}

/// Calls f(base + k, &mut s[k]) for each element, one after the other.
fn call_in_turn<T, F: Fn(usize, &mut T)>(f: &F, base: usize, s: &mut [T])
    requires { IsReady (AcceptsAt F.Fn f.now) base s.old }
    ensures { IsDone (ChangesAt F.Fn f.now) base s.old s.new }
{
    for k in 0..s.len() {
        call_one(f, base + k, &mut s[k]);
    }
}

/// Calls f(base + k, &mut s[k]) for each element, `size` of them in a thread. This thread begins all others.
#[cycle(parts)]
fn call_by_parts<R: Threads + Sync, T: Send, F: Fn(usize, &mut T) + Sync>(
    rt: &R,
    f: &F,
    base: usize,
    size: usize,
    s: &mut [T],
)
    requires some { 0 < size }
    requires ready { IsReady (AcceptsAt F.Fn f.now) base s.old }
    ensures { IsDone (ChangesAt F.Fn f.now) base s.old s.new }
{
    if s.len() <= size {
        call_in_turn(f, base, s);
        return;
    }
    let (part, rest) = s.split_at_mut(size);
    call_both_parts(rt, f, size, base, part, base + size, rest);
}

/// The calls of a part in a thread of its own, and meanwhile those of the rest.
#[cycle(parts)]
fn call_both_parts<R: Threads + Sync, T: Send, F: Fn(usize, &mut T) + Sync>(
    rt: &R,
    f: &F,
    size: usize,
    base: usize,
    part: &mut [T],
    next: usize,
    rest: &mut [T],
)
    requires some { 0 < size }
    requires part { IsReady (AcceptsAt F.Fn f.now) base part.old }
    requires rest { IsReady (AcceptsAt F.Fn f.now) next rest.old }
    ensures part { IsDone (ChangesAt F.Fn f.now) base part.old part.new }
    ensures rest { IsDone (ChangesAt F.Fn f.now) next rest.old rest.new }
{
    let mut of_part = ||
        requires { IsReady (AcceptsAt F.Fn f.now) base part.now }
        ensures { IsDone (ChangesAt F.Fn f.entry.now) base part.entry.now part.exit.now }
    { call_in_turn(f, base, part) };
    let mut of_rest = ||
        requires { (0 < size) × IsReady (AcceptsAt F.Fn f.now) next rest.now }
        ensures { IsDone (ChangesAt F.Fn f.entry.now) next rest.entry.now rest.exit.now }
    { call_by_parts(rt, f, next, size, rest) };
    thread::join_mut(rt, &mut of_part, &mut of_rest);
}

/// Calls f(i, &mut s[i]) for each element, in at most `threads` threads, this one among them.
///
/// It promises what `std::thread::for_each_mut` does. There a new thread begins others, which start later by as long as
/// it takes that one to start; here this thread begins all of them, one after the other.
pub fn for_each_mut<R: Threads + Sync, T: Send, F: Fn(usize, &mut T) + Sync>(
    rt: &R,
    s: &mut [T],
    threads: usize,
    f: &F,
)
    requires threads { 0 < threads }
    requires accepts { AcceptsEach F.Fn f.now s.old }
    ensures { ChangesEach F.Fn f.now s.old s.new }
{
    let size = s.len().div_ceil(threads).max(1);
    call_by_parts(rt, f, 0, size, s);
}
