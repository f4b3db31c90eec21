//! A curve: its counts are shared among threads, and the rows of a block of them are written as soon as they are there.
ghost use Rattle.std.specs.Prelude.{◌≡◌, ◌+◌, ◌-◌, ◌<◌, ◌≤◌, length, true, false, IfSome, OnOk, OnErr, IfErr};
ghost use Rattle.card_sizing.specs.Sized.{has_single_count, lowest};
ghost use Rattle.line_base.specs.Limits.{most_cards};
ghost use Rattle.outside_io.specs.Outgoing.{nothing_waiting};
ghost use Rattle.line_summary.specs.Curve.{HavePoints, PutsRows, EndsEarly, PutsPrefixOfCurve};
ghost use Rattle.line_summary.specs.Points.{IsPoint};
ghost use Rattle.line_summary.specs.declared.curve.CurveError.{CurveError};
ghost use Rattle.plant_model.specs.Sound.{IsSound};

use crate::point::Point;
use crate::rows::write_row;
use crate::trying::point_at;
use card_sizing::lowest_count;
use line_base::for_each_mut;
use outside_io::{Outgoing, Sink};
use plant_model::Plant;
use std::alloc::{AllocError, Global};
use std::thread::Threads;

/// Why a curve ends early.
#[derive(Clone, Copy)]
pub enum CurveError {
    /// Memory ran out.
    NoMemory,
    /// The sink refused a piece.
    Failed,
}

impl From<AllocError> for CurveError {
    ghost from_gives = { λ _ e. e ≡ CurveError.NoMemory };

    fn from(_: AllocError) -> Self {
        CurveError::NoMemory
    }
}

impl From<outside_io::Failed> for CurveError {
    ghost from_gives = { λ _ e. e ≡ CurveError.Failed };

    fn from(_: outside_io::Failed) -> Self {
        CurveError::Failed
    }
}

/// How many bytes are taken and given back before the first count.
const ROOM: usize = 16_777_216;

/// Takes a large block of memory and gives it back, untouched. From it the allocator of the C library learns to keep as
/// much of what it gets back, in place of handing it to the system: else each count gets the pages of its run afresh,
/// and the threads wait for one another to get them. Where there is no such block, the counts go on without.
fn keep_memory(alloc: Global) {
    let taken: Result<Vec<u8>, AllocError> = Vec::with_capacity(alloc, ROOM);
    drop(taken);
}

/// About how many dates a thread finds at a time: enough that to begin the thread is worth it.
const DATES_EACH: usize = 640_000;

/// How many counts a thread gets at a time, at most.
const MOST_EACH: usize = 16;

/// How many counts a thread gets at a time: more where one is soon found. A count takes about as long as the plant has
/// demands and stages.
fn counts_each(plant: &Plant) -> u32
    ensures { 1 ≤ result }
{
    let dates = plant
        .stages
        .len()
        .saturating_mul(plant.demands.len())
        .max(1);
    (DATES_EACH / dates).clamp(1, MOST_EACH) as u32
}

/// How many counts are found before their rows are written: a fixed number for each worker, and one where there is one
/// worker.
fn block_size(plant: &Plant, workers: u32) -> u32
    requires { 1 ≤ workers }
    ensures { 1 ≤ result }
{
    if workers == 1 {
        return 1;
    }
    workers.saturating_mul(counts_each(plant))
}

/// Finds what counts from `first` on give, in at most this many threads; `None` where memory ran out.
fn find_points<R: Threads + Sync>(
    rt: &R,
    alloc: Global,
    plant: &Plant,
    least: u32,
    first: u32,
    workers: u32,
    points: &mut [Option<Point>],
)
    requires sound { IsSound plant.now }
    requires single { has_single_count plant.now ≡ true }
    requires least { least ≡ lowest plant.now }
    requires within { first + length points.old ≤ most_cards + 1 }
    requires workers { 1 ≤ workers }
    ensures number { length points.new ≡ length points.old }
    ensures points { HavePoints plant.now first points.new }
{
    for_each_mut(
        rt,
        points,
        workers as usize,
        &|i: usize, point: &mut Option<Point>|
            requires { IsSound plant.now × (has_single_count plant.now ≡ true)
                × (least ≡ lowest plant.now) × (first + i ≤ most_cards) }
            ensures { IfSome point.exit.now (IsPoint plant.entry.now (first + i)) }
        { *point = point_at(alloc, plant, least, first + i as u32).ok() },
    );
}

/// Writes the rows of `size` counts from `first` on, each to its end.
fn write_block<R: Threads + Sync, K: Sink>(
    rt: &R,
    alloc: Global,
    plant: &Plant,
    least: u32,
    first: u32,
    size: u32,
    workers: u32,
    out: &mut Outgoing,
    sink: &mut K,
) -> Result<(), CurveError>
    requires sound { IsSound plant.now }
    requires single { has_single_count plant.now ≡ true }
    requires least { least ≡ lowest plant.now }
    requires within { first + size ≤ most_cards + 1 }
    requires some { 0 < size }
    requires workers { 1 ≤ workers }
    requires empty { out.old ≡ nothing_waiting false }
    ensures as_new { OnOk result (out.new ≡ nothing_waiting false) }
    ensures rows { OnOk result (PutsRows plant.now first size
        (K.shown sink.old) (K.shown sink.new)) }
    ensures early { IfErr result (EndsEarly plant.now first size
        (K.shown sink.old) (K.shown sink.new)) }
{
    let mut room = vec![in alloc; None; size as usize]?;
    let points = room.as_mut_slice();
    find_points(rt, alloc, plant, least, first, workers, points);
    for (i, point) in points.iter().enumerate() {
        match point {
            Some(point) => write_row(out, sink, first + i as u32, point)?,
            None => return Err(CurveError::NoMemory),
        }
    }
    Ok(())
}

/// Writes a row for each count of cards from `from` to `to`: what the plant gives with this many cards at each stage,
/// or for the line under CONWIP. The counts are shared among at most `workers` threads, and the text doesn't depend on
/// how many these are. They go in blocks, and the rows of a block are put, each to its end, before the next is begun.
/// No more memory is held than a block takes: for each worker a run of the line, and the figures of each of its counts.
pub fn write_curve<R: Threads + Sync, K: Sink>(
    rt: &R,
    alloc: Global,
    plant: &Plant,
    from: u32,
    to: u32,
    workers: u32,
    sink: &mut K,
) -> Result<(), CurveError>
    requires sound { IsSound plant.now }
    requires single { has_single_count plant.now ≡ true }
    requires ordered { from ≤ to }
    requires within { to ≤ most_cards }
    requires workers { 1 ≤ workers }
    ensures rows { OnOk result (PutsRows plant.now from (to + 1 - from)
        (K.shown sink.old) (K.shown sink.new)) }
    ensures early { IfErr result (EndsEarly plant.now from (to + 1 - from)
        (K.shown sink.old) (K.shown sink.new)) }
    ensures prefix { OnErr result (PutsPrefixOfCurve plant.now from (to + 1 - from)
        (K.shown sink.old) (K.shown sink.new)) }
{
    keep_memory(alloc);
    let least = lowest_count(alloc, plant)?;
    let mut out = Outgoing::new(alloc)?;
    let most = block_size(plant, workers);
    let mut next = from;
    while next <= to {
        let size = most.min(to + 1 - next);
        write_block(rt, alloc, plant, least, next, size, workers, &mut out, sink)?;
        next += size;
    }
    Ok(())
}
