//! A curve that is asked for.
ghost use Rattle.std.specs.Prelude.{◌≡◌, ◌≤◌};
ghost use Rattle.answers.specs.Curves.{IsAsked, CurveIsPut, unwritten_of};

use crate::unwritten::Unwritten;
use line_summary::{CurveError, write_curve};
use outside_io::Sink;
use plant_model::Plant;
use std::alloc::Global;
use std::marker::Model;
use std::thread::Threads;

/// A plant, and the counts of cards of which a curve is asked for. What each of them gives is found when it is written.
/// Contracts see the plant, the first count and the last.
#[derive(Drop)]
pub struct Curve {
    plant: Plant,
    from: u32,
    to: u32,
    workers: u32,
}

impl Model for Curve {
    ghost use Rattle.std.specs.Prelude.{◌≡◌, ◌≤◌};
    ghost use Rattle.answers.specs.Curves.{Counts, IsAsked};

    ghost Value = { Counts };

    ghost view = { λ c. record { plant = c.plant; from = c.from; to = c.to } };

    ghost invariant = { λ c. IsAsked c.plant c.from c.to × (1 ≤ c.workers) };
}

impl Curve {
    /// The curve of a sound plant with a single count of cards, from one count to another, both 0 to 10,000, by as many
    /// workers at most.
    pub fn new(plant: Plant, from: u32, to: u32, workers: u32) -> Curve
        requires asked { IsAsked plant from to }
        requires workers { 1 ≤ workers }
        ensures plant { result.plant ≡ plant }
        ensures from { result.from ≡ from }
        ensures to { result.to ≡ to }
    {
        Curve {
            plant,
            from,
            to,
            workers,
        }
    }

    /// Writes a row for each count, as soon as it and those before it are found.
    pub fn write<R: Threads + Sync, K: Sink>(
        &self,
        rt: &R,
        alloc: Global,
        sink: &mut K,
    ) -> Result<(), Unwritten>
        ensures { CurveIsPut self.now (K.shown sink.old) (K.shown sink.new) result }
    {
        write_curve(
            rt,
            alloc,
            &self.plant,
            self.from,
            self.to,
            self.workers,
            sink,
        )?;
        Ok(())
    }
}

impl From<CurveError> for Unwritten {
    ghost from_gives = { λ error e. e ≡ unwritten_of error };

    fn from(error: CurveError) -> Self {
        match error {
            CurveError::Failed => Unwritten::Failed,
            CurveError::NoMemory => Unwritten::NoMemory,
        }
    }
}
