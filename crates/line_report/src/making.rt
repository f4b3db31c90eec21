//! What a report is made of.
ghost use Rattle.std.specs.Prelude.{◌≡◌, ◌+◌, ◌<◌, false, length, IfOk, OnOk};
ghost use Rattle.outside_io.specs.Outgoing.{nothing_waiting};
ghost use Rattle.plant_model.specs.Sound.{IsSound};

use crate::portion::Portion;
use outside_io::Outgoing;
use plant_model::{LineNumbers, Plant};
use std::alloc::{AllocError, Global};

/// Adds a portion for each of this many workers.
fn add_portions(portions: &mut Vec<Portion>, alloc: Global, workers: u32) -> Result<(), AllocError>
    ensures { OnOk result (length portions.new.items ≡ length portions.old.items + workers) }
{
    for _ in 0..workers {
        portions.push(Portion::new(alloc, workers)?)?;
    }
    Ok(())
}

/// A portion for each worker, and one at least.
fn portions_for(alloc: Global, workers: u32) -> Result<Vec<Portion>, AllocError>
    ensures { IfOk result (λ portions. 0 < length portions.items) }
{
    let mut portions = Vec::new(alloc);
    match add_portions(&mut portions, alloc, workers.max(1)) {
        Ok(()) => Ok(portions),
        Err(error) => {
            drop(portions);
            Err(error)
        }
    }
}

/// The numbers of a plant's stations, and the memory for writing: a buffer of one piece, and the portions.
pub fn memory_for(
    alloc: Global,
    plant: &Plant,
    workers: u32,
) -> Result<(LineNumbers, Outgoing, Vec<Portion>), AllocError>
    requires { IsSound plant.now }
    ensures numbers { IfOk result (λ made. made.0 ≡ plant.now) }
    ensures out { IfOk result (λ made. made.1 ≡ nothing_waiting false) }
    ensures some { IfOk result (λ made. 0 < length made.2.items) }
{
    let out = Outgoing::new(alloc)?;
    let numbers = LineNumbers::of(alloc, plant)?;
    let portions = portions_for(alloc, workers)?;
    Ok((numbers, out, portions))
}
