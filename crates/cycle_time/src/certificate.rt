ghost use Rattle.std.specs.Prelude.{◌≡◌, ◌≤◌, map, pos, All, IfOk};
ghost use Rattle.cycle_time.specs.Certificate.{most_potential};
ghost use Rattle.cycle_time.specs.Ratio.{Holds};
ghost use Rattle.cycle_time.specs.declared.certificate.CycleError.TheVariants.{NoMemory};

use crate::ratio::Ratio;
use line_base::Items;
use std::alloc::{AllocError, Global};

/// The cycle time of an event graph, with what shows that no circuit has a greater ratio of time to tokens.
///
/// Source: Baccelli, Cohen, Olsder and Quadrat, Synchronization and Linearity, on maximum cycle means.
#[derive(Drop)]
pub struct Certificate {
    /// The time of the ratio, in the plant's unit.
    pub time: u64,
    /// The tokens of the ratio, at least 1.
    pub cards: u64,
    /// The numbers of the arcs of one circuit of that ratio, in order; none where the graph has no circuit.
    pub circuit: Items<u32>,
    /// One number a station: no arc leads to one that is below that of its start, plus `cards` times the arc's job time
    /// and delay, less `time` times its tokens.
    pub potentials: Items<i128>,
}

/// Why a graph has no cycle time.
#[derive(Clone, Copy)]
pub enum CycleError {
    /// This station, the first such, has a list of times.
    Varying { station: u32 },
    /// Memory ran out.
    NoMemory,
}

impl From<AllocError> for CycleError {
    ghost from_gives = { λ _ e. e ≡ NoMemory };

    fn from(_: AllocError) -> Self {
        CycleError::NoMemory
    }
}

/// The numbers as signed ones.
fn signed_numbers(alloc: Global, numbers: &[u128]) -> Result<Vec<i128>, AllocError>
    requires { All (λ n. n ≤ most_potential) numbers.now }
    ensures { IfOk result (λ v. v.items ≡ map pos numbers.now) }
{
    let mut all = Vec::with_capacity(alloc, numbers.len())?;
    for n in numbers {
        all.push(*n as i128)?;
    }
    Ok(all)
}

/// A ratio with potentials.
pub fn certificate_with(
    alloc: Global,
    ratio: Ratio,
    potentials: &[u128],
) -> Result<Certificate, AllocError>
    requires { All (λ n. n ≤ most_potential) potentials.now }
    ensures { IfOk result (Holds ratio potentials.now) }
{
    let potentials = signed_numbers(alloc, potentials)?;
    Ok(Certificate {
        time: ratio.time,
        cards: ratio.cards,
        circuit: Items::from_vec(ratio.circuit),
        potentials: Items::from_vec(potentials),
    })
}
