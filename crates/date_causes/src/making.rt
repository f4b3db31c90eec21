//! What the chain of a date is made of.
ghost use Rattle.std.specs.Prelude.{◌≡◌, ◌≤◌, false, IfOk};
ghost use Rattle.date_causes.specs.Caused.{HasStation, HasJob, IsChainOf, IsWritable};
ghost use Rattle.outside_io.specs.Outgoing.{nothing_waiting};
ghost use Rattle.line_stats.specs.PlantDates.{AreOfPlant};

use crate::chain::causes;
use crate::shares::shares_of;
use crate::writing::Chain;
use line_core::Table;
use live_check::Live;
use outside_io::Outgoing;
use plant_model::{LineNumbers, Plant};
use std::alloc::{AllocError, Global};

/// The chain of causes of the date of job `n` at station `t`, and room for one piece of its text.
pub fn chain_of(
    alloc: Global,
    plant: &Plant,
    live: &Live,
    table: &Table,
    t: u32,
    n: u32,
) -> Result<(Chain, Outgoing), AllocError>
    requires of_plant { AreOfPlant plant.now live.now table.now }
    requires station { HasStation plant.now t }
    requires from_one { 1 ≤ n }
    requires job { HasJob plant.now n }
    ensures chain { IfOk result
        (λ r. IsChainOf table.now t n (record { plant = plant.now; links = r.0.links })) }
    ensures writable { IfOk result (λ r. IsWritable plant.now live.now.graph r.0) }
    ensures out { IfOk result (λ r. r.1 ≡ nothing_waiting false) }
{
    // called for its clause: the table is the least solution of its graph, and so none of its dates is late
    let _least = table.stations();
    let out = Outgoing::new(alloc)?;
    let numbers = LineNumbers::of(alloc, plant)?;
    let links = causes(alloc, live, table, t, n)?;
    let shares = shares_of(alloc, links.as_slice(), live.graph().stations())?;
    let chain = Chain {
        links,
        shares,
        numbers,
    };
    Ok((chain, out))
}
