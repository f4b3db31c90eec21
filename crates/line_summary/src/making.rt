//! What a summary is made of.
ghost use Rattle.std.specs.Prelude.{◌≡◌, false, IfOk};
ghost use Rattle.event_graph.specs.Table.{date_in};
ghost use Rattle.outside_io.specs.Outgoing.{nothing_waiting};
ghost use Rattle.line_summary.specs.Machines.{machine_uses};
ghost use Rattle.line_summary.specs.Summarized.{ArePercentiles, IsOfPlant};

use crate::machines::{MachineUse, machine_uses};
use crate::percentiles::{Percentiles, wait_percentiles};
use line_core::Table;
use outside_io::Outgoing;
use plant_model::{LineNumbers, Plant};
use std::alloc::{AllocError, Global};

/// What a summary has beside its plant and its table: the numbers of the stations, the percentiles of the waits, a
/// record for each machine, and room for one piece of the text.
pub fn memory_for(
    alloc: Global,
    plant: &Plant,
    table: &Table,
) -> Result<(LineNumbers, Percentiles, Vec<MachineUse>, Outgoing), AllocError>
    requires { IsOfPlant plant.now table.now }
    ensures numbers { IfOk result (λ made. made.0 ≡ plant.now) }
    ensures percentiles { IfOk result (λ made. ArePercentiles table.now.graph (date_in table.now.rows) made.1) }
    ensures uses { IfOk result (λ made. made.2.items ≡ machine_uses plant.now) }
    ensures out { IfOk result (λ made. made.3 ≡ nothing_waiting false) }
{
    let percentiles = wait_percentiles(alloc, table)?;
    let out = Outgoing::new(alloc)?;
    let uses = machine_uses(alloc, plant)?;
    let numbers = LineNumbers::of(alloc, plant)?;
    Ok((numbers, percentiles, uses, out))
}
