//! What stands where at a date. Stages are numbered from 0, dates are in the plant's unit. The
//! numbers are those of the plant, which contracts see.
ghost use Rattle.std.specs.Prelude.{◌≡◌, ◌+◌, ◌<◌, length};
ghost use Rattle.event_graph.specs.Table.{date_in};
ghost use Rattle.line_stats.specs.Counts.{jobs_done, parts_arrived, in_process, in_move, in_stock, backlog};
ghost use Rattle.line_stats.specs.PlantDates.{IsStageOf};
ghost use Rattle.plant_model.specs.Graph.{graph};
ghost use Rattle.plant_model.specs.Line.{release, last_machine, deliver, receiver, starting};
ghost use Rattle.plant_model.specs.Sound.{IsSound};

use crate::logs::jobs_done;
use line_base::Date;
use line_core::Table;
use plant_model::{FEED, LineNumbers, Plant};

/// How many parts are on the machines of a stage at a date: released, and not done by its last machine.
///
/// It takes no memory, and halves the dates of the two stations.
#[tactic(auto, using(crate::proofs::PlantTables::exists_in, crate::proofs::RisingDates::lists_keep_order))]
pub fn in_process(numbers: &LineNumbers, table: &Table, stage: u32, at: Date) -> u32
    requires sound { IsSound numbers.now }
    requires of_plant { table.now.graph ≡ graph numbers.now }
    requires exists { stage < length numbers.now.stages }
    ensures count { result ≡ in_process numbers.now (date_in table.now.rows) stage at }
    ensures balance { let done = jobs_done (graph numbers.now) (date_in table.now.rows) in
        result + done (last_machine numbers.now stage) at ≡ done (release numbers.now stage) at }
{
    jobs_done(table, numbers.release(stage), at) - jobs_done(table, numbers.last_machine(stage), at)
}

/// How many parts of a stage have ended their travel by a date.
#[tactic(auto, using(crate::proofs::PlantTables::exists_in, crate::proofs::RisingDates::lists_keep_order))]
fn parts_arrived(plant: &Plant, numbers: &LineNumbers, table: &Table, stage: u32, at: Date) -> u32
    requires { IsStageOf plant.now numbers.now table.now stage }
    ensures { result ≡ parts_arrived plant.now (date_in table.now.rows) stage at }
{
    match at.checked_sub(plant.stages.as_slice()[stage as usize].travel) {
        Some(left) => jobs_done(table, numbers.last_machine(stage), left),
        None => 0,
    }
}

/// How many parts of a stage are on their travel at a date: done by its last machine, and not arrived.
///
/// It takes no memory, and halves the dates of the machine.
#[tactic(auto, using(crate::proofs::PlantTables::exists_in, crate::proofs::RisingDates::lists_keep_order))]
pub fn in_move(plant: &Plant, numbers: &LineNumbers, table: &Table, stage: u32, at: Date) -> u32
    requires { IsStageOf plant.now numbers.now table.now stage }
    ensures count { result ≡ in_move plant.now (date_in table.now.rows) stage at }
    ensures balance { let x = date_in table.now.rows in
        result + parts_arrived plant.now x stage at ≡ jobs_done (graph plant.now) x (last_machine plant.now stage) at }
{
    jobs_done(table, numbers.last_machine(stage), at)
        - parts_arrived(plant, numbers, table, stage, at)
}

/// How many parts are in the stock of a stage at a date: its starting stock and the parts that have arrived, less those
/// that the next release, or the delivery, has taken.
///
/// It takes no memory, and halves the dates of the two stations.
#[tactic(auto, using(crate::proofs::PlantTables::exists_in, crate::proofs::RisingDates::lists_keep_order))]
pub fn in_stock(plant: &Plant, numbers: &LineNumbers, table: &Table, stage: u32, at: Date) -> u32
    requires { IsStageOf plant.now numbers.now table.now stage }
    ensures count { result ≡ in_stock plant.now (date_in table.now.rows) stage at }
    ensures balance { let x = date_in table.now.rows in
        let stocked = starting plant.now stage + parts_arrived plant.now x stage at in
        result + jobs_done (graph plant.now) x (receiver plant.now stage) at ≡ stocked }
{
    let taken = jobs_done(table, numbers.receiver(plant, stage), at);
    plant.starting(stage) + parts_arrived(plant, numbers, table, stage, at) - taken
}

/// How many demands are not delivered at a date.
///
/// It takes no memory, and halves the dates of the feed and of the delivery.
#[tactic(auto, using(crate::proofs::PlantTables::exists_in, crate::proofs::RisingDates::lists_keep_order))]
pub fn backlog(numbers: &LineNumbers, table: &Table, at: Date) -> u32
    requires sound { IsSound numbers.now }
    requires of_plant { table.now.graph ≡ graph numbers.now }
    ensures count { result ≡ backlog numbers.now (date_in table.now.rows) at }
    ensures balance { let done = jobs_done (graph numbers.now) (date_in table.now.rows) in
        result + done (deliver numbers.now) at ≡ done 0 at }
{
    jobs_done(table, FEED, at) - jobs_done(table, numbers.deliver(), at)
}
