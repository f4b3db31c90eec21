ghost use Rattle.std.specs.Prelude.{◌≡◌, ◌+◌, ◌<◌, length, IfOk, OnOk, IsTrue};
ghost use Rattle.event_graph.specs.Live.{IsLive};
ghost use Rattle.line_base.specs.Text.{is_name};
ghost use Rattle.live_plant.specs.Big.{machine_from, machines_from, stage_name, fed_by, stage_from};
ghost use Rattle.live_plant.specs.Big.{stages_of, dates_from, big_plant};
ghost use Rattle.live_plant.specs.Generator.{state_after};
ghost use Rattle.plant_model.specs.Graph.{graph};
ghost use Rattle.plant_model.specs.Line.{station_count};
ghost use Rattle.plant_model.specs.Sound.{IsSound};

use crate::generator::Generator;
use line_base::{Date, Items, Name, NameError, Times};
use plant_model::{Machine, Plant, Policy, Stage};
use std::alloc::{AllocError, Global};

/// How many stages a big plant has.
const STAGES: u32 = 12;

/// How many demands a big plant has.
const DEMANDS: u32 = 2_000;

/// The big plant of a seed: twelve stages of three machines under extended kanban, two lines of four stages that meet
/// in stage `s9`, and 2,000 demands. Its numbers are drawn from the seed, so that a seed has one plant. It is sound,
/// and its graph is live, since each stage has a card more than stock at least. The only error is out of memory.
pub fn big_plant(alloc: Global, seed: u64) -> Result<Plant, AllocError>
    ensures plant { IfOk result (λ plant. plant ≡ big_plant seed) }
    ensures sound { IfOk result IsSound }
    ensures live { IfOk result (λ plant. IsLive (graph plant)) }
    ensures stations { IfOk result (λ plant. station_count plant ≡ 50) }
    ensures jobs { IfOk result (λ plant. length plant.demands ≡ 2000) }
{
    let mut generator = Generator::new(seed);
    let stages = drawn_stages(alloc, &mut generator)?;
    let demands = drawn_dates(alloc, &mut generator)?;
    Ok(Plant {
        policy: Policy::Extended,
        stages: Items::from_vec(stages),
        loops: Items::from_vec(Vec::new(alloc)),
        card_time: 0,
        demands: Items::from_vec(demands),
        observe: Items::from_vec(Vec::new(alloc)),
    })
}

/// The stages, in order.
fn drawn_stages(alloc: Global, generator: &mut Generator) -> Result<Vec<Stage>, AllocError>
    ensures stages { IfOk result (λ stages. stages.items ≡ stages_of generator.old 12) }
    ensures state { OnOk result (generator.new ≡ state_after 96 generator.old) }
{
    let mut stages = Vec::new(alloc);
    for number in 0..STAGES {
        stages.push(drawn_stage(alloc, number, generator)?)?;
    }
    Ok(stages)
}

/// The dates of the demands, each up to 29 later than the one before.
fn drawn_dates(alloc: Global, generator: &mut Generator) -> Result<Vec<Date>, AllocError>
    ensures { IfOk result (λ dates. dates.items ≡ dates_from generator.old 2000) }
{
    let mut dates = Vec::new(alloc);
    let mut date = 0;
    for _ in 0..DEMANDS {
        date += u64::from(generator.draw_below(30));
        dates.push(date)?;
    }
    Ok(dates)
}

/// The stage with this number, counted from 0: a stock of at most 3, and 1 to 4 cards more than stock.
fn drawn_stage(alloc: Global, number: u32, generator: &mut Generator) -> Result<Stage, AllocError>
    requires { number < 12 }
    ensures stage { IfOk result (λ stage. stage ≡ stage_from generator.old number) }
    ensures state { OnOk result (generator.new ≡ state_after 8 generator.old) }
{
    let stock = generator.draw_below(4);
    let cards = stock + 1 + generator.draw_below(4);
    Ok(Stage {
        name: numbered_name(alloc, number)?,
        feeds: fed_by(number),
        cards,
        stock,
        travel: 0,
        card_time: 0,
        machines: Items::from_vec(drawn_machines(alloc, generator)?),
    })
}

/// The three machines of a stage.
fn drawn_machines(alloc: Global, generator: &mut Generator) -> Result<Vec<Machine>, AllocError>
    ensures machines { IfOk result (λ machines. machines.items ≡ machines_from generator.old) }
    ensures state { OnOk result (generator.new ≡ state_after 6 generator.old) }
{
    let a = drawn_machine(alloc, b"a", generator)?;
    let b = drawn_machine(alloc, b"b", generator)?;
    let c = drawn_machine(alloc, b"c", generator)?;
    Ok(vec![in alloc; a, b, c]?)
}

/// The machine with this name: 1 to 3 servers, and a time of 1 to 20 for every job.
fn drawn_machine(
    alloc: Global,
    name: &[u8],
    generator: &mut Generator,
) -> Result<Machine, AllocError>
    requires { IsTrue (is_name name.now) }
    ensures machine { IfOk result (λ machine. machine ≡ machine_from generator.old name.now) }
    ensures state { OnOk result (generator.new ≡ state_after 2 generator.old) }
{
    let servers = 1 + generator.draw_below(3);
    let time = 1 + u64::from(generator.draw_below(20));
    Ok(Machine {
        servers,
        ..Machine::of(name_of(alloc, name)?, Times::Fixed(time))
    })
}

/// The name of a stage, from its number, which counts from 0: `s1` and so on.
fn numbered_name(alloc: Global, number: u32) -> Result<Name, AllocError>
    requires { number < 12 }
    ensures { IfOk result (λ name. name ≡ stage_name number) }
{
    let number = number + 1;
    name_of(alloc, format!(in alloc; "s{number}")?.as_bytes())
}

/// The name with this text, which keeps the rule of names.
fn name_of(alloc: Global, text: &[u8]) -> Result<Name, AllocError>
    requires { IsTrue (is_name text.now) }
    ensures { IfOk result (λ name. name ≡ text.now) }
{
    match Name::of(alloc, text) {
        Ok(name) => Ok(name),
        Err(NameError::NoMemory) => Err(AllocError),
        Err(NameError::BadName) => unreachable!(),
    }
}

/// The stage that a stage feeds, both numbered from 0: the two lines of four stages feed stage 8, and stage 11 is
/// final.
fn fed_by(stage: u32) -> Option<u32>
    requires { stage < 12 }
    ensures { result ≡ fed_by stage }
{
    match stage {
        3 | 7 => Some(8),
        11 => None,
        _ => Some(stage + 1),
    }
}
