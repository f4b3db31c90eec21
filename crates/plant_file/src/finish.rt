//! A draft becomes a plant, once the files that it names have been read.
ghost use Rattle.std.specs.Prelude.{◌≡◌, ◌≢◌, ◌≤◌, ◌<◌, ◌++◌, [], ◌∷◌, ℕ, List, Option, All, false, Ok, Some, IfErr, IfOk, IfSome, OnOk, map, is_some, option_map, option_copied, length, vec_len};
ghost use Rattle.demand_feed.specs.Dates.{dates_of};
ghost use Rattle.demand_feed.specs.Times.{times_of};
ghost use Rattle.line_base.specs.declared.limits.TheConstants.{MAX_CHECKPOINT_BYTES, MAX_DEMAND_DATE};
ghost use Rattle.plant_file.specs.Counts.{can_be_copied};
ghost use Rattle.plant_file.specs.Draft.{demands_file, demands_column, columns_of};
ghost use Rattle.plant_file.specs.Complete.{HoldsDates, HoldsTimes, refusal_of};
ghost use Rattle.plant_file.specs.Finish.{AnswersPlant, AreFilesOf, HasColumn, HasColumns, IsWithinLimit, bad_record_in, bad_records, completed_plant, dates_with, finished_plant, loop_with, machine_with, plant_or_first, plant_with, stage_with, times_with};
ghost use Rattle.plant_file.specs.PlantOfFiles.{Contents, IsReadFrom, plant_of};
ghost use Rattle.plant_model.specs.Refusals.{all_feeds_not_later, first, parts_refusals, whole_refusals};
ghost use Rattle.plant_model.specs.Sound.{IsSound};

use crate::build::push;
use crate::counts::{can_be_copied, check_counts, count_demands, table_within};
use crate::{Draft, DraftDemands, DraftLoop, DraftMachine, DraftPlant, DraftStage, DraftTimes};
use demand_feed::{Columns, FeedError, read_dates, read_times};
use line_base::{Date, Items, Times};
use plant_check::check_whole;
use plant_model::{CardLoop, Machine, Plant, PlantError, Stage, Text};
use std::alloc::{AllocError, Global};

/// The plant of a draft, with the dates of its demand file and the times of its times file where it uses them. The
/// error is the first of the refusals 11 to 15 of `PlantError`. A loop's end that names no stage becomes the number of
/// stages, which class 14 refuses. Running out of memory may come before any refusal. No column of the times is copied
/// before the number of records has been compared with that of the dates, and both with their limits.
pub fn finish_draft(
    alloc: Global,
    draft: Draft,
    dates: Option<Vec<Date>>,
    times: Option<Columns>,
) -> Result<Plant, PlantError>
    requires dates_where_used { is_some dates ≡ is_some (demands_file draft) }
    requires some_dates { IfSome dates (λ read. 0 < vec_len read) }
    requires dates_limit { IfSome dates (λ read. All (λ date. date ≤ MAX_DEMAND_DATE) read.items) }
    requires times_where_used { is_some times ≡ is_some draft.times_file }
    requires times_columns { IfSome times (λ table. table.columns ≡ columns_of draft) }
    ensures plant { AnswersPlant result (finished_plant draft (option_map (λ read. read.items) dates) times) }
    ensures sound { IfOk result IsSound }
{
    let draft = draft.into_plant();
    let jobs = count_demands(&draft.demands, &dates);
    match check_counts(alloc, jobs, draft.stages.as_slice(), &times) {
        Ok(()) => {}
        Err(refusal) => {
            drop(draft);
            drop(dates);
            drop(times);
            return Err(refusal);
        }
    }
    let times = table_within(jobs, draft.stages.as_slice(), times);
    let plant = plant_with(alloc, draft, dates, times)?;
    whole_plant(alloc, plant)
}

/// A plant whose parts are right, unless something is wrong with it as a whole.
fn whole_plant(alloc: Global, plant: Plant) -> Result<Plant, PlantError>
    requires { parts_refusals plant ≡ [] }
    ensures plant { AnswersPlant result (plant_or_first (whole_refusals plant) plant) }
    ensures sound { IfOk result IsSound }
{
    match check_whole(alloc, &plant) {
        Ok(()) => Ok(plant),
        Err(refusal) => {
            drop(plant);
            Err(refusal)
        }
    }
}

/// The plant of a draft and of the bytes of its demand file and of its times file, each given exactly where the draft
/// names it. The error is the first of the refusals 10 to 15 of `PlantError`, the demand file tried before the times
/// file. Running out of memory may come before any refusal.
pub fn complete_draft(
    alloc: Global,
    draft: Draft,
    demands: Option<&[u8]>,
    times: Option<&[u8]>,
) -> Result<Plant, PlantError>
    requires { AreFilesOf draft demands times }
    ensures plant { AnswersPlant result
        (completed_plant draft (option_copied demands.entry) (option_copied times.entry)) }
    ensures sound { IfOk result IsSound }

    // where the draft and the bytes are those of files, the answer is the plant of the files
    ensures of_files { (name : List ℕ) (files : Contents)
        → IsReadFrom name files draft (option_copied demands.entry) (option_copied times.entry)
        → AnswersPlant result (plant_of name files) }
{
    match tables_in(alloc, &draft, demands, times) {
        Ok(tables) => finish_draft(alloc, draft, tables.0, tables.1),
        Err(error) => {
            drop(draft);
            Err(error)
        }
    }
}

/// Why the plant of a draft and of its tables isn't made.
#[derive(Drop)]
pub enum CopyError {
    /// The columns of its machines would be more than 512 MiB.
    TooManyTimes,
    /// Memory ran out.
    NoMemory,
}

/// The plant of a draft, with the dates of its demand file and the times of its times file where it uses them, whatever
/// is wrong with it as a whole: the refusals 11 to 15 aren't tried. It isn't made where the columns of the machines
/// would be more than 512 MiB.
pub fn assemble_plant(
    alloc: Global,
    draft: Draft,
    dates: Option<Vec<Date>>,
    times: Option<Columns>,
) -> Result<Plant, CopyError>
    requires dates_where_used { is_some dates ≡ is_some (demands_file draft) }
    requires some_dates { IfSome dates (λ read. 0 < vec_len read) }
    requires dates_limit { IfSome dates (λ read. All (λ date. date ≤ MAX_DEMAND_DATE) read.items) }
    requires times_where_used { is_some times ≡ is_some draft.times_file }
    requires times_columns { IfSome times (λ table. table.columns ≡ columns_of draft) }
    ensures plant { IfOk result (λ made. made ≡ plant_with draft (option_map (λ read. read.items) dates) times) }
    ensures feeds { IfOk result (λ made. all_feeds_not_later made ≡ []) }
    ensures sound { IfOk result (λ made. whole_refusals made ≡ [] → IsSound made) }
    ensures too_many { IfErr result (λ error. error ≡ CopyError.TooManyTimes
        → can_be_copied draft.stages times ≡ false) }
{
    copied_plant(alloc, draft.into_plant(), dates, times)
}

/// The plant of a draft, with the dates of its demand file and the table of its times file, unless its columns would be
/// more than is copied.
fn copied_plant(
    alloc: Global,
    draft: DraftPlant,
    dates: Option<Vec<Date>>,
    table: Option<Columns>,
) -> Result<Plant, CopyError>
    requires columns { All (HasColumns table) draft.stages }
    ensures plant { IfOk result (λ made. made ≡ plant_with draft (option_map (λ read. read.items) dates) table) }
    ensures limit { IfOk result (λ _. IfSome table IsWithinLimit) }
    ensures too_many { IfErr result (λ error. error ≡ CopyError.TooManyTimes
        → can_be_copied draft.stages table ≡ false) }
{
    if can_be_copied(draft.stages.as_slice(), &table) {
        return match plant_with(alloc, draft, dates, table) {
            Ok(plant) => Ok(plant),
            Err(error) => {
                drop(error);
                Err(CopyError::NoMemory)
            }
        };
    }
    drop(draft);
    drop(dates);
    drop(table);
    Err(CopyError::TooManyTimes)
}

/// The dates and the table of the bytes of a draft's files, each where there is one; the demand file is tried first.
fn tables_in(
    alloc: Global,
    draft: &Draft,
    demands: Option<&[u8]>,
    times: Option<&[u8]>,
) -> Result<(Option<Vec<Date>>, Option<Columns>), PlantError>
    requires { AreFilesOf draft.now demands times }
    ensures dates { IfOk result (λ tables. HoldsDates draft.now (option_copied demands.entry) tables.0) }
    ensures times { IfOk result (λ tables. HoldsTimes draft.now (option_copied times.entry) tables.1) }
    ensures refused { IfErr result (λ e. e ≢ PlantError.NoMemory
        → first (bad_records draft.now (option_copied demands.entry) (option_copied times.entry)) ≡ Some e) }
{
    let dates = dates_in(alloc, draft, demands)?;
    let table = times_in(alloc, draft, times)?;
    Ok((dates, table))
}

/// The dates of the bytes of a draft's demand file, if there is one, or its first bad record.
pub fn dates_in(
    alloc: Global,
    draft: &Draft,
    bytes: Option<&[u8]>,
) -> Result<Option<Vec<Date>>, PlantError>
    requires { is_some bytes ≡ is_some (demands_file draft.now) }
    ensures held { IfOk result (HoldsDates draft.now (option_copied bytes.entry)) }
    ensures refused { IfErr result (λ e. e ≢ PlantError.NoMemory
        → bad_record_in (dates_of (demands_column draft.now)) (demands_file draft.now) (option_copied bytes.entry)
        ≡ e ∷ []) }
{
    let Some(bytes) = bytes else {
        return Ok(None);
    };
    let name = draft.demands_file().unwrap_or("");
    match read_dates(alloc, bytes, draft.demands_column()) {
        Ok(dates) => Ok(Some(dates)),
        Err(error) => Err(refusal_of(alloc, name, error)),
    }
}

/// The table of the bytes of a draft's times file, if there is one, or its first bad record.
pub fn times_in(
    alloc: Global,
    draft: &Draft,
    bytes: Option<&[u8]>,
) -> Result<Option<Columns>, PlantError>
    requires where_used { is_some bytes ≡ is_some draft.now.times_file }
    requires size { IfSome bytes (λ bs. length bs.now ≤ MAX_CHECKPOINT_BYTES) }
    ensures held { IfOk result (HoldsTimes draft.now (option_copied bytes.entry)) }
    ensures refused { IfErr result (λ e. e ≢ PlantError.NoMemory
        → bad_record_in (times_of (columns_of draft.now)) draft.now.times_file (option_copied bytes.entry) ≡ e ∷ []) }
{
    let Some(bytes) = bytes else {
        return Ok(None);
    };
    let name = draft.times_file().unwrap_or("");
    match read_times(alloc, bytes, draft.columns()) {
        Ok(table) => Ok(Some(table)),
        Err(error) => Err(refusal_of(alloc, name, error)),
    }
}

/// The refusal of a file that gave this error.
fn refusal_of(alloc: Global, file: &str, error: FeedError) -> PlantError
    ensures { result ≢ PlantError.NoMemory → result ≡ refusal_of file.now error }
{
    let FeedError::BadRecord { number } = error else {
        return PlantError::NoMemory;
    };
    match String::from_str(alloc, file) {
        Ok(text) => PlantError::BadRecord {
            file: Text::from_string(text),
            number,
        },
        Err(_) => PlantError::NoMemory,
    }
}

/// The plant of a draft, with the dates of its demand file and the table of its times file.
fn plant_with(
    alloc: Global,
    draft: DraftPlant,
    dates: Option<Vec<Date>>,
    table: Option<Columns>,
) -> Result<Plant, PlantError>
    requires columns { All (HasColumns table) draft.stages }
    ensures plant { IfOk result (λ made. made ≡ plant_with draft (option_map (λ read. read.items) dates) table) }
    ensures limit { IfOk result (λ _. IfSome table IsWithinLimit) }
    ensures memory { IfErr result (λ error. error ≡ PlantError.NoMemory) }
{
    keeps_limit(&table);
    let DraftPlant {
        policy,
        card_time,
        demands,
        times_file,
        observe,
        stages,
        loops,
    } = draft;
    drop(times_file);
    let parts = parts_with(alloc, stages, loops.as_slice(), &table);
    drop(loops);
    drop(table);
    let demands = dates_with(alloc, demands, dates);
    match parts {
        Ok((stages, loops)) => Ok(Plant {
            policy,
            stages,
            loops,
            card_time,
            demands,
            observe,
        }),
        Err(error) => {
            drop(demands);
            drop(observe);
            Err(error)
        }
    }
}

/// The stages of a plant, with the table of its times file, and its loops.
fn parts_with(
    alloc: Global,
    stages: Items<DraftStage>,
    loops: &[DraftLoop],
    table: &Option<Columns>,
) -> Result<(Items<Stage>, Items<CardLoop>), PlantError>
    requires { All (HasColumns table.now) stages }
    ensures stages { IfOk result (λ parts. parts.0 ≡ map (stage_with table.now) stages) }
    ensures loops { IfOk result (λ parts. parts.1 ≡ map (loop_with (length stages)) loops.now) }
    ensures memory { IfErr result (λ error. error ≡ PlantError.NoMemory) }
{
    let source = TimesSource { alloc, table };
    match loops_with(alloc, loops, stages.len()) {
        Ok(loops) => match source.stages(stages) {
            Ok(stages) => Ok((stages, loops)),
            Err(AllocError) => {
                drop(loops);
                Err(PlantError::NoMemory)
            }
        },
        Err(error) => {
            drop(stages);
            Err(error)
        }
    }
}

/// No time of a times file is above its limit, as its count of jobs tells.
fn keeps_limit(table: &Option<Columns>)
    ensures { IfSome table.now IsWithinLimit }
{
    if let Some(table) = table {
        // called for its clause: no number of the table is above its limit
        let _ = table.records();
    }
}

/// The dates that are given in the plant file, or those of the demand file.
fn dates_with(alloc: Global, demands: DraftDemands, dates: Option<Vec<Date>>) -> Items<Date>
    ensures { result ≡ dates_with demands (option_map (λ read. read.items) dates) }
{
    match demands {
        DraftDemands::Given(given) => given,
        DraftDemands::File { .. } => match dates {
            Some(dates) => Items::from_vec(dates),
            None => Items::from_vec(Vec::new(alloc)),
        },
    }
}

/// The loops of a plant of this many stages. An end that names no stage gets the number after the last. No memory holds
/// stages whose numbers pass 32 bits.
fn loops_with(
    alloc: Global,
    loops: &[DraftLoop],
    stages: usize,
) -> Result<Items<CardLoop>, PlantError>
    ensures made { IfOk result (λ made. made ≡ map (loop_with stages) loops.now) }
    ensures memory { IfErr result (λ error. error ≡ PlantError.NoMemory) }
{
    let Ok(count) = u32::try_from(stages) else {
        return Err(PlantError::NoMemory);
    };
    let mut made = Vec::with_capacity(alloc, loops.len())?;
    for card_loop in loops {
        push(&mut made, loop_with(card_loop, count))?;
    }
    Ok(Items::from_vec(made))
}

/// A loop of a plant of this many stages.
fn loop_with(card_loop: &DraftLoop, count: u32) -> CardLoop
    ensures { result ≡ loop_with count card_loop.now }
{
    CardLoop {
        first: card_loop.first.unwrap_or(count),
        last: card_loop.last.unwrap_or(count),
        cards: card_loop.cards,
        card_time: card_loop.card_time,
    }
}

/// Where the job times of columns come from: the table of the times file, if there is one, copied into this memory.
#[derive(Drop)]
struct TimesSource<'a> {
    alloc: Global,
    table: &'a Option<Columns>,
}

impl<'a> TimesSource<'a> {
    /// The stages with their job times.
    fn stages(&self, stages: Items<DraftStage>) -> Result<Items<Stage>, AllocError>
        requires { All (HasColumns self.now.table.now) stages }
        ensures { IfOk result (λ made. made ≡ map (stage_with self.now.table.now) stages) }
    {
        let mut made = Vec::with_capacity(self.alloc, stages.len())?;
        for stage in stages.into_vec() {
            self.add_stage(stage, &mut made)?;
        }
        Ok(Items::from_vec(made))
    }

    /// Adds a stage with the job times of its machines.
    fn add_stage(&self, stage: DraftStage, made: &mut Vec<Stage>) -> Result<(), AllocError>
        requires { HasColumns self.now.table.now stage }
        ensures { OnOk result (made.new.items ≡ made.old.items ++ stage_with self.now.table.now stage ∷ []) }
    {
        let machines = self.machines(stage.machines)?;
        let stage = Stage {
            name: stage.name,
            feeds: stage.feeds,
            cards: stage.cards,
            stock: stage.stock,
            travel: stage.travel,
            card_time: stage.card_time,
            machines,
        };
        push(made, stage)
    }

    /// The machines with their job times.
    fn machines(&self, machines: Items<DraftMachine>) -> Result<Items<Machine>, AllocError>
        requires { All (λ m. HasColumn self.now.table.now m.times) machines }
        ensures { IfOk result (λ made. made ≡ map (machine_with self.now.table.now) machines) }
    {
        let mut made = Vec::with_capacity(self.alloc, machines.len())?;
        for machine in machines.into_vec() {
            let (times, machine) = machine.split();
            let times = self.times(times)?;
            push(&mut made, machine.with_times(times))?;
        }
        Ok(Items::from_vec(made))
    }

    /// The job times of a machine: one time, a list, or a column of the times file, and the time 0 where there is no
    /// table.
    fn times(&self, times: DraftTimes) -> Result<Times, AllocError>
        requires { HasColumn self.now.table.now times }
        ensures { IfOk result (λ made. made ≡ times_with self.now.table.now times) }
    {
        match times {
            DraftTimes::Fixed(time) => Ok(Times::Fixed(time)),
            DraftTimes::Each(times) => Ok(Times::Each(times)),
            DraftTimes::Column(column) => match self.table {
                Some(table) => Ok(Times::Each(Items::from_vec(table.column(self.alloc, column)?))),
                None => Ok(Times::Fixed(0)),
            },
        }
    }
}
