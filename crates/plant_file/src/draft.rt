ghost use Rattle.std.specs.List.Sorted.{IsStrictlyIncreasing};
ghost use Rattle.std.specs.Prelude.{◌≡◌, ◌≤◌, ◌↔◌, [], All, IsTrue, option_map};
ghost use Rattle.line_base.specs.declared.limits.TheConstants.{MAX_COLUMN};
ghost use Rattle.plant_file.specs.Draft.{demands_file, demands_column, columns_of, IsSoundDraft};

use line_base::{Date, Items};
use plant_model::{Machine, Policy, Stage, Text};
use std::marker::Model;

/// Where the demand dates of a plant stand.
#[derive(Drop)]
pub enum DraftDemands {
    /// In the plant file, that of job 1 first.
    Given(Items<Date>),
    /// In the demand file of this name, in this column of it, counted from 1: the first where the key is absent.
    File { name: Text, column: u32 },
}

/// Where the job times of a machine stand.
#[derive(Drop)]
pub enum DraftTimes {
    /// In this column of the times file, counted from 1.
    Column(u32),
    /// There is one time for every job.
    Fixed(u64),
    /// In the plant file, one time a job, that of job 1 first.
    Each(Items<u64>),
}

/// A machine of a plant file: 1 server where the key is absent.
pub type DraftMachine = Machine<DraftTimes>;

/// A stage of a plant file. A number that is absent is 0, and it feeds none where that key is absent.
pub type DraftStage = Stage<DraftTimes>;

/// A loop of cards of a plant file.
#[derive(Drop)]
pub struct DraftLoop {
    /// The number of the stage that `from` names, counted from 0; none where no stage has the name.
    pub first: Option<u32>,
    /// The number of the stage that `to` names, in the same way.
    pub last: Option<u32>,
    /// How many cards it has.
    pub cards: u32,
    /// How long a card moves back, in the plant's unit; 0 where the key is absent.
    pub card_time: u64,
}

/// What a plant file says: the values of its keys, with the format's value for each that is absent.
#[derive(Drop)]
pub struct DraftPlant {
    /// What holds the releases back, with the cards of the line under CONWIP.
    pub policy: Policy,
    /// How long a card of the line moves back, in the plant's unit.
    pub card_time: u64,
    /// Where the demand dates stand.
    pub demands: DraftDemands,
    /// The times file, where a machine uses a column of it.
    pub times_file: Option<Text>,
    /// The dates at which the line is looked at.
    pub observe: Items<Date>,
    /// The stages, in the order of the file.
    pub stages: Items<DraftStage>,
    /// The loops, in the order of the file.
    pub loops: Items<DraftLoop>,
}

/// A plant file that has been read and in which nothing is wrong by itself; the files that it names are still to be
/// read. Contracts see what the file says.
#[derive(Drop)]
pub struct Draft {
    pub(crate) plant: DraftPlant,
    /// The columns of the times file that machines use, ascending.
    pub(crate) columns: Vec<u32>,
}

impl Model for Draft {
    ghost use Rattle.plant_file.specs.Draft.{IsDraft};
    ghost use Rattle.plant_file.specs.declared.draft.DraftPlant.{DraftPlant};

    ghost Value = { DraftPlant };

    ghost view = { λ draft. draft.plant };

    ghost invariant = { λ draft. IsDraft draft.plant draft.columns.items };
}

impl Draft {
    /// The name of the demand file; none exactly where the dates stand in the plant file. It takes no memory.
    pub fn demands_file(&self) -> Option<&str>
        ensures { option_map (λ name. name.now) result ≡ demands_file self.now }
    {
        match &self.plant.demands {
            DraftDemands::Given(_) => None,
            DraftDemands::File { name, column: _ } => Some(name.as_str()),
        }
    }

    /// The column of the demand file in which the dates stand, counted from 1; 1 where they stand in the plant file. It
    /// takes no memory.
    pub fn demands_column(&self) -> u32
        ensures column { result ≡ demands_column self.now }
        ensures within { (1 ≤ result) × (result ≤ MAX_COLUMN) }
    {
        match &self.plant.demands {
            DraftDemands::Given(_) => 1,
            DraftDemands::File { name: _, column } => *column,
        }
    }

    /// The name of the times file; none exactly where no machine uses a column. It takes no memory.
    pub fn times_file(&self) -> Option<&str>
        ensures name { option_map (λ name. name.now) result ≡ self.now.times_file }
        ensures none { (result ≡ None) ↔ (columns_of self.now ≡ []) }
    {
        match &self.plant.times_file {
            None => None,
            Some(name) => Some(name.as_str()),
        }
    }

    /// The columns of the times file that machines use, counted from 1, ascending, each once. It takes no memory.
    pub fn columns(&self) -> &[u32]
        ensures used { result.now ≡ columns_of self.now }
        ensures ascending { IsStrictlyIncreasing result.now }
        ensures within { All (λ column. (1 ≤ column) × (column ≤ MAX_COLUMN)) result.now }
    {
        self.columns.as_slice()
    }

    /// What the file says. It takes no memory.
    pub fn into_plant(self) -> DraftPlant
        ensures plant { result ≡ self }
        ensures sound { IsSoundDraft result }
    {
        let Draft { plant, columns: _ } = self;
        plant
    }
}
