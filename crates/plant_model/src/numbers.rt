ghost use Rattle.std.specs.Prelude.{◌≡◌, ◌<◌, length, IfOk};
ghost use Rattle.plant_model.specs.ArcNumbers.{entry_arc, policy_arc};
ghost use Rattle.plant_model.specs.Line.{release, last_machine, deliver, station_count, receiver, is_first};
ghost use Rattle.plant_model.specs.Sound.{IsSound};

use crate::path_table::fed_marks;
use crate::plant::Plant;
use std::alloc::{AllocError, Global};
use std::marker::Model;
use std::snapshot::Snapshot;

/// The station of the feed, whose dates are the demand dates.
pub const FEED: u32 = 0;

/// The numbers of the stations and of the arcs of a sound plant's stages. The feed is station 0, then come each stage's
/// release and its machines, then the delivery; the arcs stand as the graph has them. They are made once, in one pass
/// over the stages. Contracts see the plant. The looks take no memory.
#[derive(Drop)]
pub struct LineNumbers {
    /// The station of each stage's release, and last that of the delivery.
    releases: Vec<u32>,
    /// The arc into the first machine of each stage, and last that from the feed to the delivery.
    entries: Vec<u32>,
    /// Of each stage, whether a stage feeds it.
    fed: Vec<bool>,
    // The plant that the numbers are of. Contracts alone read it.
    plant: Snapshot<Plant>,
}

impl Model for LineNumbers {
    ghost use Rattle.plant_model.specs.Layout.{IsLaidOut};
    ghost use Rattle.plant_model.specs.declared.plant.Plant.{Plant};

    ghost Value = { Plant };

    ghost view = { λ n. n.plant.value };

    ghost invariant = { λ n. IsLaidOut n.plant.value n.releases.items n.entries.items n.fed.items };
}

impl LineNumbers {
    /// The numbers of a plant.
    pub fn of(alloc: Global, plant: &Plant) -> Result<Self, AllocError>
        requires { IsSound plant.now }
        ensures { IfOk result (λ numbers. numbers ≡ plant.now) }
    {
        let mut releases = Vec::with_capacity(alloc, plant.stages.len() + 1)?;
        let mut entries = Vec::with_capacity(alloc, plant.stages.len() + 1)?;
        let mut station = 1;
        let mut arc = 0;
        for stage in plant.stages.as_slice() {
            let machines = stage.machines.len() as u32;
            releases.push(station)?;
            entries.push(arc)?;
            station += 1 + machines;
            arc += 1 + 3 * machines;
        }
        releases.push(station)?;
        entries.push(arc)?;
        Ok(LineNumbers {
            releases,
            entries,
            fed: fed_marks(alloc, plant)?,
            plant: Snapshot::of(plant),
        })
    }

    /// The station of a stage's release.
    pub fn release(&self, stage: u32) -> u32
        requires { stage < length self.now.stages }
        ensures station { result ≡ release self.now stage }
        ensures exists { result < station_count self.now }
    {
        self.releases[stage as usize]
    }

    /// The station of a stage's last machine, after which the next release, or the delivery, follows.
    pub fn last_machine(&self, stage: u32) -> u32
        requires { stage < length self.now.stages }
        ensures station { result ≡ last_machine self.now stage }
        ensures exists { result < station_count self.now }
    {
        self.releases[stage as usize + 1] - 1
    }

    /// The station of the delivery, which is the last.
    pub fn deliver(&self) -> u32
        ensures station { result ≡ deliver self.now }
        ensures exists { result < station_count self.now }
    {
        self.releases[self.releases.len() - 1]
    }

    /// The station that takes the parts of a stage of the plant: the release of the stage that it feeds, or the
    /// delivery.
    pub fn receiver(&self, plant: &Plant, stage: u32) -> u32
        requires sound { IsSound plant.now }
        requires plant { plant.now ≡ self.now }
        requires stage { stage < length self.now.stages }
        ensures station { result ≡ receiver self.now stage }
        ensures exists { result < station_count self.now }
    {
        match plant.next(stage) {
            Some(fed) => self.release(fed),
            None => self.deliver(),
        }
    }

    /// Whether no stage feeds the stage.
    pub fn is_first(&self, stage: u32) -> bool
        requires { stage < length self.now.stages }
        ensures { result ≡ is_first self.now stage }
    {
        !self.fed[stage as usize]
    }

    /// The arc from a stage's release to its first machine.
    pub fn entry_arc(&self, stage: u32) -> u32
        requires { stage < length self.now.stages }
        ensures { result ≡ entry_arc self.now stage }
    {
        self.entries[stage as usize]
    }

    /// The first arc of the policy, after that from the feed to the delivery.
    pub fn policy_arc(&self) -> u32
        ensures { result ≡ policy_arc self.now }
    {
        self.entries[self.entries.len() - 1] + 1
    }
}
