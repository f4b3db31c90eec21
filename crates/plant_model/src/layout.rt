ghost use Rattle.std.specs.Prelude.{◌≡◌, ◌<◌, length, IfOk, IsTrue};
ghost use Rattle.plant_model.specs.ArcNumbers.{entry_arc, policy_arc};
ghost use Rattle.plant_model.specs.Line.{stage_at, release, machine_station, deliver, receiver, next, starting, is_first, is_downstream, path_stock, stock_between};
ghost use Rattle.plant_model.specs.Sound.{IsSound};

use crate::line::{stock_on_path, stock_up_to};
use crate::numbers::LineNumbers;
use crate::plant::{CardLoop, Plant, Policy, Stage};
use std::alloc::{AllocError, Global};
use std::marker::Model;

/// A sound plant with the numbers of its stations and arcs, which are made once and looked up after that. Contracts see
/// it as the plant. Its looks take no memory.
#[derive(Drop)]
pub struct Layout<'a> {
    plant: &'a Plant,
    numbers: LineNumbers,
}

impl<'a> Model for Layout<'a> {
    ghost use Rattle.plant_model.specs.Layout.{IsLayout};
    ghost use Rattle.plant_model.specs.declared.plant.Plant.{Plant};

    ghost Value = { Plant };

    ghost view = { λ layout. layout.plant.now };

    ghost invariant = { λ layout. IsLayout layout.plant.now layout.numbers };
}

impl<'a> Layout<'a> {
    /// The layout of a plant.
    pub fn of(alloc: Global, plant: &'a Plant) -> Result<Self, AllocError>
        requires { IsSound plant.now }
        ensures { IfOk result (λ layout. layout ≡ plant.now) }
    {
        let numbers = LineNumbers::of(alloc, plant)?;
        Ok(Layout { plant, numbers })
    }

    /// The policy of the plant.
    pub fn policy(&self) -> Policy
        ensures { result ≡ self.now.policy }
    {
        self.plant.policy
    }

    /// The loops of the plant.
    pub fn loops(&self) -> &[CardLoop]
        ensures { result.now ≡ self.now.loops }
    {
        self.plant.loops.as_slice()
    }

    /// How many stages there are.
    pub fn stages(&self) -> u32
        ensures { result ≡ length self.now.stages }
    {
        self.plant.stages.len() as u32
    }

    /// The stage with this number.
    pub fn stage(&self, stage: u32) -> &Stage
        requires { stage < length self.now.stages }
        ensures { result.now ≡ stage_at self.now stage }
    {
        &self.plant.stages.as_slice()[stage as usize]
    }

    /// The station of a stage's release.
    pub fn release(&self, stage: u32) -> u32
        requires { stage < length self.now.stages }
        ensures { result ≡ release self.now stage }
    {
        self.numbers.release(stage)
    }

    /// The station of a machine of a stage, both numbered from 0.
    pub fn machine(&self, stage: u32, machine: u32) -> u32
        requires stage { stage < length self.now.stages }
        requires machine { machine < length (stage_at self.now stage).machines }
        ensures { result ≡ machine_station self.now stage machine }
    {
        self.numbers.release(stage) + 1 + machine
    }

    /// The station of the delivery, which is the last.
    pub fn deliver(&self) -> u32
        ensures { result ≡ deliver self.now }
    {
        self.numbers.deliver()
    }

    /// The station that takes the parts of a stage: the release of the stage that it feeds, or the delivery.
    pub fn receiver(&self, stage: u32) -> u32
        requires { stage < length self.now.stages }
        ensures { result ≡ receiver self.now stage }
    {
        self.numbers.receiver(self.plant, stage)
    }

    /// The starting stock of a stage: its cards under kanban, else its stock.
    pub fn starting(&self, stage: u32) -> u32
        requires { stage < length self.now.stages }
        ensures { result ≡ starting self.now stage }
    {
        self.plant.starting(stage)
    }

    /// Whether no stage feeds the stage.
    pub fn is_first(&self, stage: u32) -> bool
        requires { stage < length self.now.stages }
        ensures { result ≡ is_first self.now stage }
    {
        self.numbers.is_first(stage)
    }

    /// The stage that a stage feeds; `None` for the final stage.
    pub fn next(&self, stage: u32) -> Option<u32>
        requires { stage < length self.now.stages }
        ensures { result ≡ next self.now stage }
    {
        self.plant.next(stage)
    }

    /// The arc from a stage's release to its first machine.
    pub fn entry_arc(&self, stage: u32) -> u32
        requires { stage < length self.now.stages }
        ensures { result ≡ entry_arc self.now stage }
    {
        self.numbers.entry_arc(stage)
    }

    /// The first arc of the policy, after that from the feed to the delivery.
    pub fn policy_arc(&self) -> u32
        ensures { result ≡ policy_arc self.now }
    {
        self.numbers.policy_arc()
    }

    /// The starting stock on the path of a stage.
    pub fn path_stock(&self, stage: u32) -> u32
        requires { stage < length self.now.stages }
        ensures { result ≡ path_stock self.now stage }
    {
        stock_on_path(self.plant, stage as usize) as u32
    }

    /// The starting stock of the stages from `first` to `last`, which is on the path of `first`.
    pub fn stock_between(&self, first: u32, last: u32) -> u32
        requires first { first < length self.now.stages }
        requires last { IsTrue (is_downstream self.now first last) }
        ensures { result ≡ stock_between self.now first last }
    {
        match stock_up_to(self.plant, first, last) {
            Some(stock) => stock as u32,
            None => unreachable!(),
        }
    }
}
