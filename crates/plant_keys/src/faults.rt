//! What the walk finds: the first fault alone, or as many as are shown and how many there are.
ghost use Rattle.std.specs.Prelude.{◌≡◌, [], ◌∷◌, List, true, IfOk};
ghost use Rattle.plant_model.specs.Refusals.{AnswersFirst};
ghost use Rattle.plant_keys.specs.Faults.{errors};
ghost use Rattle.plant_keys.specs.Found.{AreFaults, Finds, HasFound, most_kept};
ghost use Rattle.plant_keys.specs.declared.fault.Fault.{Fault};
ghost use Rattle.plant_keys.specs.declared.faults.Asked.TheVariants.{First, All};

use crate::fault::{Fault, Wants};
use line_base::Items;
use plant_model::PlantError;
use std::alloc::{AllocError, Global};
use std::marker::Model;

/// The most faults that are kept where all are asked for: no more are shown.
pub const MOST_FAULTS: usize = 200;

/// Which faults of a plant file are asked for.
#[derive(Clone, Copy)]
pub enum Asked {
    /// The first alone: the search ends with it.
    First,
    /// All: the first 200 are kept, and the others are counted.
    All,
}

/// The faults that a walk has found, as far as they are asked for. Where memory ran out nothing more is found.
#[derive(Drop)]
pub struct Faults {
    pub(crate) alloc: Global,
    asked: Asked,
    kept: Vec<Fault>,
    count: u64,
    is_out: bool,
}

impl Model for Faults {
    ghost use Rattle.plant_keys.specs.Found.{Found};

    ghost Value = { Found };

    ghost view = { λ faults. record {
      asked = faults.asked;
      kept = faults.kept.items;
      count = faults.count;
      is_out = faults.is_out;
    } };
}

/// The faults of a plant file: the first 200 of them, and how many there are.
#[derive(Drop)]
pub struct FaultList {
    /// The first 200.
    pub kept: Items<Fault>,
    /// How many there are.
    pub count: u64,
}

impl Faults {
    /// Nothing is found yet.
    pub fn new(alloc: Global, asked: Asked) -> Self
        ensures { HasFound asked result [] }
    {
        Faults {
            alloc,
            asked,
            kept: Vec::new(alloc),
            count: 0,
            is_out: false,
        }
    }

    /// Adds a fault, unless memory ran out for it.
    pub fn add(&mut self, fault: Result<Fault, AllocError>)
        ensures { (f : Fault) → IfOk fault (λ given. given ≡ f) → Finds self.old self.new (f ∷ []) }
    {
        match fault {
            Ok(fault) => self.keep(fault),
            Err(AllocError) => self.run_out(),
        }
    }

    /// Keeps a fault, if no more are kept than are asked for, and counts it.
    fn keep(&mut self, fault: Fault)
        ensures { Finds self.old self.new (fault ∷ []) }
    {
        let Some(count) = self.count.checked_add(1) else {
            drop(fault);
            return self.run_out();
        };
        self.count = count;
        if self.kept.len() >= most_kept(self.asked) {
            drop(fault);
            return;
        }
        if self.kept.push(fault).is_err() {
            self.is_out = true;
        }
    }

    /// Memory ran out.
    pub fn run_out(&mut self)
        ensures { self.new.is_out ≡ true }
    {
        self.is_out = true;
    }

    /// Whether nothing more is looked for: the one fault that is asked for is found, or memory ran out.
    pub(crate) fn is_done(&self) -> bool
        ensures { result ≡ true → (faults : List Fault) → Finds self.now self.now faults }
    {
        match self.asked {
            Asked::First => self.is_out || !self.kept.is_empty(),
            Asked::All => self.is_out,
        }
    }

    /// The refusal that is the first fault, where the first was asked for.
    pub fn into_first(self) -> Result<(), PlantError>
        ensures { (faults : List Fault) → HasFound First self faults
            → AnswersFirst result (errors faults) }
    {
        let Faults {
            alloc: _,
            asked: _,
            kept,
            count: _,
            is_out,
        } = self;
        if is_out {
            drop(kept);
            return Err(PlantError::NoMemory);
        }
        first_error(kept)
    }

    /// The faults, where all were asked for.
    pub fn into_list(self) -> Result<FaultList, AllocError>
        ensures { (faults : List Fault) → HasFound All self faults
            → IfOk result (λ list. AreFaults list faults) }
    {
        let Faults {
            alloc: _,
            asked: _,
            kept,
            count,
            is_out,
        } = self;
        if is_out {
            drop(kept);
            return Err(AllocError);
        }
        Ok(FaultList {
            kept: Items::from_vec(kept),
            count,
        })
    }
}

/// How many faults are kept.
fn most_kept(asked: Asked) -> usize
    ensures { result ≡ most_kept asked }
{
    match asked {
        Asked::First => 1,
        Asked::All => MOST_FAULTS,
    }
}

/// The refusal of the first of these faults, if there is one.
fn first_error(faults: Vec<Fault>) -> Result<(), PlantError>
    ensures { AnswersFirst result (errors faults.items) }
{
    match faults.into_iter().next() {
        Some(Fault { error, wants }) => {
            drop(wants);
            Err(error)
        }
        None => Ok(()),
    }
}
