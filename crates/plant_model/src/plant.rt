ghost use Rattle.std.specs.Prelude.{◌≡◌, IfOk};
ghost use Rattle.plant_model.specs.Stages.{one_server, with_times};

use line_base::{Date, Items, Name, Times};
use std::alloc::{AllocError, Global};

/// How the releases of a line are held back (Dallery and Liberopoulos 2000 for the idea of each).
#[derive(Clone, Copy)]
pub enum Policy {
    /// Each stage has cards of its own, which come back as a part leaves the stage.
    Kanban,
    /// The line has this many cards, which come back as a part is delivered.
    Conwip(u32),
    /// There are no cards: each demand goes to every stage at once.
    BaseStock,
    /// Each demand goes to every stage at once, and each stage has cards of its own.
    Extended,
}

/// A machine of a stage. The job times of a plant are the numbers themselves; a plant that is still to be read has in
/// their place where they stand.
#[derive(Drop)]
pub struct Machine<T = Times> {
    /// Its name, which no other machine of the stage has.
    pub name: Name,
    /// How many jobs it works on at once.
    pub servers: u32,
    /// Its job times.
    pub times: T,
}

impl<T> Machine<T> {
    /// A machine with one server. It takes no memory.
    pub fn of(name: Name, times: T) -> Self
        ensures { result ≡ one_server name times }
    {
        Machine {
            name,
            servers: 1,
            times,
        }
    }

    /// The job times, and the machine without them. It takes no memory.
    pub fn split(self) -> (T, Machine<()>)
        ensures times { result.0 ≡ self.times }
        ensures machine { result.1 ≡ with_times self tt }
    {
        let Machine {
            name,
            servers,
            times,
        } = self;
        let machine = Machine {
            name,
            servers,
            times: (),
        };
        (times, machine)
    }
}

impl Machine<()> {
    /// The machine with these job times. It takes no memory.
    pub fn with_times<T>(self, times: T) -> Machine<T>
        ensures { result ≡ with_times self times }
    {
        Machine {
            name: self.name,
            servers: self.servers,
            times,
        }
    }
}

impl Machine {
    /// A copy of the machine.
    pub fn copy(&self, alloc: Global) -> Result<Self, AllocError>
        ensures { IfOk result (λ copy. copy ≡ self.now) }
    {
        Ok(Machine {
            name: self.name.copy(alloc)?,
            servers: self.servers,
            times: self.times.copy(alloc)?,
        })
    }
}

/// A stage of a line: a release, and then its machines, one after the other.
#[derive(Drop)]
pub struct Stage<T = Times> {
    /// Its name, which no other stage has.
    pub name: Name,
    /// The number of the stage that it feeds, a later one; `None` for the final stage.
    pub feeds: Option<u32>,
    /// Its cards under kanban and extended kanban; not used under the other policies.
    pub cards: u32,
    /// Its starting stock; not used under kanban.
    pub stock: u32,
    /// How long a part moves from its last machine to what it feeds, in the plant's unit.
    pub travel: u64,
    /// How long its card moves back under kanban and extended kanban, in the plant's unit.
    pub card_time: u64,
    /// Its machines, in order.
    pub machines: Items<Machine<T>>,
}

/// A loop of cards round the stages from `first` to `last`.
#[derive(Drop)]
pub struct CardLoop {
    /// The number of the stage whose release takes the loop's cards.
    pub first: u32,
    /// The number of the stage after which a card comes back.
    pub last: u32,
    /// How many cards it has.
    pub cards: u32,
    /// How long a card moves back, in the plant's unit.
    pub card_time: u64,
}

/// A pull-controlled line and the demands on it. Stages are numbered from 0, in order.
#[derive(Drop)]
pub struct Plant {
    /// What holds the releases back.
    pub policy: Policy,
    /// The stages, the final one last.
    pub stages: Items<Stage>,
    /// The loops of cards.
    pub loops: Items<CardLoop>,
    /// How long a card moves back under CONWIP, in the plant's unit.
    pub card_time: u64,
    /// The demand dates, that of job 1 first.
    pub demands: Items<Date>,
    /// The dates at which the line is looked at.
    pub observe: Items<Date>,
}
