ghost use Rattle.std.specs.Prelude.{◌≡◌, ◌<◌, ◌++◌, [], ◌∷◌, length, IfOk, slice_set};
ghost use Rattle.line_base.specs.Roomy.{RoomyLog, RoomyLogs, log_at, with_date};

use crate::times::Date;
use std::alloc::{AllocError, Global};
use std::marker::Model;

/// A list of dates with room that was taken beforehand.
#[derive(Drop)]
pub struct Log {
    dates: Vec<Date>,
}

impl Model for Log {
    ghost use Rattle.std.specs.Prelude.{vec_capacity};
    ghost use Rattle.line_base.specs.Roomy.{RoomyLog};

    ghost Value = { RoomyLog };

    ghost view = { λ log. record { dates = log.dates.items; room = vec_capacity log.dates } };
}

impl Log {
    /// An empty log with room for this many dates.
    pub fn new(alloc: Global, room: u32) -> Result<Self, AllocError>
        ensures { IfOk result (λ log. log ≡ record { dates = []; room = room }) }
    {
        Ok(Log {
            dates: Vec::with_capacity(alloc, room as usize)?,
        })
    }

    /// Adds a date at the end. It takes no memory.
    pub fn add(&mut self, date: Date)
        requires { length self.old.dates < self.old.room }
        ensures { self.new ≡ with_date self.old date }
    {
        self.dates.push_reserved(date);
    }

    /// The dates, in the order in which they were added.
    pub fn dates(&self) -> &[Date]
        ensures { result.now ≡ self.now.dates }
    {
        self.dates.as_slice()
    }
}

/// A list of logs, numbered from 0, with room that was taken beforehand.
#[derive(Drop)]
pub struct Logs {
    logs: Vec<Log>,
}

/// A list of places, each a list of dated tokens from the front to the back.
pub type Places = Logs;

impl Model for Logs {
    ghost use Rattle.std.specs.Prelude.{vec_capacity};
    ghost use Rattle.line_base.specs.Roomy.{RoomyLogs};

    ghost Value = { RoomyLogs };

    ghost view = { λ list. record { logs = list.logs.items; room = vec_capacity list.logs } };
}

impl Logs {
    /// An empty list with room for this many logs.
    pub fn new(alloc: Global, room: u32) -> Result<Self, AllocError>
        ensures { IfOk result (λ list. list ≡ record { logs = []; room = room }) }
    {
        Ok(Logs {
            logs: Vec::with_capacity(alloc, room as usize)?,
        })
    }

    /// Adds a log at the end. It takes no memory.
    pub fn add(&mut self, log: Log)
        requires { length self.old.logs < self.old.room }
        ensures { self.new ≡ record self.old { logs = self.old.logs ++ log ∷ [] } }
    {
        self.logs.push_reserved(log);
    }

    /// How many logs there are.
    pub fn len(&self) -> usize
        ensures { result ≡ length self.now.logs }
    {
        self.logs.len()
    }

    /// The log with number `k`.
    pub fn get(&self, k: u32) -> &Log
        requires { k < length self.now.logs }
        ensures { result.now ≡ log_at self.now k }
    {
        &self.logs[k as usize]
    }

    /// Adds a date at the end of the log with number `k`. It takes no memory.
    pub fn add_to(&mut self, k: u32, date: Date)
        requires there { k < length self.old.logs }
        requires room { length (log_at self.old k).dates < (log_at self.old k).room }
        ensures { self.new ≡ record self.old { logs = slice_set self.old.logs k (with_date (log_at self.old k) date) } }
    {
        self.logs[k as usize].add(date);
    }
}
