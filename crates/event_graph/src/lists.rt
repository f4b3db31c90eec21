ghost use Rattle.std.specs.Prelude.{◌≡◌, ◌^◌, ◌<◌, [], length, map, replicate, IfOk, OnOk, slice_index_or};
ghost use Rattle.event_graph.specs.Faults.{AllNameStations};
ghost use Rattle.event_graph.specs.Lists.{station_at, lists_at, with_arc};
ghost use Rattle.event_graph.specs.Network.{stations, arc_count};

use line_base::{Arc, Parts};
use std::alloc::{AllocError, Global};
use std::marker::Model;

/// For each station a list of arc numbers.
#[derive(Drop)]
pub struct ArcLists {
    lists: Vec<Vec<u32>>,
}

impl Model for ArcLists {
    ghost use Rattle.std.specs.Prelude.{List, ℕ, map};

    ghost Value = { List (List ℕ) };

    ghost view = { λ a. map (λ l. l.items) a.lists.items };
}

impl ArcLists {
    /// An empty list for each station.
    pub fn empty(alloc: Global, stations: usize) -> Result<Self, AllocError>
        ensures { IfOk result (λ lists. lists ≡ replicate stations []) }
    {
        let mut lists = Vec::with_capacity(alloc, stations)?;
        for _ in 0..stations {
            lists.push(Vec::new(alloc))?;
        }
        Ok(ArcLists { lists })
    }

    /// Adds an arc at the end of a station's list.
    pub fn add(&mut self, station: u32, arc: u32) -> Result<(), AllocError>
        requires { station < length self.old }
        ensures { OnOk result (self.new ≡ with_arc self.old station arc) }
    {
        self.lists[station as usize].push(arc)?;
        Ok(())
    }

    /// The list of a station.
    pub fn of(&self, station: u32) -> &[u32]
        requires { station < length self.now }
        ensures { result.now ≡ slice_index_or self.now station [] }
    {
        self.lists[station as usize].as_slice()
    }
}

/// An end of an arc.
#[derive(Clone, Copy)]
pub enum End {
    Start,
    Finish,
}

impl End {
    /// The station at this end of an arc.
    fn station(self, arc: &Arc) -> u32
        ensures { result ≡ station_at self arc.now }
    {
        match self {
            End::Start => arc.from,
            End::Finish => arc.to,
        }
    }
}

/// For each station the arcs that have this end there, ascending.
pub fn arcs_by_station(alloc: Global, parts: &Parts, end: End) -> Result<ArcLists, AllocError>
    requires few { arc_count parts.now < 2 ^ 32 }
    requires ends { AllNameStations parts.now }
    ensures { IfOk result (λ lists. lists ≡ lists_at end parts.now) }
{
    let mut lists = ArcLists::empty(alloc, parts.labels.len())?;
    for (number, arc) in parts.arcs.as_slice().iter().enumerate() {
        lists.add(end.station(arc), number as u32)?;
    }
    Ok(lists)
}
