ghost use Rattle.std.specs.Prelude.{IfOk, OnOk, IfErr};
ghost use Rattle.cycle_time.specs.Certificate.{NoneVaries, IsCycleRefusal};
ghost use Rattle.cycle_time.specs.CycleTime.{IsCycleTime};
ghost use Rattle.cycle_time.specs.Ratio.{IsRatio};

use crate::certificate::{Certificate, CycleError, certificate_with};
use crate::circuit::ratio_of;
use crate::ratio::Ratio;
use crate::search::{Found, search};
use crate::varying::first_varying;
use crate::weights::Weighing;
use live_check::Live;
use std::alloc::{AllocError, Global};

/// The ratio of some circuit, or 0 over 1 where there is none.
fn some_ratio(alloc: Global, live: &Live) -> Result<Ratio, AllocError>
    ensures { IfOk result (IsRatio live.now.graph) }
{
    match search(alloc, live, Weighing::PerArc)? {
        Found::Circuit(circuit) => Ok(ratio_of(live.graph(), circuit)),
        Found::Potentials(_) => Ok(Ratio {
            time: 0,
            cards: 1,
            circuit: Vec::new(alloc),
        }),
    }
}

/// The certificate of the greatest ratio: from the ratio of some circuit on, each search finds a circuit with a greater
/// one, or the potentials that show that there is none.
fn certificate_of(alloc: Global, live: &Live) -> Result<Certificate, AllocError>
    requires { NoneVaries live.now.graph }
    ensures { IfOk result (IsCycleTime live.now.graph) }
{
    let graph = live.graph();
    let mut best = some_ratio(alloc, live)?;
    loop {
        let weighing = Weighing::AtRatio {
            time: best.time,
            cards: best.cards,
        };
        match search(alloc, live, weighing)? {
            Found::Circuit(circuit) => best = ratio_of(graph, circuit),
            Found::Potentials(potentials) => return certificate_with(alloc, best, &potentials),
        }
    }
}

/// The cycle time of a live graph whose job times don't vary: the greatest ratio of job times and delays to tokens over
/// its circuits, with the certificate that shows it.
///
/// A graph in which a station has a list of times is refused with the first such station.
///
/// Source of the rule: Baccelli, Cohen, Olsder and Quadrat, Synchronization and Linearity, on the cycle time.
pub fn cycle(alloc: Global, live: &Live) -> Result<Certificate, CycleError>
    ensures cycle_time { IfOk result (IsCycleTime live.now.graph) }
    ensures fixed { OnOk result (NoneVaries live.now.graph) }

    // A station with a list of times is named, and it is the first.
    ensures refused { IfErr result (IsCycleRefusal live.now.graph) }
{
    if let Some(station) = first_varying(live.graph()) {
        return Err(CycleError::Varying { station });
    }
    Ok(certificate_of(alloc, live)?)
}
