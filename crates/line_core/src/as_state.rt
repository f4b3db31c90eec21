ghost use Rattle.std.specs.Prelude.{◌≡◌, ◌<◌};
ghost use Rattle.event_graph.specs.Network.{stations, arc_count};
ghost use Rattle.event_graph.specs.State.{log, place};
ghost use Rattle.line_core.specs.Run.{Run, IsReached};

use crate::tokens::Tokens;
use line_base::Date;
use live_check::Live;

/// What stands for a state of a live graph that firings reach, and shows its logs.
pub trait AsState {
    /// The graph that it was made for, and the state.
    ghost run: { Self → Run };

    /// The log of station `t`: its dates, in the order of the jobs.
    fn log_of(&self, t: u32) -> &[Date]
        requires station { t < stations (run self.now).graph }
        ensures log { result.now ≡ log (run self.now).state t }
        ensures reached { IsReached (run self.now) };
}

/// The tokens on arc `a` of what stands for a state, from the front to the back.
pub fn place_in<'a, S: AsState>(of: &'a S, live: &Live, a: u32) -> Tokens<'a>
    requires made_for { live.now.graph ≡ (S.run of.now).graph }
    requires arc { a < arc_count (S.run of.now).graph }
    ensures tokens { result ≡ place (S.run of.now).state a }
    ensures reached { IsReached (S.run of.now) }
{
    let graph = live.graph();
    let arc = graph.arc(a);
    let taken = of.log_of(arc.to).len();
    let dates = of.log_of(arc.from);
    Tokens::after_takes(taken, arc.tokens as usize, dates, graph.delay(a))
}
