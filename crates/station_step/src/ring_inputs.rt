ghost use Rattle.std.specs.List.{list_any, range_with_len};
ghost use Rattle.std.specs.Prelude.{◌≡◌, ℕ, ◌<◌, ◌↔◌, max, map, length, IsTrue};
ghost use Rattle.event_graph.specs.GreatestValue.{greatest};
ghost use Rattle.station_step.specs.Input.{input_at};
ghost use Rattle.station_step.specs.Noted.{inputs_of, extras_of};
ghost use Rattle.station_step.specs.RingInputs.{is_ring_input, HasLookedIn, AreKnown, HasGiven, ring_asks};
ghost use Rattle.station_step.specs.Station.{bare_input};

use crate::noted::NotedInput;
use line_base::Date;

/// Whether one of these inputs is over a ring.
pub(crate) fn has_rings(inputs: &[NotedInput]) -> bool
    ensures { result ≡ list_any is_ring_input (inputs_of inputs.now) }
{
    inputs.iter().any(|noted| noted.input.inlet.is_ring())
}

/// Looks for a token at each input over a ring where none is known, as far as the first that has none even then. Tells
/// whether a token is known at each of them. No input is asked where none is over a ring.
#[inline(always)]
pub(crate) fn look_rings(rings: bool, inputs: &mut Vec<NotedInput>) -> bool
    requires noted { rings ≡ list_any is_ring_input (inputs_of inputs.old.items) }
    ensures count { length (inputs_of inputs.new.items) ≡ length (inputs_of inputs.old.items) }
    ensures extras { extras_of inputs.new.items ≡ extras_of inputs.old.items }
    ensures looked { (k : ℕ) → k < length (inputs_of inputs.old.items) →
        HasLookedIn (input_at (inputs_of inputs.old.items) k) (input_at (inputs_of inputs.new.items) k) }
    ensures known { IsTrue result ↔ AreKnown (inputs_of inputs.new.items) }
{
    if !rings {
        return true;
    }
    for noted in inputs.iter_mut() {
        if !noted.input.inlet.look() {
            return false;
        }
    }
    true
}

/// Takes the token that is known at each input over a ring. Tells the latest of the dates that they ask for, each with
/// what is noted beside its input, and of this one. No input is asked where none is over a ring.
#[inline(always)]
pub(crate) fn take_rings(rings: bool, inputs: &mut Vec<NotedInput>, date: Date) -> Date
    requires noted { rings ≡ list_any is_ring_input (inputs_of inputs.old.items) }
    requires known { AreKnown (inputs_of inputs.old.items) }
    ensures count { length (inputs_of inputs.new.items) ≡ length (inputs_of inputs.old.items) }
    ensures extras { extras_of inputs.new.items ≡ extras_of inputs.old.items }
    ensures same { map bare_input (inputs_of inputs.new.items) ≡
        map bare_input (inputs_of inputs.old.items) }
    ensures given { (k : ℕ) → k < length (inputs_of inputs.old.items) →
        HasGiven (input_at (inputs_of inputs.old.items) k) (input_at (inputs_of inputs.new.items) k) }
    ensures date { result ≡ max date (greatest
        (ring_asks (extras_of inputs.old.items) (inputs_of inputs.old.items) (inputs_of inputs.new.items))
        (range_with_len 0 (length (inputs_of inputs.old.items)))) }
{
    if !rings {
        return date;
    }
    let mut latest = date;
    for noted in inputs.iter_mut() {
        if let Some(token) = noted.input.inlet.take_known() {
            latest = latest.max(token.saturating_add(noted.extra));
        }
    }
    latest
}
