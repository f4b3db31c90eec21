ghost use Rattle.std.specs.Prelude.{◌≡◌, ◌==◌, if◌then◌else◌, None, Some};

/// The one hand of a station that is empty, where all others are full: the number of its input, and the arc of that.
#[derive(Clone, Copy)]
pub(crate) struct EmptyHand {
    pub(crate) input: usize,
    pub(crate) arc: u32,
}

/// The one hand that is empty, by the first and the last input whose hand is, and the arc of the first. `None` where
/// these are two inputs.
#[inline(always)]
pub(crate) fn only_empty(first: usize, last: usize, arc: u32) -> Option<EmptyHand>
    ensures { result ≡ (if first == last then Some (record { input = first; arc = arc }) else None) }
{
    if first == last {
        Some(EmptyHand { input: first, arc })
    } else {
        None
    }
}
