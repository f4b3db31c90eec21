ghost use Rattle.std.specs.Prelude.{◌≡◌, ◌<◌, ◌≤◌, length, All, sum_by, slice_index};

use event_graph::Marking;
use line_base::MAX_ARCS;

/// How many tokens a marking has on these arcs together: the sum of the lengths of their places. It takes no memory.
pub fn sum(marking: &Marking, arcs: &[u32]) -> u64
    requires exist { All (λ a. a < length marking.now) arcs.now }
    requires few { length arcs.now ≤ MAX_ARCS }
    ensures { result ≡ sum_by (slice_index marking.now) arcs.now }
{
    let lengths = marking.as_slice();
    let mut tokens = 0;
    for arc in arcs {
        tokens += u64::from(lengths[*arc as usize]);
    }
    tokens
}
