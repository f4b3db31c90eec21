//! How a call is noted, for contracts alone.
ghost use Rattle.std.specs.Prelude.{◌≡◌, ◌++◌, ◌∷◌, []};

use line_base::Transcript;

/// Notes a call, which the caller's proof picks from the bytes that were given to it, in two parts at most, and from
/// its answer; and hands on the answer.
pub fn note_call<C, T, E>(
    calls: &mut Transcript<C>,
    given: &[u8],
    also: &[u8],
    answer: Result<T, E>,
) -> Result<T, E>
    ghost call: { C }
    ensures same { result ≡ answer }
    ensures noted { calls.new.items ≡ calls.old.items ++ call ∷ [] }
{
    *calls = Transcript::of(&*calls);
    answer
}
