//! What was said or done so far, for contracts alone.
ghost use Rattle.std.specs.Prelude.{◌≡◌, ◌++◌, [], List};

use std::marker::{Model, PhantomData};

/// Items that only contracts see, the oldest first: of a type `T` they are what contracts see of its values. A
/// transcript takes no memory, and nothing reads it when the program runs.
#[derive(Drop)]
pub struct Transcript<T> {
    marker: PhantomData<T>,
    pub ghost items: { List T },
}

impl<T> Model for Transcript<T> {
    ghost use base.Fml.{ftrue};

    ghost also_owns = { λ _. ftrue };
}

impl<T> Transcript<T> {
    /// The items that the caller's proof picks from what is given here.
    pub fn of<A>(from: &A) -> Self
        ghost items: { List T }
        ensures { result.items ≡ items }
    {
        let _ = from;
        Transcript {
            marker: PhantomData,
        }
    }

    /// No items yet.
    pub fn new() -> Self
        ensures { result.items ≡ [] }
    {
        Transcript::of(&())
    }

    /// These items after those of before.
    pub fn with(&self, piece: &[T]) -> Self
        ensures { result.items ≡ self.now.items ++ piece.now }
    {
        Transcript::of(&(self, piece))
    }
}
