ghost use Rattle.std.specs.List.{list_any, position_or_len};
ghost use Rattle.std.specs.Prelude.{◌≡◌, [], length, not, IfOk, OnOk, bytes_eq, position};
ghost use Rattle.plant_keys.specs.Code.{with_name};

use indexmap::IndexSet;
use std::alloc::{AllocError, Global};
use std::marker::Model;

/// Names that differ, numbered from 0 in the order in which they came. Contracts see the list of the names.
#[derive(Drop)]
pub struct Names<'a> {
    set: IndexSet<&'a str>,
}

impl<'a> Model for Names<'a> {
    ghost use Rattle.std.specs.Prelude.{List, ℕ, map};

    ghost Value = { List (List ℕ) };

    ghost view = { λ names. map (λ name. name.now) names.set.keys };
}

impl<'a> Names<'a> {
    /// No names. It takes no memory.
    pub fn new(alloc: Global) -> Self
        ensures { result ≡ [] }
    {
        Names {
            set: IndexSet::new(alloc),
        }
    }

    /// Adds a name at the end, unless it is among those before, and answers whether it is new.
    #[tactic(auto, using(crate::proofs::NameLists::list_any_texts))]
    pub fn add(&mut self, name: &'a str) -> Result<bool, AllocError>
        ensures differs { IfOk result (λ is_new. is_new ≡ not (list_any (bytes_eq name.now) self.old)) }
        ensures added { OnOk result (self.new ≡ with_name name.now self.old) }
    {
        let (_, is_new) = self.set.insert_full(name)?;
        Ok(is_new)
    }

    /// Whether a name is among these. It takes no memory.
    #[tactic(auto, using(crate::proofs::NameLists::list_any_texts))]
    pub fn has(&self, name: &str) -> bool
        ensures { result ≡ list_any (bytes_eq name.now) self.now }
    {
        self.set.contains(name)
    }

    /// The number of a name; none where it isn't among these. It takes no memory.
    #[tactic(auto, using(crate::proofs::NameLists::position_texts))]
    pub fn number_of(&self, name: &str) -> Option<usize>
        ensures { result ≡ position (bytes_eq name.now) self.now }
    {
        self.set.get_index_of(name)
    }

    /// The number of a name, or how many names there are where it isn't among them. It takes no memory.
    #[tactic(auto, using(crate::proofs::NameLists::number_where_none, crate::proofs::NameLists::number_where_some))]
    pub fn number_or_count(&self, name: &str) -> usize
        ensures { result ≡ position_or_len (bytes_eq name.now) self.now }
    {
        match self.number_of(name) {
            Some(number) => number,
            None => self.len(),
        }
    }

    /// How many names there are.
    #[tactic(auto, using(crate::proofs::NameLists::length_texts))]
    fn len(&self) -> usize
        ensures { result ≡ length self.now }
    {
        self.set.len()
    }
}
