ghost use Rattle.std.specs.Prelude.{◌≡◌, ◌^◌, ◌<◌, length, IfOk, slice_index, slice_set};

use std::alloc::{AllocError, Global};
use std::marker::Model;

/// A list of numbers of fixed length, counted from 0, each of which can be replaced.
#[derive(Drop)]
pub struct Row {
    numbers: Vec<u64>,
}

impl Model for Row {
    ghost use Rattle.std.specs.Prelude.{List, ℕ};

    ghost Value = { List ℕ };

    ghost view = { λ row. row.numbers.items };
}

impl Row {
    /// The row of a vector's numbers. It takes no memory.
    pub fn from_vec(numbers: Vec<u64>) -> Row
        ensures { result ≡ numbers.items }
    {
        Row { numbers }
    }

    /// A copy of these numbers.
    pub fn of(alloc: Global, numbers: &[u64]) -> Result<Row, AllocError>
        ensures { IfOk result (λ row. row ≡ numbers.now) }
    {
        Ok(Row {
            numbers: Vec::from_slice(alloc, numbers)?,
        })
    }

    /// How many numbers there are.
    pub fn len(&self) -> u32
        requires { length self.now < 2 ^ 32 }
        ensures { result ≡ length self.now }
    {
        self.numbers.len() as u32
    }

    /// Number `k`.
    pub fn at(&self, k: u32) -> u64
        requires { k < length self.now }
        ensures { result ≡ slice_index self.now k }
    {
        self.numbers[k as usize]
    }

    /// Replaces number `k`.
    pub fn set(&mut self, k: u32, number: u64)
        requires { k < length self.old }
        ensures { self.new ≡ slice_set self.old k number }
    {
        self.numbers[k as usize] = number;
    }
}
