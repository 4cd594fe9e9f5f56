//! Faults that are reported as a number and fields.
ghost use Rattle.std.specs.Prelude.{◌≡◌, ◌≤◌, List, ℕ, length};

use std::marker::Model;

/// The number of a fault and its fields, four numbers at most. Contracts see the list.
#[derive(Drop)]
pub struct FaultNumbers {
    held: [u64; 4],
    len: usize,
}

impl Model for FaultNumbers {
    ghost use Rattle.std.specs.Prelude.{◌≤◌, List, ℕ, take};

    ghost Value = { List ℕ };

    ghost view = { λ n. take n.len n.held };

    ghost invariant = { λ n. n.len ≤ 4 };
}

impl FaultNumbers {
    /// These numbers.
    pub fn of(numbers: &[u64]) -> FaultNumbers
        requires { length numbers.now ≤ 4 }
        ensures { result ≡ numbers.now }
    {
        let mut held = [0; 4];
        held[..numbers.len()].copy_from_slice(numbers);
        FaultNumbers {
            held,
            len: numbers.len(),
        }
    }

    /// The number, and then the fields.
    pub fn as_slice(&self) -> &[u64]
        ensures { result.now ≡ self.now }
    {
        &self.held[..self.len]
    }
}

/// A fault that the program tells by a number and the fields of its definition.
pub trait Numbered {
    /// The number, then the fields in the order of the definition. Memory that ran out has no number, and so nothing.
    ghost numbers: { Self → List ℕ };

    /// The number and the fields, or nothing if memory ran out.
    fn numbers(&self) -> FaultNumbers
        ensures { result ≡ numbers self.now };
}
