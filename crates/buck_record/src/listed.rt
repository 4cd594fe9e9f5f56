//! A list that contracts see as its elements.
ghost use Rattle.std.specs.Prelude.{◌≡◌, List, length};

use std::marker::Model;

/// A list of values on the heap. Contracts see the list.
#[derive(Debug, Drop)]
pub struct Listed<T> {
    held: Vec<T>,
}

impl<T> Model for Listed<T> {
    ghost Value = { List T };

    ghost view = { λ s. s.held.items };
}

impl<T> Listed<T> {
    /// Takes over a vector, and takes no memory.
    pub fn of(held: Vec<T>) -> Listed<T>
        ensures { result ≡ held.items }
    {
        Listed { held }
    }

    /// Its values, in order.
    pub fn as_slice(&self) -> &[T]
        ensures { result.now ≡ self.now }
    {
        self.held.as_slice()
    }

    /// How many values it has.
    pub fn len(&self) -> usize
        ensures { result ≡ length self.now }
    {
        self.held.len()
    }

    /// Gives its values back, and takes no memory.
    pub fn into_vec(self) -> Vec<T>
        ensures { result.items ≡ self }
    {
        self.held
    }
}
