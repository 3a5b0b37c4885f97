//! A `Box` that contracts see as the value in it.
ghost use Rattle.std.specs.Prelude.{◌≡◌, IfOk};

use ba_core::Memory;
use std::alloc::Global;
use std::marker::Model;

/// A value on the heap, so that what holds it is small and quick to hand on. Contracts see the value itself.
#[derive(Debug, Drop)]
pub struct Held<T> {
    /// Open to the crate, so that the value is changed where it is.
    pub inside: Box<T>,
}

impl<T> Model for Held<T> {
    ghost Value = { T };

    ghost coded = { T.code };

    ghost view = { λ it. it.inside.value };
}

impl<T> Held<T> {
    /// Puts the value on the heap.
    pub fn of(alloc: Global, value: T) -> Result<Held<T>, Memory>
    where
        T: Drop,
        ensures { IfOk result (λ held. held ≡ value) }
    {
        match Box::new(alloc, value) {
            Ok(inside) => Ok(Held { inside }),
            Err(_) => Err(Memory),
        }
    }

    /// The value where it is.
    pub fn get(&self) -> &T
        ensures { result.now ≡ self.now }
    {
        &self.inside
    }

    /// The value, taken from the heap.
    pub fn into_inner(self) -> T
        ensures { result ≡ self }
    {
        let Held { inside } = self;
        Box::into_inner(inside)
    }
}
