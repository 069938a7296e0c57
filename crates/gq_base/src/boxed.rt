// Boxes.
ghost use Rattle.std.specs.Prelude.{◌≡◌, IfOk};

use crate::memory::OutOfMemory;
use std::alloc::Global;
use std::marker::Model;

/// A value on the heap, so that a type may hold itself. Contracts see it as that value.
#[derive(Debug, Drop)]
pub struct Boxed<T> {
    inner: Box<T>,
}

impl<T> Model for Boxed<T> {
    ghost Value = { T };

    ghost coded = { T.code };

    ghost view = { λ b. b.inner.value };
}

impl<T> Boxed<T> {
    /// The value, without a copy.
    pub fn get(&self) -> &T
        ensures { result.now ≡ self.now }
    {
        &self.inner
    }

    /// The value, moved out of its box.
    pub fn into_inner(self) -> T
        ensures { result ≡ self }
    {
        let Boxed { inner } = self;
        Box::into_inner(inner)
    }
}

impl<T: Drop> Boxed<T> {
    /// Allocates a box that holds `value`.
    pub fn new(alloc: Global, value: T) -> Result<Boxed<T>, OutOfMemory>
        ensures { IfOk result (λ b. b ≡ value) }
    {
        Ok(Boxed {
            inner: Box::new(alloc, value)?,
        })
    }
}
