ghost use Rattle.std.specs.Prelude.{◌≡◌, IfOk};

use crate::{Items, NoMemory};
use std::alloc::Global;

/// A type whose values can be copied where memory is found for the copy.
pub trait TryCopy: Drop {
    /// Answers an equal value.
    fn copy(&self, alloc: Global) -> Result<Self, NoMemory>
    where
        Self: Sized,
        ensures { IfOk result (λ copy. copy ≡ self.now) };
}

/// Copies each element.
pub fn copy_all<T: TryCopy>(alloc: Global, elements: &[T]) -> Result<Vec<T>, NoMemory>
    ensures { IfOk result (λ copies. copies.items ≡ elements.now) }
{
    let mut copies = Vec::with_capacity(alloc, elements.len())?;
    for element in elements {
        copies.push(element.copy(alloc)?)?;
    }
    Ok(copies)
}

impl<T: TryCopy> TryCopy for Items<T> {
    fn copy(&self, alloc: Global) -> Result<Items<T>, NoMemory> {
        Ok(Items::from_vec(copy_all(alloc, self.as_slice())?))
    }
}
