//! Fallible copies of values that may own memory.
ghost use Rattle.std.specs.Prelude.{◌≡◌, IfOk, IsNone, IsOk};

use crate::Handle;
use std::alloc::{AllocError, Global};

/// A type whose values can be copied with an allocator, as a container copies its items.
///
/// It replaces `Clone`, which takes no allocator and whose clones are not known to be equal for every type.
pub trait TryCopy: Drop {
    /// Returns an equal value.
    ///
    /// # Errors
    ///
    /// `AllocError` if allocation fails.
    fn try_copy(&self, alloc: Global) -> Result<Self, AllocError>
        ensures { IfOk result (λ copy. copy ≡ self.now) };
}

impl<T> TryCopy for Handle<T> {
    fn try_copy(&self, _alloc: Global) -> Result<Handle<T>, AllocError> {
        self.clone()
    }
}

impl TryCopy for u32 {
    fn try_copy(&self, _alloc: Global) -> Result<u32, AllocError> {
        Ok(*self)
    }
}

impl<T: TryCopy> TryCopy for Option<T> {
    fn try_copy(&self, alloc: Global) -> Result<Option<T>, AllocError>
        ensures copy { IfOk result (λ copy. copy ≡ self.now) }
        ensures none { IsNone self.now → IsOk result }
    {
        match self {
            Some(value) => Ok(Some(value.try_copy(alloc)?)),
            None => Ok(None),
        }
    }
}

/// Copies items, in order.
pub(crate) fn copy_items<T: TryCopy>(alloc: Global, items: &[T]) -> Result<Vec<T>, AllocError>
    ensures { IfOk result (λ copy. copy.items ≡ items.now) }
{
    let mut copy = Vec::with_capacity(alloc, items.len())?;
    for item in items {
        copy.push(item.try_copy(alloc)?)?;
    }
    Ok(copy)
}
