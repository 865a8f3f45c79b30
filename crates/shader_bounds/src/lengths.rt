//! Lengths: the number of items of a type that an index may select.
ghost use Rattle.std.specs.Prelude.{◌≡◌, ◌↔◌, Err, IsTrue};
ghost use Rattle.shader_ir.specs.KnownNumbers.{override_size};
ghost use Rattle.shader_bounds.specs.Lengths.{AreSizesKnown, HasKnownSize, IsKnownSize, base_length, globals_of};
ghost use Rattle.shader_bounds.specs.Lengths.{indexable_length, length_of_size, own_length, pending_length, pointed_length};
ghost use Rattle.shader_bounds.specs.Lengths.{resolved, resolved_length, resolved_size, sized_length};

use crate::IndexableLengthError;
use shader_arena::Handle;
use shader_ir::proc::{ResolveArraySizeError, TypeResolution};
use shader_ir::{ArraySize, GlobalCtx, Module, TypeInner, mark};

/// The number of items of a type that an index may select.
#[derive(Clone, Copy, Debug, PartialEq, Eq)]
pub enum IndexableLength {
    /// A number that is the same for all values of the type.
    Known(u32),
    /// A number that is known only at run time.
    Dynamic,
}

/// A conversion of the size of an array to its length.
pub trait ToIndexableLength {
    /// Returns the length of an array of this size. A size given by an override is pending: nothing of the module is read.
    fn to_indexable_length(self, module: &Module) -> Result<IndexableLength, IndexableLengthError>;
}

impl ToIndexableLength for ArraySize {
    fn to_indexable_length(self, _module: &Module) -> Result<IndexableLength, IndexableLengthError>
        ensures { result ≡ length_of_size self }
    {
        match self {
            ArraySize::Constant(count) => Ok(IndexableLength::Known(count.get())),
            ArraySize::Pending(_) => Err(IndexableLengthError::Pending(self)),
            ArraySize::Dynamic => Ok(IndexableLength::Dynamic),
        }
    }
}

/// Returns the length of a type that contains its items itself.
fn own_length(inner: &TypeInner, module: &Module) -> Result<IndexableLength, IndexableLengthError>
    ensures { result ≡ own_length inner.now }
{
    match inner {
        TypeInner::Vector { size, .. } => Ok(IndexableLength::Known(size.components())),
        TypeInner::Matrix { columns, .. } => Ok(IndexableLength::Known(columns.components())),
        TypeInner::Array { size, .. } => size.to_indexable_length(module),
        TypeInner::BindingArray { size, .. } => size.to_indexable_length(module),
        _ => Err(IndexableLengthError::TypeNotIndexable),
    }
}

/// Returns the length of the pointee.
fn pointed_length(
    base: Handle<mark::Type>,
    module: &Module,
) -> Result<IndexableLength, IndexableLengthError>
    ensures { result ≡ pointed_length «module».now.types base }
{
    if module.types.contains_handle(base) {
        own_length(&module.types[base].inner, module)
    } else {
        Err(IndexableLengthError::TypeNotIndexable)
    }
}

/// Returns the number of items of an array that the override sizes.
#[tactic(auto, using(crate::proofs::SizeLemmas::no_size_out_of_range))]
fn size_in(ctx: GlobalCtx<'_>, sizer: Handle<mark::Override>) -> Result<u32, ResolveArraySizeError>
    ensures { result ≡ override_size ctx.entry sizer }
{
    if ctx.is_size_in_range(sizer) {
        ctx.override_size(sizer)
    } else {
        Err(ResolveArraySizeError::NonConstArrayLength)
    }
}

/// Returns the number of items of an array that the module's override sizes.
#[tactic(auto, using(crate::proofs::SizeLemmas::same_size))]
fn pending_size(
    sizer: Handle<mark::Override>,
    module: &Module,
) -> Result<u32, ResolveArraySizeError>
    ensures { result ≡ override_size (globals_of «module».now) sizer }
{
    size_in(module.to_ctx(), sizer)
}

/// Returns the length of an array with this number of items.
fn sized_length(
    size: Result<u32, ResolveArraySizeError>,
) -> Result<IndexableLength, IndexableLengthError>
    ensures { result ≡ sized_length size }
{
    match size {
        Ok(size) => Ok(IndexableLength::Known(size)),
        Err(error) => Err(IndexableLengthError::from(error)),
    }
}

/// Returns the length of an array of this size once the overrides have values.
fn resolved_size(size: ArraySize, module: &Module) -> Result<IndexableLength, IndexableLengthError>
    ensures { result ≡ resolved_size «module».now size }
{
    match size {
        ArraySize::Constant(count) => Ok(IndexableLength::Known(count.get())),
        ArraySize::Pending(sizer) => sized_length(pending_size(sizer, module)),
        ArraySize::Dynamic => Ok(IndexableLength::Dynamic),
    }
}

/// Returns the length of a pending size, or else the error.
fn resolved_refusal(
    error: IndexableLengthError,
    module: &Module,
) -> Result<IndexableLength, IndexableLengthError>
    ensures { result ≡ resolved «module».now (Err error) }
{
    match error {
        IndexableLengthError::Pending(size) => resolved_size(size, module),
        IndexableLengthError::TypeNotIndexable => Err(error),
        IndexableLengthError::ResolveArraySizeError(_) => Err(error),
    }
}

/// The lengths of types.
///
/// These functions assume nothing of handles: a pointer to no type of the module isn't indexable, and an override out of range gives no
/// size.
pub trait IndexableLengths {
    /// Returns the length of a vector, a matrix, an array or a binding array, or of a pointee of such a type. The length of an array that
    /// an override sizes is pending.
    fn indexable_length(&self, module: &Module) -> Result<IndexableLength, IndexableLengthError>;

    /// Returns the length as it is known before the overrides have values: a pending one counts as dynamic.
    fn indexable_length_pending(
        &self,
        module: &Module,
    ) -> Result<IndexableLength, IndexableLengthError>;

    /// Returns the length as it is known once the overrides have values. `sizes_known` checks that all of them give sizes.
    fn indexable_length_resolved(
        &self,
        module: &Module,
    ) -> Result<IndexableLength, IndexableLengthError>;
}

impl IndexableLengths for TypeInner {
    fn indexable_length(&self, module: &Module) -> Result<IndexableLength, IndexableLengthError>
        ensures { result ≡ indexable_length «module».now.types self.now }
    {
        match self {
            TypeInner::Pointer { base, .. } => pointed_length(*base, module),
            TypeInner::ValuePointer { size, .. } => match size {
                Some(size) => Ok(IndexableLength::Known(size.components())),
                None => Err(IndexableLengthError::TypeNotIndexable),
            },
            _ => own_length(self, module),
        }
    }

    fn indexable_length_pending(
        &self,
        module: &Module,
    ) -> Result<IndexableLength, IndexableLengthError>
        ensures { result ≡ pending_length «module».now.types self.now }
    {
        match self.indexable_length(module) {
            Err(IndexableLengthError::Pending(_)) => Ok(IndexableLength::Dynamic),
            length => length,
        }
    }

    fn indexable_length_resolved(
        &self,
        module: &Module,
    ) -> Result<IndexableLength, IndexableLengthError>
        ensures { result ≡ resolved_length «module».now self.now }
    {
        match self.indexable_length(module) {
            Err(error) => resolved_refusal(error, module),
            Ok(length) => Ok(length),
        }
    }
}

/// Returns the length of an indexed type, once the overrides have values.
pub fn base_length(
    base: &TypeResolution,
    module: &Module,
) -> Result<IndexableLength, IndexableLengthError>
    ensures { result ≡ base_length «module».now base.now }
{
    match base {
        TypeResolution::Handle(handle) => {
            if module.types.contains_handle(*handle) {
                module.types[*handle]
                    .inner
                    .indexable_length_resolved(module)
            } else {
                Err(IndexableLengthError::TypeNotIndexable)
            }
        }
        TypeResolution::Value(inner) => inner.indexable_length_resolved(module),
    }
}

/// Returns whether the size of an array or a binding array is known.
fn has_known_size(inner: &TypeInner, module: &Module) -> bool
    ensures { IsTrue result ↔ HasKnownSize «module».now inner.now }
{
    match inner {
        TypeInner::Array { size, .. } => is_known_size(*size, module),
        TypeInner::BindingArray { size, .. } => is_known_size(*size, module),
        _ => true,
    }
}

/// Returns whether the size isn't given by an override, or the override's value is a valid size.
fn is_known_size(size: ArraySize, module: &Module) -> bool
    ensures { IsTrue result ↔ IsKnownSize «module».now size }
{
    match size {
        ArraySize::Pending(sizer) => pending_size(sizer, module).is_ok(),
        ArraySize::Constant(_) | ArraySize::Dynamic => true,
    }
}

/// Returns whether every override that sizes an array or a binding array among the module's types gives a size.
///
/// Then the only types of the module without a length are those that aren't indexable (`laws::known_sizes_give_lengths`). The function
/// assumes nothing of handles: an override out of range gives no size.
pub fn sizes_known(module: &Module) -> bool
    ensures { IsTrue result ↔ AreSizesKnown «module».now }
{
    for (_, ty) in module.types.iter() {
        if !has_known_size(&ty.inner, module) {
            return false;
        }
    }
    true
}
