//! Sizes and alignments of all types of an arena.
ghost use Rattle.std.specs.Prelude.{◌≡◌, ◌<◌, ◌≤◌, [], IfOk, IfErr, Some, length, slice_get, take};
ghost use Rattle.std.specs.Int.{next_multiple_of};

use crate::proc::Alignment;
use crate::proc::sizes::MAX_TYPE_SIZE;
use crate::{GlobalCtx, Scalar, StructMember, TypeInner, mark};
use shader_arena::{Handle, HandleVec};
use std::alloc::{AllocError, AllocFailed, Global};
use std::fmt;
use std::marker::Model;
use std::ops::Index;
use thiserror::Error;

/// The size of a type in bytes, and its alignment.
#[derive(Clone, Copy, Debug, Hash, PartialEq, Eq)]
pub struct TypeLayout {
    pub size: u32,
    pub alignment: Alignment,
}

impl TypeLayout {
    /// Returns the stride in bytes of an array of this type: the size, rounded up to the alignment.
    ///
    /// The layouts in a `Layouter` always have one.
    pub fn to_stride(&self) -> u32
        requires { HasStride self.now }
        ensures { result ≡ next_multiple_of self.now.size self.now.alignment }
    {
        self.alignment.round_up(self.size)
    }
}

/// The reason why a type has no layout.
#[derive(Clone, Copy, Debug, PartialEq, Error)]
pub enum LayoutErrorInner {
    /// The element type of an array isn't earlier than the array.
    #[error("Array element type {0:?} doesn't exist")]
    InvalidArrayElementType(Handle<mark::Type>),
    /// The position of a member, from 0, and its type, which isn't earlier than the struct. A position above 4,294,967,295 is reported as
    /// 4,294,967,295.
    #[error("Struct member[{0}] type {1:?} doesn't exist")]
    InvalidStructMemberType(u32, Handle<mark::Type>),
    /// The width of a scalar isn't a power of two.
    #[error("Type width must be a power of two")]
    NonPowerOfTwoWidth,
    /// A count, a product or a span is above `MAX_TYPE_SIZE`.
    #[error("Size exceeds limit of {MAX_TYPE_SIZE} bytes")]
    TooLarge,
}

/// A type without a layout, and the reason.
#[derive(Clone, Copy, Debug, PartialEq, Error)]
#[error("Error laying out type {ty:?}: {inner}")]
pub struct LayoutError {
    pub ty: Handle<mark::Type>,
    pub inner: LayoutErrorInner,
}

/// The reason why an update stopped.
#[derive(Clone, Copy, Debug, PartialEq, Error)]
pub enum UpdateError {
    #[error("Layout")]
    /// A type has no layout.
    Layout(LayoutError),
    #[error("OutOfMemory")]
    /// An allocation failed.
    OutOfMemory,
}

impl<T: Drop> From<AllocFailed<T>> for UpdateError {
    ghost use Rattle.std.specs.Prelude.{◌≡◌};
    ghost use Rattle.shader_ir.specs.declared.proc.layouter.UpdateError.TheVariants.{OutOfMemory};

    ghost from_gives = { λ _ error. error ≡ OutOfMemory };

    fn from(_failed: AllocFailed<T>) -> UpdateError {
        UpdateError::OutOfMemory
    }
}

impl From<AllocError> for UpdateError {
    ghost use Rattle.std.specs.Prelude.{◌≡◌};
    ghost use Rattle.shader_ir.specs.declared.proc.layouter.UpdateError.TheVariants.{OutOfMemory};

    ghost from_gives = { λ _ error. error ≡ OutOfMemory };

    fn from(_error: AllocError) -> UpdateError {
        UpdateError::OutOfMemory
    }
}

impl UpdateError {
    /// Returns what prints a sentence that says why the update stopped, where the error itself prints as the name of its variant.
    pub fn report(self) -> UpdateReport
        ensures { result.error ≡ self }
    {
        UpdateReport { error: self }
    }
}

/// A sentence that says why an update stopped.
#[derive(Clone, Copy)]
pub struct UpdateReport {
    pub error: UpdateError,
}

impl fmt::Display for UpdateReport {
    fn fmt<W: fmt::Write>(&self, f: &mut fmt::Formatter<W>) -> fmt::Result {
        match self.error {
            UpdateError::Layout(error) => write!(f, "{error}"),
            UpdateError::OutOfMemory => f.write_str("Out of memory"),
        }
    }
}

/// The layouts of the first types of an arena, by the handles of the types (naga's `proc::Layouter`).
#[derive(Drop)]
pub struct Layouter {
    layouts: HandleVec<mark::Type, TypeLayout>,
}

impl Model for Layouter {
    ghost use Rattle.std.specs.Prelude.{All, List};
    ghost use Rattle.shader_ir.specs.Layout.{HasStride};
    ghost use Rattle.shader_ir.specs.declared.proc.layouter.TypeLayout.{TypeLayout};

    ghost Value = { List TypeLayout };

    ghost view = { λ layouter. layouter.layouts };

    ghost invariant = { λ layouter. All HasStride layouter.layouts };
}

/// Writes the number of types laid out.
impl fmt::Debug for Layouter {
    fn fmt<W: fmt::Write>(&self, f: &mut fmt::Formatter<W>) -> fmt::Result {
        write!(f, "Layouter({} types)", self.layouts.len())
    }
}

impl Index<Handle<mark::Type>> for Layouter {
    type Output = TypeLayout;

    ghost can_index = { λ layouter handle. handle < length layouter };

    ghost index_gives = { λ layouter handle layout. (slice_get layouter handle ≡ Some layout) × HasStride layout };

    fn index(&self, handle: Handle<mark::Type>) -> &TypeLayout {
        &self.layouts[handle]
    }
}

ghost use Rattle.shader_ir.specs.Sizes.{AreTypeSizesInRange, AreTypeSizesInRangeFrom, IsTypeSizeInRange};
ghost use Rattle.shader_ir.specs.Layout.{AreFaultless, AreFirstLayouts, HasStride, IsRefusalAt};
ghost use Rattle.shader_ir.specs.Layout.{layouts_of, member_fault, part_fault, width_fault};
ghost use Rattle.shader_ir.specs.StoredLayouts.{AreLaidOver, faulty_or, greatest_stored, stored_alignment, stored_layout};

/// Returns the alignment of a scalar.
fn width_alignment(scalar: Scalar) -> Result<Alignment, LayoutErrorInner>
    ensures width { result ≡ faulty_or (width_fault scalar) scalar.width }
    ensures small { IfOk result (λ alignment. alignment < 256) }
{
    if scalar.width.is_power_of_two() {
        Ok(Alignment::from_width(scalar.width))
    } else {
        Err(LayoutErrorInner::NonPowerOfTwoWidth)
    }
}

/// Returns the greatest alignment of the members, which are laid out already.
fn greatest_alignment(
    members: &[StructMember],
    position: Handle<mark::Type>,
    layouts: &HandleVec<mark::Type, TypeLayout>,
) -> Result<Alignment, LayoutErrorInner>
    requires { position ≡ length layouts.now }
    ensures { result ≡ faulty_or (member_fault position 0 members.now) (greatest_stored layouts.now members.now) }
{
    let mut alignment = Alignment::ONE;
    for (index, member) in members.iter().enumerate() {
        if member.ty.index() >= position.index() {
            let index = index.min(u32::MAX as usize) as u32;
            return Err(LayoutErrorInner::InvalidStructMemberType(index, member.ty));
        }
        let member_alignment = layouts[member.ty].alignment;
        if alignment.get() < member_alignment.get() {
            alignment = member_alignment;
        }
    }
    Ok(alignment)
}

/// Returns the alignment of a type whose components are laid out already.
fn alignment_over(
    inner: &TypeInner,
    position: Handle<mark::Type>,
    layouts: &HandleVec<mark::Type, TypeLayout>,
) -> Result<Alignment, LayoutErrorInner>
    requires { position ≡ length layouts.now }
    ensures { result ≡ faulty_or (part_fault position inner.now) (stored_alignment layouts.now inner.now) }
{
    match inner {
        TypeInner::Scalar(scalar) | TypeInner::Atomic(scalar) => width_alignment(*scalar),
        TypeInner::Vector { size, scalar } => {
            Ok(Alignment::from(*size) * width_alignment(*scalar)?)
        }
        TypeInner::Matrix { rows, scalar, .. } => {
            Ok(Alignment::from(*rows) * width_alignment(*scalar)?)
        }
        TypeInner::CooperativeMatrix { rows, scalar, .. } => {
            Ok(Alignment::from(*rows) * width_alignment(*scalar)?)
        }
        TypeInner::Array { base, .. } => {
            if base.index() < position.index() {
                Ok(layouts[*base].alignment)
            } else {
                Err(LayoutErrorInner::InvalidArrayElementType(*base))
            }
        }
        TypeInner::Struct { members, .. } => {
            greatest_alignment(members.as_slice(), position, layouts)
        }
        _ => Ok(Alignment::ONE),
    }
}

/// Returns the layout of a type whose components are laid out already.
#[tactic(auto, using(crate::proofs::PowerLemmas::stride_fits))]
fn layout_over(
    inner: &TypeInner,
    position: Handle<mark::Type>,
    layouts: &HandleVec<mark::Type, TypeLayout>,
    ctx: GlobalCtx<'_>,
) -> Result<TypeLayout, LayoutErrorInner>
    requires sizes { IsTypeSizeInRange ctx inner.now }
    requires stored { position ≡ length layouts.now }
    ensures layout { result ≡ stored_layout ctx.entry layouts.now position inner.now }
    ensures stride { IfOk result HasStride }
{
    let Some(size) = inner.try_size(ctx) else {
        return Err(LayoutErrorInner::TooLarge);
    };
    let alignment = alignment_over(inner, position, layouts)?;
    prove!(alignment.get() <= 0x8000_0000);
    Ok(TypeLayout { size, alignment })
}

impl Layouter {
    /// Returns a layouter with no layouts. Allocates nothing.
    pub fn new(alloc: Global) -> Layouter
        ensures { result ≡ [] }
    {
        Layouter {
            layouts: HandleVec::new(alloc),
        }
    }

    /// Returns the number of types laid out.
    pub fn len(&self) -> usize
        ensures { result ≡ length self.now }
    {
        self.layouts.len()
    }

    /// Lays out the types after those already laid out, each once and in order.
    ///
    /// Type handles may point anywhere: an element type or a member type that isn't earlier is an error. The overrides that size arrays,
    /// and the handles reached from them, must be in range: `sizes_in_range` checks this, and so does a module's check of all its handles.
    ///
    /// # Errors
    ///
    /// `Layout` names the first type not yet laid out that has no layout, and the reason: a size above the limit comes first, then a width
    /// that isn't a power of two, or the first component that isn't earlier. The same call again returns the same error. `OutOfMemory` if
    /// allocation fails for the layout of a type that has one. After either error the layouts computed so far are kept, including those of
    /// this call, so that the next call continues after them.
    pub fn update(&mut self, ctx: GlobalCtx<'_>) -> Result<(), UpdateError>
        requires sizes { AreTypeSizesInRange ctx }

        // Holds whatever the stored layouts are:
        ensures retained { take (length self.old) self.new ≡ self.old }
        ensures added { AreLaidOver ctx.entry (length self.old) self.new }
        ensures faultless { AreFaultless ctx.entry (length self.old) (length self.new) }
        ensures whole { IfOk result (λ _. length ctx.entry.types.now ≤ length self.new) }
        ensures refused { IfErr result (IsRefusalAt ctx.entry (length self.new)) }

        // Holds if the stored layouts are those of the first types:
        ensures laid_out { AreFirstLayouts ctx.entry self.old → AreFirstLayouts ctx.entry self.new }
        ensures all { IfOk result (λ _. AreFirstLayouts ctx.entry self.old → self.new ≡ layouts_of ctx.entry) }
    {
        self.update_added(ctx)
    }

    /// Lays out the types as `update` does, but requires only `sizes_in_range_from` of the types still to be laid out, for callers that
    /// continue after each type that they add.
    ///
    /// # Errors
    ///
    /// The errors of `update`.
    pub fn update_added(&mut self, ctx: GlobalCtx<'_>) -> Result<(), UpdateError>
        requires sizes { AreTypeSizesInRangeFrom ctx (length self.old) }
        ensures retained { take (length self.old) self.new ≡ self.old }
        ensures added { AreLaidOver ctx.entry (length self.old) self.new }
        ensures faultless { AreFaultless ctx.entry (length self.old) (length self.new) }
        ensures whole { IfOk result (λ _. length ctx.entry.types.now ≤ length self.new) }
        ensures refused { IfErr result (IsRefusalAt ctx.entry (length self.new)) }
        ensures laid_out { AreFirstLayouts ctx.entry self.old → AreFirstLayouts ctx.entry self.new }
        ensures all { IfOk result (λ _. AreFirstLayouts ctx.entry self.old → self.new ≡ layouts_of ctx.entry) }
    {
        for position in self.layouts.len()..ctx.types.len() {
            let handle = Handle::from_index(position as u32);
            match layout_over(&ctx.types[handle].inner, handle, &self.layouts, ctx) {
                Ok(layout) => self.layouts.insert(handle, layout)?,
                Err(inner) => return Err(UpdateError::Layout(LayoutError { ty: handle, inner })),
            }
        }
        Ok(())
    }

    /// Removes all layouts. Their memory is kept for reuse, which no clause promises.
    pub fn clear(&mut self)
        ensures { self.new ≡ [] }
    {
        self.layouts.clear();
    }
}
