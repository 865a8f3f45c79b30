//! Queries on scalars and on vector sizes, and the lists of them.
ghost use Rattle.std.specs.Prelude.{◌≡◌, ⊤};
ghost use Rattle.std.specs.Iterator.{YieldsFirst, item_count};
ghost use Rattle.shader_ir.specs.Scalars.{all_vector_sizes, concrete_ints, is_abstract_scalar, is_numeric, scalar, size_text};

use crate::{Scalar, ScalarKind, TypeInner, VectorSize};
use std::alloc::AllocError;
use std::marker::Model;

impl ScalarKind {
    /// Returns whether arithmetic is defined on scalars of this kind, as it is on all but booleans.
    pub const fn is_numeric(self) -> bool
        ensures { result ≡ is_numeric self }
    {
        match self {
            ScalarKind::Bool => false,
            ScalarKind::Sint
            | ScalarKind::Uint
            | ScalarKind::Float
            | ScalarKind::AbstractInt
            | ScalarKind::AbstractFloat => true,
        }
    }
}

impl Scalar {
    /// Returns whether this is a scalar of WGSL's abstract numeric types.
    pub const fn is_abstract(self) -> bool
        ensures { result ≡ is_abstract_scalar self }
    {
        match self.kind {
            ScalarKind::AbstractInt | ScalarKind::AbstractFloat => true,
            ScalarKind::Bool | ScalarKind::Sint | ScalarKind::Uint | ScalarKind::Float => false,
        }
    }

    /// Returns the floating-point scalar of a width in bytes.
    pub const fn float(width: u8) -> Scalar
        ensures { result ≡ scalar ScalarKind.Float width }
    {
        Scalar {
            kind: ScalarKind::Float,
            width,
        }
    }

    /// Returns the type of this scalar.
    pub const fn to_inner_scalar(self) -> TypeInner
        ensures { result ≡ TypeInner.Scalar self }
    {
        TypeInner::Scalar(self)
    }

    /// Returns the type of a vector of this scalar.
    pub const fn to_inner_vector(self, size: VectorSize) -> TypeInner
        ensures { result ≡ TypeInner.Vector size self }
    {
        TypeInner::Vector { size, scalar: self }
    }

    /// Returns the type of an atomic of this scalar.
    pub const fn to_inner_atomic(self) -> TypeInner
        ensures { result ≡ TypeInner.Atomic self }
    {
        TypeInner::Atomic(self)
    }
}

/// Returns the size of a vector as WGSL writes it after `vec`.
pub const fn vector_size_str(size: VectorSize) -> &'static str
    ensures { result.now ≡ size_text size }
{
    match size {
        VectorSize::Bi => "2",
        VectorSize::Tri => "3",
        VectorSize::Quad => "4",
    }
}

static CONCRETE_INT_SCALARS: [Scalar; 6] = [
    Scalar::I32,
    Scalar::U32,
    Scalar::I16,
    Scalar::U16,
    Scalar::I64,
    Scalar::U64,
];

static VECTOR_SIZES: [VectorSize; 3] = [VectorSize::Bi, VectorSize::Tri, VectorSize::Quad];

/// Returns the integer scalars that aren't abstract. `I32` and `U32` come first, as overloads
/// prefer them.
pub fn concrete_int_scalars() -> ConcreteIntScalars
    ensures { result ≡ concrete_ints }
{
    ConcreteIntScalars {
        left: &CONCRETE_INT_SCALARS,
    }
}

/// Returns all vector sizes, ascending.
pub fn vector_sizes() -> VectorSizes
    ensures { result ≡ all_vector_sizes }
{
    VectorSizes {
        left: &VECTOR_SIZES,
    }
}

/// An iterator over the remaining scalars of [`concrete_int_scalars`].
#[derive(Drop)]
pub struct ConcreteIntScalars {
    left: &'static [Scalar],
}

impl Model for ConcreteIntScalars {
    ghost use Rattle.std.specs.Prelude.{List};
    ghost use Rattle.shader_ir.specs.declared.scalar.Scalar.{Scalar};

    ghost Value = { List Scalar };

    ghost view = { λ scalars. scalars.left.now };
}

impl Iterator for ConcreteIntScalars {
    type Item = Scalar;

    ghost next_gives = { YieldsFirst (λ scalars. scalars) };

    ghost remaining = { item_count (λ scalars. scalars) };

    fn next(&mut self) -> Option<Scalar> {
        let (first, others) = self.left.split_first()?;
        self.left = others;
        Some(*first)
    }
}

/// An iterator over the remaining sizes of [`vector_sizes`].
#[derive(Drop)]
pub struct VectorSizes {
    left: &'static [VectorSize],
}

impl Model for VectorSizes {
    ghost use Rattle.std.specs.Prelude.{List};
    ghost use Rattle.shader_ir.specs.declared.scalar.VectorSize.{VectorSize};

    ghost Value = { List VectorSize };

    ghost view = { λ sizes. sizes.left.now };
}

impl Clone for VectorSizes {
    ghost is_clone = { λ sizes copy. copy ≡ sizes };

    ghost is_infallible = { λ _. ⊤ };

    fn clone(&self) -> Result<VectorSizes, AllocError> {
        Ok(VectorSizes { left: self.left })
    }
}

impl Iterator for VectorSizes {
    type Item = VectorSize;

    ghost next_gives = { YieldsFirst (λ sizes. sizes) };

    ghost remaining = { item_count (λ sizes. sizes) };

    fn next(&mut self) -> Option<VectorSize> {
        let (size, larger) = self.left.split_first()?;
        self.left = larger;
        Some(*size)
    }
}
