//! Scalars, and the sizes of vectors and matrices.

/// The kind of a scalar.
#[derive(Clone, Copy, Debug, PartialEq, Eq, Hash)]
pub enum ScalarKind {
    /// Signed integers.
    Sint,
    /// Unsigned integers.
    Uint,
    /// Floats.
    Float,
    /// Bools.
    Bool,
    /// Integer literals without a concrete type (WGSL `AbstractInt`).
    AbstractInt,
    /// Float literals without a concrete type (WGSL `AbstractFloat`).
    AbstractFloat,
}

/// A scalar: its kind, and its width in bytes.
#[derive(Clone, Copy, Debug, PartialEq, Eq, Hash)]
pub struct Scalar {
    pub kind: ScalarKind,
    pub width: u8,
}

impl Scalar {
    /// Signed 16-bit integers.
    pub const I16: Scalar = Scalar {
        kind: ScalarKind::Sint,
        width: 2,
    };

    /// Signed 32-bit integers.
    pub const I32: Scalar = Scalar {
        kind: ScalarKind::Sint,
        width: 4,
    };

    /// Signed 64-bit integers.
    pub const I64: Scalar = Scalar {
        kind: ScalarKind::Sint,
        width: 8,
    };

    /// Unsigned 16-bit integers.
    pub const U16: Scalar = Scalar {
        kind: ScalarKind::Uint,
        width: 2,
    };

    /// Unsigned 32-bit integers.
    pub const U32: Scalar = Scalar {
        kind: ScalarKind::Uint,
        width: 4,
    };

    /// Unsigned 64-bit integers.
    pub const U64: Scalar = Scalar {
        kind: ScalarKind::Uint,
        width: 8,
    };

    /// 16-bit floats.
    pub const F16: Scalar = Scalar {
        kind: ScalarKind::Float,
        width: 2,
    };

    /// 32-bit floats.
    pub const F32: Scalar = Scalar {
        kind: ScalarKind::Float,
        width: 4,
    };

    /// 64-bit floats.
    pub const F64: Scalar = Scalar {
        kind: ScalarKind::Float,
        width: 8,
    };

    /// Booleans.
    pub const BOOL: Scalar = Scalar {
        kind: ScalarKind::Bool,
        width: 1,
    };

    /// WGSL's `AbstractInt`, the type of integer literals without a concrete type.
    pub const ABSTRACT_INT: Scalar = Scalar {
        kind: ScalarKind::AbstractInt,
        width: 8,
    };

    /// WGSL's `AbstractFloat`, the type of float literals without a concrete type.
    pub const ABSTRACT_FLOAT: Scalar = Scalar {
        kind: ScalarKind::AbstractFloat,
        width: 8,
    };
}

/// The number of components of a vector.
#[derive(Clone, Copy, Debug, PartialEq, Eq, Hash)]
pub enum VectorSize {
    /// Two components.
    Bi = 2,
    /// Three components.
    Tri = 3,
    /// Four components.
    Quad = 4,
}

/// The number of rows or columns of a cooperative matrix.
#[derive(Clone, Copy, Debug, PartialEq, Eq, Hash)]
pub enum CooperativeSize {
    /// Eight rows or columns.
    Eight = 8,
    /// Sixteen rows or columns.
    Sixteen = 16,
}

/// The role of a cooperative matrix in a product.
#[derive(Clone, Copy, Debug, PartialEq, Eq, Hash)]
pub enum CooperativeRole {
    /// The left factor of a product.
    A,
    /// The right factor of a product.
    B,
    /// The summand and the result of a product.
    C,
}
