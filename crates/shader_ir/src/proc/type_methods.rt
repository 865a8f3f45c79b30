//! Queries that read a type itself and at most the type that it names.
ghost use Rattle.std.specs.Prelude.{◌≡◌, length};
ghost use Rattle.shader_ir.specs.Queries.{HasMember, component_count, component_type, is_atomic_pointer, kind_of};
ghost use Rattle.shader_ir.specs.Queries.{pointer_base, pointer_space, scalar_of, vector_size_and_scalar, width_of};
ghost use Rattle.shader_ir.specs.Alignments.{vector_count};
ghost use Rattle.shader_ir.specs.TypeTree.{PointsBelow};

use crate::proc::TypeResolution;
use crate::{AddressSpace, ArraySize, Scalar, ScalarKind, Type, TypeInner, VectorSize, mark};
use shader_arena::UniqueArena;

impl TypeInner {
    /// Returns the scalar of a scalar, a vector or a matrix.
    pub fn scalar(&self) -> Option<Scalar>
        ensures { result ≡ scalar_of self.now }
    {
        match self {
            TypeInner::Scalar(scalar) => Some(*scalar),
            TypeInner::Vector { scalar, .. } => Some(*scalar),
            TypeInner::Matrix { scalar, .. } => Some(*scalar),
            TypeInner::CooperativeMatrix { scalar, .. } => Some(*scalar),
            _ => None,
        }
    }

    /// Returns the kind of the type's scalar.
    pub fn scalar_kind(&self) -> Option<ScalarKind>
        ensures { result ≡ kind_of self.now }
    {
        self.scalar().map(|scalar| scalar.kind)
    }

    /// Returns the width of the type's scalar, in bytes.
    pub fn scalar_width(&self) -> Option<u8>
        ensures { result ≡ width_of self.now }
    {
        self.scalar().map(|scalar| scalar.width)
    }

    /// Returns the scalar of a scalar or a vector, and the vector's size.
    pub fn vector_size_and_scalar(&self) -> Option<(Option<VectorSize>, Scalar)>
        ensures { result ≡ vector_size_and_scalar self.now }
    {
        match self {
            TypeInner::Scalar(scalar) => Some((None, *scalar)),
            TypeInner::Vector { size, scalar } => Some((Some(*size), *scalar)),
            _ => None,
        }
    }

    /// Returns the address space of a pointer.
    pub fn pointer_space(&self) -> Option<AddressSpace>
        ensures { result ≡ pointer_space self.now }
    {
        match self {
            TypeInner::Pointer { space, .. } => Some(*space),
            TypeInner::ValuePointer { space, .. } => Some(*space),
            _ => None,
        }
    }

    /// Returns the type that a pointer points to.
    pub fn pointer_base_type(&self) -> Option<TypeResolution>
        ensures { result ≡ pointer_base self.now }
    {
        match self {
            TypeInner::Pointer { base, .. } => Some(TypeResolution::Handle(*base)),
            TypeInner::ValuePointer { size, scalar, .. } => {
                let base = match size {
                    Some(size) => scalar.to_inner_vector(*size),
                    None => scalar.to_inner_scalar(),
                };
                Some(TypeResolution::Value(base))
            }
            _ => None,
        }
    }

    /// Returns whether this is a pointer to an atomic of the arena.
    pub fn is_atomic_pointer(&self, types: &UniqueArena<Type, mark::Type>) -> bool
        requires { PointsBelow (length types.now) self.now }
        ensures { result ≡ is_atomic_pointer types.now self.now }
    {
        match self {
            TypeInner::Pointer { base, .. } => matches!(types[*base].inner, TypeInner::Atomic(_)),
            _ => false,
        }
    }

    /// Returns the number of components that an index may select, if the type fixes it: the components of a vector, the columns of a
    /// matrix, the elements of an array or the members of a struct, at most `u32::MAX`.
    pub fn components(&self) -> Option<u32>
        ensures { result ≡ component_count self.now }
    {
        match self {
            TypeInner::Vector { size, .. } => Some(size.components()),
            TypeInner::Matrix { columns, .. } => Some(columns.components()),
            TypeInner::Array { size, .. } => match size {
                ArraySize::Constant(count) => Some(count.get()),
                ArraySize::Pending(_) | ArraySize::Dynamic => None,
            },
            TypeInner::Struct { members, .. } => Some(members.len().min(u32::MAX as usize) as u32),
            _ => None,
        }
    }

    /// Returns the type of the component at an index, if [`components`](TypeInner::components) returns a number. For a struct the index
    /// must be that of a member; for any other type it isn't read.
    pub fn component_type(&self, index: usize) -> Option<TypeResolution>
        requires { HasMember self.now index }
        ensures { result ≡ component_type self.now index }
    {
        match self {
            TypeInner::Vector { scalar, .. } => {
                Some(TypeResolution::Value(scalar.to_inner_scalar()))
            }
            TypeInner::Matrix { rows, scalar, .. } => {
                Some(TypeResolution::Value(scalar.to_inner_vector(*rows)))
            }
            TypeInner::Array { base, size, .. } => match size {
                ArraySize::Constant(_) => Some(TypeResolution::Handle(*base)),
                ArraySize::Pending(_) | ArraySize::Dynamic => None,
            },
            TypeInner::Struct { members, .. } => {
                Some(TypeResolution::Handle(members.as_slice()[index].ty))
            }
            _ => None,
        }
    }
}

impl VectorSize {
    /// Returns the number of components of a vector of this size.
    pub fn components(self) -> u32
        ensures { result ≡ vector_count self }
    {
        self as u32
    }
}
