//! Queries that follow a type to the types that it contains.
ghost use Rattle.std.specs.Prelude.{◌≡◌, length};
ghost use Rattle.shader_ir.specs.Conversion.{leaf_of};
ghost use Rattle.shader_ir.specs.TreeQueries.{is_abstract, is_constructible, is_dynamically_sized};
ghost use Rattle.shader_ir.specs.TreeQueries.{is_runtime_array, needs_host_buffer_byte_size};
ghost use Rattle.shader_ir.specs.TypeTree.{IsBackward, PointsBelow, tree_of};

use crate::{ArraySize, Scalar, Type, TypeInner, mark};
use shader_arena::UniqueArena;

impl TypeInner {
    /// Returns the scalar that automatic conversions change: that of a scalar, a vector or a matrix, or of the elements of an array.
    pub fn scalar_for_conversions(&self, types: &UniqueArena<Type, mark::Type>) -> Option<Scalar>
        requires backward { IsBackward types.now }
        requires self_in { PointsBelow (length types.now) self.now }
        ensures { result ≡ leaf_of (tree_of types.now self.now) }
    {
        match self {
            TypeInner::Scalar(scalar) => Some(*scalar),
            TypeInner::Vector { scalar, .. } => Some(*scalar),
            TypeInner::Matrix { scalar, .. } => Some(*scalar),
            TypeInner::Array { base, .. } => types[*base].inner.scalar_for_conversions(types),
            _ => None,
        }
    }

    /// Returns whether this type is built from WGSL's abstract numeric types.
    pub fn is_abstract(&self, types: &UniqueArena<Type, mark::Type>) -> bool
        requires backward { IsBackward types.now }
        requires self_in { PointsBelow (length types.now) self.now }
        ensures { result ≡ is_abstract (tree_of types.now self.now) }
    {
        match self {
            TypeInner::Scalar(scalar) => scalar.is_abstract(),
            TypeInner::Vector { scalar, .. } => scalar.is_abstract(),
            TypeInner::Matrix { scalar, .. } => scalar.is_abstract(),
            TypeInner::Atomic(scalar) => scalar.is_abstract(),
            TypeInner::Array { base, .. } => types[*base].inner.is_abstract(types),
            _ => false,
        }
    }

    /// Returns whether the size is known only when the pipeline is created or at run time.
    pub fn is_dynamically_sized(&self, types: &UniqueArena<Type, mark::Type>) -> bool
        requires backward { IsBackward types.now }
        requires self_in { PointsBelow (length types.now) self.now }
        ensures { result ≡ is_dynamically_sized (tree_of types.now self.now) }
    {
        match self {
            TypeInner::Array { size, .. } => match size {
                ArraySize::Constant(_) => false,
                ArraySize::Pending(_) | ArraySize::Dynamic => true,
            },
            TypeInner::Struct { members, .. } => match members.as_slice().last() {
                Some(member) => types[member.ty].inner.is_dynamically_sized(types),
                None => false,
            },
            _ => false,
        }
    }

    /// Returns whether the host must supply the byte size of a buffer of this type, for `arrayLength` and for bounds checks.
    pub fn needs_host_buffer_byte_size(&self, types: &UniqueArena<Type, mark::Type>) -> bool
        requires backward { IsBackward types.now }
        requires self_in { PointsBelow (length types.now) self.now }
        ensures { result ≡ needs_host_buffer_byte_size (tree_of types.now self.now) }
    {
        match self {
            TypeInner::Array { .. } => self.is_runtime_array(),
            TypeInner::Struct { members, .. } => match members.as_slice().last() {
                Some(member) => types[member.ty].inner.is_runtime_array(),
                None => false,
            },
            TypeInner::BindingArray { base, .. } => {
                types[*base].inner.needs_host_buffer_byte_size(types)
            }
            _ => false,
        }
    }

    /// Returns whether this is an array whose length is known only at run time.
    fn is_runtime_array(&self) -> bool
        ensures { result ≡ is_runtime_array self.now }
    {
        match self {
            TypeInner::Array { size, .. } => match size {
                ArraySize::Dynamic => true,
                ArraySize::Constant(_) | ArraySize::Pending(_) => false,
            },
            _ => false,
        }
    }

    /// Returns whether a program may construct values of this type: the type and all that it contains have a fixed size and are no atomics,
    /// pointers or resources.
    pub fn is_constructible(&self, types: &UniqueArena<Type, mark::Type>) -> bool
        requires backward { IsBackward types.now }
        requires self_in { PointsBelow (length types.now) self.now }
        ensures { result ≡ is_constructible (tree_of types.now self.now) }
    {
        match self {
            TypeInner::Scalar(_)
            | TypeInner::Vector { .. }
            | TypeInner::Matrix { .. }
            | TypeInner::CooperativeMatrix { .. }
            | TypeInner::RayQuery { .. } => true,
            TypeInner::Array { base, size, .. } => match size {
                ArraySize::Constant(_) => types[*base].inner.is_constructible(types),
                ArraySize::Pending(_) | ArraySize::Dynamic => false,
            },
            TypeInner::Struct { members, .. } => {
                for member in members.as_slice() {
                    if !types[member.ty].inner.is_constructible(types) {
                        return false;
                    }
                }
                true
            }
            _ => false,
        }
    }
}
