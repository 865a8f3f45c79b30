//! Types, address spaces and array sizes.
ghost use Rattle.std.specs.Prelude.{◌≡◌, IfOk, IsOk};
ghost use Rattle.shader_ir.specs.Key.{IsNoStruct};
ghost use Rattle.shader_ir.specs.Shapes.{IsOfScalars, IsResource};

use crate::{
    Binding, CooperativeRole, CooperativeSize, Count, ImageClass, ImageDimension, Items, Name,
    Scalar, StorageAccess, TryCopy, VectorSize, mark,
};
use shader_arena::Handle;
use std::alloc::{AllocError, Global};

/// The address space of a pointer.
#[derive(Clone, Copy, Debug, PartialEq, Eq, Hash)]
pub enum AddressSpace {
    /// A local variable of one call of a function.
    Function,
    /// A global variable of one invocation.
    Private,
    /// A variable shared by a work group.
    WorkGroup,
    /// A uniform buffer: read only and the same for all invocations.
    Uniform,
    /// A storage buffer with the allowed access.
    Storage { access: StorageAccess },
    /// Images, samplers and acceleration structures, which aren't memory.
    Handle,
    /// Small data that comes with a draw or a dispatch (push constants).
    Immediate,
    /// Data passed from a task shader to its mesh shaders.
    TaskPayload,
    /// Data passed to the shaders that a traced ray hits.
    RayPayload,
    /// The payload of the ray that hit this shader.
    IncomingRayPayload,
}

/// The number of an array's elements.
#[derive(Clone, Copy, Debug, PartialEq, Eq, Hash)]
pub enum ArraySize {
    /// A fixed number, known when the module is built.
    Constant(Count),
    /// The value of an override, known when the pipeline is created.
    Pending(Handle<mark::Override>),
    /// As many elements as the memory behind the array holds.
    Dynamic,
}

/// A member of a struct type.
#[derive(Debug, PartialEq, Eq, Hash, Drop)]
pub struct StructMember {
    pub name: Option<Name>,
    pub ty: Handle<mark::Type>,
    pub binding: Option<Binding>,
    /// The distance from the start of the struct, in bytes.
    pub offset: u32,
}

/// A type without its name. Two types are equal if all their fields are, with handles compared by position.
#[derive(Debug, PartialEq, Eq, Hash, Drop)]
pub enum TypeInner {
    /// One number or bool.
    Scalar(Scalar),
    /// Two to four scalars.
    Vector {
        size: VectorSize,
        scalar: Scalar,
    },
    /// Columns that are vectors of floats.
    Matrix {
        columns: VectorSize,
        rows: VectorSize,
        scalar: Scalar,
    },
    /// A matrix that the invocations of a subgroup store together.
    CooperativeMatrix {
        columns: CooperativeSize,
        rows: CooperativeSize,
        scalar: Scalar,
        role: CooperativeRole,
    },
    /// A scalar in memory that is accessed atomically.
    Atomic(Scalar),
    /// A pointer to a value of type `base`.
    Pointer {
        base: Handle<mark::Type>,
        space: AddressSpace,
    },
    /// A pointer to a scalar, or to a vector if `size` is given, without a type in the arena for the pointee.
    ValuePointer {
        size: Option<VectorSize>,
        scalar: Scalar,
        space: AddressSpace,
    },
    /// Elements of type `base`, one after another.
    Array {
        base: Handle<mark::Type>,
        size: ArraySize,
        /// The distance between two elements, in bytes.
        stride: u32,
    },
    /// Members at their offsets.
    Struct {
        /// The size of the struct, in bytes.
        span: u32,
        members: Items<StructMember>,
    },
    /// An image (WGSL texture).
    Image {
        dim: ImageDimension,
        arrayed: bool,
        class: ImageClass,
    },
    /// A sampler; with `comparison`, one that compares with a depth.
    Sampler {
        comparison: bool,
    },
    /// Geometry that rays are traced through.
    AccelerationStructure {
        vertex_return: bool,
    },
    /// The state of a query of an acceleration structure.
    RayQuery {
        vertex_return: bool,
    },
    /// Resources bound together and selected by an index.
    BindingArray {
        base: Handle<mark::Type>,
        size: ArraySize,
    },
}

/// A type, with its name if it has one.
#[derive(PartialEq, Eq, Hash, Drop)]
pub struct Type {
    pub name: Option<Name>,
    pub inner: TypeInner,
}

impl Type {
    /// Returns an equal type.
    ///
    /// # Errors
    ///
    /// `AllocError` if allocating names or members fails.
    pub fn copy(&self, alloc: Global) -> Result<Type, AllocError>
        ensures { IfOk result (λ copy. copy ≡ self.now) }
    {
        Ok(Type {
            name: self.name.try_copy(alloc)?,
            inner: self.inner.copy(alloc)?,
        })
    }
}

impl TypeInner {
    /// Returns an equal type.
    ///
    /// # Errors
    ///
    /// `AllocError` if allocating the members of a struct fails.
    pub fn copy(&self, alloc: Global) -> Result<TypeInner, AllocError>
        ensures copy { IfOk result (λ inner. inner ≡ self.now) }
        ensures ok { IsNoStruct self.now → IsOk result }
    {
        match self {
            TypeInner::Struct { members, span } => Ok(TypeInner::Struct {
                members: members.copy(alloc)?,
                span: *span,
            }),
            TypeInner::Pointer { base, space } => Ok(TypeInner::Pointer {
                base: *base,
                space: *space,
            }),
            TypeInner::Scalar(_)
            | TypeInner::Vector { .. }
            | TypeInner::Matrix { .. }
            | TypeInner::CooperativeMatrix { .. }
            | TypeInner::Atomic(_)
            | TypeInner::ValuePointer { .. } => Ok(self.copy_of_scalars()),
            _ => Ok(self.copy_of_resources()),
        }
    }

    /// Copies a type that is made of scalars.
    fn copy_of_scalars(&self) -> TypeInner
        requires { IsOfScalars self.now }
        ensures { result ≡ self.now }
    {
        match *self {
            TypeInner::Scalar(scalar) => TypeInner::Scalar(scalar),
            TypeInner::Vector { size, scalar } => TypeInner::Vector { size, scalar },
            TypeInner::Matrix {
                columns,
                rows,
                scalar,
            } => TypeInner::Matrix {
                columns,
                rows,
                scalar,
            },
            TypeInner::CooperativeMatrix {
                columns,
                rows,
                scalar,
                role,
            } => TypeInner::CooperativeMatrix {
                columns,
                rows,
                scalar,
                role,
            },
            TypeInner::Atomic(scalar) => TypeInner::Atomic(scalar),
            TypeInner::ValuePointer {
                size,
                scalar,
                space,
            } => TypeInner::ValuePointer {
                size,
                scalar,
                space,
            },
            _ => unreachable!(),
        }
    }

    /// Copies a type that is an array or a resource.
    fn copy_of_resources(&self) -> TypeInner
        requires { IsResource self.now }
        ensures { result ≡ self.now }
    {
        match self {
            TypeInner::Array { base, size, stride } => TypeInner::Array {
                base: *base,
                size: *size,
                stride: *stride,
            },
            TypeInner::BindingArray { base, size } => TypeInner::BindingArray {
                base: *base,
                size: *size,
            },
            TypeInner::Image {
                dim,
                arrayed,
                class,
            } => TypeInner::Image {
                dim: *dim,
                arrayed: *arrayed,
                class: *class,
            },
            TypeInner::Sampler { comparison } => TypeInner::Sampler {
                comparison: *comparison,
            },
            TypeInner::AccelerationStructure { vertex_return } => {
                TypeInner::AccelerationStructure {
                    vertex_return: *vertex_return,
                }
            }
            TypeInner::RayQuery { vertex_return } => TypeInner::RayQuery {
                vertex_return: *vertex_return,
            },
            _ => unreachable!(),
        }
    }
}

impl StructMember {
    /// Returns an equal member.
    ///
    /// # Errors
    ///
    /// `AllocError` if allocating the name fails.
    pub fn copy(&self, alloc: Global) -> Result<StructMember, AllocError>
        ensures { IfOk result (λ member. member ≡ self.now) }
    {
        Ok(StructMember {
            name: self.name.try_copy(alloc)?,
            ty: self.ty,
            binding: self.binding,
            offset: self.offset,
        })
    }
}

impl TryCopy for StructMember {
    fn try_copy(&self, alloc: Global) -> Result<StructMember, AllocError> {
        self.copy(alloc)
    }
}
