//! The layout of a struct that is built by hand.
ghost use Rattle.std.specs.Prelude.{◌≡◌, None, IfOk};
ghost use Rattle.shader_uses.specs.Vertex.{unnamed, vertex_types};

use shader_typing::arena::{Handle, UniqueArena};
use shader_typing::ir::{Items, Module, Scalar, StructMember, Type, TypeInner, VectorSize, mark};
use shader_typing::proc::{Layouter, UpdateError};
use std::alloc::{AllocError, Global};

/// The layout of a struct, as a back end writes it: all in bytes.
#[derive(Clone, Copy, Debug, PartialEq)]
pub struct StructLayout {
    pub size: u32,
    pub alignment: u32,
    /// The distance of two items of an array of it.
    pub stride: u32,
}

/// Returns a member without a name, at an offset in bytes.
fn member(ty: Handle<mark::Type>, offset: u32) -> StructMember
    ensures { result ≡ record { name = None; ty = ty; binding = None; offset = offset } }
{
    StructMember {
        name: None,
        ty,
        binding: None,
        offset,
    }
}

/// Returns a type without a name.
fn unnamed(inner: TypeInner) -> Type
    ensures { result ≡ unnamed inner }
{
    Type { name: None, inner }
}

/// Builds the types of `struct Vertex { position: vec3<f32>, weight: f32, flags: u32 }`, and then its own.
fn vertex_types(alloc: Global) -> Result<UniqueArena<Type, mark::Type>, AllocError>
    ensures { IfOk result (λ types. types ≡ vertex_types) }
{
    let mut types = UniqueArena::new(alloc);
    let position = types.insert(unnamed(TypeInner::Vector {
        size: VectorSize::Tri,
        scalar: Scalar::F32,
    }))?;
    let weight = types.insert(unnamed(TypeInner::Scalar(Scalar::F32)))?;
    let flags = types.insert(unnamed(TypeInner::Scalar(Scalar::U32)))?;
    let members = vec![in alloc; member(position, 0), member(weight, 12), member(flags, 16)]?;
    let members = Items::from(members);
    types.insert(unnamed(TypeInner::Struct { span: 32, members }))?;
    Ok(types)
}

/// Returns the layout of the struct among its types.
#[tactic(auto, using(crate::proofs::Vertex::vertex_layout))]
fn layout_in(alloc: Global, module: &Module) -> Result<StructLayout, AllocError>
    requires { «module».now.types ≡ vertex_types }
    ensures size { IfOk result (λ layout. layout.size ≡ 32) }
    ensures alignment { IfOk result (λ layout. layout.alignment ≡ 16) }
    ensures stride { IfOk result (λ layout. layout.stride ≡ 32) }
{
    let mut layouter = Layouter::new(alloc);
    match layouter.update(module.to_ctx()) {
        Ok(()) => {
            let layout = layouter[Handle::from_index(3)];
            Ok(StructLayout {
                size: layout.size,
                alignment: layout.alignment.get(),
                stride: layout.to_stride(),
            })
        }
        Err(UpdateError::Layout(_)) => unreachable!(),
        Err(UpdateError::OutOfMemory) => Err(AllocError),
    }
}

/// Returns the layout of `struct Vertex { position: vec3<f32>, weight: f32, flags: u32 }`.
///
/// # Errors
///
/// `AllocError` if memory can't be allocated; there is no layout error.
pub fn vertex_layout(alloc: Global) -> Result<StructLayout, AllocError>
    ensures size { IfOk result (λ layout. layout.size ≡ 32) }
    ensures alignment { IfOk result (λ layout. layout.alignment ≡ 16) }
    ensures stride { IfOk result (λ layout. layout.stride ≡ 32) }
{
    let types = vertex_types(alloc)?;
    let mut module = Module::new(alloc);
    module.types = types;
    let layout = layout_in(alloc, &module);
    drop(module);
    layout
}
