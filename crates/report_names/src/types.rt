//! Types as WGSL spells them.
ghost use Rattle.std.specs.Prelude.{◌≡◌, IfOk, string_bytes};
ghost use Rattle.report_names.specs.Types.{access_part, inner_text, plain_text, pointer_text, resource_text, size_text, space_word};
ghost use Rattle.report_names.specs.Types.{type_text, unlisted_text};

use crate::images::{access_word, image_text};
use crate::items::{ItemKind, item_text, number_text, override_text};
use crate::scalars::{cooperative_text, matrix_text, scalar_text, vector_text};
use shader_arena::Handle;
use shader_ir::{AddressSpace, ArraySize, Module, Name, TypeInner, mark};
use std::alloc::{AllocError, Global};

/// The most types that are shown one within another. Three dots stand for what is further inside.
pub const MOST_NESTED: u32 = 4;

/// Returns the name of an address space (WGSL, "Address Spaces"); of one that WGSL lacks, naga's.
pub fn space_word(space: AddressSpace) -> &'static str
    ensures { result.now ≡ space_word space }
{
    match space {
        AddressSpace::IncomingRayPayload => "incoming_ray_payload",
        AddressSpace::RayPayload => "ray_payload",
        AddressSpace::TaskPayload => "task_payload",
        AddressSpace::Immediate => "immediate",
        AddressSpace::Handle => "handle",
        AddressSpace::Storage { .. } => "storage",
        AddressSpace::Uniform => "uniform",
        AddressSpace::WorkGroup => "workgroup",
        AddressSpace::Private => "private",
        AddressSpace::Function => "function",
    }
}

/// Returns the access mode of the storage address space behind a comma, or nothing for another.
fn access_part(alloc: Global, space: AddressSpace) -> Result<String, AllocError>
    ensures { IfOk result (λ text. string_bytes text ≡ access_part space) }
{
    match space {
        AddressSpace::Storage { access } => {
            let access = access_word(access);
            format!(in alloc; ", {access}")
        }
        AddressSpace::Function
        | AddressSpace::Private
        | AddressSpace::WorkGroup
        | AddressSpace::Uniform
        | AddressSpace::Handle
        | AddressSpace::Immediate
        | AddressSpace::TaskPayload
        | AddressSpace::RayPayload
        | AddressSpace::IncomingRayPayload => Ok(String::new(alloc)),
    }
}

/// Returns the type of a pointer to what is spelled so.
fn pointer_text(alloc: Global, base: &str, space: AddressSpace) -> Result<String, AllocError>
    ensures { IfOk result (λ text. string_bytes text ≡ pointer_text base.now space) }
{
    let word = space_word(space);
    let access = access_part(alloc, space)?;
    format!(in alloc; "ptr<{word}, {base}{access}>")
}

/// Returns the number of an array's elements behind a comma, or nothing if it isn't known before the shader runs.
fn size_text(alloc: Global, module: &Module, size: ArraySize) -> Result<String, AllocError>
    ensures { IfOk result (λ text. string_bytes text ≡ size_text «module».now size) }
{
    match size {
        ArraySize::Constant(count) => format!(in alloc; ", {}", count.get()),
        ArraySize::Pending(handle) => {
            let name = override_text(alloc, module, handle)?;
            format!(in alloc; ", {name}")
        }
        ArraySize::Dynamic => Ok(String::new(alloc)),
    }
}

/// Returns a type of scalars, or of a pointer to them. Another type is shown by its number.
fn plain_text(alloc: Global, inner: &TypeInner, index: usize) -> Result<String, AllocError>
    ensures { IfOk result (λ text. string_bytes text ≡ plain_text inner.now index) }
{
    match inner {
        TypeInner::Scalar(scalar) => scalar_text(alloc, *scalar),
        TypeInner::Vector { size, scalar } => vector_text(alloc, *size, *scalar),
        TypeInner::Matrix {
            columns,
            rows,
            scalar,
        } => matrix_text(alloc, *columns, *rows, *scalar),
        TypeInner::CooperativeMatrix {
            columns,
            rows,
            scalar,
            role,
        } => cooperative_text(alloc, *columns, *rows, *scalar, *role),
        TypeInner::Atomic(scalar) => {
            let scalar = scalar_text(alloc, *scalar)?;
            format!(in alloc; "atomic<{scalar}>")
        }
        TypeInner::ValuePointer {
            size: None,
            scalar,
            space,
        } => {
            let base = scalar_text(alloc, *scalar)?;
            pointer_text(alloc, base.as_str(), *space)
        }
        TypeInner::ValuePointer {
            size: Some(size),
            scalar,
            space,
        } => {
            let base = vector_text(alloc, *size, *scalar)?;
            pointer_text(alloc, base.as_str(), *space)
        }
        _ => number_text(alloc, ItemKind::Type, index),
    }
}

/// Returns the type of a resource that contains no other type. Another type is shown as of scalars.
fn resource_text(alloc: Global, inner: &TypeInner, index: usize) -> Result<String, AllocError>
    ensures { IfOk result (λ text. string_bytes text ≡ resource_text inner.now index) }
{
    match inner {
        TypeInner::Image {
            dim,
            arrayed,
            class,
        } => image_text(alloc, *dim, *arrayed, *class),
        TypeInner::Sampler { comparison: false } => String::from_str(alloc, "sampler"),
        TypeInner::Sampler { comparison: true } => String::from_str(alloc, "sampler_comparison"),
        TypeInner::AccelerationStructure {
            vertex_return: false,
        } => String::from_str(alloc, "acceleration_structure"),
        TypeInner::AccelerationStructure {
            vertex_return: true,
        } => String::from_str(alloc, "acceleration_structure<vertex_return>"),
        TypeInner::RayQuery {
            vertex_return: false,
        } => String::from_str(alloc, "ray_query"),
        TypeInner::RayQuery {
            vertex_return: true,
        } => String::from_str(alloc, "ray_query<vertex_return>"),
        _ => plain_text(alloc, inner, index),
    }
}

/// Returns a type. Of the types inside so many are shown within one another.
#[cycle(types)]
fn inner_text(
    alloc: Global,
    module: &Module,
    name: &Option<Name>,
    inner: &TypeInner,
    index: usize,
    nested: u32,
) -> Result<String, AllocError>
    ensures { IfOk result (λ text. string_bytes text
        ≡ inner_text (λ base. type_text «module».now nested base) «module».now index name.now inner.now) }
{
    match inner {
        TypeInner::Struct { .. } => item_text(alloc, ItemKind::Struct, name, index),
        TypeInner::Array { base, size, .. } => {
            let base = type_text(alloc, module, *base, nested)?;
            let size = size_text(alloc, module, *size)?;
            format!(in alloc; "array<{base}{size}>")
        }
        TypeInner::BindingArray { base, size } => {
            let base = type_text(alloc, module, *base, nested)?;
            let size = size_text(alloc, module, *size)?;
            format!(in alloc; "binding_array<{base}{size}>")
        }
        TypeInner::Pointer { base, space } => {
            let base = type_text(alloc, module, *base, nested)?;
            pointer_text(alloc, base.as_str(), *space)
        }
        TypeInner::Scalar(_)
        | TypeInner::Vector { .. }
        | TypeInner::Matrix { .. }
        | TypeInner::CooperativeMatrix { .. }
        | TypeInner::Atomic(_)
        | TypeInner::ValuePointer { .. }
        | TypeInner::Image { .. }
        | TypeInner::Sampler { .. }
        | TypeInner::AccelerationStructure { .. }
        | TypeInner::RayQuery { .. } => resource_text(alloc, inner, index),
    }
}

/// Returns a type (WGSL, "Types"): a struct by its name. Of types within one another so many are shown.
#[cycle(types)]
#[tactic(auto, using(crate::proofs::TypeLemmas::type_text_found))]
pub fn type_text(
    alloc: Global,
    module: &Module,
    ty: Handle<mark::Type>,
    nested: u32,
) -> Result<String, AllocError>
    ensures { IfOk result (λ text. string_bytes text ≡ type_text «module».now nested ty) }
{
    if nested == 0 {
        return String::from_str(alloc, "...");
    }
    match module.types.try_get(ty) {
        Some(found) => inner_text(
            alloc,
            module,
            &found.name,
            &found.inner,
            ty.index(),
            nested - 1,
        ),
        None => number_text(alloc, ItemKind::Type, ty.index()),
    }
}

/// Returns a type that isn't one of the module's. Of types within one another so many are shown.
pub fn unlisted_text(
    alloc: Global,
    module: &Module,
    inner: &TypeInner,
    nested: u32,
) -> Result<String, AllocError>
    ensures { IfOk result (λ text. string_bytes text ≡ unlisted_text «module».now nested inner.now) }
{
    inner_text(alloc, module, &None, inner, 0, nested)
}
