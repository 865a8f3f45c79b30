//! The memory locations that the pointers of a function lead to.
ghost use Rattle.std.specs.Prelude.{◌≡◌, ◌∷◌, ◌++◌, [], IfOk, slice_get};
ghost use Rattle.shader_uniformity.specs.Places.{class_is_written, element_is_written, global_place, image_is_written, inner_is_written};
ghost use Rattle.shader_uniformity.specs.Places.{is_writable, place_at, place_in, place_of, places, space_is_fixed, type_is_written};

use crate::facts::Place;
use bitflags::Flags;
use shader_arena::{Arena, Handle, UniqueArena};
use shader_ir::{
    AddressSpace, Expression, GlobalVariable, ImageClass, Module, StorageAccess, Type, TypeInner,
    mark,
};
use std::alloc::{AllocError, Global};

/// Returns whether stores are allowed, or atomic operations.
fn is_writable(access: StorageAccess) -> bool
    ensures { result ≡ is_writable access }
{
    access.contains(StorageAccess::STORE) || access.contains(StorageAccess::ATOMIC)
}

/// Checks whether texels of such an image may be written.
fn class_is_written(class: &ImageClass) -> bool
    ensures { result ≡ class_is_written class.now }
{
    match class {
        ImageClass::Storage { access, .. } => is_writable(*access),
        _ => false,
    }
}

fn image_is_written(inner: &TypeInner) -> bool
    ensures { result ≡ image_is_written inner.now }
{
    match inner {
        TypeInner::Image { class, .. } => class_is_written(class),
        _ => false,
    }
}

fn element_is_written(types: &UniqueArena<Type, mark::Type>, element: Handle<mark::Type>) -> bool
    ensures { result ≡ element_is_written (slice_get types.now element) }
{
    if types.contains_handle(element) {
        image_is_written(&types[element].inner)
    } else {
        false
    }
}

fn inner_is_written(types: &UniqueArena<Type, mark::Type>, inner: &TypeInner) -> bool
    ensures { result ≡ inner_is_written types.now inner.now }
{
    match inner {
        TypeInner::BindingArray { base, .. } => element_is_written(types, *base),
        _ => image_is_written(inner),
    }
}

/// Checks whether a variable of the type is a storage image, or an array of them, whose texels may be written.
fn type_is_written(types: &UniqueArena<Type, mark::Type>, ty: Handle<mark::Type>) -> bool
    ensures { result ≡ type_is_written types.now (slice_get types.now ty) }
{
    if types.contains_handle(ty) {
        inner_is_written(types, &types[ty].inner)
    } else {
        false
    }
}

/// Checks whether nothing writes to the address space while the shader runs (WGSL, "Address Spaces").
fn space_is_fixed(space: AddressSpace) -> bool
    ensures { result ≡ space_is_fixed space }
{
    match space {
        AddressSpace::Uniform | AddressSpace::Handle | AddressSpace::Immediate => true,
        AddressSpace::Storage { access } => !is_writable(access),
        AddressSpace::Function
        | AddressSpace::Private
        | AddressSpace::WorkGroup
        | AddressSpace::TaskPayload
        | AddressSpace::RayPayload
        | AddressSpace::IncomingRayPayload => false,
    }
}

fn place_in(written: bool, fixed: bool) -> Place
    ensures { result ≡ place_in written fixed }
{
    if written {
        Place::Shared
    } else if fixed {
        Place::Fixed
    } else {
        Place::Shared
    }
}

fn global_place(module: &Module, variable: Handle<mark::GlobalVariable>) -> Place
    ensures { result ≡ global_place «module».now (slice_get «module».now.global_variables variable) }
{
    if module.global_variables.contains_handle(variable) {
        let global = &module.global_variables[variable];
        let written = type_is_written(&module.types, global.ty);
        place_in(written, space_is_fixed(global.space))
    } else {
        Place::Shared
    }
}

/// Returns the memory location of an expression, given those of all expressions.
pub fn place_at(places: &[Place], expression: Handle<mark::Expression>) -> Place
    ensures { result ≡ place_at places.now expression }
{
    match places.get(expression.index()) {
        Some(place) => *place,
        None => Place::Shared,
    }
}

fn place_of(module: &Module, earlier: &[Place], expression: &Expression) -> Place
    ensures { result ≡ place_of «module».now earlier.now expression.now }
{
    match expression {
        Expression::LocalVariable(variable) => Place::Local(variable.index() as u32),
        Expression::FunctionArgument(index) => Place::Pointee(*index),
        Expression::GlobalVariable(variable) => global_place(module, *variable),
        Expression::Access { base, .. } => place_at(earlier, *base),
        Expression::AccessIndex { base, .. } => place_at(earlier, *base),
        _ => Place::Shared,
    }
}

/// Returns the memory location of each expression.
///
/// # Errors
///
/// `AllocError` if memory runs out.
pub fn places(
    alloc: Global,
    module: &Module,
    expressions: &Arena<Expression, mark::Expression>,
) -> Result<Vec<Place>, AllocError>
    ensures { IfOk result (λ all. all.items ≡ places «module».now expressions.now) }
{
    let mut places = Vec::with_capacity(alloc, expressions.len())?;
    for (_, expression) in expressions.iter() {
        let place = place_of(module, places.as_slice(), expression);
        places.push(place)?;
    }
    Ok(places)
}
