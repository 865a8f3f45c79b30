//! Questions about the types of a module:
//!
//! - `type T [U]`: whether each type names only earlier ones, what is known of type T, and how it is related to type U;
//! - `component T I`: the type of a component of type T.
ghost use Rattle.std.specs.Prelude.{length};
ghost use Rattle.shader_ir.specs.TypeTree.{IsBackward, PointsBelow};

use crate::told::Told;
use crate::words::Words;
use shader_arena::{Handle, UniqueArena};
use shader_ir::proc::types_backward;
use shader_ir::{Module, Same, ScalarKind, Type, TypeInner, mark};

/// The types of a module.
type Types = UniqueArena<Type, mark::Type>;

/// Tells what depends on a type alone.
fn tell_own(told: &mut Told, inner: &TypeInner) {
    told.show("scalar", inner.scalar());
    told.show("kind", inner.scalar_kind());
    told.show("numeric", inner.scalar_kind().map(ScalarKind::is_numeric));
    told.show("width", inner.scalar_width());
    told.show("vector", inner.vector_size_and_scalar());
    told.show("components", inner.components());
    told.show("space", inner.pointer_space());
    told.show("base", inner.pointer_base_type());
}

/// Tells what depends on the types that a type contains.
fn tell_contained(told: &mut Told, inner: &TypeInner, types: &Types)
    requires backward { IsBackward types.now }
    requires inside { PointsBelow (length types.now) inner.now }
{
    told.show("atomic-pointer", inner.is_atomic_pointer(types));
    told.show("canonical", inner.canonical_form(types));
    told.show("abstract", inner.is_abstract(types));
    told.show("constructible", inner.is_constructible(types));
    told.show("dynamic", inner.is_dynamically_sized(types));
    told.show("leaf", inner.scalar_for_conversions(types));
    told.show("needs-bytes", inner.needs_host_buffer_byte_size(types));
}

/// Tells how two types are related by those that they contain. Two structs have no canonical forms to compare.
fn tell_related(told: &mut Told, left: &TypeInner, right: &TypeInner, types: &Types)
    requires backward { IsBackward types.now }
    requires left_in { PointsBelow (length types.now) left.now }
    requires right_in { PointsBelow (length types.now) right.now }
{
    told.show("converts", left.automatically_converts_to(right, types));
    match (left, right) {
        (TypeInner::Struct { .. }, TypeInner::Struct { .. }) => {}
        _ => told.show("equivalent", left.non_struct_equivalent(right, types)),
    }
}

/// Tells how type T is related to type U.
fn tell_pair(told: &mut Told, left: &Type, right: &Type, types: &Types)
    requires backward { IsBackward types.now }
    requires left_in { PointsBelow (length types.now) left.now.inner }
{
    told.show("same", left.inner.is_same(&right.inner));
    told.show("named-same", left.is_same(right));
    if right.inner.is_in_range(types) {
        tell_related(told, &left.inner, &right.inner, types);
    }
}

/// Returns the type with the number in the next word.
fn next_type<'a>(words: &mut Words<'_>, types: &'a Types) -> Option<&'a Type> {
    types.try_get(Handle::from_index(words.number()?))
}

/// Answers `type T [U]`.
pub fn tell(told: &mut Told, mut words: Words<'_>, module: &Module) {
    let types = &module.types;
    told.show("backward", types_backward(types));
    let Some(ty) = next_type(&mut words, types) else {
        return;
    };
    tell_own(told, &ty.inner);
    if !types_backward(types) || !ty.inner.is_in_range(types) {
        return;
    }
    tell_contained(told, &ty.inner, types);
    if let Some(other) = next_type(&mut words, types) {
        tell_pair(told, ty, other, types);
    }
}

/// Answers `component T I`. The index must be that of a member if the type is a struct.
pub fn tell_component(told: &mut Told, mut words: Words<'_>, module: &Module) {
    let Some(ty) = next_type(&mut words, &module.types) else {
        return;
    };
    let Some(index) = words.number() else {
        return;
    };
    match &ty.inner {
        TypeInner::Struct { members, .. } if index as usize >= members.len() => {}
        inner => told.show("component", inner.component_type(index as usize)),
    }
}
