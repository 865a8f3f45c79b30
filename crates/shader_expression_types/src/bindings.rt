//! Checks accesses to binding arrays that are values, not behind pointers.
ghost use Rattle.std.specs.Prelude.{◌≡◌, ◌<◌, All, Some, length, slice_get};
ghost use Rattle.std.specs.Option.{option_and_then};
ghost use Rattle.shader_expression_types.specs.Indexed.{access_refusal, base_refusal, index_refusal, needed_for};
ghost use Rattle.shader_ir.specs.Key.{FitsTypes, inner_of};
ghost use Rattle.shader_ir.specs.TypeTree.{IsBackward, PointsBelow};
ghost use Rattle.shader_resolve.specs.WellFormed.{OperandsBelow};
ghost use Rattle.shader_passes.specs.Facts.{origin_at};
ghost use Rattle.shader_passes.specs.Records.{types_in};

use bitflags::Flags;
use shader_arena::{Handle, UniqueArena};
use shader_info::{Capabilities, ExpressionError, ExpressionInfo, NonUniformResult};
use shader_ir::proc::TypeResolution;
use shader_ir::{Expression, ImageClass, Type, TypeInner, mark};
use shader_passes::facts::Facts;

/// Returns the capability that is needed to index a binding array of such elements by a value that differs among invocations. There is none
/// for elements that are neither images nor samplers.
fn needed_for(element: &TypeInner) -> Option<Capabilities>
    ensures { result ≡ needed_for (Some element.now) }
{
    match element {
        TypeInner::Image {
            class: ImageClass::Storage { .. },
            ..
        } => Some(Capabilities::STORAGE_TEXTURE_BINDING_ARRAY_NON_UNIFORM_INDEXING),
        TypeInner::Image { .. } | TypeInner::Sampler { .. } => {
            Some(Capabilities::TEXTURE_AND_SAMPLER_BINDING_ARRAY_NON_UNIFORM_INDEXING)
        }
        _ => None,
    }
}

/// Returns the error for selecting such an element by an index with this origin, if that isn't allowed.
fn index_refusal(
    capabilities: Capabilities,
    element: &TypeInner,
    origin: NonUniformResult,
) -> Option<ExpressionError>
    ensures { result ≡ index_refusal capabilities origin (needed_for (Some element.now)) }
{
    match needed_for(element) {
        None => Some(ExpressionError::BindingArrayElement),
        Some(needed) => match origin {
            None => None,
            Some(_) => {
                if capabilities.contains(needed) {
                    None
                } else {
                    Some(ExpressionError::MissingCapabilities(needed))
                }
            }
        },
    }
}

/// Returns the error for indexing a base of this type by `index`, if it is a binding array that may not be indexed so.
fn base_refusal(
    types: &UniqueArena<Type, mark::Type>,
    facts: &Facts<'_>,
    capabilities: Capabilities,
    base: &TypeInner,
    index: Handle<mark::Expression>,
) -> Option<ExpressionError>
    requires { PointsBelow (length types.now) base.now }
    ensures { result ≡ base_refusal capabilities types.now (origin_at facts.now index) (Some base.now) }
{
    match base {
        TypeInner::BindingArray { base: element, .. } => index_refusal(
            capabilities,
            &types[*element].inner,
            facts.origin_of(index),
        ),
        _ => None,
    }
}

/// Returns the type that the record of an earlier expression holds.
#[inline(always)]
pub fn type_in(records: &[ExpressionInfo], expression: Handle<mark::Expression>) -> &TypeResolution
    requires { expression < length records.now }
    ensures { slice_get (types_in records.now) expression ≡ Some result.now }
{
    &records[expression.index()].ty
}

/// Returns the inner type of an earlier expression.
fn stored_inner<'a>(
    types: &'a UniqueArena<Type, mark::Type>,
    records: &'a [ExpressionInfo],
    expression: Handle<mark::Expression>,
) -> &'a TypeInner
    requires backward { IsBackward types.now }
    requires there { expression < length records.now }
    requires fit { All (FitsTypes types.now) (types_in records.now) }
    ensures shape { option_and_then (inner_of types.now) (slice_get (types_in records.now) expression) ≡ Some result.now }
    ensures in_range { PointsBelow (length types.now) result.now }
{
    type_in(records, expression).inner_with(types)
}

/// Returns the error for an expression that indexes a binding array as it may not. `records` are those of the expressions before it.
pub fn access_refusal(
    types: &UniqueArena<Type, mark::Type>,
    facts: &Facts<'_>,
    records: &[ExpressionInfo],
    capabilities: Capabilities,
    expression: &Expression,
) -> Option<ExpressionError>
    requires backward { IsBackward types.now }
    requires operands { OperandsBelow (length records.now) expression.now }
    requires fit { All (FitsTypes types.now) (types_in records.now) }
    ensures { result ≡ access_refusal capabilities types.now facts.now (types_in records.now) expression.now }
{
    match expression {
        Expression::Access { base, index } => {
            let inner = stored_inner(types, records, *base);
            base_refusal(types, facts, capabilities, inner, *index)
        }
        _ => None,
    }
}
