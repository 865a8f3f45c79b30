//! Chains of accesses, and whether they need a bounds check.
ghost use Rattle.std.specs.Prelude.{◌≡◌, ◌↔◌, IsTrue, IfSome};
ghost use Rattle.shader_ir.specs.Key.{IsNoStruct};
ghost use Rattle.shader_resolve.specs.WellFormed.{AtEach, OperandsBelow};
ghost use Rattle.shader_bounds.specs.Checked.{AccessNeedsCheck, ChainNeedsCheck, IsNoMember, NeedsCheck};
ghost use Rattle.shader_bounds.specs.Checked.{StepsIntoNoStruct, accessed, base_of};
ghost use Rattle.shader_bounds.specs.Typed.{Records};

use crate::GuardedIndex;
use crate::guarded::is_unknown;
use crate::typed::type_of;
use shader_arena::{Handle, UniqueArena};
use shader_info::FunctionInfo;
use shader_ir::proc::TypeResolution;
use shader_ir::{Expression, Function, Module, Type, TypeInner, mark};

fn is_no_struct(inner: &TypeInner) -> bool
    ensures { IsTrue result ↔ IsNoStruct inner.now }
{
    match inner {
        TypeInner::Struct { .. } => false,
        _ => true,
    }
}

/// Returns whether an access to a base of this shape isn't an access to a member of a struct.
fn inner_is_no_member(types: &UniqueArena<Type, mark::Type>, inner: &TypeInner) -> bool
    ensures { IsTrue result ↔ IfSome (accessed types.now inner.now) IsNoStruct }
{
    match inner {
        TypeInner::Pointer { base, .. } => {
            !types.contains_handle(*base) || is_no_struct(&types[*base].inner)
        }
        _ => is_no_struct(inner),
    }
}

/// Returns whether an access to a base of this type isn't an access to a member of a struct.
fn is_no_member(types: &UniqueArena<Type, mark::Type>, base: &TypeResolution) -> bool
    ensures { IsTrue result ↔ IsNoMember types.now base.now }
{
    match base {
        TypeResolution::Handle(handle) => {
            !types.contains_handle(*handle) || inner_is_no_member(types, &types[*handle].inner)
        }
        TypeResolution::Value(inner) => inner_is_no_member(types, inner),
    }
}

/// Returns whether an access to the base isn't an access to a member of a struct.
fn steps_into_no_struct(
    module: &Module,
    info: &FunctionInfo,
    base: Handle<mark::Expression>,
) -> bool
    ensures { IsTrue result ↔ StepsIntoNoStruct «module».now (Records info.now) base }
{
    match type_of(info, base) {
        Some(ty) => is_no_member(&module.types, ty),
        None => false,
    }
}

/// Returns whether the index isn't known to be below the length of the base.
pub(crate) fn needs_check(
    module: &Module,
    function: &Function,
    info: &FunctionInfo,
    base: Handle<mark::Expression>,
    index: GuardedIndex,
) -> bool
    ensures { IsTrue result ↔ NeedsCheck «module».now function.now (Records info.now) base index }
{
    match type_of(info, base) {
        Some(ty) => is_unknown(ty, index, module, &function.expressions),
        None => false,
    }
}

/// Returns whether an expression is an access that needs a check. An access to a member of a struct
/// needs none.
fn is_unchecked(
    module: &Module,
    function: &Function,
    info: &FunctionInfo,
    expression: &Expression,
) -> bool
    ensures { IsTrue result ↔ AccessNeedsCheck «module».now function.now (Records info.now) expression.now }
{
    match expression {
        Expression::Access { base, index } => {
            let index = GuardedIndex::Expression(*index);
            needs_check(module, function, info, *base, index)
        }
        Expression::AccessIndex { base, index } => {
            let index = GuardedIndex::Known(*index);
            steps_into_no_struct(module, info, *base)
                && needs_check(module, function, info, *base, index)
        }
        _ => false,
    }
}

/// Returns the base of an access.
fn base_of(expression: &Expression) -> Option<Handle<mark::Expression>>
    ensures { result ≡ base_of expression.now }
{
    match expression {
        Expression::Access { base, .. } => Some(*base),
        Expression::AccessIndex { base, .. } => Some(*base),
        _ => None,
    }
}

/// Returns whether the chain of accesses that ends at an expression contains one that needs a
/// check.
#[tactic(auto, using(crate::proofs::ChainLemmas::leads_itself, crate::proofs::ChainLemmas::leads_to_base, crate::proofs::ChainLemmas::leads_nowhere, crate::proofs::ChainLemmas::leads_outside, crate::proofs::ChainLemmas::leads_checked, crate::proofs::ChainLemmas::base_lower))]
pub(crate) fn chain_needs_check(
    module: &Module,
    function: &Function,
    info: &FunctionInfo,
    chain: Handle<mark::Expression>,
) -> bool
    requires earlier { AtEach OperandsBelow function.now.expressions }
    ensures { IsTrue result ↔ ChainNeedsCheck «module».now function.now (Records info.now) chain }
{
    let mut next = Some(chain);
    while let Some(position) = next {
        match function.expressions.try_get(position) {
            Some(expression) => {
                if is_unchecked(module, function, info, expression) {
                    return true;
                }
                next = base_of(expression);
            }
            None => return false,
        }
    }
    false
}
