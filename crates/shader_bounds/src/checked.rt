//! The indexes of a function that are checked.
ghost use Rattle.std.specs.Prelude.{◌≡◌, ◌↔◌, ◌<◌, ℕ, Some, IfOk, IfSome, IsTrue, length};
ghost use Rattle.shader_arena.specs.Positions.{is_member};
ghost use Rattle.shader_resolve.specs.WellFormed.{IsWellFormed, OperandsBelow};
ghost use Rattle.shader_bounds.specs.Checked.{Checks, IsCheckedIndex, IsLoadIndex, ReadsZero};
ghost use Rattle.shader_bounds.specs.Adds.{Adds, IsIn};
ghost use Rattle.shader_bounds.specs.Typed.{IsFunctionOf, Records};

use crate::chains::needs_check;
use crate::typed::type_of;
use crate::{BoundsCheckPolicies, BoundsCheckPolicy, GuardedIndex};
use shader_arena::{Handle, HandleSet};
use shader_info::FunctionInfo;
use shader_ir::{Expression, Function, Module, mark};
use std::alloc::{AllocError, Global};

/// Returns whether an out-of-bounds access to the base reads zero and writes nothing.
fn reads_zero(
    module: &Module,
    info: &FunctionInfo,
    policies: BoundsCheckPolicies,
    base: Handle<mark::Expression>,
) -> bool
    ensures { IsTrue result ↔ ReadsZero «module».now (Records info.now) policies base }
{
    match type_of(info, base) {
        Some(ty) => policies.policy_of(ty, &module.types) == BoundsCheckPolicy::ReadZeroSkipWrite,
        None => false,
    }
}

fn add(checked: &mut HandleSet<mark::Expression>, index: Handle<mark::Expression>)
    requires { index < length checked.old }
    ensures count { length checked.new ≡ length checked.old }
    ensures adds { Adds (IsIn checked.old) (IsIn checked.new) (λ e. index ≡ e) }
{
    checked.insert(index);
}

fn add_optional(checked: &mut HandleSet<mark::Expression>, index: Option<Handle<mark::Expression>>)
    requires { IfSome index (λ e. e < length checked.old) }
    ensures count { length checked.new ≡ length checked.old }
    ensures adds { Adds (IsIn checked.old) (IsIn checked.new) (λ e. index ≡ Some e) }
{
    match index {
        Some(index) => add(checked, index),
        None => {}
    }
}

/// Adds the operands that select the texel of an image load.
fn add_load(
    checked: &mut HandleSet<mark::Expression>,
    coordinate: Handle<mark::Expression>,
    array_index: Option<Handle<mark::Expression>>,
    sample: Option<Handle<mark::Expression>>,
    level: Option<Handle<mark::Expression>>,
)
    requires coordinate { coordinate < length checked.old }
    requires array_index { IfSome array_index (λ e. e < length checked.old) }
    requires sample { IfSome sample (λ e. e < length checked.old) }
    requires level { IfSome level (λ e. e < length checked.old) }
    ensures count { length checked.new ≡ length checked.old }
    ensures adds { Adds (IsIn checked.old) (IsIn checked.new) (IsLoadIndex coordinate array_index sample level) }
{
    add(checked, coordinate);
    add_optional(checked, array_index);
    add_optional(checked, sample);
    add_optional(checked, level);
}

/// Adds the checked indexes of an expression.
fn add_checked(
    module: &Module,
    function: &Function,
    info: &FunctionInfo,
    policies: BoundsCheckPolicies,
    expression: &Expression,
    checked: &mut HandleSet<mark::Expression>,
)
    requires { OperandsBelow (length checked.old) expression.now }
    ensures count { length checked.new ≡ length checked.old }
    ensures adds { Adds (IsIn checked.old) (IsIn checked.new)
        (Checks «module».now function.now (Records info.now) policies expression.now) }
{
    match expression {
        Expression::Access { base, index } => {
            let guarded = GuardedIndex::Expression(*index);
            if reads_zero(module, info, policies, *base)
                && needs_check(module, function, info, *base, guarded)
            {
                add(checked, *index);
            }
        }
        Expression::ImageLoad {
            coordinate,
            array_index,
            sample,
            level,
            ..
        } => {
            if policies.image_load == BoundsCheckPolicy::ReadZeroSkipWrite {
                add_load(checked, *coordinate, *array_index, *sample, *level);
            }
        }
        _ => {}
    }
}

/// Returns the indexes of the function that are checked so that an out-of-bounds read is zero and an out-of-bounds write is dropped: those
/// of each `Access` with that policy whose index isn't known to be below the length, and of each `ImageLoad` if `image_load` has that
/// policy.
///
/// The module is well formed if `check_module` returns `Ok`. With an info of the analysis, the lengths are known if `sizes_known` returns
/// true; an index of unknown length is checked. The set has room for each expression of the function.
///
/// # Errors
///
/// `AllocError` if allocating one flag per expression fails.
pub fn find_checked_indexes(
    alloc: Global,
    module: &Module,
    function: &Function,
    info: &FunctionInfo,
    policies: BoundsCheckPolicies,
) -> Result<HandleSet<mark::Expression>, AllocError>
    requires well_formed { IsWellFormed «module».now }
    requires function { IsFunctionOf «module».now function.now }
    ensures members { IfOk result (λ checked. (e : ℕ) → IsTrue (is_member checked e)
        ↔ IsCheckedIndex «module».now function.now (Records info.now) policies e) }
    ensures room { IfOk result (λ checked. length checked ≡ length function.now.expressions) }
{
    let mut checked = HandleSet::for_arena(alloc, &function.expressions)?;
    for (_, expression) in function.expressions.iter() {
        add_checked(module, function, info, policies, expression, &mut checked);
    }
    Ok(checked)
}
