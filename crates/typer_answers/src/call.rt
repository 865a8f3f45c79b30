//! Requests for calls of built-in functions.

ghost use Rattle.std.specs.Prelude.{◌≡◌, List, IfOk, filter};
ghost use Rattle.shader_ir.specs.declared.types.«Type».{«Type»};
ghost use Rattle.shader_overloads.specs.AnySet.{acceptance_in, rules_in};
ghost use Rattle.shader_overloads.specs.Remaining.{RulesFit};
ghost use Rattle.shader_type_text.specs.Insertions.{own_inner, own_types};
ghost use Rattle.typer_answers.specs.Calls.{call_conclusion, rules_left};

use shader_arena::{Arena, UniqueArena};
use shader_ir::{GlobalCtx, Items, MathFunction};
use shader_overloads::{AnyOverloadSet, Conclusion, MathOverloads, OverloadSet, Rule};
use shader_type_text::{SpelledType, insert_type};
use std::alloc::{AllocError, Global};

/// Returns the rules that accept the type as argument `i`.
fn supply(
    alloc: Global,
    set: &AnyOverloadSet,
    i: usize,
    argument: SpelledType,
) -> Result<AnyOverloadSet, AllocError>
    requires { (types : List «Type») → RulesFit types (rules_in set.now) }
    ensures rules { IfOk result (λ left. rules_in left ≡ filter (acceptance_in set.now (own_types argument) i (own_inner argument))
        (rules_in set.now)) }
    ensures kind { IfOk result (λ left. acceptance_in left ≡ acceptance_in set.now) }
{
    let mut types = UniqueArena::new(alloc);
    let inner = insert_type(&mut types, argument)?;
    set.arg(alloc, i, &inner, &types)
}

/// Returns the rules that accept all arguments.
fn supply_all(
    alloc: Global,
    function: MathFunction,
    arguments: &[SpelledType],
) -> Result<AnyOverloadSet, AllocError>
    ensures { IfOk result (λ left. rules_in left ≡ rules_left function arguments.now) }
{
    let mut left = function.overloads(alloc)?;
    for (i, argument) in arguments.iter().enumerate() {
        left = supply(alloc, &left, i, *argument)?;
    }
    Ok(left)
}

/// Returns the conclusion of the preferred rule, if a rule accepts all arguments.
pub fn conclusion(
    alloc: Global,
    function: MathFunction,
    arguments: &[SpelledType],
) -> Result<Option<Conclusion>, AllocError>
    ensures { IfOk result (λ found. found ≡ call_conclusion function arguments.now) }
{
    let left = supply_all(alloc, function, arguments)?;
    if left.is_empty() {
        return Ok(None);
    }
    let rule = left.most_preferred(alloc)?;
    Ok(Some(rule.conclusion))
}

/// Returns all rules that accept the arguments.
pub fn remaining_rules(
    alloc: Global,
    function: MathFunction,
    arguments: &[SpelledType],
) -> Result<Items<Rule>, AllocError>
    ensures { IfOk result (λ rules. rules ≡ rules_left function arguments.now) }
{
    let left = supply_all(alloc, function, arguments)?;
    let types = UniqueArena::new(alloc);
    let constants = Arena::new(alloc);
    let overrides = Arena::new(alloc);
    let global_expressions = Arena::new(alloc);
    let ctx = GlobalCtx {
        types: &types,
        constants: &constants,
        overrides: &overrides,
        global_expressions: &global_expressions,
    };
    Ok(Items::from(left.overload_list(alloc, ctx)?))
}
