//! The rule that a call of a built-in function means.
ghost use Rattle.std.specs.Prelude.{◌≡◌, ◌⊎◌, All, IfErr, IfOk, IsSome, IsTrue, length};
ghost use Rattle.shader_ir.specs.TypeTree.{IsBackward, PointsBelow};
ghost use Rattle.shader_overloads.specs.AnySet.{acceptance_in, rules_in};
ghost use Rattle.shader_overloads.specs.BuiltinGroups.{is_listed};
ghost use Rattle.shader_overloads.specs.Builtins.{acceptance_of, rule_meant, rules_of};
ghost use Rattle.shader_overloads.specs.Remaining.{RulesFit, remaining, supplying};

use crate::{MathOverloads, OverloadSet, Rule};
use shader_arena::UniqueArena;
use shader_ir::{MathFunction, Type, TypeInner, mark};
use std::alloc::{AllocError, Global};

/// Returns the rule that a call of the built-in function means: the preferred one of those that accept arguments of these types, each
/// converted automatically if needed. `None` if none accepts them, or if they are more than a rule takes. Fewer arguments than a rule
/// takes leave it in the choice.
///
/// # Errors
///
/// `AllocError` if allocating the rule fails, or the rules of a function that has a list. So of any other function a call that no rule
/// accepts is always answered.
pub fn rule_of(
    alloc: Global,
    function: MathFunction,
    arguments: &[TypeInner],
    types: &UniqueArena<Type, mark::Type>,
) -> Result<Option<Rule>, AllocError>
    requires backward { IsBackward types.now }
    requires in_range { All (PointsBelow (length types.now)) arguments.now }
    ensures rule { IfOk result (λ rule. rule ≡ rule_meant types.now function arguments.now) }
    ensures memory { IfErr result (λ _. IsTrue (is_listed function) ⊎ IsSome (rule_meant types.now function arguments.now)) }
{
    let mut left = function.overloads(alloc)?;
    for (i, argument) in arguments.iter().enumerate() {
        left = left.arg(alloc, i, argument, types)?;
    }
    if left.is_empty() {
        return Ok(None);
    }
    let rule = left.most_preferred(alloc)?;
    Ok(Some(rule))
}
