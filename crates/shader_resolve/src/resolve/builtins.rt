//! The types of calls of built-in functions.
ghost use Rattle.std.specs.Prelude.{◌≡◌, ℕ, Bool, List, IfOk, length};
ghost use Rattle.shader_ir.specs.TypeTree.{IsBackward, PointsBelow};
ghost use Rattle.shader_ir.specs.declared.types.«Type».{«Type»};
ghost use Rattle.shader_ir.specs.declared.types.TypeInner.{TypeInner};
ghost use Rattle.shader_overloads.specs.AnySet.{acceptance_in, rules_in};
ghost use Rattle.shader_overloads.specs.Builtins.{acceptance_of};
ghost use Rattle.shader_overloads.specs.Remaining.{RulesFit};
ghost use Rattle.shader_overloads.specs.declared.rule.Rule.{Rule};
ghost use Rattle.shader_resolve.specs.Builtins.{rules_after_one, rules_after_two};
ghost use Rattle.shader_resolve.specs.Outcome.{BuiltinArgumentsInvalid, ForRules, IsRefusal};

use super::Resolved;
use crate::{ResolveContext, ResolveError};
use shader_arena::UniqueArena;
use shader_ir::proc::TypeResolution;
use shader_ir::{MathFunction, Type, TypeInner, mark};
use shader_overloads::{AnyOverloadSet, MathOverloads, OverloadSet, Rule};
use std::alloc::{AllocError, Global};

/// Returns the rules of a built-in function that accept its first argument.
#[inline(always)]
fn after_one(
    alloc: Global,
    types: &UniqueArena<Type, mark::Type>,
    fun: MathFunction,
    first: &TypeInner,
) -> Result<AnyOverloadSet, AllocError>
    requires backward { IsBackward types.now }
    requires first_in { PointsBelow (length types.now) first.now }
    ensures rules { IfOk result (λ set. rules_in set ≡ rules_after_one types.now fun first.now) }
    ensures kind { IfOk result (λ set. ◌≡◌ {A = List «Type» → ℕ → TypeInner → Rule → Bool} (acceptance_in set) (acceptance_of fun)) }
    ensures fits { IfOk result (λ set. RulesFit types.now (rules_in set)) }
{
    let all = fun.overloads(alloc)?;
    let left = all.arg(alloc, 0, first, types)?;
    Ok(left)
}

/// Returns the rules of a built-in function that accept its first two arguments.
#[inline(always)]
fn after_two(
    alloc: Global,
    types: &UniqueArena<Type, mark::Type>,
    fun: MathFunction,
    first: &TypeInner,
    second: &TypeInner,
) -> Result<AnyOverloadSet, AllocError>
    requires backward { IsBackward types.now }
    requires first_in { PointsBelow (length types.now) first.now }
    requires second_in { PointsBelow (length types.now) second.now }
    ensures { IfOk result (λ set. rules_in set ≡ rules_after_two types.now fun first.now second.now) }
{
    let some = after_one(alloc, types, fun, first)?;
    let left = some.arg(alloc, 1, second, types)?;
    Ok(left)
}

/// Returns the error for arguments that no rule accepts, under the name of the built-in function.
fn invalid_arguments(name: Result<String, AllocError>) -> ResolveError
    ensures { IsRefusal ForRules BuiltinArgumentsInvalid result }
{
    match name {
        Ok(name) => ResolveError::BuiltinArgumentsInvalid(name),
        Err(_) => ResolveError::OutOfMemory,
    }
}

impl<'a> ResolveContext<'a> {
    ghost use Rattle.shader_ir.specs.Key.{PointsInRange};
    ghost use Rattle.shader_ir.specs.TypeTree.{IsBackward};
    ghost use Rattle.shader_overloads.specs.AnySet.{rules_in};
    ghost use Rattle.shader_overloads.specs.Resolutions.{resolution_of};
    ghost use Rattle.shader_resolve.specs.Builtins.{concluded, first_conclusion, math_of_one, math_of_two};
    ghost use Rattle.shader_resolve.specs.Outcome.{ForRules, Meets};

    /// Returns the type of a call, by its first argument.
    #[inline(always)]
    pub(super) fn math_of_one(
        &self,
        alloc: Global,
        fun: MathFunction,
        first: &'a TypeResolution,
    ) -> Resolved
        requires backward { IsBackward self.now.types }
        requires in_range { PointsInRange self.now.types first.now }
        ensures { Meets ForRules result (math_of_one self.now.types self.now.special_types fun first.now) }
    {
        let left = after_one(alloc, self.types, fun, self.inner(first))?;
        self.conclude(alloc, fun, &left)
    }

    /// Returns the type of a call, by its first two arguments.
    #[inline(always)]
    pub(super) fn math_of_two(
        &self,
        alloc: Global,
        fun: MathFunction,
        first: &'a TypeResolution,
        second: &'a TypeResolution,
    ) -> Resolved
        requires backward { IsBackward self.now.types }
        requires first_in_range { PointsInRange self.now.types first.now }
        requires second_in_range { PointsInRange self.now.types second.now }
        ensures { Meets ForRules result (math_of_two self.now.types self.now.special_types fun first.now second.now) }
    {
        let left = after_two(
            alloc,
            self.types,
            fun,
            self.inner(first),
            self.inner(second),
        )?;
        self.conclude(alloc, fun, &left)
    }

    /// Returns the conclusion of the first rule of a set, or the error of the built-in function if
    /// the set is empty.
    #[inline(always)]
    fn conclude(&self, alloc: Global, fun: MathFunction, left: &AnyOverloadSet) -> Resolved
        ensures { Meets ForRules result (first_conclusion self.now.special_types (rules_in left.now)) }
    {
        if left.is_empty() {
            return Err(invalid_arguments(format!(in alloc; "{fun:?}")));
        }
        let rule = left.most_preferred(alloc)?;
        self.conclusion_of(rule)
    }

    #[inline(always)]
    fn conclusion_of(&self, rule: Rule) -> Resolved
        ensures { Meets ForRules result (concluded (resolution_of self.now.special_types rule.conclusion)) }
    {
        let resolution = rule.conclusion.into_resolution(self.special_types)?;
        Ok(resolution)
    }
}
