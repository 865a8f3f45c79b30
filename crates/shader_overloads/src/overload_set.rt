//! Overload sets: the overload candidates of a call of a built-in function, and how a front end narrows them.
//!
//! A built-in function of WGSL has many overloads: `max` takes two values of one numeric type, a scalar or a vector, and returns that type.
//! Each overload is a `Rule`. At a call, overload resolution picks one rule: the candidates to which every argument has a feasible
//! automatic conversion remain, and among these the one with the least conversion rank at each argument is preferred. A literal is abstract
//! (`AbstractInt`, `AbstractFloat`) and converts automatically to the type that the other arguments require; a concrete value converts only
//! to its own type.
//!
//! A front end begins with `MathFunction::overloads` and supplies the arguments one by one, left to right:
//!
//! 1. `arg` keeps the rules that accept the argument's type, converted automatically if needed. The order of the arguments doesn't
//!    matter, nor does supplying one twice. If `is_empty` is true after an argument, that argument is the cause, and `allowed_args`
//!    of the set before lists the types that would have been accepted.
//! 2. `concrete_only` removes the rules with abstract arguments, for a value that is needed at run time.
//! 3. `most_preferred` returns the first remaining rule, as the sets of built-in functions list their rules in order of preference. It
//!    is the result of the resolution: the types to which the arguments are converted and the type of the call.
//!
//! `narrow` performs the first two steps for a list of calls. As in naga, two things are simpler than in WGSL. A set contains the rules of
//! one function without template parameters, so `vecN<T>` is one rule for each size and scalar. And preference is a fixed order of the
//! rules; `shader_overloads_laws` proves that no remaining rule has a smaller rank than the first at any argument.
//!
//! The contracts see a set only as its list of rules.
ghost use Rattle.std.specs.Prelude.{◌≡◌, ◌≢◌, ◌↔◌, ◌++◌, ℕ, Bool, [], List, All, IsTrue, IsOk, IfOk, OnOk, Some, filter, length, slice_get};
ghost use Rattle.std.specs.Option.{option_to_list};
ghost use Rattle.shader_ir.specs.declared.types.«Type».{«Type»};
ghost use Rattle.shader_ir.specs.declared.types.TypeInner.{TypeInner};
ghost use Rattle.shader_ir.specs.TypeTree.{IsBackward, PointsBelow};
ghost use Rattle.shader_overloads.specs.declared.rule.Rule.{Rule};
ghost use Rattle.shader_overloads.specs.Counts.{arguments_at, IsGreatestCount, IsLeastCount};

use crate::Rule;
use shader_arena::UniqueArena;
use shader_ir::proc::TypeResolution;
use shader_ir::{GlobalCtx, Type, TypeInner, mark};
use std::alloc::{AllocError, Global};

/// The candidate rules for a call of a built-in function, the preferred one first.
pub trait OverloadSet: Sized + Drop {
    ghost use Rattle.shader_overloads.specs.Remaining.{has_concrete_arguments, RulesFit};

    /// The rules, in order.
    ghost rules: { Self → List Rule };

    /// Whether a rule has an argument at a position that accepts a value of a type, as sets of this kind decide it.
    ghost accepting: { Self → List «Type» → ℕ → TypeInner → Rule → Bool };

    /// Whether a set is copied and narrowed without allocation.
    ghost is_free: { Self → Bool };

    /// Returns an equal set. Copies of a list share its rules, so as to cost little; no clause promises that.
    fn copy(&self, alloc: Global) -> Result<Self, AllocError>
        ensures rules { IfOk result (λ set. rules set ≡ rules self.now) }
        ensures kind { IfOk result (λ set. accepting set ≡ accepting self.now) }
        ensures free { IfOk result (λ set. is_free set ≡ is_free self.now) }
        ensures found { IsTrue (is_free self.now) → IsOk result };

    /// Returns whether no rule remains.
    fn is_empty(&self) -> bool
        ensures { IsTrue result ↔ (rules self.now ≡ []) };

    /// Returns the least number of arguments of a rule.
    fn min_arguments(&self) -> usize
        requires { rules self.now ≢ [] }
        ensures { IsLeastCount result (rules self.now) };

    /// Returns the greatest number of arguments of a rule.
    fn max_arguments(&self) -> usize
        requires { rules self.now ≢ [] }
        ensures { IsGreatestCount result (rules self.now) };

    /// Returns the rules that accept a value of the type as argument `i`, converted automatically if needed.
    fn arg(
        &self,
        alloc: Global,
        i: usize,
        ty: &TypeInner,
        types: &UniqueArena<Type, mark::Type>,
    ) -> Result<Self, AllocError>
        requires backward { IsBackward types.now }
        requires ty_in { PointsBelow (length types.now) ty.now }
        requires fits { RulesFit types.now (rules self.now) }
        ensures rules { IfOk result (λ set. rules set ≡ filter (accepting self.now types.now i ty.now) (rules self.now)) }
        ensures kind { IfOk result (λ set. accepting set ≡ accepting self.now) }
        ensures free { IfOk result (λ set. is_free set ≡ is_free self.now) }
        ensures fits { IfOk result (λ set. RulesFit types.now (rules set)) }
        ensures found { IsTrue (is_free self.now) → IsOk result };

    /// Returns the rules without abstract arguments.
    fn concrete_only(self, types: &UniqueArena<Type, mark::Type>) -> Self
        requires backward { IsBackward types.now }
        requires fits { RulesFit types.now (rules self) }
        ensures rules { rules result ≡ filter (has_concrete_arguments types.now) (rules self) }
        ensures kind { accepting result ≡ accepting self }
        ensures free { is_free result ≡ is_free self }
        ensures fits { RulesFit types.now (rules result) };

    /// Returns the first rule.
    fn most_preferred(&self, alloc: Global) -> Result<Rule, AllocError>
        requires { rules self.now ≢ [] }
        ensures { IfOk result (λ rule. slice_get (rules self.now) 0 ≡ Some rule) };

    /// Returns all rules, in order.
    fn overload_list(&self, alloc: Global, gctx: GlobalCtx<'_>) -> Result<Vec<Rule>, AllocError>
        ensures { IfOk result (λ list. list.items ≡ rules self.now) };

    /// Returns the types of argument `i` of the rules that have one, in their order. Allocates nothing if none has one.
    fn allowed_args(
        &self,
        alloc: Global,
        i: usize,
        gctx: GlobalCtx<'_>,
    ) -> Result<Vec<TypeResolution>, AllocError>
        ensures arguments { IfOk result (λ allowed. allowed.items ≡ arguments_at i (rules self.now)) }
        ensures none { arguments_at i (rules self.now) ≡ [] → IsOk result }
    {
        if self.is_empty() {
            return Ok(Vec::new(alloc));
        }
        if i >= self.max_arguments() {
            return Ok(Vec::new(alloc));
        }
        let rules = self.overload_list(alloc, gctx)?;
        copy_arguments_at(alloc, rules.as_slice(), i)
    }
}

/// Returns the arguments at a position, of the rules that have one.
fn copy_arguments_at(
    alloc: Global,
    rules: &[Rule],
    i: usize,
) -> Result<Vec<TypeResolution>, AllocError>
    ensures { IfOk result (λ arguments. arguments.items ≡ arguments_at i rules.now) }
{
    let mut arguments = Vec::new(alloc);
    for rule in rules {
        push_argument(alloc, &mut arguments, rule, i)?;
    }
    Ok(arguments)
}

/// Appends argument `i` of the rule, if it has one.
fn push_argument(
    alloc: Global,
    arguments: &mut Vec<TypeResolution>,
    rule: &Rule,
    i: usize,
) -> Result<(), AllocError>
    ensures { OnOk result (arguments.new.items ≡ arguments.old.items ++ option_to_list (slice_get rule.now.arguments i)) }
{
    match rule.arguments.as_slice().get(i) {
        Some(argument) => {
            arguments.push(argument.copy(alloc)?)?;
            Ok(())
        }
        None => Ok(()),
    }
}

/// A step of narrowing a set.
#[derive(Drop)]
pub enum SetCall {
    /// An argument with this position and type is supplied.
    Arg(usize, TypeInner),
    /// Some argument is known only at run time, so none may be abstract.
    ConcreteOnly,
}

ghost use Rattle.shader_overloads.specs.Remaining.{CallFits, RulesFit, SuppliesNoStruct, remaining};

impl SetCall {
    /// Returns an equal call. Allocates only for the members of a struct.
    pub fn copy(&self, alloc: Global) -> Result<SetCall, AllocError>
        ensures copy { IfOk result (λ call. call ≡ self.now) }
        ensures ok { SuppliesNoStruct self.now → IsOk result }
    {
        match self {
            SetCall::Arg(i, ty) => Ok(SetCall::Arg(*i, ty.copy(alloc)?)),
            SetCall::ConcreteOnly => Ok(SetCall::ConcreteOnly),
        }
    }
}

/// Returns the set that remains after the calls, in their order.
pub fn narrow<S: OverloadSet>(
    alloc: Global,
    set: S,
    calls: &[SetCall],
    types: &UniqueArena<Type, mark::Type>,
) -> Result<S, AllocError>
    requires backward { IsBackward types.now }
    requires calls_fit { All (CallFits types.now) calls.now }
    requires rules_fit { RulesFit types.now (S.rules set) }
    ensures rules { IfOk result (λ left. S.rules left ≡ remaining (S.accepting set) types.now calls.now (S.rules set)) }
    ensures kind { IfOk result (λ left. S.accepting left ≡ S.accepting set) }
    ensures free { IfOk result (λ left. S.is_free left ≡ S.is_free set) }
    ensures fits { IfOk result (λ left. RulesFit types.now (S.rules left)) }
    ensures found { IsTrue (S.is_free set) → IsOk result }
{
    let mut left = set;
    for call in calls {
        left = match call {
            SetCall::Arg(i, ty) => left.arg(alloc, *i, ty, types)?,
            SetCall::ConcreteOnly => left.concrete_only(types),
        };
    }
    Ok(left)
}
