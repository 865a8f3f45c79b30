//! Tests of allocation failure: the call returns out of memory, and succeeds when it is repeated.
//!
//! With enough memory nothing fails. Under fault injection, where the allocator refuses the Nth request of a test's process, the test still
//! passes and prints a line with `was refused`.
ghost use Rattle.std.specs.Prelude.{All};
ghost use Rattle.shader_overloads.specs.Remaining.{CallFits};

use crate::tests::calls::{rule_of_five, rule_of_two};
use crate::tests::{Built, SCALAR, VEC2, counted, inner, is_rule, list_allowed, list_rules};
use shader_arena::UniqueArena;
use shader_ir::proc::types_backward;
use shader_ir::{MathFunction, Scalar, Type, mark};
use shader_overloads::utils::{list, rule};
use shader_overloads::{AnyOverloadSet, List, MathOverloads, OverloadSet, Rule, SetCall, narrow};
use std::alloc::{AllocError, Global};
use std::io::Print;
use std::process::Abort;

const OUT_OF_MEMORY: &str = "memory, which is refused once";

/// Returns the result of a call, repeated if an allocation failed.
fn again<R: Abort + Print, T, F: Fn() -> Result<T, AllocError>>(
    rt: &R,
    what: &str,
    attempt: &F,
) -> T
    requires { F.IsAlwaysCallable attempt.now }
{
    match attempt() {
        Ok(answer) => answer,
        Err(AllocError) => {
            println!(rt; "{what} was refused").expect(rt, "standard output");
            attempt().expect(rt, OUT_OF_MEMORY)
        }
    }
}

/// Asserts that a set's queries about its first argument and its preferred rule succeed when repeated after a failure.
fn reports_again<R: Abort + Print>(rt: &R, alloc: Global, set: &AnyOverloadSet, rules: usize) {
    let listed = again(rt, "overload_list", &|| list_rules(alloc, set));
    assert!(rt; counted(listed) == rules);
    let allowed = again(rt, "allowed_args", &|| list_allowed(alloc, set, 0));
    assert!(rt; counted(allowed) == rules);
    prefers_two(rt, alloc, set);
}

/// Asserts that the preferred rule takes two arguments.
fn prefers_two<R: Abort + Print>(rt: &R, alloc: Global, set: &AnyOverloadSet) {
    assert!(rt; !set.is_empty());
    let rule = again(rt, "most_preferred", &|| set.most_preferred(alloc));
    assert!(rt; rule.arguments.len() == 2);
    drop(rule);
}

/// Tests built-in functions of both kinds: the rules of a regular set are built on demand, those of a list are stored.
#[test]
fn refused_builtins_can_be_queried_again(rt: HostRuntime) {
    let alloc = rt.alloc();
    for (function, rules) in [(MathFunction::Dot4I8Packed, 1), (MathFunction::Cross, 4)] {
        let set = again(&rt, "overloads", &|| function.overloads(alloc));
        reports_again(&rt, alloc, &set, rules);
        drop(set);
    }
    let set = again(&rt, "overloads", &|| MathFunction::Refract.overloads(alloc));
    assert!(rt; !set.is_empty());
    drop(set);
}

fn copied(alloc: Global, function: MathFunction) -> Result<AnyOverloadSet, AllocError> {
    let set = function.overloads(alloc)?;
    let copy = set.copy(alloc);
    drop(set);
    copy
}

/// Returns the set of a built-in function that remains after the calls.
fn left_after(
    alloc: Global,
    function: MathFunction,
    calls: &[SetCall],
    types: &UniqueArena<Type, mark::Type>,
) -> Result<AnyOverloadSet, AllocError>
    requires { All (CallFits types.now) calls.now }
{
    let set = function.overloads(alloc)?;
    if types_backward(types) {
        narrow(alloc, set, calls, types)
    } else {
        Ok(set)
    }
}

/// Returns the set of a built-in function whose second argument is an integer literal and whose arguments must all be concrete.
fn narrowed(alloc: Global, function: MathFunction) -> Result<AnyOverloadSet, AllocError> {
    let types = UniqueArena::new(alloc);
    let calls = [
        SetCall::Arg(1, inner((SCALAR, Scalar::ABSTRACT_INT))),
        SetCall::ConcreteOnly,
    ];
    let left = left_after(alloc, function, &calls, &types);
    drop(types);
    left
}

#[test]
fn refused_sets_can_be_built_again(rt: HostRuntime) {
    let alloc = rt.alloc();
    for function in [MathFunction::Ldexp, MathFunction::Max] {
        let copy = again(&rt, "copy", &|| copied(alloc, function));
        prefers_two(&rt, alloc, &copy);
        drop(copy);
        let left = again(&rt, "narrow", &|| narrowed(alloc, function));
        prefers_two(&rt, alloc, &left);
        drop(left);
    }
}

/// Asserts that a call on two scalars means a rule, if it is repeated after a failure.
fn means_again<R: Abort + Print>(
    rt: &R,
    alloc: Global,
    function: MathFunction,
    left: Scalar,
    right: Scalar,
) {
    let rule = again(rt, "rule_of", &|| rule_of_two(alloc, function, left, right));
    let is_some = rule.is_some();
    drop(rule);
    assert!(rt; is_some);
}

/// Asserts that the call means no rule, and is answered at once.
fn means_none<R: Abort>(rt: &R, call: Result<Option<Rule>, AllocError>) {
    let rule = call.expect(rt, OUT_OF_MEMORY);
    let is_none = rule.is_none();
    drop(rule);
    assert!(rt; is_none);
}

/// Tests calls of both kinds of functions. Where no rule of a regular set is meant, nothing is built, so that call isn't repeated.
#[test]
fn refused_calls_can_be_made_again(rt: HostRuntime) {
    let alloc = rt.alloc();
    means_again(
        &rt,
        alloc,
        MathFunction::Max,
        Scalar::U32,
        Scalar::ABSTRACT_INT,
    );
    means_none(
        &rt,
        rule_of_two(alloc, MathFunction::Max, Scalar::F32, Scalar::F64),
    );
    means_none(&rt, rule_of_five(alloc, MathFunction::Abs));
    means_again(&rt, alloc, MathFunction::Ldexp, Scalar::F32, Scalar::I32);
}

const VECTOR: Built = (VEC2, Scalar::F16);

const INDEX: Built = (SCALAR, Scalar::I32);

fn built_rule(alloc: Global) -> Result<Rule, AllocError> {
    rule(alloc, &[inner(VECTOR), inner(INDEX)], inner(VECTOR))
}

#[test]
fn refused_rules_can_be_built_again(rt: HostRuntime) {
    let alloc = rt.alloc();
    let rule = again(&rt, "rule", &|| built_rule(alloc));
    let copy = again(&rt, "copy of a rule", &|| rule.copy(alloc));
    assert!(rt; is_rule(&copy, &[VECTOR, INDEX], VECTOR));
    drop(copy);
    drop(rule);
}

/// Returns a list of one rule, built by one function or the other, or `None` if no list can hold it.
fn one_rule(alloc: Global, is_listed: bool) -> Result<Option<List>, AllocError> {
    let rules = vec![in alloc; built_rule(alloc)?]?;
    if !List::can_hold(rules.as_slice()) {
        return Ok(None);
    }
    if is_listed {
        return Ok(Some(list(alloc, rules)?));
    }
    Ok(Some(List::from_rules(alloc, rules)?))
}

#[test]
fn refused_lists_can_be_queried_again(rt: HostRuntime) {
    let alloc = rt.alloc();
    for is_listed in [false, true] {
        let list = again(&rt, "a list", &|| one_rule(alloc, is_listed));
        let set = AnyOverloadSet::List(list.expect(&rt, "a list"));
        reports_again(&rt, alloc, &set, 1);
        drop(set);
    }
}
