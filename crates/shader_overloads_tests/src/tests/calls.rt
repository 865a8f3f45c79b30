//! Tests of the rule that a call means.
use crate::tests::{OUT_OF_MEMORY, SCALAR, is_rule};
use shader_arena::UniqueArena;
use shader_ir::{MathFunction, Scalar, TypeInner};
use shader_overloads::{Rule, rule_of};
use std::alloc::{AllocError, Global};
use std::process::Abort;

/// Returns the rule that a call on two scalars means, in a module without types.
pub fn rule_of_two(
    alloc: Global,
    function: MathFunction,
    left: Scalar,
    right: Scalar,
) -> Result<Option<Rule>, AllocError> {
    let types = UniqueArena::new(alloc);
    let arguments = [TypeInner::Scalar(left), TypeInner::Scalar(right)];
    let rule = rule_of(alloc, function, &arguments, &types);
    drop(types);
    rule
}

/// Returns the rule that a call on five bools means, in a module without types.
pub fn rule_of_five(alloc: Global, function: MathFunction) -> Result<Option<Rule>, AllocError> {
    let types = UniqueArena::new(alloc);
    let bool = Scalar::BOOL;
    let arguments = [
        TypeInner::Scalar(bool),
        TypeInner::Scalar(bool),
        TypeInner::Scalar(bool),
        TypeInner::Scalar(bool),
        TypeInner::Scalar(bool),
    ];
    let rule = rule_of(alloc, function, &arguments, &types);
    drop(types);
    rule
}

/// Returns the rule that `max` of two scalars means.
fn rule_of_max(rt: &impl Abort, alloc: Global, left: Scalar, right: Scalar) -> Option<Rule> {
    rule_of_two(alloc, MathFunction::Max, left, right).expect(rt, OUT_OF_MEMORY)
}

#[test]
fn a_call_means_its_preferred_rule(rt: HostRuntime) {
    let rule = rule_of_max(&rt, rt.alloc(), Scalar::U32, Scalar::ABSTRACT_INT);
    let is_of_u32 = match &rule {
        Some(rule) => {
            let u32 = (SCALAR, Scalar::U32);
            is_rule(rule, &[u32, u32], u32)
        }
        None => false,
    };
    drop(rule);
    assert!(rt; is_of_u32);
}

#[test]
fn a_call_that_no_rule_accepts_means_none(rt: HostRuntime) {
    let rule = rule_of_max(&rt, rt.alloc(), Scalar::F32, Scalar::F64);
    let is_none = rule.is_none();
    drop(rule);
    assert!(rt; is_none);
}
