//! Tests of regular sets that no built-in function has.
ghost use Rattle.std.specs.Prelude.{◌<◌};

use crate::tests::{
    Built, MAT4X4, OUT_OF_MEMORY, SCALAR, VEC2, VEC3, counted, is_rule, list_allowed, list_rules,
    prefers,
};
use bitflags::Flags;
use shader_ir::Scalar;
use shader_overloads::{
    AnyOverloadSet, ConclusionRule, ConstructorSet, OverloadSet, Regular, Rule, ScalarSet,
};

/// Returns the rules whose arguments all have one of the types, which is also their conclusion.
fn regular(arity: usize, constructors: ConstructorSet, scalars: ScalarSet) -> Regular
    requires { 0 < arity }
{
    Regular::new(arity, constructors, scalars, ConclusionRule::ArgumentType)
}

fn vectors_of_floats() -> Regular {
    let sizes = ConstructorSet::VEC2 | ConstructorSet::VEC3;
    regular(2, sizes, ScalarSet::ABSTRACT_FLOAT | ScalarSet::F32)
}

/// The types in the order of the rules: constructors first, and then scalars.
static LISTED: [Built; 4] = [
    (VEC2, Scalar::ABSTRACT_FLOAT),
    (VEC2, Scalar::F32),
    (VEC3, Scalar::ABSTRACT_FLOAT),
    (VEC3, Scalar::F32),
];

/// Returns whether these are rules of two arguments, each of which concludes the type of its
/// arguments.
fn are_rules(rules: &[Rule], types: &[Built]) -> bool {
    for (rule, built) in rules.iter().zip(types.iter()) {
        if !is_rule(rule, &[*built, *built], *built) {
            return false;
        }
    }
    rules.len() == types.len()
}

#[test]
fn rules_are_listed_by_constructors(rt: HostRuntime) {
    let copy = vectors_of_floats()
        .copy(rt.alloc())
        .expect(&rt, OUT_OF_MEMORY);
    let rules = list_rules(rt.alloc(), &copy).expect(&rt, OUT_OF_MEMORY);
    assert!(rt; are_rules(rules.as_slice(), &LISTED));
    assert!(rt; Regular::EMPTY.is_empty());
}

/// Returns whether the first rule takes and concludes an abstract integer, and the last a matrix of
/// bools.
fn are_all(rules: &[Rule]) -> bool {
    let first = (SCALAR, Scalar::ABSTRACT_INT);
    let last = (MAT4X4, Scalar::BOOL);
    match (rules.first(), rules.last()) {
        (Some(least), Some(greatest)) => {
            is_rule(least, &[first], first) && is_rule(greatest, &[last], last)
        }
        _ => false,
    }
}

/// Tests a set of all thirteen constructors and all twelve scalars.
#[test]
fn all_rules_are_listed(rt: HostRuntime) {
    let sizes = ConstructorSet::from_bits_retain(0x1fff);
    let all = regular(1, sizes, ScalarSet::from_bits_retain(0xfff));
    let rules = list_rules(rt.alloc(), &all).expect(&rt, OUT_OF_MEMORY);
    assert!(rt; rules.len() == 156 && are_all(rules.as_slice()));
}

#[test]
fn five_arguments_are_allowed_and_no_sixth(rt: HostRuntime) {
    let set = AnyOverloadSet::from(regular(5, ConstructorSet::SCALAR, ScalarSet::F32));
    assert!(rt; matches!(set, AnyOverloadSet::Regular(_)));
    let float = (SCALAR, Scalar::F32);
    let five = [float, float, float, float, float];
    assert!(rt; prefers(&rt, rt.alloc(), &set, &five, float));
    assert!(rt; counted(list_allowed(rt.alloc(), &set, 4).expect(&rt, OUT_OF_MEMORY)) == 1);
    assert!(rt; counted(list_allowed(rt.alloc(), &set, 5).expect(&rt, OUT_OF_MEMORY)) == 0);
    drop(set);
}
