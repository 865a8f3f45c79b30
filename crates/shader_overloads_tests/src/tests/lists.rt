//! Tests of rules and of lists of rules that no built-in function has.
ghost use Rattle.std.specs.Prelude.{◌≤◌, IsTrue, length};
ghost use Rattle.std.specs.List.{list_all};
ghost use Rattle.shader_overloads.specs.Remaining.{RulesFit, has_no_struct};

use crate::tests::{
    Built, OUT_OF_MEMORY, SCALAR, VEC2, counted, inner, is_rule, is_type, list_allowed, list_rules,
    prefers,
};
use shader_arena::{Handle, UniqueArena};
use shader_ir::proc::types_backward;
use shader_ir::{AddressSpace, Scalar, Type, TypeInner, mark};
use shader_overloads::utils::{list, rule};
use shader_overloads::{AnyOverloadSet, List, OverloadSet, Rule, rules_fit};
use std::alloc::Global;
use std::process::Abort;

const VECTOR: Built = (VEC2, Scalar::F16);

const INDEX: Built = (SCALAR, Scalar::I32);

/// Returns the rule of a vector and a number whose result is the vector.
fn of_two(rt: &impl Abort, alloc: Global) -> Rule {
    rule(alloc, &[inner(VECTOR), inner(INDEX)], inner(VECTOR)).expect(rt, OUT_OF_MEMORY)
}

/// Returns a rule of five arguments, more than any built-in function takes.
fn of_five(rt: &impl Abort, alloc: Global) -> Rule {
    let numbers = [
        inner(INDEX),
        inner(INDEX),
        inner(INDEX),
        inner(INDEX),
        inner(VECTOR),
    ];
    rule(alloc, &numbers, inner(INDEX)).expect(rt, OUT_OF_MEMORY)
}

#[test]
fn a_rule_is_made_of_its_types(rt: HostRuntime) {
    let built = of_two(&rt, rt.alloc());
    let copy = built.copy(rt.alloc()).expect(&rt, OUT_OF_MEMORY);
    assert!(rt; is_rule(&copy, &[VECTOR, INDEX], VECTOR));
    drop(copy);
    drop(built);
}

/// Returns a list of the rule alone, which a `List` can hold.
fn only(rt: &impl Abort, alloc: Global, rule: Rule) -> Vec<Rule>
    ensures count { length result.items ≤ 63 }
    ensures no_struct { IsTrue (list_all has_no_struct result.items) }
{
    let mut rules = Vec::new(alloc);
    rules.push(rule).expect(rt, OUT_OF_MEMORY);
    assert!(rt; List::can_hold(rules.as_slice()));
    rules
}

#[test]
fn a_list_holds_its_rules(rt: HostRuntime) {
    let rules = only(&rt, rt.alloc(), of_two(&rt, rt.alloc()));
    let stored = List::from_rules(rt.alloc(), rules).expect(&rt, OUT_OF_MEMORY);
    assert!(rt; !stored.is_empty());
    assert!(rt; stored.min_arguments() == 2 && stored.max_arguments() == 2);
    let set = AnyOverloadSet::from(stored);
    assert!(rt; matches!(set, AnyOverloadSet::List(_)));
    assert!(rt; prefers(&rt, rt.alloc(), &set, &[VECTOR, INDEX], VECTOR));
    drop(set);
}

/// Returns 63 rules of a vector and a number, as many as a list can hold: built-in functions have at most 36.
fn of_most(rt: &impl Abort, alloc: Global, types: &UniqueArena<Type, mark::Type>) -> Vec<Rule>
    ensures count { length result.items ≤ 63 }
    ensures no_struct { IsTrue (list_all has_no_struct result.items) }
    ensures fits { RulesFit types.now result.items }
{
    let mut rules = Vec::new(alloc);
    for _ in 0..63 {
        rules.push(of_two(rt, alloc)).expect(rt, OUT_OF_MEMORY);
    }
    assert!(rt; List::can_hold(rules.as_slice()));
    assert!(rt; rules_fit(rules.as_slice(), types));
    rules
}

/// Returns the rules of a list that accept a vector as argument `i`.
fn accepting_vector(
    rt: &impl Abort,
    alloc: Global,
    set: &List,
    i: usize,
    types: &UniqueArena<Type, mark::Type>,
) -> List
    requires fits { RulesFit types.now set.now }
    ensures fits { RulesFit types.now result }
{
    assert!(rt; types_backward(types));
    set.arg(alloc, i, &inner(VECTOR), types)
        .expect(rt, OUT_OF_MEMORY)
}

/// Returns the number of rules of a list.
fn count_of(rt: &impl Abort, alloc: Global, set: &List) -> usize {
    counted(list_rules(alloc, set).expect(rt, OUT_OF_MEMORY))
}

#[test]
fn a_list_of_the_most_rules_is_narrowed(rt: HostRuntime) {
    let alloc = rt.alloc();
    let types = UniqueArena::new(alloc);
    let set = list(alloc, of_most(&rt, alloc, &types)).expect(&rt, OUT_OF_MEMORY);
    assert!(rt; count_of(&rt, alloc, &set) == 63);
    let left = accepting_vector(&rt, alloc, &set, 0, &types);
    assert!(rt; count_of(&rt, alloc, &left) == 63);
    let none = accepting_vector(&rt, alloc, &left, 1, &types);
    assert!(rt; none.is_empty());
    drop(none);
    drop(left);
    drop(set);
}

#[test]
fn a_fifth_argument_is_reported(rt: HostRuntime) {
    let rules = only(&rt, rt.alloc(), of_five(&rt, rt.alloc()));
    let set = list(rt.alloc(), rules).expect(&rt, OUT_OF_MEMORY);
    let reported = list_allowed(rt.alloc(), &set, 4).expect(&rt, OUT_OF_MEMORY);
    assert!(rt; reported.len() == 1 && reported.iter().all(|it| is_type(it, VECTOR)));
}

/// Returns whether a rule with one argument of the type fits a module without types.
fn fits_no_types(rt: &impl Abort, alloc: Global, argument: TypeInner) -> bool {
    let rules = [rule(alloc, &[argument], inner(INDEX)).expect(rt, OUT_OF_MEMORY)];
    let types = UniqueArena::new(alloc);
    rules_fit(&rules, &types)
}

#[test]
fn rules_fit_where_their_types_are_there(rt: HostRuntime) {
    assert!(rt; fits_no_types(&rt, rt.alloc(), inner(VECTOR)));
    let pointer = TypeInner::Pointer {
        base: Handle::from_index(0),
        space: AddressSpace::Private,
    };
    assert!(rt; !fits_no_types(&rt, rt.alloc(), pointer));
}
