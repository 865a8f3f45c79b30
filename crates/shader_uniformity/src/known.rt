//! The summary of a function: which facts at the end of a call follow from which at its beginning.
ghost use Rattle.std.specs.Prelude.{◌≡◌, ◌+◌, ◌∷◌, ◌++◌, [], IfOk, OnOk, Some, slice_get};
ghost use Rattle.std.specs.List.{enumerate_from, flat_map};
ghost use Rattle.shader_uniformity.specs.Cells.{ending};
ghost use Rattle.shader_uniformity.specs.Differs.{argument_is_uniform, argument_rules, binding_is_uniform, built_in_is_uniform};
ghost use Rattle.shader_uniformity.specs.Differs.{pointees_from, shared_rule, source_rules};
ghost use Rattle.shader_uniformity.specs.Fault.{arguments_from, beginnings, endings, function_rules, left_from, lefts_from, IsKnown};
ghost use Rattle.shader_uniformity.specs.Marks.{leads};

use crate::cells::holds;
use crate::facts::{Fact, Place, Rule};
use crate::places::places;
use crate::reach::reach;
use crate::rules::{Scope, add_rule, next};
use crate::walk::add_block;
use shader_arena::{Arena, Handle};
use shader_ir::{Binding, BuiltIn, Expression, Function, FunctionArgument, Items, Module, mark};
use std::alloc::{AllocError, Global};

/// Checks whether a built-in input is the same for all invocations of a work group (WGSL, "Built-in Inputs and Outputs").
fn built_in_is_uniform(built_in: BuiltIn) -> bool
    ensures { result ≡ built_in_is_uniform built_in }
{
    match built_in {
        BuiltIn::WorkGroupId | BuiltIn::WorkGroupSize | BuiltIn::NumWorkGroups => true,
        BuiltIn::Other(_) => false,
    }
}

fn binding_is_uniform(binding: Option<Binding>) -> bool
    ensures { result ≡ binding_is_uniform binding }
{
    match binding {
        Some(Binding::BuiltIn(built_in)) => built_in_is_uniform(built_in),
        _ => false,
    }
}

/// Checks whether an argument of an entry point is the same for all invocations.
fn argument_is_uniform(arguments: &[FunctionArgument], index: u32) -> bool
    ensures { result ≡ argument_is_uniform (slice_get arguments.now index) }
{
    match arguments.get(index as usize) {
        Some(argument) => binding_is_uniform(argument.binding),
        None => false,
    }
}

/// Adds the cause that makes an argument non-uniform.
fn add_argument(
    rules: &mut Vec<Rule>,
    entry: bool,
    arguments: &[FunctionArgument],
    expression: Handle<mark::Expression>,
    index: u32,
) -> Result<(), AllocError>
    ensures { OnOk result (rules.new.items ≡ rules.old.items ++ argument_rules entry arguments.now expression index) }
{
    if entry {
        if argument_is_uniform(arguments, index) {
            Ok(())
        } else {
            add_rule(rules, Fact::Always, Fact::Differs(expression))
        }
    } else {
        add_rule(rules, Fact::Argument(index), Fact::Differs(expression))
    }
}

fn add_source(
    rules: &mut Vec<Rule>,
    entry: bool,
    arguments: &[FunctionArgument],
    handle: Handle<mark::Expression>,
    expression: &Expression,
) -> Result<(), AllocError>
    ensures { OnOk result (rules.new.items ≡ rules.old.items ++ source_rules entry arguments.now (handle, expression.now)) }
{
    match expression {
        Expression::FunctionArgument(index) => {
            add_argument(rules, entry, arguments, handle, *index)
        }
        _ => Ok(()),
    }
}

/// Adds the causes that make the arguments non-uniform.
fn add_sources(
    rules: &mut Vec<Rule>,
    entry: bool,
    arguments: &[FunctionArgument],
    expressions: &Arena<Expression, mark::Expression>,
) -> Result<(), AllocError>
    ensures { OnOk result (rules.new.items ≡ rules.old.items
        ++ flat_map (source_rules entry arguments.now) (enumerate_from 0 expressions.now)) }
{
    for (handle, expression) in expressions.iter() {
        add_source(rules, entry, arguments, handle, expression)?;
    }
    Ok(())
}

/// Adds the implications of the arguments' pointees at the beginning of a call.
fn add_pointees(rules: &mut Vec<Rule>, arguments: &[FunctionArgument]) -> Result<(), AllocError>
    ensures { OnOk result (rules.new.items ≡ rules.old.items ++ pointees_from 0 arguments.now) }
{
    let mut index = 0;
    for _argument in arguments {
        add_rule(
            rules,
            Fact::Behind(index),
            Fact::Holds(Place::Pointee(index), 0),
        )?;
        index = next(index)?;
    }
    Ok(())
}

/// Adds the implications of the arguments' pointees at the end of a call, which is at `moment`.
fn add_lefts(
    rules: &mut Vec<Rule>,
    moment: u32,
    arguments: &[FunctionArgument],
) -> Result<(), AllocError>
    ensures { OnOk result (rules.new.items ≡ rules.old.items ++ left_from moment 0 arguments.now) }
{
    let mut index = 0;
    for _argument in arguments {
        add_rule(
            rules,
            Fact::Holds(Place::Pointee(index), moment),
            Fact::Left(index),
        )?;
        index = next(index)?;
    }
    Ok(())
}

fn add_shared(rules: &mut Vec<Rule>) -> Result<(), AllocError>
    ensures { OnOk result (rules.new.items ≡ rules.old.items ++ shared_rule ∷ []) }
{
    add_rule(rules, Fact::Always, Fact::Holds(Place::Shared, 0))
}

/// Returns the implications of a function or of an entry point.
///
/// # Errors
///
/// `AllocError` if memory runs out, or there are 2^32 positions.
pub fn function_rules(
    alloc: Global,
    module: &Module,
    callees: &[Items<Rule>],
    severe: bool,
    entry: bool,
    function: &Function,
) -> Result<Vec<Rule>, AllocError>
    ensures { IfOk result (λ rules. rules.items ≡ function_rules «module».now callees.now severe entry function.now) }
{
    let expressions = &function.expressions;
    let arguments = function.arguments.as_slice();
    let places = places(alloc, module, expressions)?;
    let scope = Scope {
        expressions,
        places: places.as_slice(),
        callees,
        severe,
    };
    let mut rules = Vec::new(alloc);
    add_shared(&mut rules)?;
    add_pointees(&mut rules, arguments)?;
    add_sources(&mut rules, entry, arguments, expressions)?;
    add_rule(&mut rules, Fact::Flow, Fact::Apart(1))?;
    let end = add_block(&mut rules, &scope, 1, None, &function.body)?;
    add_lefts(&mut rules, end, arguments)?;
    Ok(rules)
}

/// Returns the facts with which a call may begin.
fn beginnings(alloc: Global, arguments: &[FunctionArgument]) -> Result<Vec<Fact>, AllocError>
    ensures { IfOk result (λ facts. facts.items ≡ beginnings arguments.now) }
{
    let mut facts = Vec::new(alloc);
    facts.push(Fact::Always)?;
    facts.push(Fact::Flow)?;
    let mut index = 0;
    for _argument in arguments {
        facts.push(Fact::Argument(index))?;
        facts.push(Fact::Behind(index))?;
        index = next(index)?;
    }
    Ok(facts)
}

/// Returns the facts with which a call may end.
fn endings(alloc: Global, arguments: &[FunctionArgument]) -> Result<Vec<Fact>, AllocError>
    ensures { IfOk result (λ facts. facts.items ≡ endings arguments.now) }
{
    let mut facts = Vec::new(alloc);
    facts.push(Fact::Must)?;
    facts.push(Fact::Gives)?;
    let mut index = 0;
    for _argument in arguments {
        facts.push(Fact::Left(index))?;
        index = next(index)?;
    }
    Ok(facts)
}

/// Adds an ending if the table has it.
fn add_ending(
    known: &mut Vec<Rule>,
    table: &[Option<u32>],
    first: &Fact,
    last: &Fact,
) -> Result<(), AllocError>
    ensures { OnOk result (known.new.items ≡ known.old.items ++ ending table.now first.now last.now) }
{
    if holds(table, last) {
        add_rule(known, *first, *last)
    } else {
        Ok(())
    }
}

/// Adds the endings that the table has.
fn add_ended(
    known: &mut Vec<Rule>,
    table: &[Option<u32>],
    first: &Fact,
    lasts: &[Fact],
) -> Result<(), AllocError>
    ensures { OnOk result (known.new.items ≡ known.old.items ++ flat_map (ending table.now first.now) lasts.now) }
{
    for last in lasts {
        add_ending(known, table, first, last)?;
    }
    Ok(())
}

/// Returns the endings that follow from each beginning.
fn known_by(
    alloc: Global,
    rules: &[Rule],
    firsts: &[Fact],
    lasts: &[Fact],
) -> Result<Vec<Rule>, AllocError>
    ensures { IfOk result (λ known. IsKnown firsts.now lasts.now rules.now known.items) }
{
    let mut known = Vec::new(alloc);
    for first in firsts {
        let table = reach(alloc, rules, first)?;
        add_ended(&mut known, &table, first, lasts)?;
    }
    Ok(known)
}

/// Returns the summary of a function, given its implications.
///
/// # Errors
///
/// `AllocError` if memory runs out.
pub fn known_of(
    alloc: Global,
    arguments: &[FunctionArgument],
    rules: &[Rule],
) -> Result<Items<Rule>, AllocError>
    ensures { IfOk result (λ known. IsKnown (beginnings arguments.now) (endings arguments.now) rules.now known) }
{
    let firsts = beginnings(alloc, arguments)?;
    let lasts = endings(alloc, arguments)?;
    let known = known_by(alloc, rules, &firsts, &lasts)?;
    Ok(Items::from(known))
}
