//! One walk over the statements of a function, which adds their implications in the order of the text.
ghost use Rattle.std.specs.Prelude.{◌≡◌, ◌+◌, ◌∷◌, ◌++◌, [], None, Some, IfOk, OnOk};
ghost use Rattle.shader_ir.specs.BodyOf.{cases_of, step_of};
ghost use Rattle.shader_uniformity.specs.Apart.{block_rules, branch_rules, break_rules, cases_rules, continuing_rules, end_rules};
ghost use Rattle.shader_uniformity.specs.Apart.{enter_case_rules, enter_loop_rules, fall_rules, falls_from, leave_loop_rules};
ghost use Rattle.shader_uniformity.specs.Apart.{leave_switch_rules};
ghost use Rattle.shader_uniformity.specs.Apart.{own_rules, query_rules, step_rules, uniform_load_rules, value_rules};
ghost use Rattle.shader_uniformity.specs.Leaves.{cases_escape};
ghost use Rattle.shader_uniformity.specs.Marks.{leads};
ghost use Rattle.shader_uniformity.specs.Positions.{block_end, cases_end, reads_at, step_end};

use crate::calls::{CallSite, add_call};
use crate::differs::{add_emits, add_need, add_store, add_stores};
use crate::facts::{Fact, Jump, Place, Rule};
use crate::leaves::{add_all_passes, add_case_jumps, add_parts, add_pass, cases_escape};
use crate::rules::{Scope, add_rule, next, reads_at};
use shader_arena::Handle;
use shader_ir::{Block, RayPipelineFunction, RayQueryFunction, Statement, SwitchCase, mark};
use std::alloc::AllocError;

/// Adds that the result is non-uniform if the value of a `Return` is, or if control flow diverges there.
fn add_value(
    rules: &mut Vec<Rule>,
    position: u32,
    value: Option<Handle<mark::Expression>>,
) -> Result<(), AllocError>
    ensures { OnOk result (rules.new.items ≡ rules.old.items ++ value_rules position value) }
{
    match value {
        Some(expression) => {
            add_rule(rules, Fact::Differs(expression), Fact::Gives)?;
            add_rule(rules, Fact::Apart(position), Fact::Gives)
        }
        None => Ok(()),
    }
}

/// Adds that control flow diverges in a block if it does at the statement, or if the condition is non-uniform.
fn add_branch(
    rules: &mut Vec<Rule>,
    position: u32,
    condition: Handle<mark::Expression>,
    block: u32,
) -> Result<(), AllocError>
    ensures { OnOk result (rules.new.items ≡ rules.old.items ++ branch_rules position condition block) }
{
    add_rule(rules, Fact::Apart(position), Fact::Apart(block))?;
    add_rule(rules, Fact::Differs(condition), Fact::Apart(block))
}

fn add_fall(rules: &mut Vec<Rule>, fallen: Option<u32>, case: u32) -> Result<(), AllocError>
    ensures { OnOk result (rules.new.items ≡ rules.old.items ++ fall_rules fallen case) }
{
    match fallen {
        Some(before) => {
            add_rule(rules, Fact::Apart(before), Fact::Apart(case))?;
            add_parts(rules, before, case)
        }
        None => Ok(()),
    }
}

/// Adds the causes by which control flow diverges in a case of a `Switch`.
fn enter_case(
    rules: &mut Vec<Rule>,
    position: u32,
    selector: Handle<mark::Expression>,
    fallen: Option<u32>,
    case: u32,
) -> Result<(), AllocError>
    ensures { OnOk result (rules.new.items ≡ rules.old.items ++ enter_case_rules position selector fallen case) }
{
    add_branch(rules, position, selector, case)?;
    add_fall(rules, fallen, case)
}

fn falls_from(fall_through: bool, case: u32) -> Option<u32>
    ensures { result ≡ falls_from fall_through case }
{
    if fall_through { Some(case) } else { None }
}

fn add_breaks(
    rules: &mut Vec<Rule>,
    escapes: bool,
    cases: u32,
    behind: u32,
) -> Result<(), AllocError>
    ensures { OnOk result (rules.new.items ≡ rules.old.items ++ break_rules escapes cases behind) }
{
    if escapes {
        add_rule(rules, Fact::Leaves(Jump::Break, cases), Fact::Apart(behind))
    } else {
        Ok(())
    }
}

/// Adds the implications of jumps that exit a `Switch`.
fn leave_switch(
    rules: &mut Vec<Rule>,
    cases: u32,
    outer: u32,
    behind: u32,
    escapes: bool,
) -> Result<(), AllocError>
    ensures { OnOk result (rules.new.items ≡ rules.old.items ++ leave_switch_rules cases outer behind escapes) }
{
    add_pass(rules, cases, outer, behind, Jump::Continue)?;
    add_pass(rules, cases, outer, behind, Jump::Return)?;
    add_breaks(rules, escapes, cases, behind)
}

fn add_end(
    rules: &mut Vec<Rule>,
    rounds: u32,
    break_if: Option<Handle<mark::Expression>>,
) -> Result<(), AllocError>
    ensures { OnOk result (rules.new.items ≡ rules.old.items ++ end_rules rounds break_if) }
{
    match break_if {
        Some(condition) => add_rule(rules, Fact::Differs(condition), Fact::Apart(rounds)),
        None => Ok(()),
    }
}

/// Adds the causes by which control flow diverges in the iterations and the body of a `Loop`.
fn enter_loop(
    rules: &mut Vec<Rule>,
    position: u32,
    rounds: u32,
    body: u32,
    break_if: Option<Handle<mark::Expression>>,
) -> Result<(), AllocError>
    ensures { OnOk result (rules.new.items ≡ rules.old.items ++ enter_loop_rules position rounds body break_if) }
{
    add_rule(rules, Fact::Apart(position), Fact::Apart(rounds))?;
    add_rule(rules, Fact::Apart(rounds), Fact::Apart(body))?;
    add_end(rules, rounds, break_if)
}

fn add_continuing(rules: &mut Vec<Rule>, rounds: u32, continuing: u32) -> Result<(), AllocError>
    ensures { OnOk result (rules.new.items ≡ rules.old.items ++ continuing_rules rounds continuing) }
{
    add_rule(rules, Fact::Apart(rounds), Fact::Apart(continuing))
}

/// Returns the position of the outermost `Loop` around the statements of the one at a position.
fn loop_around(position: u32, around: Option<u32>) -> Option<u32>
    ensures { result ≡ Some (reads_at position around) }
{
    Some(reads_at(position, around))
}

/// Adds the implications of jumps that exit the body or the continuing block of a `Loop`.
fn leave_loop(
    rules: &mut Vec<Rule>,
    rounds: u32,
    body: u32,
    continuing: u32,
    outer: u32,
    behind: u32,
) -> Result<(), AllocError>
    ensures { OnOk result (rules.new.items ≡ rules.old.items ++ leave_loop_rules rounds body continuing outer behind) }
{
    add_parts(rules, body, rounds)?;
    add_parts(rules, continuing, rounds)?;
    add_pass(rules, body, outer, behind, Jump::Return)?;
    add_pass(rules, continuing, outer, behind, Jump::Return)
}

/// Adds that a step of a ray query makes the query non-uniform.
fn add_query(
    rules: &mut Vec<Rule>,
    places: &[Place],
    position: u32,
    around: Option<u32>,
    query: Handle<mark::Expression>,
    fun: &RayQueryFunction,
) -> Result<(), AllocError>
    ensures { OnOk result (rules.new.items ≡ rules.old.items ++ query_rules places.now position around query fun.now) }
{
    match fun {
        RayQueryFunction::Proceed { result } => {
            add_rule(rules, Fact::Always, Fact::Differs(*result))?;
            add_store(rules, places, position, around, query, Fact::Always)
        }
        _ => add_store(rules, places, position, around, query, Fact::Always),
    }
}

fn add_uniform_load(
    rules: &mut Vec<Rule>,
    position: u32,
    pointer: Handle<mark::Expression>,
    value: Handle<mark::Expression>,
) -> Result<(), AllocError>
    ensures { OnOk result (rules.new.items ≡ rules.old.items ++ uniform_load_rules position pointer value) }
{
    add_rule(rules, Fact::Apart(position), Fact::Must)?;
    add_rule(rules, Fact::Differs(pointer), Fact::Must)?;
    add_rule(rules, Fact::Apart(position), Fact::Differs(value))
}

/// Adds that a jump exits the block at `outer`: if only some invocations reach the jump, only some exit.
fn add_jump(rules: &mut Vec<Rule>, outer: u32, position: u32, jump: Jump) -> Result<(), AllocError>
    ensures { OnOk result (rules.new.items ≡ rules.old.items ++ leads (Fact.Apart position) (Fact.Leaves jump outer) ∷ []) }
{
    add_rule(rules, Fact::Apart(position), Fact::Leaves(jump, outer))
}

/// Adds that an expression is non-uniform in each call.
fn add_source(rules: &mut Vec<Rule>, expression: Handle<mark::Expression>) -> Result<(), AllocError>
    ensures { OnOk result (rules.new.items ≡ rules.old.items ++ leads Fact.Always (Fact.Differs expression) ∷ []) }
{
    add_rule(rules, Fact::Always, Fact::Differs(expression))
}

/// Adds the implications of a statement without blocks.
fn add_own(
    rules: &mut Vec<Rule>,
    scope: &Scope<'_>,
    outer: u32,
    position: u32,
    around: Option<u32>,
    statement: &Statement,
) -> Result<(), AllocError>
    ensures { OnOk result (rules.new.items ≡ rules.old.items
        ++ own_rules scope.now.expressions.now scope.now.places.now scope.now.callees.now scope.now.severe
        outer position around (step_of statement.now)) }
{
    let places = scope.places;
    match statement {
        Statement::Emit(range) => add_emits(rules, scope, position, around, range),
        Statement::Break => add_jump(rules, outer, position, Jump::Break),
        Statement::Continue => add_jump(rules, outer, position, Jump::Continue),
        Statement::Return { value } => {
            add_jump(rules, outer, position, Jump::Return)?;
            add_value(rules, position, *value)
        }
        Statement::ControlBarrier(_) => add_need(rules, position),
        Statement::MemoryBarrier(_) => add_need(rules, position),
        Statement::Store { pointer, value } => {
            add_stores(rules, places, position, around, *pointer, *value)
        }
        Statement::Atomic {
            pointer,
            result,
            ..
        } => {
            add_source(rules, *result)?;
            add_store(rules, places, position, around, *pointer, Fact::Always)
        }
        Statement::WorkGroupUniformLoad { pointer, result } => {
            add_uniform_load(rules, position, *pointer, *result)
        }
        Statement::Call {
            function,
            arguments,
            result,
        } => {
            let site = CallSite {
                places,
                position,
                around,
                arguments: arguments.as_slice(),
                result: *result,
            };
            add_call(rules, &site, scope.callees, *function)
        }
        Statement::RayQuery { query, fun } => {
            add_query(rules, places, position, around, *query, fun)
        }
        Statement::RayPipelineFunction(RayPipelineFunction::TraceRay { payload, .. }) => {
            add_store(rules, places, position, around, *payload, Fact::Always)
        }
        Statement::SubgroupBallot { result, .. } => add_source(rules, *result),
        Statement::SubgroupGather { result, .. } => add_source(rules, *result),
        Statement::SubgroupCollectiveOperation { result, .. } => add_source(rules, *result),
        Statement::CooperativeStore { target, tile } => {
            add_need(rules, position)?;
            add_stores(rules, places, position, around, tile.pointer, *target)
        }
        _ => Ok(()),
    }
}

/// Adds the implications of the statements of a block that begins at a position. Returns the position after it.
#[cycle(walk)]
pub fn add_block(
    rules: &mut Vec<Rule>,
    scope: &Scope<'_>,
    start: u32,
    around: Option<u32>,
    block: &Block,
) -> Result<u32, AllocError>
    ensures rules { OnOk result (rules.new.items ≡ rules.old.items
        ++ block_rules scope.now.expressions.now scope.now.places.now scope.now.callees.now scope.now.severe
        start start around block.now) }
    ensures end { IfOk result (λ end. end ≡ block_end start block.now) }
{
    let mut position = start;
    for statement in &block.statements {
        let behind = add_statement(rules, scope, start, position, around, statement)?;
        add_rule(rules, Fact::Apart(position), Fact::Apart(behind))?;
        position = behind;
    }
    next(position)
}

/// Adds the implications of a statement in the block at `outer`. Returns the position after it.
#[cycle(walk)]
fn add_statement(
    rules: &mut Vec<Rule>,
    scope: &Scope<'_>,
    outer: u32,
    position: u32,
    around: Option<u32>,
    statement: &Statement,
) -> Result<u32, AllocError>
    ensures rules { OnOk result (rules.new.items ≡ rules.old.items
        ++ step_rules scope.now.expressions.now scope.now.places.now scope.now.callees.now scope.now.severe
        outer position around (step_of statement.now)) }
    ensures end { IfOk result (λ end. end ≡ step_end position (step_of statement.now)) }
{
    match statement {
        Statement::Block(inner) => {
            let first = next(position)?;
            add_rule(rules, Fact::Apart(position), Fact::Apart(first))?;
            let behind = add_block(rules, scope, first, around, inner)?;
            add_all_passes(rules, first, outer, behind)?;
            Ok(behind)
        }
        Statement::If {
            condition,
            accept,
            reject,
        } => {
            let first = next(position)?;
            add_branch(rules, position, *condition, first)?;
            let second = add_block(rules, scope, first, around, accept)?;
            add_branch(rules, position, *condition, second)?;
            let behind = add_block(rules, scope, second, around, reject)?;
            add_all_passes(rules, first, outer, behind)?;
            add_all_passes(rules, second, outer, behind)?;
            Ok(behind)
        }
        Statement::Switch { selector, cases } => {
            let together = next(position)?;
            let first = next(together)?;
            let behind = add_cases(rules, scope, position, *selector, first, around, cases)?;
            let escapes = cases_escape(true, cases);
            leave_switch(rules, together, outer, behind, escapes)?;
            Ok(behind)
        }
        Statement::Loop {
            body,
            continuing,
            break_if,
        } => {
            let moment = loop_around(position, around);
            let rounds = next(position)?;
            let first = next(rounds)?;
            enter_loop(rules, position, rounds, first, *break_if)?;
            let second = add_block(rules, scope, first, moment, body)?;
            add_continuing(rules, rounds, second)?;
            let behind = add_block(rules, scope, second, moment, continuing)?;
            leave_loop(rules, rounds, first, second, outer, behind)?;
            Ok(behind)
        }
        _ => {
            add_own(rules, scope, outer, position, around, statement)?;
            next(position)
        }
    }
}

/// Adds the implications of the cases of the `Switch` at a position, from `first` on. Returns the position after them.
#[cycle(walk)]
fn add_cases(
    rules: &mut Vec<Rule>,
    scope: &Scope<'_>,
    position: u32,
    selector: Handle<mark::Expression>,
    first: u32,
    around: Option<u32>,
    cases: &[SwitchCase],
) -> Result<u32, AllocError>
    ensures rules { OnOk result (rules.new.items ≡ rules.old.items
        ++ cases_rules scope.now.expressions.now scope.now.places.now scope.now.callees.now scope.now.severe
        position selector None first around (cases_of cases.now)) }
    ensures end { IfOk result (λ end. end ≡ cases_end first (cases_of cases.now)) }
{
    let together = next(position)?;
    let mut fallen = None;
    let mut start = first;
    for case in cases {
        enter_case(rules, position, selector, fallen, start)?;
        let behind = add_block(rules, scope, start, around, &case.body)?;
        add_case_jumps(rules, start, together)?;
        fallen = falls_from(case.fall_through, start);
        start = behind;
    }
    Ok(start)
}
