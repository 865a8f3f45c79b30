//! The implications of emitted expressions, loads and stores.
ghost use Rattle.std.specs.Prelude.{◌≡◌, ◌∷◌, ◌++◌, [], OnOk, map};
ghost use Rattle.std.specs.List.{flat_map};
ghost use Rattle.shader_arena.specs.Positions.{positions_between};
ghost use Rattle.shader_ir.specs.Operands.{expression_operands};
ghost use Rattle.shader_uniformity.specs.Differs.{emit_rules, emitted_rules, form_rules, load_rule, operand_rule, sample_rules};
ghost use Rattle.shader_uniformity.specs.Differs.{store_rule, store_rules};
ghost use Rattle.shader_uniformity.specs.Marks.{leads};
ghost use Rattle.shader_uniformity.specs.Needs.{emitted_need, is_implicit, need};

use crate::facts::{Fact, Place, Rule};
use crate::places::place_at;
use crate::rules::{Scope, add_rule, reads_at, writes_at};
use shader_arena::{Handle, Range};
use shader_ir::proc::expression_operands;
use shader_ir::{Expression, SampleLevel, mark};
use std::alloc::AllocError;

/// Checks whether the level is computed from neighbouring invocations.
fn is_implicit(level: &SampleLevel) -> bool
    ensures { result ≡ is_implicit level.now }
{
    match level {
        SampleLevel::Auto => true,
        SampleLevel::Bias(_) => true,
        _ => false,
    }
}

/// Adds that a statement needs uniform control flow.
pub fn add_need(rules: &mut Vec<Rule>, position: u32) -> Result<(), AllocError>
    ensures { OnOk result (rules.new.items ≡ rules.old.items ++ need position) }
{
    add_rule(rules, Fact::Apart(position), Fact::Must)
}

fn add_emitted_need(rules: &mut Vec<Rule>, severe: bool, position: u32) -> Result<(), AllocError>
    ensures { OnOk result (rules.new.items ≡ rules.old.items ++ emitted_need severe position) }
{
    if severe {
        add_need(rules, position)
    } else {
        Ok(())
    }
}

/// Adds that an expression is non-uniform if the memory location that it reads is.
fn add_load(
    rules: &mut Vec<Rule>,
    places: &[Place],
    position: u32,
    around: Option<u32>,
    expression: Handle<mark::Expression>,
    pointer: Handle<mark::Expression>,
) -> Result<(), AllocError>
    ensures { OnOk result (rules.new.items ≡ rules.old.items ++ load_rule places.now position around expression pointer ∷ []) }
{
    let place = place_at(places, pointer);
    let moment = reads_at(position, around);
    add_rule(rules, Fact::Holds(place, moment), Fact::Differs(expression))
}

/// Adds one cause that makes the memory location of a pointer non-uniform.
pub fn add_store(
    rules: &mut Vec<Rule>,
    places: &[Place],
    position: u32,
    around: Option<u32>,
    pointer: Handle<mark::Expression>,
    cause: Fact,
) -> Result<(), AllocError>
    ensures { OnOk result (rules.new.items ≡ rules.old.items ++ store_rule places.now position around pointer cause ∷ []) }
{
    let place = place_at(places, pointer);
    let moment = writes_at(position, around)?;
    add_rule(rules, cause, Fact::Holds(place, moment))
}

/// Adds that a store makes its memory location non-uniform if the value, the pointer or control flow is so.
pub fn add_stores(
    rules: &mut Vec<Rule>,
    places: &[Place],
    position: u32,
    around: Option<u32>,
    pointer: Handle<mark::Expression>,
    value: Handle<mark::Expression>,
) -> Result<(), AllocError>
    ensures { OnOk result (rules.new.items ≡ rules.old.items ++ store_rules places.now position around pointer value) }
{
    add_store(
        rules,
        places,
        position,
        around,
        pointer,
        Fact::Differs(value),
    )?;
    add_store(
        rules,
        places,
        position,
        around,
        pointer,
        Fact::Differs(pointer),
    )?;
    add_store(
        rules,
        places,
        position,
        around,
        pointer,
        Fact::Apart(position),
    )
}

fn add_sample(
    rules: &mut Vec<Rule>,
    severe: bool,
    position: u32,
    expression: Handle<mark::Expression>,
    level: &SampleLevel,
) -> Result<(), AllocError>
    ensures { OnOk result (rules.new.items ≡ rules.old.items ++ sample_rules severe position expression level.now) }
{
    if is_implicit(level) {
        add_rule(rules, Fact::Always, Fact::Differs(expression))?;
        add_emitted_need(rules, severe, position)
    } else {
        Ok(())
    }
}

fn add_derivative(
    rules: &mut Vec<Rule>,
    severe: bool,
    position: u32,
    expression: Handle<mark::Expression>,
) -> Result<(), AllocError>
    ensures { OnOk result (rules.new.items ≡ rules.old.items
        ++ leads Fact.Always (Fact.Differs expression) ∷ emitted_need severe position) }
{
    add_rule(rules, Fact::Always, Fact::Differs(expression))?;
    add_emitted_need(rules, severe, position)
}

/// Adds that an expression is non-uniform if an operand is.
fn add_operands(
    rules: &mut Vec<Rule>,
    handle: Handle<mark::Expression>,
    expression: &Expression,
) -> Result<(), AllocError>
    ensures { OnOk result (rules.new.items ≡ rules.old.items ++ map (operand_rule handle) (expression_operands expression.now)) }
{
    for (operand, _) in expression_operands(expression) {
        add_rule(rules, Fact::Differs(operand), Fact::Differs(handle))?;
    }
    Ok(())
}

/// Adds the implications of an expression's kind, in addition to those of its operands.
fn add_form(
    rules: &mut Vec<Rule>,
    scope: &Scope<'_>,
    position: u32,
    around: Option<u32>,
    handle: Handle<mark::Expression>,
    expression: &Expression,
) -> Result<(), AllocError>
    ensures { OnOk result (rules.new.items ≡ rules.old.items
        ++ form_rules scope.now.places.now position around scope.now.severe handle expression.now) }
{
    let places = scope.places;
    let severe = scope.severe;
    match expression {
        Expression::Load { pointer } => add_load(rules, places, position, around, handle, *pointer),
        Expression::ImageLoad { image, .. } => {
            add_load(rules, places, position, around, handle, *image)
        }
        Expression::RayQueryVertexPositions { query, .. } => {
            add_load(rules, places, position, around, handle, *query)
        }
        Expression::RayQueryGetIntersection { query, .. } => {
            add_load(rules, places, position, around, handle, *query)
        }
        Expression::ImageSample { level, .. } => {
            add_sample(rules, severe, position, handle, level)
        }
        Expression::Derivative { .. } => add_derivative(rules, severe, position, handle),
        Expression::CooperativeLoad { tile, .. } => {
            add_load(rules, places, position, around, handle, tile.pointer)?;
            add_need(rules, position)
        }
        Expression::CooperativeMultiplyAdd { .. } => add_need(rules, position),
        _ => Ok(()),
    }
}

/// Adds the implications of an emitted expression.
fn add_emitted(
    rules: &mut Vec<Rule>,
    scope: &Scope<'_>,
    position: u32,
    around: Option<u32>,
    handle: Handle<mark::Expression>,
) -> Result<(), AllocError>
    ensures { OnOk result (rules.new.items ≡ rules.old.items
        ++ emit_rules scope.now.places.now position around scope.now.severe scope.now.expressions.now handle) }
{
    match scope.expressions.try_get(handle) {
        Some(expression) => {
            add_rule(rules, Fact::Apart(position), Fact::Differs(handle))?;
            add_operands(rules, handle, expression)?;
            add_form(rules, scope, position, around, handle, expression)
        }
        None => Ok(()),
    }
}

/// Adds the implications of an `Emit`.
pub fn add_emits(
    rules: &mut Vec<Rule>,
    scope: &Scope<'_>,
    position: u32,
    around: Option<u32>,
    range: &Range<mark::Expression>,
) -> Result<(), AllocError>
    ensures { OnOk result (rules.new.items ≡ rules.old.items
        ++ flat_map (emit_rules scope.now.places.now position around scope.now.severe scope.now.expressions.now)
        (positions_between range.now.0 range.now.1)) }
{
    for handle in range.iter() {
        add_emitted(rules, scope, position, around, handle)?;
    }
    Ok(())
}
