//! Reads expressions.
ghost use Rattle.std.specs.Prelude.{IfOk, None, Some};
ghost use Rattle.json.specs.Value.{value_view};
ghost use Rattle.shader_json_expressions.specs.Expressions.{IsExpression, IsExpressionOf};
ghost use Rattle.shader_json_declarations.specs.Arenas.{IsArena};
ghost use Rattle.shader_json_reader.specs.Answers.{Accepts};

use crate::variants::{
    access, access_index, atomic_result, binary, compose, conversion, cooperative_load,
    cooperative_multiply_add, derivative, image_load, image_query, image_sample, literal, load,
    math, ray_query_get_intersection, ray_query_vertex_positions, relational, select, splat,
    subgroup_operation_result, swizzle, unary, work_group_uniform_load_result,
};
use json::Value;
use shader_arena::Arena;
use shader_ir::{Expression, mark};
use shader_json_declarations::{Data, Read, Variant};
use shader_json_reader::{Context, Failure, within};

/// The expressions of a function or of a module.
#[derive(Drop)]
pub struct Expressions(pub Arena<Expression, mark::Expression>);

impl Read for Expressions {
    ghost reads = { λ j expressions. IsArena IsExpression j expressions.0 };

    fn read(context: Context, value: &Value<'_>) -> Result<Expressions, Failure> {
        let Value::Array(items) = value else {
            return Err(context.refused("an array"));
        };
        let mut expressions = Arena::new(context.alloc);
        for (index, item) in items.iter().enumerate() {
            let expression = expression_at(context, index, item)?;
            if expressions.is_full() {
                return Err(context.refused("an array of at most 4294967295 expressions"));
            }
            expressions.append(expression)?;
        }
        Ok(Expressions(expressions))
    }
}

/// Reads the expression of this index.
fn expression_at(context: Context, index: usize, value: &Value<'_>) -> Result<Expression, Failure>
    ensures reads { IfOk result (λ e. IsExpression (value_view value.now) e) }
    ensures accepts { Accepts (IsExpression (value_view value.now)) result }
{
    within(index, read_expression(context, value))
}

/// Reads one expression.
///
/// # Errors
///
/// An allocation failure, or a value that is no expression.
pub fn read_expression(context: Context, value: &Value<'_>) -> Result<Expression, Failure>
    ensures reads { IfOk result (λ e. IsExpression (value_view value.now) e) }
    ensures accepts { Accepts (IsExpression (value_view value.now)) result }
{
    let Variant { name, payload } = Variant::of(context, value)?;
    match payload {
        Some(payload) => with_payload(context, name, payload),
        None => bare(context, name),
    }
}

/// Reads an expression without operands.
fn bare(context: Context, name: &str) -> Result<Expression, Failure>
    ensures reads { IfOk result (IsExpressionOf name.now None) }
    ensures accepts { Accepts (IsExpressionOf name.now None) result }
{
    match name {
        "RayQueryProceedResult" => Ok(Expression::RayQueryProceedResult),
        "SubgroupBallotResult" => Ok(Expression::SubgroupBallotResult),
        _ => Err(context.refused("an expression")),
    }
}

/// Reads the expression of that name.
#[tactic(auto, using(crate::proofs::AnswerLemmas::renamed))]
fn with_payload(context: Context, name: &str, payload: Data<'_, '_>) -> Result<Expression, Failure>
    ensures reads { IfOk result (IsExpressionOf name.now (Some (value_view payload.entry.value.now))) }
    ensures accepts { Accepts (IsExpressionOf name.now (Some (value_view payload.entry.value.now))) result }
{
    match name {
        "Literal" => literal(context, payload),
        "Constant" => Ok(Expression::Constant(payload.read(context)?)),
        "Override" => Ok(Expression::Override(payload.read(context)?)),
        "ZeroValue" => Ok(Expression::ZeroValue(payload.read(context)?)),
        "Compose" => compose(context, payload),
        "Access" => access(context, payload),
        "AccessIndex" => access_index(context, payload),
        "Splat" => splat(context, payload),
        "Swizzle" => swizzle(context, payload),
        "FunctionArgument" => Ok(Expression::FunctionArgument(payload.read(context)?)),
        "GlobalVariable" => Ok(Expression::GlobalVariable(payload.read(context)?)),
        "LocalVariable" => Ok(Expression::LocalVariable(payload.read(context)?)),
        "Load" => load(context, payload),
        "ImageSample" => image_sample(context, payload),
        "ImageLoad" => image_load(context, payload),
        "ImageQuery" => image_query(context, payload),
        "Unary" => unary(context, payload),
        "Binary" => binary(context, payload),
        "Select" => select(context, payload),
        "Derivative" => derivative(context, payload),
        "Relational" => relational(context, payload),
        "Math" => math(context, payload),
        "As" => conversion(context, payload),
        "CallResult" => Ok(Expression::CallResult(payload.read(context)?)),
        "AtomicResult" => atomic_result(context, payload),
        "WorkGroupUniformLoadResult" => work_group_uniform_load_result(context, payload),
        "ArrayLength" => Ok(Expression::ArrayLength(payload.read(context)?)),
        "RayQueryVertexPositions" => ray_query_vertex_positions(context, payload),
        "RayQueryGetIntersection" => ray_query_get_intersection(context, payload),
        "SubgroupOperationResult" => subgroup_operation_result(context, payload),
        "CooperativeLoad" => cooperative_load(context, payload),
        "CooperativeMultiplyAdd" => cooperative_multiply_add(context, payload),
        _ => Err(context.refused("an expression")),
    }
}
