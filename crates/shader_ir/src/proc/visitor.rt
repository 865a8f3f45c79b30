//! Visits to the operands of expressions and statements, each in one call.
ghost use Rattle.std.specs.Prelude.{◌≡◌, [], ◌∷◌};
ghost use Rattle.std.specs.List.{fold};
ghost use Rattle.std.specs.Option.{option_to_list};
ghost use Rattle.shader_ir.specs.Body.{RayPipeline};
ghost use Rattle.shader_ir.specs.BodyOf.{step_of};
ghost use Rattle.shader_ir.specs.Operands.{exchange_compare, expression_operands, gather_index, level_operands, query_level};
ghost use Rattle.shader_ir.specs.Operands.{ray_query_operands, simple_operands, statement_operands};
ghost use Rattle.shader_ir.specs.Operands.{IsArithmetic, TakesTexels, WritesMemory, WritesTexel};
ghost use Rattle.shader_ir.specs.Slots.{read, read_optional, reads, retained};

use crate::proc::Label;
use crate::{
    AtomicFunction, Expression, GatherMode, ImageQuery, RayPipelineFunction, RayQueryFunction,
    SampleLevel, Statement, mark,
};
use shader_arena::Handle;

/// A state that changes at each operand.
///
/// `step` gives the state after an operand from the one before it.
pub trait Visitor {
    ghost use Rattle.std.specs.Prelude.{ℕ};
    ghost use Rattle.shader_ir.specs.declared.proc.operands.Label.{Label};

    ghost step: { Self → ℕ × Label → Self };

    /// Visits an operand that is used as its label says.
    fn visit(&mut self, operand: Handle<mark::Expression>, label: Label)
        ensures { self.new ≡ step self.old (operand, label) };
}

/// Visits an operand that is read, if any.
#[inline(always)]
fn visit_optional<V: Visitor>(operand: Option<Handle<mark::Expression>>, visitor: &mut V)
    ensures { visitor.new ≡ fold V.step visitor.old (option_to_list (read_optional operand)) }
{
    if let Some(operand) = operand {
        visitor.visit(operand, Label::Read);
    }
}

/// Visits two operands that are read.
#[inline(always)]
fn visit_two<V: Visitor>(
    first: Handle<mark::Expression>,
    second: Handle<mark::Expression>,
    visitor: &mut V,
)
    ensures { visitor.new ≡ fold V.step visitor.old (retained (read first ∷ read second ∷ [])) }
{
    visitor.visit(first, Label::Read);
    visitor.visit(second, Label::Read);
}

/// Visits three operands that are read.
#[inline(always)]
fn visit_three<V: Visitor>(
    first: Handle<mark::Expression>,
    second: Handle<mark::Expression>,
    third: Handle<mark::Expression>,
    visitor: &mut V,
)
    ensures { visitor.new ≡ fold V.step visitor.old (retained (read first ∷ read second ∷ read third ∷ [])) }
{
    visitor.visit(first, Label::Read);
    visitor.visit(second, Label::Read);
    visitor.visit(third, Label::Read);
}

/// Visits operands that are all read.
#[inline]
fn visit_list<V: Visitor>(operands: &[Handle<mark::Expression>], visitor: &mut V)
    ensures { visitor.new ≡ fold V.step visitor.old (reads operands.now) }
{
    for operand in operands {
        visitor.visit(*operand, Label::Read);
    }
}

/// Visits the handles of a level.
#[inline(always)]
fn visit_level<V: Visitor>(level: SampleLevel, visitor: &mut V)
    ensures { visitor.new ≡ fold V.step visitor.old (retained (level_operands level)) }
{
    match level {
        SampleLevel::Auto | SampleLevel::Zero => {}
        SampleLevel::Exact(operand) | SampleLevel::Bias(operand) => visitor.visit(
            operand,
            Label::Read,
        ),
        SampleLevel::Gradient { x, y } => {
            visitor.visit(x, Label::Read);
            visitor.visit(y, Label::Read);
        }
    }
}

/// Visits the level whose size is queried, if any.
#[inline(always)]
fn visit_query_level<V: Visitor>(query: ImageQuery, visitor: &mut V)
    ensures { visitor.new ≡ fold V.step visitor.old (option_to_list (read_optional (query_level query))) }
{
    if let ImageQuery::Size { level } = query {
        visit_optional(level, visitor);
    }
}

/// Visits the value that an exchange compares with, if any.
#[inline(always)]
fn visit_compare<V: Visitor>(fun: AtomicFunction, visitor: &mut V)
    ensures { visitor.new ≡ fold V.step visitor.old (option_to_list (read_optional (exchange_compare fun))) }
{
    if let AtomicFunction::Exchange { compare } = fun {
        visit_optional(compare, visitor);
    }
}

/// Visits the handle of a mode, if it has one.
#[inline(always)]
fn visit_gather_index<V: Visitor>(mode: GatherMode, visitor: &mut V)
    ensures { visitor.new ≡ fold V.step visitor.old (option_to_list (read_optional (gather_index mode))) }
{
    match mode {
        GatherMode::Broadcast(index)
        | GatherMode::Shuffle(index)
        | GatherMode::ShuffleDown(index)
        | GatherMode::ShuffleUp(index)
        | GatherMode::ShuffleXor(index)
        | GatherMode::QuadBroadcast(index) => visitor.visit(index, Label::Read),
        GatherMode::BroadcastFirst | GatherMode::QuadSwap(_) => {}
    }
}

/// Visits the operands of an expression, in order.
#[inline]
pub fn visit_expression<V: Visitor>(expression: &Expression, visitor: &mut V)
    ensures { visitor.new ≡ fold V.step visitor.old (expression_operands expression.now) }
{
    match expression {
        Expression::Compose { components, .. } => visit_list(components.as_slice(), visitor),
        Expression::Access { base, index } => {
            visitor.visit(*base, Label::Part);
            visitor.visit(*index, Label::Read);
        }
        Expression::AccessIndex { base, .. } => visitor.visit(*base, Label::Part),
        Expression::ArrayLength(array) => visitor.visit(*array, Label::Query),
        Expression::ImageQuery { image, query } => {
            visitor.visit(*image, Label::Query);
            visit_query_level(*query, visitor);
        }
        Expression::ImageSample { .. } | Expression::ImageLoad { .. } => {
            visit_image_operands(expression, visitor);
        }
        Expression::Binary { .. } | Expression::Select { .. } | Expression::Math { .. } => {
            visit_arithmetic_operands(expression, visitor);
        }
        Expression::Splat { value: one, .. }
        | Expression::Swizzle { vector: one, .. }
        | Expression::Load { pointer: one }
        | Expression::Unary { expr: one, .. }
        | Expression::Derivative { expr: one, .. }
        | Expression::Relational { argument: one, .. }
        | Expression::As { expr: one, .. }
        | Expression::RayQueryVertexPositions { query: one, .. }
        | Expression::RayQueryGetIntersection { query: one, .. } => visitor.visit(
            *one,
            Label::Read,
        ),
        Expression::CooperativeLoad { tile, .. } => visit_two(tile.pointer, tile.stride, visitor),
        Expression::CooperativeMultiplyAdd { a, b, c } => visit_three(*a, *b, *c, visitor),
        _ => {}
    }
}

/// Visits the operands of an expression that reads texels of an image.
#[inline]
fn visit_image_operands<V: Visitor>(expression: &Expression, visitor: &mut V)
    requires { TakesTexels expression.now }
    ensures { visitor.new ≡ fold V.step visitor.old (expression_operands expression.now) }
{
    match expression {
        Expression::ImageSample {
            image,
            sampler,
            coordinate,
            array_index,
            depth_ref,
            offset,
            level,
            ..
        } => {
            visit_three(*image, *sampler, *coordinate, visitor);
            visit_optional(*array_index, visitor);
            visit_optional(*depth_ref, visitor);
            visit_optional(*offset, visitor);
            visit_level(*level, visitor);
        }
        Expression::ImageLoad {
            image,
            coordinate,
            array_index,
            sample,
            level,
        } => {
            visitor.visit(*image, Label::Read);
            visitor.visit(*coordinate, Label::Read);
            visit_optional(*array_index, visitor);
            visit_optional(*sample, visitor);
            visit_optional(*level, visitor);
        }
        _ => unreachable!(),
    }
}

/// Visits the operands of an expression that computes one value from several.
#[inline]
fn visit_arithmetic_operands<V: Visitor>(expression: &Expression, visitor: &mut V)
    requires { IsArithmetic expression.now }
    ensures { visitor.new ≡ fold V.step visitor.old (expression_operands expression.now) }
{
    match expression {
        Expression::Binary { left, right, .. } => visit_two(*left, *right, visitor),
        Expression::Select {
            condition,
            accept,
            reject,
        } => visit_three(*condition, *accept, *reject, visitor),
        Expression::Math {
            arg,
            arg1,
            arg2,
            arg3,
            ..
        } => {
            visitor.visit(*arg, Label::Read);
            visit_optional(*arg1, visitor);
            visit_optional(*arg2, visitor);
            visit_optional(*arg3, visitor);
        }
        _ => unreachable!(),
    }
}

/// Visits the operands of a statement, in order, without those of the blocks inside.
#[inline]
pub fn visit_statement<V: Visitor>(statement: &Statement, visitor: &mut V)
    ensures { visitor.new ≡ fold V.step visitor.old (statement_operands (step_of statement.now)) }
{
    match statement {
        Statement::If { condition: one, .. }
        | Statement::Switch { selector: one, .. }
        | Statement::WorkGroupUniformLoad { pointer: one, .. }
        | Statement::SubgroupCollectiveOperation { argument: one, .. } => {
            visitor.visit(*one, Label::Read);
        }
        Statement::Loop { break_if: one, .. }
        | Statement::Return { value: one }
        | Statement::SubgroupBallot { predicate: one, .. } => visit_optional(*one, visitor),
        Statement::Store { .. } | Statement::Atomic { .. } | Statement::CooperativeStore { .. } => {
            visit_memory_operands(statement, visitor);
        }
        Statement::ImageStore { .. } | Statement::ImageAtomic { .. } => {
            visit_texel_operands(statement, visitor);
        }
        Statement::Call { arguments, .. } => visit_list(arguments.as_slice(), visitor),
        Statement::RayQuery { query, fun } => {
            visitor.visit(*query, Label::Read);
            visit_ray_query_operands(*fun, visitor);
        }
        Statement::RayPipelineFunction(fun) => visit_ray_pipeline_operands(*fun, visitor),
        Statement::SubgroupGather { mode, argument, .. } => {
            visitor.visit(*argument, Label::Read);
            visit_gather_index(*mode, visitor);
        }
        _ => {}
    }
}

/// Visits the operands of a statement that writes to memory.
#[inline]
fn visit_memory_operands<V: Visitor>(statement: &Statement, visitor: &mut V)
    requires { WritesMemory (step_of statement.now) }
    ensures { visitor.new ≡ fold V.step visitor.old (statement_operands (step_of statement.now)) }
{
    match statement {
        Statement::Store { pointer, value } => {
            visitor.visit(*pointer, Label::Write);
            visitor.visit(*value, Label::Read);
        }
        Statement::Atomic {
            pointer,
            fun,
            value,
            ..
        } => {
            visitor.visit(*pointer, Label::ReadWrite);
            visitor.visit(*value, Label::Read);
            visit_compare(*fun, visitor);
        }
        Statement::CooperativeStore { target, tile } => {
            visitor.visit(*target, Label::Read);
            visitor.visit(tile.pointer, Label::Write);
            visitor.visit(tile.stride, Label::Read);
        }
        _ => unreachable!(),
    }
}

/// Visits the operands of a statement that writes a texel.
#[inline]
fn visit_texel_operands<V: Visitor>(statement: &Statement, visitor: &mut V)
    requires { WritesTexel (step_of statement.now) }
    ensures { visitor.new ≡ fold V.step visitor.old (statement_operands (step_of statement.now)) }
{
    match statement {
        Statement::ImageStore {
            image,
            coordinate,
            array_index,
            value,
        } => {
            visitor.visit(*image, Label::Write);
            visitor.visit(*coordinate, Label::Read);
            visit_optional(*array_index, visitor);
            visitor.visit(*value, Label::Read);
        }
        Statement::ImageAtomic {
            image,
            coordinate,
            array_index,
            fun,
            value,
        } => {
            visitor.visit(*image, Label::Atomic);
            visitor.visit(*coordinate, Label::Read);
            visit_optional(*array_index, visitor);
            visitor.visit(*value, Label::Read);
            visit_compare(*fun, visitor);
        }
        _ => unreachable!(),
    }
}

/// Visits the operands of a step on a ray query, without the query itself.
#[inline]
fn visit_ray_query_operands<V: Visitor>(fun: RayQueryFunction, visitor: &mut V)
    ensures { visitor.new ≡ fold V.step visitor.old (retained (ray_query_operands fun)) }
{
    match fun {
        RayQueryFunction::Initialize {
            acceleration_structure,
            descriptor,
        } => visit_two(acceleration_structure, descriptor, visitor),
        RayQueryFunction::GenerateIntersection { hit_t } => visitor.visit(hit_t, Label::Read),
        RayQueryFunction::Proceed { .. }
        | RayQueryFunction::ConfirmIntersection
        | RayQueryFunction::Terminate => {}
    }
}

/// Visits the operands of a statement of a ray pipeline.
#[inline]
fn visit_ray_pipeline_operands<V: Visitor>(fun: RayPipelineFunction, visitor: &mut V)
    ensures { visitor.new ≡ fold V.step visitor.old (simple_operands (RayPipeline fun)) }
{
    match fun {
        RayPipelineFunction::TraceRay {
            acceleration_structure,
            descriptor,
            payload,
        } => visit_three(acceleration_structure, descriptor, payload, visitor),
    }
}
