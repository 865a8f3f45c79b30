//! Reads statements and blocks.
ghost use Rattle.std.specs.Prelude.{Bool, IfOk, None, Some, codes};
ghost use Rattle.json.specs.Value.{members_view, value_view};
ghost use Rattle.shader_ir.specs.Body.{Body as Steps};
ghost use Rattle.shader_ir.specs.BodyOf.{cases_of, step_of};
ghost use Rattle.shader_ir.specs.declared.statement.SwitchValue.{SwitchValue};
ghost use Rattle.shader_json_functions.specs.Statements.{AreCases, IsBlock, IsCase, IsSimpleOf, IsStatement, IsStepOf};
ghost use Rattle.shader_json_reader.specs.Answers.{Accepts};
ghost use Rattle.shader_json_reader.specs.Numbers.{IsHandle};
ghost use Rattle.shader_json_reader.specs.Shapes.{IsArray, IsOnly, values_of};

use crate::code::Code;
use crate::next::{ReadNext, next_value};
use json::{Reader, Value};
use shader_arena::Handle;
use shader_ir::{Block, Items, Statement, SwitchCase, mark};
use shader_json_declarations::{Data, Fields, Read, Variant};
use shader_json_expressions::Tile;
use shader_json_reader::{Context, Failure, within};

/// The statements of a function.
#[derive(Drop)]
pub(crate) struct Body(pub Block);

impl Read for Body {
    ghost reads = { λ j body. IsBlock j body.0 };

    fn read(context: Context, value: &Value<'_>) -> Result<Body, Failure> {
        Ok(Body(block(context, value)?))
    }
}

impl ReadNext for Statement {
    ghost stands = { λ j statement. IsStatement j (step_of statement) };

    fn read_next(
        context: Context,
        reader: &mut Reader<'_>,
        depth: usize,
    ) -> Result<Statement, Failure> {
        let value = next_value(context, reader, depth)?;
        statement(context, &value)
    }
}

impl ReadNext for Body {
    ghost stands = { λ j body. IsBlock j body.0 };

    fn read_next(context: Context, reader: &mut Reader<'_>, depth: usize) -> Result<Body, Failure> {
        let items: Items<Statement> = Items::read_next(context, reader, depth)?;
        let statements = items.into_vec();
        Ok(Body(Block { statements }))
    }
}

/// The expression whose value is the old value of an atomic. naga may omit it, but the IR here requires it.
#[derive(Drop)]
struct OldValue(Handle<mark::Expression>);

impl Read for OldValue {
    ghost reads = { λ j old. IsHandle j old.0 };

    fn read(context: Context, value: &Value<'_>) -> Result<OldValue, Failure> {
        if value.is_null() {
            return Err(context.refused(
                "a handle: an atomic operation without a result can't be held",
            ));
        }
        Ok(OldValue(Handle::read(context, value)?))
    }
}

/// Reads a block.
#[cycle(statement)]
fn block(context: Context, value: &Value<'_>) -> Result<Block, Failure>
    ensures reads { IfOk result (λ block. IsBlock (value_view value.now) block) }
    ensures accepts { Accepts (IsBlock (value_view value.now)) result }
{
    let Value::Array(items) = value else {
        return Err(context.refused("an array"));
    };
    let mut statements = Vec::with_capacity(context.alloc, items.len())?;
    for (index, item) in items.iter().enumerate() {
        let read = statement_at(context, index, item)?;
        statements.push(read)?;
    }
    Ok(Block { statements })
}

/// Reads the statement of this index.
#[cycle(statement)]
fn statement_at(context: Context, index: usize, value: &Value<'_>) -> Result<Statement, Failure>
    ensures reads { IfOk result (λ statement. IsStatement (value_view value.now) (step_of statement)) }
    ensures accepts { Accepts (IsStatement (value_view value.now)) result }
{
    within(index, statement(context, value))
}

/// Reads a statement.
#[cycle(statement)]
fn statement(context: Context, value: &Value<'_>) -> Result<Statement, Failure>
    ensures reads { IfOk result (λ statement. IsStatement (value_view value.now) (step_of statement)) }
    ensures accepts { Accepts (IsStatement (value_view value.now)) result }
{
    let Variant { name, payload } = Variant::of(context, value)?;
    let Some(payload) = payload else {
        return bare(context, name);
    };
    match name {
        "Block" => nested(context, payload),
        "If" => if_else(context, payload),
        "Switch" => switch(context, payload),
        "Loop" => repeat(context, payload),
        _ => simple(context, name, payload),
    }
}

/// Reads a block within a block.
#[cycle(statement)]
fn nested(context: Context, payload: Data<'_, '_>) -> Result<Statement, Failure>
    ensures reads { IfOk result (λ statement. IsStepOf (step_of statement) (codes "Block") (Some (value_view payload.entry.value.now))) }
    ensures accepts { Accepts (λ step. IsStepOf step (codes "Block") (Some (value_view payload.entry.value.now))) result }
{
    Ok(Statement::Block(within(0, block(context, payload.value))?))
}

/// Reads a statement that runs one of two blocks.
#[cycle(statement)]
fn if_else(context: Context, payload: Data<'_, '_>) -> Result<Statement, Failure>
    ensures reads { IfOk result (λ statement. IsStepOf (step_of statement) (codes "If") (Some (value_view payload.entry.value.now))) }
    ensures accepts { Accepts (λ step. IsStepOf step (codes "If") (Some (value_view payload.entry.value.now))) result }
{
    let fields = payload.fields(context)?;
    Ok(Statement::If {
        condition: fields.needed(context, "condition")?,
        accept: inner(context, fields, "accept")?,
        reject: inner(context, fields, "reject")?,
    })
}

/// Reads a statement that runs the block of a case.
#[cycle(statement)]
fn switch(context: Context, payload: Data<'_, '_>) -> Result<Statement, Failure>
    ensures reads { IfOk result (λ statement. IsStepOf (step_of statement) (codes "Switch") (Some (value_view payload.entry.value.now))) }
    ensures accepts { Accepts (λ step. IsStepOf step (codes "Switch") (Some (value_view payload.entry.value.now))) result }
{
    let fields = payload.fields(context)?;
    Ok(Statement::Switch {
        selector: fields.needed(context, "selector")?,
        cases: cases(context, fields)?,
    })
}

/// Reads a statement that repeats two blocks.
#[cycle(statement)]
fn repeat(context: Context, payload: Data<'_, '_>) -> Result<Statement, Failure>
    ensures reads { IfOk result (λ statement. IsStepOf (step_of statement) (codes "Loop") (Some (value_view payload.entry.value.now))) }
    ensures accepts { Accepts (λ step. IsStepOf step (codes "Loop") (Some (value_view payload.entry.value.now))) result }
{
    let fields = payload.fields(context)?;
    Ok(Statement::Loop {
        body: inner(context, fields, "body")?,
        continuing: inner(context, fields, "continuing")?,
        break_if: fields.optional(context, "break_if")?,
    })
}

/// Reads a block from a field.
#[cycle(statement)]
fn inner(context: Context, fields: Fields<'_, '_>, name: &'static str) -> Result<Block, Failure>
    ensures reads { IfOk result (λ block. IsOnly (λ j. IsBlock j block) (values_of name.now (members_view fields.entry.members.now))) }
    ensures accepts { Accepts (λ block. IsOnly (λ j. IsBlock j block) (values_of name.now (members_view fields.entry.members.now))) result }
{
    match fields.member(context, name) {
        Ok((index, value)) => fields.seen(within(index, block(context, value))),
        Err(failure) => fields.seen(Err(failure)),
    }
}

/// Reads the cases of a switch from a field.
#[cycle(statement)]
fn cases(context: Context, fields: Fields<'_, '_>) -> Result<Vec<SwitchCase>, Failure>
    ensures reads { IfOk result (λ cases. IsOnly (λ j. IsArray j (λ js. AreCases (cases_of cases.items) js))
        (values_of (codes "cases") (members_view fields.entry.members.now))) }
    ensures accepts { Accepts (λ cases. IsOnly (λ j. IsArray j (λ js. AreCases cases js))
        (values_of (codes "cases") (members_view fields.entry.members.now))) result }
{
    match fields.member(context, "cases") {
        Ok((index, value)) => fields.seen(within(index, case_list(context, value))),
        Err(failure) => fields.seen(Err(failure)),
    }
}

/// Reads the cases of a switch from an array.
#[cycle(statement)]
fn case_list(context: Context, value: &Value<'_>) -> Result<Vec<SwitchCase>, Failure>
    ensures reads { IfOk result (λ cases. IsArray (value_view value.now) (λ js. AreCases (cases_of cases.items) js)) }
    ensures accepts { Accepts (λ cases. IsArray (value_view value.now) (λ js. AreCases cases js)) result }
{
    let Value::Array(items) = value else {
        return Err(context.refused("an array"));
    };
    let mut cases = Vec::with_capacity(context.alloc, items.len())?;
    for (index, item) in items.iter().enumerate() {
        let read = case_at(context, index, item)?;
        cases.push(read)?;
    }
    Ok(cases)
}

/// Reads the case of this index.
#[cycle(statement)]
fn case_at(context: Context, index: usize, value: &Value<'_>) -> Result<SwitchCase, Failure>
    ensures reads { IfOk result (λ case. IsCase (value_view value.now) case.value case.body case.fall_through) }
    ensures accepts { Accepts (λ (case : SwitchValue × Steps × Bool). IsCase (value_view value.now) case.0 case.1 case.2) result }
{
    within(index, case(context, value))
}

/// Reads a case of a switch.
#[cycle(statement)]
fn case(context: Context, value: &Value<'_>) -> Result<SwitchCase, Failure>
    ensures reads { IfOk result (λ case. IsCase (value_view value.now) case.value case.body case.fall_through) }
    ensures accepts { Accepts (λ (case : SwitchValue × Steps × Bool). IsCase (value_view value.now) case.0 case.1 case.2) result }
{
    let fields = Fields::of(context, value)?;
    let Code(selected) = fields.needed(context, "value")?;
    Ok(SwitchCase {
        value: selected,
        body: inner(context, fields, "body")?,
        fall_through: fields.needed(context, "fall_through")?,
    })
}

/// Reads a statement without operands.
fn bare(context: Context, name: &str) -> Result<Statement, Failure>
    ensures reads { IfOk result (λ statement. IsStepOf (step_of statement) name.now None) }
    ensures accepts { Accepts (λ step. IsStepOf step name.now None) result }
{
    match name {
        "Break" => Ok(Statement::Break),
        "Continue" => Ok(Statement::Continue),
        "Kill" => Ok(Statement::Kill),
        _ => Err(context.refused("a statement")),
    }
}

/// Reads a statement with operands that contains no block.
fn simple(context: Context, name: &str, payload: Data<'_, '_>) -> Result<Statement, Failure>
    ensures reads { IfOk result (λ statement. IsStepOf (step_of statement) name.now (Some (value_view payload.entry.value.now))) }
    ensures accepts { Accepts (IsSimpleOf name.now (Some (value_view payload.entry.value.now))) result }
{
    match name {
        "Emit" => emit(context, payload),
        "Return" => leave(context, payload),
        "ControlBarrier" => control_barrier(context, payload),
        "MemoryBarrier" => memory_barrier(context, payload),
        "Call" => call(context, payload),
        "Store" => store(context, payload),
        "ImageStore" => image_store(context, payload),
        "WorkGroupUniformLoad" => uniform_load(context, payload),
        "CooperativeStore" => cooperative_store(context, payload),
        "Atomic" => atomic(context, payload),
        "ImageAtomic" => image_atomic(context, payload),
        "RayQuery" => ray_query(context, payload),
        "RayPipelineFunction" => ray_pipeline(context, payload),
        "SubgroupBallot" => ballot(context, payload),
        "SubgroupGather" => gather(context, payload),
        "SubgroupCollectiveOperation" => collective(context, payload),
        _ => Err(context.refused("a statement")),
    }
}

/// Reads a statement that evaluates expressions.
fn emit(context: Context, payload: Data<'_, '_>) -> Result<Statement, Failure>
    ensures reads { IfOk result (λ statement. IsStepOf (step_of statement) (codes "Emit") (Some (value_view payload.entry.value.now))) }
    ensures accepts { Accepts (IsSimpleOf (codes "Emit") (Some (value_view payload.entry.value.now))) result }
{
    Ok(Statement::Emit(payload.read(context)?))
}

/// Reads a statement that leaves the function.
fn leave(context: Context, payload: Data<'_, '_>) -> Result<Statement, Failure>
    ensures reads { IfOk result (λ statement. IsStepOf (step_of statement) (codes "Return") (Some (value_view payload.entry.value.now))) }
    ensures accepts { Accepts (IsSimpleOf (codes "Return") (Some (value_view payload.entry.value.now))) result }
{
    Ok(Statement::Return {
        value: payload.fields(context)?.optional(context, "value")?,
    })
}

/// Reads a barrier at which invocations wait.
fn control_barrier(context: Context, payload: Data<'_, '_>) -> Result<Statement, Failure>
    ensures reads { IfOk result (λ statement. IsStepOf (step_of statement) (codes "ControlBarrier")
        (Some (value_view payload.entry.value.now))) }
    ensures accepts { Accepts (IsSimpleOf (codes "ControlBarrier") (Some (value_view payload.entry.value.now))) result }
{
    let Code(barrier) = payload.read(context)?;
    Ok(Statement::ControlBarrier(barrier))
}

/// Reads a barrier that only orders accesses.
fn memory_barrier(context: Context, payload: Data<'_, '_>) -> Result<Statement, Failure>
    ensures reads { IfOk result (λ statement. IsStepOf (step_of statement) (codes "MemoryBarrier")
        (Some (value_view payload.entry.value.now))) }
    ensures accepts { Accepts (IsSimpleOf (codes "MemoryBarrier") (Some (value_view payload.entry.value.now))) result }
{
    let Code(barrier) = payload.read(context)?;
    Ok(Statement::MemoryBarrier(barrier))
}

/// Reads a call of a function.
fn call(context: Context, payload: Data<'_, '_>) -> Result<Statement, Failure>
    ensures reads { IfOk result (λ statement. IsStepOf (step_of statement) (codes "Call") (Some (value_view payload.entry.value.now))) }
    ensures accepts { Accepts (IsSimpleOf (codes "Call") (Some (value_view payload.entry.value.now))) result }
{
    let fields = payload.fields(context)?;
    let (function, arguments) = fields.pair(context, "function", "arguments")?;
    Ok(Statement::Call {
        function,
        arguments,
        result: fields.optional(context, "result")?,
    })
}

/// Reads a statement that writes through a pointer.
fn store(context: Context, payload: Data<'_, '_>) -> Result<Statement, Failure>
    ensures reads { IfOk result (λ statement. IsStepOf (step_of statement) (codes "Store") (Some (value_view payload.entry.value.now))) }
    ensures accepts { Accepts (IsSimpleOf (codes "Store") (Some (value_view payload.entry.value.now))) result }
{
    let (pointer, value) = payload.pair(context, "pointer", "value")?;
    Ok(Statement::Store { pointer, value })
}

/// Reads a statement that writes to an image.
fn image_store(context: Context, payload: Data<'_, '_>) -> Result<Statement, Failure>
    ensures reads { IfOk result (λ statement. IsStepOf (step_of statement) (codes "ImageStore")
        (Some (value_view payload.entry.value.now))) }
    ensures accepts { Accepts (IsSimpleOf (codes "ImageStore") (Some (value_view payload.entry.value.now))) result }
{
    let fields = payload.fields(context)?;
    let (image, coordinate) = fields.pair(context, "image", "coordinate")?;
    Ok(Statement::ImageStore {
        image,
        coordinate,
        array_index: fields.optional(context, "array_index")?,
        value: fields.needed(context, "value")?,
    })
}

/// Reads a load for a whole work group.
fn uniform_load(context: Context, payload: Data<'_, '_>) -> Result<Statement, Failure>
    ensures reads { IfOk result (λ statement. IsStepOf (step_of statement) (codes "WorkGroupUniformLoad")
        (Some (value_view payload.entry.value.now))) }
    ensures accepts { Accepts (IsSimpleOf (codes "WorkGroupUniformLoad") (Some (value_view payload.entry.value.now))) result }
{
    let (pointer, result) = payload.pair(context, "pointer", "result")?;
    Ok(Statement::WorkGroupUniformLoad { pointer, result })
}

/// Reads a statement that writes a cooperative matrix.
fn cooperative_store(context: Context, payload: Data<'_, '_>) -> Result<Statement, Failure>
    ensures reads { IfOk result (λ statement. IsStepOf (step_of statement) (codes "CooperativeStore")
        (Some (value_view payload.entry.value.now))) }
    ensures accepts { Accepts (IsSimpleOf (codes "CooperativeStore") (Some (value_view payload.entry.value.now))) result }
{
    let (Tile(tile), target) = payload.pair(context, "data", "target")?;
    Ok(Statement::CooperativeStore { target, tile })
}

/// Reads an atomic operation through a pointer.
fn atomic(context: Context, payload: Data<'_, '_>) -> Result<Statement, Failure>
    ensures reads { IfOk result (λ statement. IsStepOf (step_of statement) (codes "Atomic") (Some (value_view payload.entry.value.now))) }
    ensures accepts { Accepts (IsSimpleOf (codes "Atomic") (Some (value_view payload.entry.value.now))) result }
{
    let fields = payload.fields(context)?;
    let (OldValue(result), Code(fun)) = fields.pair(context, "result", "fun")?;
    let (pointer, value) = fields.pair(context, "pointer", "value")?;
    Ok(Statement::Atomic {
        pointer,
        fun,
        value,
        result,
    })
}

/// Reads an atomic operation on an image.
fn image_atomic(context: Context, payload: Data<'_, '_>) -> Result<Statement, Failure>
    ensures reads { IfOk result (λ statement. IsStepOf (step_of statement) (codes "ImageAtomic")
        (Some (value_view payload.entry.value.now))) }
    ensures accepts { Accepts (IsSimpleOf (codes "ImageAtomic") (Some (value_view payload.entry.value.now))) result }
{
    let fields = payload.fields(context)?;
    let (Code(fun), image, coordinate) = fields.triple(context, "fun", "image", "coordinate")?;
    Ok(Statement::ImageAtomic {
        image,
        coordinate,
        array_index: fields.optional(context, "array_index")?,
        fun,
        value: fields.needed(context, "value")?,
    })
}

/// Reads an operation on a ray query.
fn ray_query(context: Context, payload: Data<'_, '_>) -> Result<Statement, Failure>
    ensures reads { IfOk result (λ statement. IsStepOf (step_of statement) (codes "RayQuery") (Some (value_view payload.entry.value.now))) }
    ensures accepts { Accepts (IsSimpleOf (codes "RayQuery") (Some (value_view payload.entry.value.now))) result }
{
    let (Code(fun), query) = payload.pair(context, "fun", "query")?;
    Ok(Statement::RayQuery { query, fun })
}

/// Reads an operation of a ray pipeline.
fn ray_pipeline(context: Context, payload: Data<'_, '_>) -> Result<Statement, Failure>
    ensures reads { IfOk result (λ statement. IsStepOf (step_of statement) (codes "RayPipelineFunction")
        (Some (value_view payload.entry.value.now))) }
    ensures accepts { Accepts (IsSimpleOf (codes "RayPipelineFunction") (Some (value_view payload.entry.value.now))) result }
{
    let Code(fun) = payload.read(context)?;
    Ok(Statement::RayPipelineFunction(fun))
}

/// Reads a vote of a subgroup.
fn ballot(context: Context, payload: Data<'_, '_>) -> Result<Statement, Failure>
    ensures reads { IfOk result (λ statement. IsStepOf (step_of statement) (codes "SubgroupBallot")
        (Some (value_view payload.entry.value.now))) }
    ensures accepts { Accepts (IsSimpleOf (codes "SubgroupBallot") (Some (value_view payload.entry.value.now))) result }
{
    let fields = payload.fields(context)?;
    Ok(Statement::SubgroupBallot {
        result: fields.needed(context, "result")?,
        predicate: fields.optional(context, "predicate")?,
    })
}

/// Reads a statement that exchanges values in a subgroup.
fn gather(context: Context, payload: Data<'_, '_>) -> Result<Statement, Failure>
    ensures reads { IfOk result (λ statement. IsStepOf (step_of statement) (codes "SubgroupGather")
        (Some (value_view payload.entry.value.now))) }
    ensures accepts { Accepts (IsSimpleOf (codes "SubgroupGather") (Some (value_view payload.entry.value.now))) result }
{
    let (Code(mode), argument, result) = payload.triple(context, "mode", "argument", "result")?;
    Ok(Statement::SubgroupGather {
        mode,
        argument,
        result,
    })
}

/// Reads an operation that a whole subgroup computes.
fn collective(context: Context, payload: Data<'_, '_>) -> Result<Statement, Failure>
    ensures reads { IfOk result (λ statement. IsStepOf (step_of statement) (codes "SubgroupCollectiveOperation")
        (Some (value_view payload.entry.value.now))) }
    ensures accepts { Accepts (IsSimpleOf (codes "SubgroupCollectiveOperation") (Some (value_view payload.entry.value.now))) result }
{
    let fields = payload.fields(context)?;
    let (Code(op), Code(collective_op)) = fields.pair(context, "op", "collective_op")?;
    let (argument, result) = fields.pair(context, "argument", "result")?;
    Ok(Statement::SubgroupCollectiveOperation {
        op,
        collective_op,
        argument,
        result,
    })
}
