//! Reads functions and entry points.
ghost use Rattle.std.specs.Prelude.{IfOk, OnOk};
ghost use Rattle.json.specs.Value.{members_view, value_view};
ghost use Rattle.shader_json_declarations.specs.Arenas.{IsArena};
ghost use Rattle.shader_json_declarations.specs.Declarations.{IsStage};
ghost use Rattle.shader_json_functions.specs.Functions.{HasFunction, HasSignature, HasWorkgroupSize, IsEntryPoint, IsFunction};
ghost use Rattle.shader_json_reader.specs.Answers.{Accepts, IsUnrefused};
ghost use Rattle.shader_json_reader.specs.Shapes.{IsList};

use crate::next::{ReadNext, next_value};
use crate::parts::Parts;
use crate::statements::Body;
use json::{Reader, Value};
use shader_arena::{Arena, Handle};
use shader_ir::{EntryPoint, Expression, Function, Items, ShaderStage, mark};
use shader_json_declarations::{Fields, Read, read_item};
use shader_json_expressions::Expressions;
use shader_json_reader::{Context, Failure, within};

/// One function.
#[derive(Drop)]
struct ReadFunction(Function);

/// Fills an empty function from these fields, in a fixed order. A field that can't be read hides the errors of those after it.
fn fill(context: Context, fields: Fields<'_, '_>, function: &mut Function) -> Result<(), Failure>
    ensures reads { OnOk result (HasFunction (members_view fields.entry.members.now) function.new) }
    ensures accepts { Accepts (λ function. HasFunction (members_view fields.entry.members.now) function) result }
{
    let Expressions(expressions) = fields.needed(context, "expressions")?;
    let Body(body) = fields.needed(context, "body")?;
    fill_declarations(context, fields, function)?;
    function.expressions = expressions;
    function.body = body;
    Ok(())
}

/// Fills an empty function with all that these fields declare except its code.
fn fill_declarations(
    context: Context,
    fields: Fields<'_, '_>,
    function: &mut Function,
) -> Result<(), Failure>
    ensures reads { OnOk result (HasSignature (members_view fields.entry.members.now) function.new) }
    ensures accepts { Accepts (λ function. HasSignature (members_view fields.entry.members.now) function) result }
{
    function.name = fields.optional(context, "name")?;
    function.arguments = fields.needed(context, "arguments")?;
    function.result = fields.optional(context, "result")?;
    function.local_variables = fields.needed(context, "local_variables")?;
    function.named_expressions = fields.needed(context, "named_expressions")?;
    function.diagnostic_filter_leaf = fields.optional(context, "diagnostic_filter_leaf")?;
    Ok(())
}

impl ReadNext for Function {
    ghost stands = { λ j function. IsFunction j function };

    fn read_next(
        context: Context,
        reader: &mut Reader<'_>,
        depth: usize,
    ) -> Result<Function, Failure> {
        let parts: Parts<'_, Arena<Expression, mark::Expression>, Body> = Parts::read_next(
            context,
            reader,
            depth,
            "expressions",
            "body",
        )?;
        let Parts {
            first,
            second: Body(body),
            rest,
        } = parts;
        let fields = Fields::of(context, &rest)?;
        let mut function = Function::new(context.alloc);
        fill_declarations(context, fields, &mut function)?;
        function.expressions = first;
        function.body = body;
        Ok(function)
    }
}

impl Read for ReadFunction {
    ghost reads = { λ j function. IsFunction j function.0 };

    fn read(context: Context, value: &Value<'_>) -> Result<ReadFunction, Failure> {
        let fields = Fields::of(context, value)?;
        let mut function = Function::new(context.alloc);
        fill(context, fields, &mut function)?;
        Ok(ReadFunction(function))
    }
}

/// The functions that may be called.
#[derive(Drop)]
pub struct Functions(pub Arena<Function, mark::Function>);

impl Read for Functions {
    ghost reads = { λ j functions. IsArena IsFunction j functions.0 };

    fn read(context: Context, value: &Value<'_>) -> Result<Functions, Failure> {
        let Value::Array(items) = value else {
            return Err(context.refused("an array"));
        };
        let mut functions = Arena::new(context.alloc);
        for (index, item) in items.iter().enumerate() {
            let read: ReadFunction = read_item(context, index, item)?;
            let ReadFunction(function) = read;
            if functions.is_full() {
                return Err(context.refused("an array of at most 4294967295 functions"));
            }
            functions.append(function)?;
        }
        Ok(Functions(functions))
    }
}

/// The functions at which a pipeline may start.
#[derive(Drop)]
pub struct EntryPoints(pub Items<EntryPoint>);

impl Read for EntryPoints {
    ghost reads = { λ j entry_points. IsList IsEntryPoint j entry_points.0 };

    fn read(context: Context, value: &Value<'_>) -> Result<EntryPoints, Failure> {
        let Value::Array(items) = value else {
            return Err(context.refused("an array"));
        };
        let mut entry_points = Vec::with_capacity(context.alloc, items.len())?;
        for (index, item) in items.iter().enumerate() {
            let read = entry_point_at(context, index, item)?;
            entry_points.push(read)?;
        }
        Ok(EntryPoints(Items::from(entry_points)))
    }
}

/// Reads the entry point of this index.
fn entry_point_at(context: Context, index: usize, value: &Value<'_>) -> Result<EntryPoint, Failure>
    ensures reads { IfOk result (λ entry_point. IsEntryPoint (value_view value.now) entry_point) }
    ensures accepts { Accepts (IsEntryPoint (value_view value.now)) result }
{
    within(index, entry_point(context, value))
}

/// Checks the size of the work groups of an entry point with these fields, which the IR lacks.
fn check_workgroup_size(context: Context, fields: Fields<'_, '_>) -> Result<(), Failure>
    ensures reads { OnOk result (HasWorkgroupSize (members_view fields.entry.members.now)) }
    ensures accepts { HasWorkgroupSize (members_view fields.entry.members.now) → IsUnrefused result }
{
    fields.check_optional::<[u32; 3]>(context, "workgroup_size")?;
    fields.check_optional::<[Option<Handle<mark::Expression>>; 3]>(
        context,
        "workgroup_size_overrides",
    )
}

/// Reads an entry point.
fn entry_point(context: Context, value: &Value<'_>) -> Result<EntryPoint, Failure>
    ensures reads { IfOk result (λ entry_point. IsEntryPoint (value_view value.now) entry_point) }
    ensures accepts { Accepts (IsEntryPoint (value_view value.now)) result }
{
    let fields = Fields::of(context, value)?;
    let (ReadFunction(function), name, stage) = fields.triple(
        context, "function", "name", "stage",
    )?;
    check_workgroup_size(context, fields)?;
    Ok(EntryPoint {
        name,
        stage,
        function,
    })
}

impl ReadNext for ShaderStage {
    ghost stands = { λ j stage. IsStage j stage };

    fn read_next(
        context: Context,
        reader: &mut Reader<'_>,
        depth: usize,
    ) -> Result<ShaderStage, Failure> {
        let value = next_value(context, reader, depth)?;
        ShaderStage::read(context, &value)
    }
}

impl ReadNext for EntryPoint {
    ghost stands = { λ j entry_point. IsEntryPoint j entry_point };

    fn read_next(
        context: Context,
        reader: &mut Reader<'_>,
        depth: usize,
    ) -> Result<EntryPoint, Failure> {
        let parts: Parts<'_, Function, ShaderStage> = Parts::read_next(
            context, reader, depth, "function", "stage",
        )?;
        let Parts {
            first: function,
            second: stage,
            rest,
        } = parts;
        let fields = Fields::of(context, &rest)?;
        let name = fields.needed(context, "name")?;
        check_workgroup_size(context, fields)?;
        Ok(EntryPoint {
            name,
            stage,
            function,
        })
    }
}
