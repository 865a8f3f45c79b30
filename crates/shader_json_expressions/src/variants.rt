//! Reads expressions by their fields, each variant by a function of its own.
ghost use Rattle.std.specs.Prelude.{IfOk, Some, codes};
ghost use Rattle.json.specs.Value.{value_view};
ghost use Rattle.shader_json_expressions.specs.Expressions.{IsExpressionOf};
ghost use Rattle.shader_json_reader.specs.Answers.{Accepts};

use crate::code::Code;
use crate::expression_parts::Tile;
use crate::operators::Pattern;
use shader_ir::Expression;
use shader_json_declarations::Data;
use shader_json_reader::{Context, Failure};

/// Reads a literal.
pub(crate) fn literal(context: Context, payload: Data<'_, '_>) -> Result<Expression, Failure>
    ensures reads { IfOk result (IsExpressionOf (codes "Literal") (Some (value_view payload.entry.value.now))) }
    ensures accepts { Accepts (IsExpressionOf (codes "Literal") (Some (value_view payload.entry.value.now))) result }
{
    let Code(literal) = payload.read(context)?;
    Ok(Expression::Literal(literal))
}

/// Reads a composite value that is built of its components.
pub(crate) fn compose(context: Context, payload: Data<'_, '_>) -> Result<Expression, Failure>
    ensures reads { IfOk result (IsExpressionOf (codes "Compose") (Some (value_view payload.entry.value.now))) }
    ensures accepts { Accepts (IsExpressionOf (codes "Compose") (Some (value_view payload.entry.value.now))) result }
{
    let (ty, components) = payload.pair(context, "ty", "components")?;
    Ok(Expression::Compose { ty, components })
}

/// Reads the component at a computed index.
pub(crate) fn access(context: Context, payload: Data<'_, '_>) -> Result<Expression, Failure>
    ensures reads { IfOk result (IsExpressionOf (codes "Access") (Some (value_view payload.entry.value.now))) }
    ensures accepts { Accepts (IsExpressionOf (codes "Access") (Some (value_view payload.entry.value.now))) result }
{
    let (base, index) = payload.pair(context, "base", "index")?;
    Ok(Expression::Access { base, index })
}

/// Reads the component at a fixed index.
pub(crate) fn access_index(context: Context, payload: Data<'_, '_>) -> Result<Expression, Failure>
    ensures reads { IfOk result (IsExpressionOf (codes "AccessIndex") (Some (value_view payload.entry.value.now))) }
    ensures accepts { Accepts (IsExpressionOf (codes "AccessIndex") (Some (value_view payload.entry.value.now))) result }
{
    let (base, index) = payload.pair(context, "base", "index")?;
    Ok(Expression::AccessIndex { base, index })
}

/// Reads a vector of equal components.
pub(crate) fn splat(context: Context, payload: Data<'_, '_>) -> Result<Expression, Failure>
    ensures reads { IfOk result (IsExpressionOf (codes "Splat") (Some (value_view payload.entry.value.now))) }
    ensures accepts { Accepts (IsExpressionOf (codes "Splat") (Some (value_view payload.entry.value.now))) result }
{
    let (size, value) = payload.pair(context, "size", "value")?;
    Ok(Expression::Splat { size, value })
}

/// Reads a vector of components of another one.
pub(crate) fn swizzle(context: Context, payload: Data<'_, '_>) -> Result<Expression, Failure>
    ensures reads { IfOk result (IsExpressionOf (codes "Swizzle") (Some (value_view payload.entry.value.now))) }
    ensures accepts { Accepts (IsExpressionOf (codes "Swizzle") (Some (value_view payload.entry.value.now))) result }
{
    let (Pattern(pattern), size, vector) = payload.triple(context, "pattern", "size", "vector")?;
    Ok(Expression::Swizzle {
        size,
        vector,
        pattern,
    })
}

/// Reads a load through a pointer.
pub(crate) fn load(context: Context, payload: Data<'_, '_>) -> Result<Expression, Failure>
    ensures reads { IfOk result (IsExpressionOf (codes "Load") (Some (value_view payload.entry.value.now))) }
    ensures accepts { Accepts (IsExpressionOf (codes "Load") (Some (value_view payload.entry.value.now))) result }
{
    Ok(Expression::Load {
        pointer: payload.field(context, "pointer")?,
    })
}

/// Reads the sampling of an image.
pub(crate) fn image_sample(context: Context, payload: Data<'_, '_>) -> Result<Expression, Failure>
    ensures reads { IfOk result (IsExpressionOf (codes "ImageSample") (Some (value_view payload.entry.value.now))) }
    ensures accepts { Accepts (IsExpressionOf (codes "ImageSample") (Some (value_view payload.entry.value.now))) result }
{
    let fields = payload.fields(context)?;
    let Code(gather) = fields.nullable(context, "gather")?;
    let (Code(level), image, sampler) = fields.triple(context, "level", "image", "sampler")?;
    Ok(Expression::ImageSample {
        image,
        sampler,
        gather,
        coordinate: fields.needed(context, "coordinate")?,
        array_index: fields.optional(context, "array_index")?,
        offset: fields.optional(context, "offset")?,
        level,
        depth_ref: fields.optional(context, "depth_ref")?,
        clamp_to_edge: fields.needed(context, "clamp_to_edge")?,
    })
}

/// Reads the load of a texel.
pub(crate) fn image_load(context: Context, payload: Data<'_, '_>) -> Result<Expression, Failure>
    ensures reads { IfOk result (IsExpressionOf (codes "ImageLoad") (Some (value_view payload.entry.value.now))) }
    ensures accepts { Accepts (IsExpressionOf (codes "ImageLoad") (Some (value_view payload.entry.value.now))) result }
{
    let fields = payload.fields(context)?;
    let (image, coordinate) = fields.pair(context, "image", "coordinate")?;
    Ok(Expression::ImageLoad {
        image,
        coordinate,
        array_index: fields.optional(context, "array_index")?,
        sample: fields.optional(context, "sample")?,
        level: fields.optional(context, "level")?,
    })
}

/// Reads a query of an image.
pub(crate) fn image_query(context: Context, payload: Data<'_, '_>) -> Result<Expression, Failure>
    ensures reads { IfOk result (IsExpressionOf (codes "ImageQuery") (Some (value_view payload.entry.value.now))) }
    ensures accepts { Accepts (IsExpressionOf (codes "ImageQuery") (Some (value_view payload.entry.value.now))) result }
{
    let (Code(query), image) = payload.pair(context, "query", "image")?;
    Ok(Expression::ImageQuery { image, query })
}

/// Reads an operator on one value.
pub(crate) fn unary(context: Context, payload: Data<'_, '_>) -> Result<Expression, Failure>
    ensures reads { IfOk result (IsExpressionOf (codes "Unary") (Some (value_view payload.entry.value.now))) }
    ensures accepts { Accepts (IsExpressionOf (codes "Unary") (Some (value_view payload.entry.value.now))) result }
{
    let (Code(op), expr) = payload.pair(context, "op", "expr")?;
    Ok(Expression::Unary { op, expr })
}

/// Reads an operator on two values.
pub(crate) fn binary(context: Context, payload: Data<'_, '_>) -> Result<Expression, Failure>
    ensures reads { IfOk result (IsExpressionOf (codes "Binary") (Some (value_view payload.entry.value.now))) }
    ensures accepts { Accepts (IsExpressionOf (codes "Binary") (Some (value_view payload.entry.value.now))) result }
{
    let (Code(op), left, right) = payload.triple(context, "op", "left", "right")?;
    Ok(Expression::Binary { op, left, right })
}

/// Reads the choice between two values.
pub(crate) fn select(context: Context, payload: Data<'_, '_>) -> Result<Expression, Failure>
    ensures reads { IfOk result (IsExpressionOf (codes "Select") (Some (value_view payload.entry.value.now))) }
    ensures accepts { Accepts (IsExpressionOf (codes "Select") (Some (value_view payload.entry.value.now))) result }
{
    let (condition, accept, reject) = payload.triple(context, "condition", "accept", "reject")?;
    Ok(Expression::Select {
        condition,
        accept,
        reject,
    })
}

/// Reads a derivative.
pub(crate) fn derivative(context: Context, payload: Data<'_, '_>) -> Result<Expression, Failure>
    ensures reads { IfOk result (IsExpressionOf (codes "Derivative") (Some (value_view payload.entry.value.now))) }
    ensures accepts { Accepts (IsExpressionOf (codes "Derivative") (Some (value_view payload.entry.value.now))) result }
{
    let (Code(axis), Code(ctrl), expr) = payload.triple(context, "axis", "ctrl", "expr")?;
    Ok(Expression::Derivative { axis, ctrl, expr })
}

/// Reads a test of a value.
pub(crate) fn relational(context: Context, payload: Data<'_, '_>) -> Result<Expression, Failure>
    ensures reads { IfOk result (IsExpressionOf (codes "Relational") (Some (value_view payload.entry.value.now))) }
    ensures accepts { Accepts (IsExpressionOf (codes "Relational") (Some (value_view payload.entry.value.now))) result }
{
    let (Code(fun), argument) = payload.pair(context, "fun", "argument")?;
    Ok(Expression::Relational { fun, argument })
}

/// Reads a call of a built-in function.
pub(crate) fn math(context: Context, payload: Data<'_, '_>) -> Result<Expression, Failure>
    ensures reads { IfOk result (IsExpressionOf (codes "Math") (Some (value_view payload.entry.value.now))) }
    ensures accepts { Accepts (IsExpressionOf (codes "Math") (Some (value_view payload.entry.value.now))) result }
{
    let fields = payload.fields(context)?;
    let (Code(fun), arg) = fields.pair(context, "fun", "arg")?;
    Ok(Expression::Math {
        fun,
        arg,
        arg1: fields.optional(context, "arg1")?,
        arg2: fields.optional(context, "arg2")?,
        arg3: fields.optional(context, "arg3")?,
    })
}

/// Reads a conversion, or a cast of bits.
pub(crate) fn conversion(context: Context, payload: Data<'_, '_>) -> Result<Expression, Failure>
    ensures reads { IfOk result (IsExpressionOf (codes "As") (Some (value_view payload.entry.value.now))) }
    ensures accepts { Accepts (IsExpressionOf (codes "As") (Some (value_view payload.entry.value.now))) result }
{
    let fields = payload.fields(context)?;
    let (expr, kind) = fields.pair(context, "expr", "kind")?;
    Ok(Expression::As {
        expr,
        kind,
        convert: fields.optional(context, "convert")?,
    })
}

/// Reads the old value of an atomic.
pub(crate) fn atomic_result(context: Context, payload: Data<'_, '_>) -> Result<Expression, Failure>
    ensures reads { IfOk result (IsExpressionOf (codes "AtomicResult") (Some (value_view payload.entry.value.now))) }
    ensures accepts { Accepts (IsExpressionOf (codes "AtomicResult") (Some (value_view payload.entry.value.now))) result }
{
    let (ty, comparison) = payload.pair(context, "ty", "comparison")?;
    Ok(Expression::AtomicResult { ty, comparison })
}

/// Reads the value of a load for a whole work group.
pub(crate) fn work_group_uniform_load_result(
    context: Context,
    payload: Data<'_, '_>,
) -> Result<Expression, Failure>
    ensures reads { IfOk result (IsExpressionOf (codes "WorkGroupUniformLoadResult") (Some (value_view payload.entry.value.now))) }
    ensures accepts { Accepts (IsExpressionOf (codes "WorkGroupUniformLoadResult") (Some (value_view payload.entry.value.now))) result }
{
    Ok(Expression::WorkGroupUniformLoadResult {
        ty: payload.field(context, "ty")?,
    })
}

/// Reads the vertices of the triangle that a ray query hit.
pub(crate) fn ray_query_vertex_positions(
    context: Context,
    payload: Data<'_, '_>,
) -> Result<Expression, Failure>
    ensures reads { IfOk result (IsExpressionOf (codes "RayQueryVertexPositions") (Some (value_view payload.entry.value.now))) }
    ensures accepts { Accepts (IsExpressionOf (codes "RayQueryVertexPositions") (Some (value_view payload.entry.value.now))) result }
{
    let (query, committed) = payload.pair(context, "query", "committed")?;
    Ok(Expression::RayQueryVertexPositions { query, committed })
}

/// Reads the intersection that a ray query found.
pub(crate) fn ray_query_get_intersection(
    context: Context,
    payload: Data<'_, '_>,
) -> Result<Expression, Failure>
    ensures reads { IfOk result (IsExpressionOf (codes "RayQueryGetIntersection") (Some (value_view payload.entry.value.now))) }
    ensures accepts { Accepts (IsExpressionOf (codes "RayQueryGetIntersection") (Some (value_view payload.entry.value.now))) result }
{
    let (query, committed) = payload.pair(context, "query", "committed")?;
    Ok(Expression::RayQueryGetIntersection { query, committed })
}

/// Reads the result of an operation in a subgroup.
pub(crate) fn subgroup_operation_result(
    context: Context,
    payload: Data<'_, '_>,
) -> Result<Expression, Failure>
    ensures reads { IfOk result (IsExpressionOf (codes "SubgroupOperationResult") (Some (value_view payload.entry.value.now))) }
    ensures accepts { Accepts (IsExpressionOf (codes "SubgroupOperationResult") (Some (value_view payload.entry.value.now))) result }
{
    Ok(Expression::SubgroupOperationResult {
        ty: payload.field(context, "ty")?,
    })
}

/// Reads the load of a cooperative matrix.
pub(crate) fn cooperative_load(
    context: Context,
    payload: Data<'_, '_>,
) -> Result<Expression, Failure>
    ensures reads { IfOk result (IsExpressionOf (codes "CooperativeLoad") (Some (value_view payload.entry.value.now))) }
    ensures accepts { Accepts (IsExpressionOf (codes "CooperativeLoad") (Some (value_view payload.entry.value.now))) result }
{
    let fields = payload.fields(context)?;
    let Tile(tile) = fields.needed(context, "data")?;
    let (columns, rows, role) = fields.triple(context, "columns", "rows", "role")?;
    Ok(Expression::CooperativeLoad {
        columns,
        rows,
        role,
        tile,
    })
}

/// Reads the product of two cooperative matrices, added to a third one.
pub(crate) fn cooperative_multiply_add(
    context: Context,
    payload: Data<'_, '_>,
) -> Result<Expression, Failure>
    ensures reads { IfOk result (IsExpressionOf (codes "CooperativeMultiplyAdd") (Some (value_view payload.entry.value.now))) }
    ensures accepts { Accepts (IsExpressionOf (codes "CooperativeMultiplyAdd") (Some (value_view payload.entry.value.now))) result }
{
    let (a, b, c) = payload.triple(context, "a", "b", "c")?;
    Ok(Expression::CooperativeMultiplyAdd { a, b, c })
}
