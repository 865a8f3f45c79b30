//! The fields of expressions in the JSON of a module, by the index that they have.

use crate::lists::{ListKind, Named};
use shader_arena::Handle;
use shader_ir::{Expression, ImageQuery, SampleLevel, mark};
use std::alloc::{AllocError, Global};

/// Returns the first of two fields if it has the index, and else the second.
fn first_of(
    index: usize,
    one: Handle<mark::Expression>,
    first: &'static str,
    second: &'static str,
) -> &'static str {
    if one.index() == index { first } else { second }
}

/// Checks whether an optional field has the index.
fn is_at(index: usize, field: Option<Handle<mark::Expression>>) -> bool {
    match field {
        Some(handle) => handle.index() == index,
        None => false,
    }
}

/// Returns the field of a level.
fn level_field(index: usize, level: SampleLevel) -> &'static str {
    match level {
        SampleLevel::Auto | SampleLevel::Zero => "level",
        SampleLevel::Exact(_) => "level.Exact",
        SampleLevel::Bias(_) => "level.Bias",
        SampleLevel::Gradient { x, .. } => {
            first_of(index, x, "level.Gradient.x", "level.Gradient.y")
        }
    }
}

/// Returns the field of a sample.
fn sample_field(index: usize, expression: &Expression) -> &'static str {
    match expression {
        Expression::ImageSample {
            image,
            sampler,
            coordinate,
            array_index,
            offset,
            level,
            depth_ref,
            ..
        } => {
            if image.index() == index {
                "image"
            } else if sampler.index() == index {
                "sampler"
            } else if coordinate.index() == index {
                "coordinate"
            } else if is_at(index, *array_index) {
                "array_index"
            } else if is_at(index, *offset) {
                "offset"
            } else if is_at(index, *depth_ref) {
                "depth_ref"
            } else {
                level_field(index, *level)
            }
        }
        _ => "image",
    }
}

/// Returns the field of a texel load or of a query.
fn texel_field(index: usize, expression: &Expression) -> &'static str {
    match expression {
        Expression::ImageLoad {
            image,
            coordinate,
            array_index,
            sample,
            ..
        } => {
            if image.index() == index {
                "image"
            } else if coordinate.index() == index {
                "coordinate"
            } else if is_at(index, *array_index) {
                "array_index"
            } else if is_at(index, *sample) {
                "sample"
            } else {
                "level"
            }
        }
        Expression::ImageQuery {
            image,
            query: ImageQuery::Size { .. },
        } => first_of(index, *image, "image", "query.Size.level"),
        _ => "image",
    }
}

/// Returns the field of a choice or of a call of a built-in function.
fn computed_field(index: usize, expression: &Expression) -> &'static str {
    match expression {
        Expression::Select {
            condition,
            accept,
            ..
        } => {
            if condition.index() == index {
                "condition"
            } else {
                first_of(index, *accept, "accept", "reject")
            }
        }
        Expression::Math {
            arg,
            arg1,
            arg2,
            ..
        } => {
            if arg.index() == index {
                "arg"
            } else if is_at(index, *arg1) {
                "arg1"
            } else if is_at(index, *arg2) {
                "arg2"
            } else {
                "arg3"
            }
        }
        Expression::CooperativeMultiplyAdd { a, b, .. } => {
            if a.index() == index {
                "a"
            } else {
                first_of(index, *b, "b", "c")
            }
        }
        _ => "expr",
    }
}

/// Returns the form of an expression and the field that has the index of an operand.
fn operand_field(index: usize, expression: &Expression) -> (&'static str, &'static str) {
    match expression {
        Expression::Access { base, .. } => ("Access", first_of(index, *base, "base", "index")),
        Expression::AccessIndex { .. } => ("AccessIndex", "base"),
        Expression::Splat { .. } => ("Splat", "value"),
        Expression::Swizzle { .. } => ("Swizzle", "vector"),
        Expression::Load { .. } => ("Load", "pointer"),
        Expression::ImageSample { .. } => ("ImageSample", sample_field(index, expression)),
        Expression::ImageLoad { .. } => ("ImageLoad", texel_field(index, expression)),
        Expression::ImageQuery { .. } => ("ImageQuery", texel_field(index, expression)),
        Expression::Unary { .. } => ("Unary", "expr"),
        Expression::Binary { left, .. } => ("Binary", first_of(index, *left, "left", "right")),
        Expression::Select { .. } => ("Select", computed_field(index, expression)),
        Expression::Derivative { .. } => ("Derivative", "expr"),
        Expression::Relational { .. } => ("Relational", "argument"),
        Expression::Math { .. } => ("Math", computed_field(index, expression)),
        Expression::As { .. } => ("As", "expr"),
        Expression::ArrayLength(_) => ("ArrayLength", ""),
        Expression::RayQueryVertexPositions { .. } => ("RayQueryVertexPositions", "query"),
        Expression::RayQueryGetIntersection { .. } => ("RayQueryGetIntersection", "query"),
        Expression::CooperativeLoad { tile, .. } => {
            (
                "CooperativeLoad",
                first_of(index, tile.pointer, "data.pointer", "data.stride"),
            )
        }
        Expression::CooperativeMultiplyAdd { .. } => {
            ("CooperativeMultiplyAdd", computed_field(index, expression))
        }
        _ => ("", ""),
    }
}

/// Returns the form of an expression and the field that names something other than an operand.
fn name_field(expression: &Expression) -> (&'static str, &'static str) {
    match expression {
        Expression::Constant(_) => ("Constant", ""),
        Expression::Override(_) => ("Override", ""),
        Expression::ZeroValue(_) => ("ZeroValue", ""),
        Expression::Compose { .. } => ("Compose", "ty"),
        Expression::GlobalVariable(_) => ("GlobalVariable", ""),
        Expression::LocalVariable(_) => ("LocalVariable", ""),
        Expression::CallResult(_) => ("CallResult", ""),
        Expression::AtomicResult { .. } => ("AtomicResult", "ty"),
        Expression::WorkGroupUniformLoadResult { .. } => ("WorkGroupUniformLoadResult", "ty"),
        Expression::SubgroupOperationResult { .. } => ("SubgroupOperationResult", "ty"),
        _ => ("", ""),
    }
}

/// Returns the number of the first operand with an index.
pub fn position_of(index: usize, operands: &[Handle<mark::Expression>]) -> usize {
    let mut position = 0usize;
    for operand in operands {
        if operand.index() == index {
            return position;
        }
        position = position.saturating_add(1);
    }
    0
}

/// Returns the way from an expression to the field that names an item, as `.Load.pointer`.
pub fn expression_field(
    alloc: Global,
    expression: &Expression,
    named: Named,
) -> Result<String, AllocError> {
    let is_operand = matches!(
        named.list,
        ListKind::Expressions | ListKind::GlobalExpressions
    );
    let (form, field) = if is_operand {
        if let Expression::Compose { components, .. } = expression {
            let position = position_of(named.index, components.as_slice());
            return format!(in alloc; ".Compose.components[{position}]");
        }
        operand_field(named.index, expression)
    } else {
        name_field(expression)
    };
    if form.is_empty() {
        Ok(String::new(alloc))
    } else if field.is_empty() {
        format!(in alloc; ".{form}")
    } else {
        format!(in alloc; ".{form}.{field}")
    }
}
