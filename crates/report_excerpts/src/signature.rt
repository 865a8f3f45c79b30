//! The first line of a function: stage, name, arguments and the type of the result.

use crate::body::Body;
use report_columns::columns_of;
use report_names::{ItemKind, MOST_NESTED, item_text, name_text, type_text};
use report_places::{BodyPlace, stage_word};
use shader_builtins::wgsl_name;
use shader_ir::{Binding, FunctionArgument};
use std::alloc::{AllocError, Global};

/// The first line of a function, and the columns of its arguments' names, from the first behind the last one.
#[derive(Drop)]
pub struct Signature {
    pub text: String,
    pub arguments: Vec<(usize, usize)>,
}

/// The parts of a first line that are left out if it is too long.
#[derive(Clone, Copy)]
struct Shortened {
    /// Arguments without a mark.
    arguments: bool,
    result: bool,
    name: bool,
}

/// Returns what stands in front of the arguments.
fn beginning(alloc: Global, body: &Body<'_>, shortened: Shortened) -> Result<String, AllocError> {
    match body.place {
        BodyPlace::EntryPoint(index) => match body.module.entry_points.as_slice().get(index) {
            Some(point) => {
                let stage = stage_word(point.stage);
                let name = if shortened.name {
                    String::from_str(alloc, "...")?
                } else {
                    name_text(alloc, point.name.as_str())?
                };
                format!(in alloc; "@{stage} fn {name}(")
            }
            None => String::from_str(alloc, "fn ("),
        },
        BodyPlace::Function(index) | BodyPlace::ConstExpression(index) => {
            let name = if shortened.name {
                String::from_str(alloc, "...")?
            } else {
                item_text(alloc, ItemKind::Function, &body.function.name, index)?
            };
            format!(in alloc; "fn {name}(")
        }
    }
}

/// Returns the attribute of an argument that is bound (WGSL, "Attributes"). A built-in value has none if it has no name in WGSL.
fn attribute_text(alloc: Global, argument: &FunctionArgument) -> Result<String, AllocError> {
    match argument.binding {
        Some(Binding::Location(location)) => format!(in alloc; "@location({location}) "),
        Some(Binding::BuiltIn(built_in)) => match wgsl_name(built_in) {
            Some(name) => format!(in alloc; "@builtin({name}) "),
            None => Ok(String::new(alloc)),
        },
        None => Ok(String::new(alloc)),
    }
}

/// Adds an argument, and returns the columns of its name.
fn add_argument(
    alloc: Global,
    body: &Body<'_>,
    text: &mut String,
    argument: &FunctionArgument,
    index: usize,
) -> Result<(usize, usize), AllocError> {
    let attribute = attribute_text(alloc, argument)?;
    text.push_str(attribute.as_str())?;
    let begin = columns_of(text.as_str());
    let name = item_text(alloc, ItemKind::Argument, &argument.name, index)?;
    text.push_str(name.as_str())?;
    let end = columns_of(text.as_str());
    let ty = type_text(alloc, body.module, argument.ty, MOST_NESTED)?;
    text.push_str(": ")?;
    text.push_str(ty.as_str())?;
    Ok((begin, end))
}

/// Checks whether an argument has a mark.
fn is_marked(marked: &[u32], index: usize) -> bool {
    marked.iter().any(|argument| *argument as usize == index)
}

/// Adds the type of the result, and the bracket that begins the statements.
fn add_result(
    alloc: Global,
    body: &Body<'_>,
    text: &mut String,
    shortened: Shortened,
) -> Result<(), AllocError> {
    text.push_str(")")?;
    match &body.function.result {
        Some(result) if !shortened.result => {
            let ty = type_text(alloc, body.module, result.ty, MOST_NESTED)?;
            text.push_str(" -> ")?;
            text.push_str(ty.as_str())?;
        }
        _ => {}
    }
    text.push_str(" {")
}

/// Returns the first line, from which parts are left out. `marked` has the arguments with marks.
fn shortened_signature(
    alloc: Global,
    body: &Body<'_>,
    marked: &[u32],
    shortened: Shortened,
) -> Result<Signature, AllocError> {
    let mut text = beginning(alloc, body, shortened)?;
    let mut arguments = Vec::new(alloc);
    let mut is_first = true;
    let mut is_left_out = false;
    for (index, argument) in body.function.arguments.iter().enumerate() {
        if shortened.arguments && !is_marked(marked, index) {
            let here = columns_of(text.as_str());
            arguments.push((here, here))?;
            if !is_left_out {
                text.push_str(if is_first { "..." } else { ", ..." })?;
            }
            is_left_out = true;
        } else {
            text.push_str(if is_first { "" } else { ", " })?;
            arguments.push(add_argument(alloc, body, &mut text, argument, index)?)?;
            is_left_out = false;
        }
        is_first = false;
    }
    add_result(alloc, body, &mut text, shortened)?;
    Ok(Signature { text, arguments })
}

/// Returns the first line of a function. If it has more than so many columns, arguments without marks are left out, then the result, and
/// then the name.
pub fn signature_of(
    alloc: Global,
    body: &Body<'_>,
    marked: &[u32],
    columns: usize,
) -> Result<Signature, AllocError> {
    let mut shortened = Shortened {
        arguments: false,
        result: false,
        name: false,
    };
    let whole = shortened_signature(alloc, body, marked, shortened)?;
    if columns_of(whole.text.as_str()) <= columns {
        return Ok(whole);
    }
    shortened.arguments = true;
    let shorter = shortened_signature(alloc, body, marked, shortened)?;
    if columns_of(shorter.text.as_str()) <= columns {
        return Ok(shorter);
    }
    shortened.result = true;
    let without_result = shortened_signature(alloc, body, marked, shortened)?;
    if columns_of(without_result.text.as_str()) <= columns {
        return Ok(without_result);
    }
    shortened.name = true;
    shortened_signature(alloc, body, marked, shortened)
}
