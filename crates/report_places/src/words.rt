//! Functions and statements in words.
ghost use Rattle.std.specs.Prelude.{◌≡◌, IfOk, string_bytes};
ghost use Rattle.report_places.specs.Words.{body_text, place_text};

use crate::body_place::BodyPlace;
use crate::paths::StatementPath;
use crate::pointers::statement_text;
use crate::stages::stage_word;
use report_names::{ItemKind, item_text, name_text, number_text};
use shader_ir::Module;
use shader_uniformity::function_at;
use std::alloc::{AllocError, Global};

/// Returns an entry point with its stage and name.
fn point_text(alloc: Global, module: &Module, index: usize) -> Result<String, AllocError>
    ensures { IfOk result (λ text. string_bytes text ≡ body_text «module».now (BodyPlace.EntryPoint index)) }
{
    match module.entry_points.as_slice().get(index) {
        Some(point) => {
            let stage = stage_word(point.stage);
            let name = name_text(alloc, point.name.as_str())?;
            format!(in alloc; "{stage} entry point `{name}`")
        }
        None => format!(in alloc; "entry_points[{index}]"),
    }
}

/// Returns a function with its name or number.
fn function_text(alloc: Global, module: &Module, index: usize) -> Result<String, AllocError>
    ensures { IfOk result (λ text. string_bytes text ≡ body_text «module».now (BodyPlace.Function index)) }
{
    let name = match function_at(module, index) {
        Some(function) => item_text(alloc, ItemKind::Function, &function.name, index)?,
        None => number_text(alloc, ItemKind::Function, index)?,
    };
    format!(in alloc; "function `{name}`")
}

/// Returns a function, an entry point or a global expression, as ``compute entry point `main` ``.
///
/// # Errors
///
/// `AllocError` if an allocation fails.
pub fn body_text(alloc: Global, module: &Module, place: &BodyPlace) -> Result<String, AllocError>
    ensures { IfOk result (λ text. string_bytes text ≡ body_text «module».now place.now) }
{
    match place {
        BodyPlace::ConstExpression(index) => format!(in alloc; "global_expressions[{index}]"),
        BodyPlace::Function(index) => function_text(alloc, module, *index),
        BodyPlace::EntryPoint(index) => point_text(alloc, module, *index),
    }
}

/// Returns the place of a statement, as ``compute entry point `main`, body[3]``, or that of the function if the way to it isn't known.
///
/// # Errors
///
/// `AllocError` if an allocation fails.
pub fn place_text(
    alloc: Global,
    module: &Module,
    place: &BodyPlace,
    path: &Option<StatementPath>,
) -> Result<String, AllocError>
    ensures { IfOk result (λ text. string_bytes text ≡ place_text «module».now place.now path.now) }
{
    let body = body_text(alloc, module, place)?;
    match path {
        Some(path) => {
            let statement = statement_text(alloc, path.steps.as_slice())?;
            format!(in alloc; "{body}, {statement}")
        }
        None => Ok(body),
    }
}
