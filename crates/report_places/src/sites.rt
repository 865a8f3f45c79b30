//! What stands at a place of a module: its name, statements and expressions.
ghost use Rattle.std.specs.Prelude.{◌≡◌, IfOk, Some};
ghost use Rattle.std.specs.Option.{option_copied, option_map};
ghost use Rattle.report_places.specs.Outlines.{IsOutlineAt};
ghost use Rattle.report_places.specs.Sites.{expression_at, function_of, name_at, named_at, way_at};

use crate::body_place::BodyPlace;
use crate::outline::Outline;
use crate::paths::{StatementAt, Wanted, find_statement};
use shader_arena::Handle;
use shader_ir::{Expression, Function, Module, Name, TryCopy, mark};
use shader_uniformity::function_at;
use std::alloc::{AllocError, Global};

/// Returns the name of an entry point, if there is one at the index.
fn point_name(alloc: Global, module: &Module, index: usize) -> Result<Option<Name>, AllocError>
    ensures { IfOk result (λ name. name ≡ name_at «module».now (BodyPlace.EntryPoint index)) }
{
    match module.entry_points.as_slice().get(index) {
        Some(point) => Ok(Some(point.name.copy(alloc)?)),
        None => Ok(None),
    }
}

/// Returns the name of a function or an entry point, if it has one.
pub fn name_at(
    alloc: Global,
    module: &Module,
    place: &BodyPlace,
) -> Result<Option<Name>, AllocError>
    ensures { IfOk result (λ name. name ≡ name_at «module».now place.now) }
{
    match place {
        BodyPlace::ConstExpression(_) => Ok(None),
        BodyPlace::Function(index) => match function_at(module, *index) {
            Some(function) => function.name.try_copy(alloc),
            None => Ok(None),
        },
        BodyPlace::EntryPoint(index) => point_name(alloc, module, *index),
    }
}

/// Returns the name at a place, if there is one.
pub fn named_at(
    alloc: Global,
    module: &Module,
    place: &Option<BodyPlace>,
) -> Result<Option<Name>, AllocError>
    ensures { IfOk result (λ name. name ≡ named_at «module».now place.now) }
{
    match place {
        Some(place) => name_at(alloc, module, place),
        None => Ok(None),
    }
}

/// Returns a function or the function of an entry point, if it is there.
pub fn function_of<'a>(module: &'a Module, place: &BodyPlace) -> Option<&'a Function>
    ensures { option_copied result ≡ function_of «module».now place.now }
{
    match place {
        BodyPlace::ConstExpression(_) => None,
        BodyPlace::Function(index) => function_at(module, *index),
        BodyPlace::EntryPoint(index) => match module.entry_points.as_slice().get(*index) {
            Some(point) => Some(&point.function),
            None => None,
        },
    }
}

/// Returns an expression of a function or an entry point, or a global expression, if it is there.
pub fn expression_at<'a>(
    module: &'a Module,
    place: &BodyPlace,
    expression: Handle<mark::Expression>,
) -> Option<&'a Expression>
    ensures { option_copied result ≡ expression_at «module».now place.now expression }
{
    match place {
        BodyPlace::ConstExpression(_) => module.global_expressions.try_get(expression),
        BodyPlace::Function(_) | BodyPlace::EntryPoint(_) => match function_of(module, place) {
            Some(function) => function.expressions.try_get(expression),
            None => None,
        },
    }
}

/// Returns the first statement at a place that is wanted, and the way to it.
pub fn statement_at<'a>(
    alloc: Global,
    module: &'a Module,
    place: &BodyPlace,
    wanted: &Wanted,
) -> Result<Option<StatementAt<'a>>, AllocError>
    ensures { IfOk result (λ found. option_map (λ at. at.path.steps) found ≡ way_at «module».now place.now wanted.now) }
{
    match function_of(module, place) {
        Some(function) => find_statement(alloc, &function.body, wanted),
        None => Ok(None),
    }
}

/// Returns the statements at a place by their positions. A global expression has none.
///
/// # Errors
///
/// `AllocError` if an allocation fails.
pub fn outline_at<'a>(
    alloc: Global,
    module: &'a Module,
    place: &BodyPlace,
) -> Result<Outline<'a>, AllocError>
    ensures { IfOk result (λ outline. IsOutlineAt «module».now place.now outline.rows.items) }
{
    match function_of(module, place) {
        Some(function) => Outline::of(alloc, &function.body),
        None => Ok(Outline::empty(alloc)),
    }
}
