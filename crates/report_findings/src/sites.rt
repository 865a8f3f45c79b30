//! The places of diagnostics, by what stands there.
ghost use Rattle.std.specs.Prelude.{◌≡◌, IfOk};
ghost use Rattle.std.specs.Option.{option_map};
ghost use Rattle.report_findings.specs.Sites.{expression_location, path_by};

use report_diagnostics::{Location, Text};
use report_messages::line_text;
use report_places::{
    BodyPlace, StatementAt, StatementPath, Wanted, expression_pointer, function_of, name_at,
    statement_at,
};
use shader_arena::Handle;
use shader_ir::{Module, Name, mark};
use std::alloc::{AllocError, Global};

/// Returns a name as a text of a diagnostic, if there is one.
pub fn text_of(name: Option<Name>) -> Option<Text>
    ensures { result ≡ name }
{
    match name {
        Some(name) => Some(Text::from(name.into_string())),
        None => None,
    }
}

/// Returns the way to a statement that was found, if one was.
pub fn path_of(found: Option<StatementAt<'_>>) -> Option<StatementPath>
    ensures { result ≡ option_map (λ at. path_by at.path.steps) found.entry }
{
    match found {
        Some(at) => Some(at.path),
        None => None,
    }
}

/// Returns the place of an expression, at the statement that evaluates it.
pub fn expression_location(
    alloc: Global,
    module: &Module,
    place: &BodyPlace,
    expression: Handle<mark::Expression>,
) -> Result<Location, AllocError>
    ensures { IfOk result (λ location. location ≡ expression_location «module».now place.now expression) }
{
    let wanted = Wanted::Evaluating(expression);
    let found = statement_at(alloc, module, place, &wanted)?;
    let name = text_of(name_at(alloc, module, place)?);
    let pointer = Text::from(expression_pointer(alloc, place, expression.index())?);
    Ok(Location::within_module(
        Some(*place),
        name,
        path_of(found),
        Some(expression),
        None,
        pointer,
    ))
}

/// Returns the text of the expression at a place as excerpts print it, if it is an expression of a function or an entry point.
///
/// # Errors
///
/// `AllocError` if an allocation fails.
pub fn expression_text_at(
    alloc: Global,
    module: &Module,
    location: &Location,
) -> Result<Option<Text>, AllocError> {
    let (Some(place), Some(expression)) = (location.body, location.expression) else {
        return Ok(None);
    };
    match function_of(module, &place) {
        Some(function) => {
            let text = line_text(alloc, module, function, expression)?;
            Ok(Some(Text::from(text)))
        }
        None => Ok(None),
    }
}
