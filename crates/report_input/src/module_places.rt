//! Places of diagnostics of modules in the JSON text.
ghost use Rattle.std.specs.Prelude.{◌≡◌, Some, IfOk, IfSome, option_map};
ghost use Rattle.report_input.specs.Located.{AreLocated, IsLocated, IsLocatedAs, IsMoved, IsSpanned, IsWay, IsWayToField, IsWayToItem};
ghost use Rattle.report_input.specs.Located.{code_is_of_json};

use crate::places::Place;
use crate::spans::{Span, span_of};
use crate::steps::{Step, further_steps, path_text, pointer_text, steps_of_pointer};
use report_diagnostics::{Code, Diagnostic, Location, Text};
use std::alloc::{AllocError, Global};

/// Where a value stands in the JSON: the way to it, as a path and as a pointer, and its bytes.
#[derive(Drop)]
struct Spanned {
    steps: Vec<Step>,
    path: Text,
    pointer: Text,
    span: Span,
}

/// Returns the way to the item that a diagnostic is about, if it has a pointer to it.
fn way_to_item(alloc: Global, diagnostic: &Diagnostic) -> Result<Option<Vec<Step>>, AllocError>
    ensures { IfOk result (λ found. IfSome found (λ steps. IsWayToItem diagnostic.now steps.items)) }
{
    match &diagnostic.location.pointer {
        Some(pointer) => steps_of_pointer(alloc, pointer.as_str()),
        None => Ok(None),
    }
}

/// Returns the way to the field of the item that is at fault, if a field is.
fn way_to_field(alloc: Global, diagnostic: &Diagnostic) -> Result<Option<Vec<Step>>, AllocError>
    ensures { IfOk result (λ found. IfSome found (λ steps. IsWayToField diagnostic.now steps.items)) }
{
    let Some(field) = &diagnostic.field else {
        return Ok(None);
    };
    let Some(mut steps) = way_to_item(alloc, diagnostic)? else {
        return Ok(None);
    };
    let Some(mut within) = further_steps(alloc, field.as_str())? else {
        return Ok(None);
    };
    steps.append(&mut within)?;
    Ok(Some(steps))
}

/// Returns where the value stands to which a way leads, if it is found.
fn value_at(
    alloc: Global,
    input: &[u8],
    way: Option<Vec<Step>>,
) -> Result<Option<Spanned>, AllocError>
    ensures spanned { IfOk result (λ found. IfSome found (IsSpanned input.now)) }
    ensures way { IfOk result (λ found. IfSome found (λ at. option_map (λ steps. steps.items) way ≡ Some at.steps.items)) }
{
    let Some(steps) = way else {
        return Ok(None);
    };
    let Some(span) = span_of(alloc, input, steps.as_slice())? else {
        return Ok(None);
    };
    let path = Text::from(path_text(alloc, steps.as_slice())?);
    let pointer = pointer_text(alloc, steps.as_slice())?;
    Ok(Some(Spanned {
        steps,
        path,
        pointer,
        span,
    }))
}

/// Returns where the field that is at fault stands, or else the item that has it.
fn at_fault(
    alloc: Global,
    input: &[u8],
    diagnostic: &Diagnostic,
) -> Result<Option<Spanned>, AllocError>
    ensures spanned { IfOk result (λ found. IfSome found (IsSpanned input.now)) }
    ensures way { IfOk result (λ found. IfSome found (λ at. IsWay diagnostic.now at.steps.items)) }
{
    let field = way_to_field(alloc, diagnostic)?;
    if let Some(found) = value_at(alloc, input, field)? {
        return Ok(Some(found));
    }
    let item = way_to_item(alloc, diagnostic)?;
    value_at(alloc, input, item)
}

/// Returns a place in a module with that of a value in the JSON.
fn moved(input: &[u8], location: Location, path: Text, pointer: Text, byte: usize) -> Location
    ensures { IsMoved input.now location path pointer byte result }
{
    let place = Place::of(input, byte);
    Location {
        pointer: Some(pointer),
        path: Some(path),
        line: Some(place.line),
        column: Some(place.column),
        byte: Some(byte),
        ..location
    }
}

/// Returns a diagnostic at a value of the JSON.
fn located_at(input: &[u8], diagnostic: Diagnostic, found: Spanned) -> Diagnostic
    requires spanned { IsSpanned input.now found }
    requires way { IsWay diagnostic found.steps.items }
    ensures { IsLocatedAs input.now diagnostic result }
{
    let Spanned {
        path,
        pointer,
        span,
        ..
    } = found;
    let location = moved(input, diagnostic.location, path, pointer, span.begin);
    Diagnostic {
        location,
        end: Some(span.end),
        ..diagnostic
    }
}

/// Returns whether a diagnostic is of a fault that only the JSON shows: of a module that isn't well formed, or of a type without a layout.
fn is_of_json(code: Code) -> bool
    ensures { result ≡ code_is_of_json code }
{
    match code {
        Code::Module(_) | Code::Layout(_) => true,
        Code::Input(_) | Code::Type(_) | Code::Resource(_) | Code::Flow(_) | Code::TooManyUses => {
            false
        }
    }
}

/// Returns a diagnostic of a module with the place of what is at fault in the JSON, if that is where its fault shows and is found there.
fn located_one(
    alloc: Global,
    input: &[u8],
    diagnostic: Diagnostic,
) -> Result<Diagnostic, AllocError>
    ensures { IfOk result (IsLocated input.now diagnostic) }
{
    if !is_of_json(diagnostic.code) {
        return Ok(diagnostic);
    }
    match at_fault(alloc, input, &diagnostic)? {
        Some(found) => Ok(located_at(input, diagnostic, found)),
        None => Ok(diagnostic),
    }
}

/// Returns diagnostics of the module that an input is, with the places of their faults in the JSON.
///
/// # Errors
///
/// `AllocError` if an allocation fails.
pub fn located(
    alloc: Global,
    input: &[u8],
    diagnostics: Vec<Diagnostic>,
) -> Result<Vec<Diagnostic>, AllocError>
    ensures { IfOk result (λ all. AreLocated input.now diagnostics.items all.items) }
{
    let mut all = Vec::new(alloc);
    for diagnostic in diagnostics {
        all.push(located_one(alloc, input, diagnostic)?)?;
    }
    Ok(all)
}
