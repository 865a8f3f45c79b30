//! JSON pointers (RFC 6901) into a module, and the way to a statement as a text.
ghost use Rattle.std.specs.Prelude.{◌≡◌, ◌++◌, IfOk, OnOk, flat_map, string_bytes};
ghost use Rattle.report_places.specs.Pointers.{argument_pointer, body_pointer, expression_pointer, index_in, item_pointer, member_in};
ghost use Rattle.report_places.specs.Pointers.{statement_pointer, statement_text, step_in};

use crate::body_place::BodyPlace;
use crate::paths::PathStep;
use std::alloc::{AllocError, Global};

/// Returns the pointer to an item of a list.
///
/// # Errors
///
/// `AllocError` if an allocation fails.
pub fn item_pointer(alloc: Global, list: &str, index: usize) -> Result<String, AllocError>
    ensures { IfOk result (λ text. string_bytes text ≡ item_pointer list.now index) }
{
    let text = format!(in alloc; "/{list}/{index}")?;
    Ok(text)
}

/// Returns the pointer to the function of an entry point.
fn point_pointer(alloc: Global, index: usize) -> Result<String, AllocError>
    ensures { IfOk result (λ text. string_bytes text ≡ body_pointer (BodyPlace.EntryPoint index)) }
{
    let mut text = item_pointer(alloc, "entry_points", index)?;
    text.push_str("/function")?;
    Ok(text)
}

/// Returns the pointer to a function, to that of an entry point, or to a global expression.
///
/// # Errors
///
/// `AllocError` if an allocation fails.
pub fn body_pointer(alloc: Global, place: &BodyPlace) -> Result<String, AllocError>
    ensures { IfOk result (λ text. string_bytes text ≡ body_pointer place.now) }
{
    match place {
        BodyPlace::ConstExpression(index) => item_pointer(alloc, "global_expressions", *index),
        BodyPlace::Function(index) => item_pointer(alloc, "functions", *index),
        BodyPlace::EntryPoint(index) => point_pointer(alloc, *index),
    }
}

/// Returns the pointer to an expression of a function, or to a global expression.
///
/// # Errors
///
/// `AllocError` if an allocation fails.
pub fn expression_pointer(
    alloc: Global,
    place: &BodyPlace,
    expression: usize,
) -> Result<String, AllocError>
    ensures { IfOk result (λ text. string_bytes text ≡ expression_pointer place.now expression) }
{
    let mut text = body_pointer(alloc, place)?;
    match place {
        BodyPlace::ConstExpression(_) => {}
        _ => text.push_str(item_pointer(alloc, "expressions", expression)?.as_str())?,
    }
    Ok(text)
}

/// How the steps of a way are written.
#[derive(Clone, Copy)]
enum Notation {
    /// As in `body[0].If.accept`.
    Path,
    /// As in `/body/0/If/accept`.
    Pointer,
}

/// Adds the step to a member of an object.
fn add_member(text: &mut String, notation: Notation, name: &str) -> Result<(), AllocError>
    ensures { OnOk result (string_bytes text.new ≡ string_bytes text.old ++ member_in notation name.now) }
{
    match notation {
        Notation::Path => write!(text, ".{name}"),
        Notation::Pointer => write!(text, "/{name}"),
    }
}

/// Adds the step to an item of a list.
fn add_index(text: &mut String, notation: Notation, index: usize) -> Result<(), AllocError>
    ensures { OnOk result (string_bytes text.new ≡ string_bytes text.old ++ index_in notation index) }
{
    match notation {
        Notation::Path => write!(text, "[{index}]"),
        Notation::Pointer => write!(text, "/{index}"),
    }
}

/// Adds the steps to a member of a statement that has blocks.
fn add_variant(
    text: &mut String,
    notation: Notation,
    variant: &str,
    member: &str,
) -> Result<(), AllocError>
    ensures { OnOk result (string_bytes text.new
        ≡ string_bytes text.old ++ (member_in notation variant.now ++ member_in notation member.now)) }
{
    add_member(text, notation, variant)?;
    add_member(text, notation, member)
}

/// Adds a step of the way to a statement.
fn add_step(text: &mut String, notation: Notation, step: &PathStep) -> Result<(), AllocError>
    ensures { OnOk result (string_bytes text.new ≡ string_bytes text.old ++ step_in notation step.now) }
{
    match step {
        PathStep::Statement(index) => add_index(text, notation, *index),
        PathStep::Block => add_member(text, notation, "Block"),
        PathStep::Accept => add_variant(text, notation, "If", "accept"),
        PathStep::Reject => add_variant(text, notation, "If", "reject"),
        PathStep::Body => add_variant(text, notation, "Loop", "body"),
        PathStep::Continuing => add_variant(text, notation, "Loop", "continuing"),
        PathStep::Case(index) => {
            add_variant(text, notation, "Switch", "cases")?;
            add_index(text, notation, *index)?;
            add_member(text, notation, "body")
        }
    }
}

/// Adds the steps of the way to a statement.
fn add_steps(text: &mut String, notation: Notation, way: &[PathStep]) -> Result<(), AllocError>
    ensures { OnOk result (string_bytes text.new ≡ string_bytes text.old ++ flat_map (step_in notation) way.now) }
{
    for step in way {
        add_step(text, notation, step)?;
    }
    Ok(())
}

/// Returns the way to a statement from the JSON object of its function, as `body[2].If.accept[0]`.
///
/// # Errors
///
/// `AllocError` if an allocation fails.
pub fn statement_text(alloc: Global, way: &[PathStep]) -> Result<String, AllocError>
    ensures { IfOk result (λ text. string_bytes text ≡ statement_text way.now) }
{
    let mut text = String::from_str(alloc, "body")?;
    add_steps(&mut text, Notation::Path, way)?;
    Ok(text)
}

/// Returns the pointer to a statement of a function.
///
/// # Errors
///
/// `AllocError` if an allocation fails.
pub fn statement_pointer(
    alloc: Global,
    place: &BodyPlace,
    way: &[PathStep],
) -> Result<String, AllocError>
    ensures { IfOk result (λ text. string_bytes text ≡ statement_pointer place.now way.now) }
{
    let mut text = body_pointer(alloc, place)?;
    text.push_str("/body")?;
    add_steps(&mut text, Notation::Pointer, way)?;
    Ok(text)
}

/// Returns the pointer to an argument of a function.
///
/// # Errors
///
/// `AllocError` if an allocation fails.
pub fn argument_pointer(alloc: Global, place: &BodyPlace, index: u32) -> Result<String, AllocError>
    ensures { IfOk result (λ text. string_bytes text ≡ argument_pointer place.now index) }
{
    let mut text = body_pointer(alloc, place)?;
    text.push_str(item_pointer(alloc, "arguments", index as usize)?.as_str())?;
    Ok(text)
}
