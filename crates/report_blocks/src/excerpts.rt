//! The excerpts of a diagnostic or a result, one for each function through which its causes lead.

use crate::causes::Causes;
use crate::labels::label_of;
use report_diagnostics::{Code, Diagnostic, Location};
use report_excerpts::{Mark, excerpt_of, lines_of};
use report_names::{ItemKind, number_text};
use report_places::{BodyPlace, PathStep, body_text, place_text};
use shader_ir::{Expression, Module};
use std::alloc::{AllocError, Global};

/// Returns the steps to the statement of a location.
fn steps_of(location: &Location) -> &[PathStep] {
    match &location.statement {
        Some(path) => path.steps.as_slice(),
        None => &[],
    }
}

/// Returns a mark at a location.
fn mark_at<'a>(location: &'a Location, label: String, is_main: bool) -> Mark<'a> {
    Mark {
        way: steps_of(location),
        expression: location.expression,
        operand: None,
        argument: location.argument,
        label,
        is_main,
    }
}

/// Returns the mark of the place that a diagnostic is about.
fn main_mark<'a>(alloc: Global, diagnostic: &'a Diagnostic) -> Result<Mark<'a>, AllocError> {
    let (operand, words) = match &diagnostic.label {
        Some(label) => (label.operand, label.words.as_str()),
        None => (None, label_of(diagnostic.code)),
    };
    let label = String::from_str(alloc, words)?;
    let mark = mark_at(&diagnostic.location, label, true);
    Ok(Mark { operand, ..mark })
}

/// Adds the marks of causes in a function.
fn add_causes<'a>(
    alloc: Global,
    marks: &mut Vec<Mark<'a>>,
    causes: &Causes<'a>,
    place: BodyPlace,
) -> Result<(), AllocError> {
    for (index, cause) in causes.related.iter().enumerate() {
        if cause.location.body == Some(place) && causes.is_shown(index) {
            let label = causes.label(alloc, index, cause.message.as_str())?;
            marks.push(mark_at(&cause.location, label, false))?;
        }
    }
    Ok(())
}

/// Returns the line of a diagnostic whose causes another one shows, which has the code `first`.
pub fn repeated_excerpt(
    alloc: Global,
    module: &Module,
    diagnostic: &Diagnostic,
    first: Code,
    place: BodyPlace,
) -> Result<String, AllocError> {
    let needs = label_of(diagnostic.code);
    let words = if needs == label_of(first) {
        "needs it too"
    } else {
        needs
    };
    let label = format!(in alloc; "{words}, and the causes are those above")?;
    let mut marks = Vec::new(alloc);
    marks.push(mark_at(&diagnostic.location, label, true))?;
    lines_of(alloc, module, place, &marks)
}

/// Returns an argument that a global expression names and that no function has, with what is said of it. Other global expressions have no
/// excerpt.
pub fn global_excerpt(
    alloc: Global,
    module: &Module,
    diagnostic: &Diagnostic,
) -> Result<String, AllocError> {
    let location = &diagnostic.location;
    let (Some(BodyPlace::ConstExpression(_)), Some(handle), Some(label)) = (
        location.body,
        location.expression,
        &diagnostic.label,
    ) else {
        return Ok(String::new(alloc));
    };
    match module.global_expressions.try_get(handle) {
        Some(Expression::FunctionArgument(index)) => {
            let text = number_text(alloc, ItemKind::Argument, *index as usize)?;
            let mut marks = String::new(alloc);
            for _ in text.as_str().chars() {
                marks.push('^')?;
            }
            let words = label.words.as_str();
            format!(in alloc; "   | {text}\n   | {marks} {words}\n")
        }
        _ => Ok(String::new(alloc)),
    }
}

/// Returns the function of a cause in words, with the way to its statement where a diagnostic tells it.
fn words_of(
    alloc: Global,
    module: &Module,
    place: BodyPlace,
    location: &Location,
    tells_way: bool,
) -> Result<String, AllocError> {
    if tells_way {
        place_text(alloc, module, &place, &location.statement)
    } else {
        body_text(alloc, module, &place)
    }
}

/// Adds the excerpts of the functions other than the first through which causes lead.
fn add_further<'a>(
    alloc: Global,
    module: &Module,
    text: &mut String,
    causes: &Causes<'a>,
    first: BodyPlace,
    tells_way: bool,
) -> Result<(), AllocError> {
    let mut shown = Vec::new(alloc);
    shown.push(first)?;
    for (index, cause) in causes.related.iter().enumerate() {
        if let Some(place) = cause.location.body {
            if causes.is_shown(index) && !shown.contains(&place) {
                let words = words_of(alloc, module, place, &cause.location, tells_way)?;
                let mut marks = Vec::new(alloc);
                add_causes(alloc, &mut marks, causes, place)?;
                let excerpt = excerpt_of(alloc, module, place, &marks)?;
                let more = format!(in alloc; "  ::: in {words}\n{excerpt}")?;
                text.push_str(more.as_str())?;
                shown.push(place)?;
            }
        }
    }
    Ok(())
}

/// Returns the excerpts of the functions through which the causes of a diagnostic lead, that of its own place first.
pub fn excerpts_of<'a>(
    alloc: Global,
    module: &Module,
    diagnostic: &'a Diagnostic,
    causes: &Causes<'a>,
    place: BodyPlace,
) -> Result<String, AllocError> {
    let mut marks = Vec::new(alloc);
    marks.push(main_mark(alloc, diagnostic)?)?;
    add_causes(alloc, &mut marks, causes, place)?;
    let mut text = excerpt_of(alloc, module, place, &marks)?;
    add_further(alloc, module, &mut text, causes, place, true)?;
    Ok(text)
}

/// Returns the excerpts of the functions through which causes lead, that of an entry point first.
pub fn excerpts_from<'a>(
    alloc: Global,
    module: &Module,
    causes: &Causes<'a>,
    place: BodyPlace,
) -> Result<String, AllocError> {
    let mut marks = Vec::new(alloc);
    add_causes(alloc, &mut marks, causes, place)?;
    let mut text = excerpt_of(alloc, module, place, &marks)?;
    add_further(alloc, module, &mut text, causes, place, false)?;
    Ok(text)
}
