//! What the analysis takes to differ where it refuses an expression.
ghost use Rattle.std.specs.Prelude.{◌≡◌};
ghost use Rattle.report_diagnostics.specs.Diagnostics.{IsError};

use crate::indexes::index_argument;
use crate::leaving::{Leaving, left_at};
use crate::reasons::Reason;
use crate::related::{argument_location, related_at, statement_location};
use crate::sites::expression_location;
use report_diagnostics::{Code, Diagnostic, Location, Related, Text};
use report_messages::Wording;
use report_places::{BodyPlace, expression_at, function_of};
use shader_arena::Handle;
use shader_info::{ExpressionError, FunctionError, UniformityDisruptor};
use shader_ir::{Expression, Module, mark};
use std::alloc::{AllocError, Global};

/// Returns the place of an expression, or of the argument that it is.
fn source_location(
    alloc: Global,
    module: &Module,
    place: &BodyPlace,
    expression: Handle<mark::Expression>,
) -> Result<Location, AllocError> {
    match expression_at(module, place, expression) {
        Some(Expression::FunctionArgument(index)) => {
            argument_location(alloc, module, place, *index)
        }
        _ => expression_location(alloc, module, place, expression),
    }
}

/// Returns what the analysis takes an argument to be.
fn argument_words(place: &BodyPlace) -> &'static str {
    match place {
        BodyPlace::EntryPoint(_) => "each invocation has its own value",
        BodyPlace::Function(_) | BodyPlace::ConstExpression(_) => {
            "an argument, which this check takes to differ"
        }
    }
}

/// Returns what control flow depends on where the analysis refuses an expression, as a cause.
fn flow_cause(
    alloc: Global,
    module: &Module,
    place: &BodyPlace,
    source: Handle<mark::Expression>,
) -> Result<Related, AllocError> {
    let words = "control flow depends on this, which naga takes to differ between invocations";
    let location = source_location(alloc, module, place, source)?;
    let message = Text::from(words.to_string(alloc)?);
    related_at(alloc, module, message, location)
}

/// Returns how naga takes invocations to have left before an expression, if that is why it is refused.
fn leaving_of(disruptor: &UniformityDisruptor) -> Option<Leaving> {
    match disruptor {
        UniformityDisruptor::Expression(_) => None,
        UniformityDisruptor::Return => Some(Leaving::Returned),
        UniformityDisruptor::Discard => Some(Leaving::Discarded),
    }
}

/// Returns the statement by which invocations may have left before an expression as a cause, if only one may be meant.
fn leaving_cause(
    alloc: Global,
    module: &Module,
    place: &BodyPlace,
    leaving: Leaving,
    expression: Handle<mark::Expression>,
) -> Result<Option<Related>, AllocError> {
    let Some(function) = function_of(module, place) else {
        return Ok(None);
    };
    match left_at(alloc, module, function, leaving, expression)? {
        Some(position) => {
            let reason = match leaving {
                Leaving::Returned => Reason::Returns,
                Leaving::Discarded => Reason::Discards,
            };
            let message = Text::from(String::from_str(alloc, reason.words())?);
            let location = statement_location(alloc, module, place, position)?;
            Ok(Some(related_at(alloc, module, message, location)?))
        }
        None => Ok(None),
    }
}

/// Returns what naga takes to make control flow diverge at an expression, as a cause, if it is known.
fn disruptor_cause(
    alloc: Global,
    module: &Module,
    place: &BodyPlace,
    expression: Handle<mark::Expression>,
    disruptor: &UniformityDisruptor,
) -> Result<Option<Related>, AllocError> {
    if let UniformityDisruptor::Expression(source) = disruptor {
        return Ok(Some(flow_cause(alloc, module, place, *source)?));
    }
    match leaving_of(disruptor) {
        Some(leaving) => leaving_cause(alloc, module, place, leaving, expression),
        None => Ok(None),
    }
}

/// Returns the argument by which an index differs, as a cause.
fn index_cause(
    alloc: Global,
    module: &Module,
    place: &BodyPlace,
    access: Handle<mark::Expression>,
) -> Result<Option<Related>, AllocError> {
    match index_argument(alloc, module, place, access)? {
        Some((owner, argument)) => {
            let location = argument_location(alloc, module, &owner, argument)?;
            let message = Text::from(argument_words(&owner).to_string(alloc)?);
            Ok(Some(related_at(alloc, module, message, location)?))
        }
        None => Ok(None),
    }
}

/// Returns what the analysis takes to differ where it refuses an expression, as the only cause.
pub fn refusal_causes(
    alloc: Global,
    module: &Module,
    place: &BodyPlace,
    cause: &FunctionError,
) -> Result<Vec<Related>, AllocError> {
    let found = match cause {
        FunctionError::NonUniformControlFlow(_, expression, disruptor) => {
            disruptor_cause(alloc, module, place, *expression, disruptor)?
        }
        FunctionError::Expression {
            handle,
            source: ExpressionError::MissingCapabilities(_),
        } => index_cause(alloc, module, place, *handle)?,
        _ => None,
    };
    let mut related = Vec::new(alloc);
    if let Some(cause) = found {
        related.push(cause)?;
    }
    Ok(related)
}

/// Adds a note on invocations that have left before, if that is why an expression is refused and no cause tells where.
pub fn add_refusal_notes(
    alloc: Global,
    wording: &mut Wording,
    cause: &FunctionError,
    has_causes: bool,
) -> Result<(), AllocError> {
    if has_causes {
        return Ok(());
    }
    let words = match cause {
        FunctionError::NonUniformControlFlow(_, _, UniformityDisruptor::Return) => {
            "some invocations may have returned before"
        }
        FunctionError::NonUniformControlFlow(_, _, UniformityDisruptor::Discard) => {
            "some invocations may have been discarded before"
        }
        _ => return Ok(()),
    };
    wording.note(words.to_string(alloc)?)
}

/// Returns an error of which this is said.
pub fn worded(alloc: Global, code: Code, wording: Wording, location: Location) -> Diagnostic
    ensures { IsError code location result }
{
    let diagnostic = Diagnostic::error(alloc, code, wording.message, location);
    Diagnostic {
        label: wording.label,
        field: wording.field,
        data: wording.data,
        notes: wording.notes,
        help: wording.help,
        ..diagnostic
    }
}

/// Returns a diagnostic with causes, notes and help.
pub fn advised(
    diagnostic: Diagnostic,
    related: Vec<Related>,
    notes: Vec<Text>,
    help: Vec<Text>,
) -> Diagnostic
    ensures code { result.code ≡ diagnostic.code }
    ensures severity { result.severity ≡ diagnostic.severity }
    ensures location { result.location ≡ diagnostic.location }
{
    Diagnostic {
        related,
        notes,
        help,
        ..diagnostic
    }
}
