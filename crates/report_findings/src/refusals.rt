//! Diagnostics of types without a layout, and of what the analysis refuses.
ghost use Rattle.std.specs.Prelude.{◌≡◌, IfOk};
ghost use Rattle.report_findings.specs.Refusals.{IsLayoutDiagnostic, IsRefusalDiagnostic, capability_code, cause_code};
ghost use Rattle.report_findings.specs.Refusals.{cause_expression, expression_code, layout_code_of, requirement_code, resolve_code};
ghost use Rattle.report_findings.specs.Refusals.{place_of};
ghost use Rattle.report_json.specs.Flags.{is_set};

use crate::advice::{add_refusal_notes, refusal_causes, worded};
use crate::help::{add_help_of, add_rules_help};
use crate::messages::{message_of, refusal_wording};
use crate::sites::{expression_location, expression_text_at};
use report_diagnostics::{
    Code, Diagnostic, FlowCode, LayoutCode, Location, ModuleCode, ResourceCode, Text, TypeCode,
};
use report_messages::layout_wording;
use report_places::{BodyPlace, item_pointer};
use shader_arena::Handle;
use shader_info::{
    AnalysisError, AnalysisLocation, Capabilities, ExpressionError, FunctionError,
    UniformityRequirements,
};
use shader_ir::proc::{LayoutError, LayoutErrorInner};
use shader_ir::{Module, mark};
use shader_resolve::ResolveError;
use std::alloc::{AllocError, Global};

/// Returns the code of a type without a layout. In a well-formed module each type is earlier than those that name it.
fn layout_code_of(error: &LayoutErrorInner) -> Code
    ensures { result ≡ layout_code_of error.now }
{
    match error {
        LayoutErrorInner::InvalidArrayElementType(_) => Code::Module(ModuleCode::TypeNotEarlier),
        LayoutErrorInner::InvalidStructMemberType(..) => Code::Module(ModuleCode::TypeNotEarlier),
        LayoutErrorInner::NonPowerOfTwoWidth => Code::Layout(LayoutCode::OddWidth),
        LayoutErrorInner::TooLarge => Code::Layout(LayoutCode::TooLarge),
    }
}

/// Returns the diagnostic of a type without a layout.
pub fn layout_diagnostic(
    alloc: Global,
    module: &Module,
    error: &LayoutError,
) -> Result<Diagnostic, AllocError>
    ensures { IfOk result (IsLayoutDiagnostic error.now) }
{
    let code = layout_code_of(&error.inner);
    let wording = layout_wording(alloc, module, error, message_of(code))?;
    let pointer = Text::from(item_pointer(alloc, "types", error.ty.index())?);
    let location = Location::within_module(None, None, None, None, Some(error.ty), pointer);
    Ok(worded(alloc, code, wording, location))
}

/// Returns the code of an expression without a type, or `None` of an allocation failure.
fn resolve_code(error: &ResolveError) -> Option<TypeCode>
    ensures { result ≡ resolve_code error.now }
{
    match error {
        ResolveError::OutOfBoundsIndex { .. } => Some(TypeCode::IndexPastTheEnd),
        ResolveError::InvalidAccess { .. } => Some(TypeCode::NotIndexable),
        ResolveError::InvalidSubAccess { .. } => Some(TypeCode::PointeeNotIndexable),
        ResolveError::InvalidScalar(_) => Some(TypeCode::NotAScalar),
        ResolveError::InvalidVector(_) => Some(TypeCode::NotAVector),
        ResolveError::InvalidPointer(_) => Some(TypeCode::NotAPointer),
        ResolveError::InvalidImage(_) => Some(TypeCode::NotAnImage),
        ResolveError::IncompatibleOperands(_) => Some(TypeCode::WrongOperands),
        ResolveError::BuiltinArgumentsInvalid(_) => Some(TypeCode::NoOverload),
        ResolveError::FunctionNotDefined { .. } => Some(TypeCode::NoOverload),
        ResolveError::FunctionArgumentNotFound(_) => Some(TypeCode::NoSuchArgument),
        ResolveError::FunctionReturnsVoid => Some(TypeCode::NoResult),
        ResolveError::MissingSpecialType => Some(TypeCode::NoResultType),
        ResolveError::OutOfMemory => None,
    }
}

/// Returns the code of a non-uniform index without these capabilities.
fn capability_code(missing: Capabilities) -> ResourceCode
    ensures { result ≡ capability_code missing }
{
    let storage = Capabilities::STORAGE_TEXTURE_BINDING_ARRAY_NON_UNIFORM_INDEXING;
    if missing.0 & storage.0 == storage.0 {
        ResourceCode::NonUniformStorageTextureIndex
    } else {
        ResourceCode::NonUniformTextureIndex
    }
}

/// Returns the code of a refused expression, or `None` of an allocation failure.
fn expression_code(error: &ExpressionError) -> Option<Code>
    ensures { result ≡ expression_code error.now }
{
    match error {
        ExpressionError::Resolve(error) => match resolve_code(error) {
            Some(code) => Some(Code::Type(code)),
            None => None,
        },
        ExpressionError::MissingCapabilities(missing) => {
            Some(Code::Resource(capability_code(*missing)))
        }
        ExpressionError::ExpectedGlobalOrArgument => {
            Some(Code::Resource(ResourceCode::NotAResource))
        }
        ExpressionError::BindingArrayElement => Some(Code::Resource(ResourceCode::NotBindable)),
    }
}

/// Returns whether a requirement is one of some.
fn has_requirement(some: UniformityRequirements, one: UniformityRequirements) -> bool
    ensures { result ≡ is_set some.0 one.0 }
{
    some.0 & one.0 == one.0
}

/// Returns the code of an expression in divergent control flow, by the first of its requirements.
fn requirement_code(requirements: UniformityRequirements) -> FlowCode
    ensures { result ≡ requirement_code requirements }
{
    if has_requirement(requirements, UniformityRequirements::DERIVATIVE) {
        FlowCode::Derivative
    } else if has_requirement(requirements, UniformityRequirements::IMPLICIT_LEVEL) {
        FlowCode::ImplicitLevel
    } else if has_requirement(requirements, UniformityRequirements::COOP_OPS) {
        FlowCode::CooperativeOperation
    } else {
        FlowCode::Barrier
    }
}

/// Returns the code of a refusal, or `None` of an allocation failure.
fn cause_code(cause: &FunctionError) -> Option<Code>
    ensures { result ≡ cause_code cause.now }
{
    match cause {
        FunctionError::Expression { source, .. } => expression_code(source),
        FunctionError::NonUniformControlFlow(requirements, ..) => {
            Some(Code::Flow(requirement_code(*requirements)))
        }
        FunctionError::CountFull(_) => Some(Code::TooManyUses),
        FunctionError::OutOfMemory => None,
    }
}

/// Returns the refused expression, or `None` of an allocation failure.
fn cause_expression(cause: &FunctionError) -> Option<Handle<mark::Expression>>
    ensures { result ≡ cause_expression cause.now }
{
    match cause {
        FunctionError::Expression { handle, .. } => Some(*handle),
        FunctionError::NonUniformControlFlow(_, handle, _) => Some(*handle),
        FunctionError::CountFull(handle) => Some(*handle),
        FunctionError::OutOfMemory => None,
    }
}

/// Returns a location of the analysis as a place.
fn place_of(location: &AnalysisLocation) -> BodyPlace
    ensures { result ≡ place_of location.now }
{
    match location {
        AnalysisLocation::ConstExpression(handle) => BodyPlace::ConstExpression(handle.index()),
        AnalysisLocation::Function(handle) => BodyPlace::Function(handle.index()),
        AnalysisLocation::EntryPoint(index) => BodyPlace::EntryPoint(*index),
    }
}

/// Returns the diagnostic of a refused expression.
///
/// # Errors
///
/// `AllocError` if an allocation fails, or if the refusal itself is an allocation failure.
pub fn refusal_diagnostic(
    alloc: Global,
    module: &Module,
    refusal: &AnalysisError,
) -> Result<Diagnostic, AllocError>
    ensures { IfOk result (IsRefusalDiagnostic «module».now refusal.now) }
{
    let Some(code) = cause_code(&refusal.cause) else {
        return Err(AllocError);
    };
    let Some(expression) = cause_expression(&refusal.cause) else {
        return Err(AllocError);
    };
    let place = place_of(&refusal.place);
    let mut wording = refusal_wording(alloc, module, &place, code, &refusal.cause)?;
    let location = expression_location(alloc, module, &place, expression)?;
    let related = refusal_causes(alloc, module, &place, &refusal.cause)?;
    add_refusal_notes(alloc, &mut wording, &refusal.cause, !related.is_empty())?;
    add_help_of(alloc, module, &mut wording, code, place)?;
    add_rules_help(alloc, module, &mut wording, &refusal.cause)?;
    let text = expression_text_at(alloc, module, &location)?;
    let diagnostic = worded(alloc, code, wording, location);
    Ok(Diagnostic {
        text,
        related,
        ..diagnostic
    })
}
