//! Diagnostics of modules that aren't well formed.
ghost use Rattle.std.specs.Prelude.{◌≡◌, IfOk, string_bytes};
ghost use Rattle.report_findings.specs.ModuleFaults.{IsFaultDiagnostic, fault_code, fault_expression, fault_location, fault_place};
ghost use Rattle.report_findings.specs.ModuleFaults.{fault_pointer, fault_type, place_pointer};

use crate::advice::worded;
use crate::messages::message_of;
use crate::sites::text_of;
use report_diagnostics::{Code, Diagnostic, Location, ModuleCode, Text};
use report_messages::fault_wording;
use report_places::{
    BodyPlace, body_pointer, expression_pointer, item_pointer, named_at, statement_pointer,
};
use shader_arena::Handle;
use shader_ir::{Module, mark};
use shader_resolve::{FaultAt, ModuleFault, ModuleLocation};
use std::alloc::{AllocError, Global};

/// Returns the code of a violation of well-formedness.
pub fn fault_code(fault: ModuleFault) -> ModuleCode
    ensures { result ≡ fault_code fault }
{
    match fault {
        ModuleFault::HandleOutOfRange => ModuleCode::IndexOutOfRange,
        ModuleFault::EmitRange => ModuleCode::EmitOutOfRange,
        ModuleFault::TypeNotEarlier => ModuleCode::TypeNotEarlier,
        ModuleFault::OperandNotEarlier => ModuleCode::OperandNotEarlier,
        ModuleFault::FilterNotEarlier => ModuleCode::FilterNotEarlier,
        ModuleFault::CalleeNotEarlier => ModuleCode::CalleeNotEarlier,
        ModuleFault::ArgumentCount => ModuleCode::ArgumentCount,
        ModuleFault::ValuePointerArgument => ModuleCode::ValuePointerArgument,
    }
}

/// Returns the function, entry point or global expression of a location, if it has one.
fn fault_place(location: &ModuleLocation) -> Option<BodyPlace>
    ensures { result ≡ fault_place location.now }
{
    match location {
        ModuleLocation::GlobalExpression(handle) => {
            Some(BodyPlace::ConstExpression(handle.index()))
        }
        ModuleLocation::Function(handle) => Some(BodyPlace::Function(handle.index())),
        ModuleLocation::FunctionExpression(handle, _) => Some(BodyPlace::Function(handle.index())),
        ModuleLocation::FunctionBody(handle) => Some(BodyPlace::Function(handle.index())),
        ModuleLocation::EntryPoint(index) => Some(BodyPlace::EntryPoint(*index)),
        ModuleLocation::EntryPointExpression(index, _) => Some(BodyPlace::EntryPoint(*index)),
        ModuleLocation::EntryPointBody(index) => Some(BodyPlace::EntryPoint(*index)),
        _ => None,
    }
}

/// Returns the expression of a location, if it is one.
fn fault_expression(location: &ModuleLocation) -> Option<Handle<mark::Expression>>
    ensures { result ≡ fault_expression location.now }
{
    match location {
        ModuleLocation::GlobalExpression(handle) => Some(*handle),
        ModuleLocation::FunctionExpression(_, handle) => Some(*handle),
        ModuleLocation::EntryPointExpression(_, handle) => Some(*handle),
        _ => None,
    }
}

/// Returns the type of a location, if it is one.
fn fault_type(location: &ModuleLocation) -> Option<Handle<mark::Type>>
    ensures { result ≡ fault_type location.now }
{
    match location {
        ModuleLocation::Type(handle) => Some(*handle),
        _ => None,
    }
}

/// Returns the pointer to a location in a function, or to a global expression.
fn place_pointer(alloc: Global, location: &ModuleLocation) -> Result<String, AllocError>
    ensures { IfOk result (λ text. string_bytes text ≡ place_pointer location.now) }
{
    match location {
        ModuleLocation::Function(handle) => {
            body_pointer(alloc, &BodyPlace::Function(handle.index()))
        }
        ModuleLocation::FunctionExpression(function, handle) => {
            expression_pointer(
                alloc,
                &BodyPlace::Function(function.index()),
                handle.index(),
            )
        }
        ModuleLocation::FunctionBody(handle) => {
            statement_pointer(alloc, &BodyPlace::Function(handle.index()), &[])
        }
        ModuleLocation::EntryPoint(index) => body_pointer(alloc, &BodyPlace::EntryPoint(*index)),
        ModuleLocation::EntryPointExpression(index, handle) => {
            expression_pointer(alloc, &BodyPlace::EntryPoint(*index), handle.index())
        }
        ModuleLocation::EntryPointBody(index) => {
            statement_pointer(alloc, &BodyPlace::EntryPoint(*index), &[])
        }
        _ => "/special_types".to_string(alloc),
    }
}

/// Returns the pointer to a location.
fn fault_pointer(alloc: Global, location: &ModuleLocation) -> Result<String, AllocError>
    ensures { IfOk result (λ text. string_bytes text ≡ fault_pointer location.now) }
{
    match location {
        ModuleLocation::Constant(handle) => item_pointer(alloc, "constants", handle.index()),
        ModuleLocation::Override(handle) => item_pointer(alloc, "overrides", handle.index()),
        ModuleLocation::GlobalVariable(handle) => {
            item_pointer(alloc, "global_variables", handle.index())
        }
        ModuleLocation::Type(handle) => item_pointer(alloc, "types", handle.index()),
        ModuleLocation::DiagnosticFilter(handle) => {
            item_pointer(alloc, "diagnostic_filters", handle.index())
        }
        ModuleLocation::GlobalExpression(handle) => {
            item_pointer(alloc, "global_expressions", handle.index())
        }
        location => place_pointer(alloc, location),
    }
}

/// Returns the place of a location.
fn fault_location(
    alloc: Global,
    module: &Module,
    location: &ModuleLocation,
) -> Result<Location, AllocError>
    ensures { IfOk result (λ place. place ≡ fault_location «module».now location.now) }
{
    let place = fault_place(location);
    let name = text_of(named_at(alloc, module, &place)?);
    let pointer = Text::from(fault_pointer(alloc, location)?);
    Ok(Location::within_module(
        place,
        name,
        None,
        fault_expression(location),
        fault_type(location),
        pointer,
    ))
}

/// Returns the diagnostic of a module that isn't well formed.
///
/// # Errors
///
/// `AllocError` if an allocation fails.
pub fn fault_diagnostic(
    alloc: Global,
    module: &Module,
    found: &FaultAt,
) -> Result<Diagnostic, AllocError>
    ensures { IfOk result (IsFaultDiagnostic «module».now found.now) }
{
    let code = Code::Module(fault_code(found.fault));
    let body = fault_place(&found.location);
    let wording = fault_wording(alloc, module, &body, found, message_of(code))?;
    let location = fault_location(alloc, module, &found.location)?;
    Ok(worded(alloc, code, wording, location))
}
