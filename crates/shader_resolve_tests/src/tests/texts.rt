//! Tests of copies of errors, and of the texts of errors that no query of a module returns.
use shader_arena::Handle;
use shader_overloads::MissingSpecialType;
use shader_resolve::{FaultAt, ModuleFault, ModuleLocation, ResolveError};
use std::alloc::Global;
use std::fmt::Display;
use std::process::Abort;

const OUT_OF_MEMORY: &str = "out of memory";

/// Asserts that a copy of an error is equal to it.
fn is_copied(rt: &impl Abort, alloc: Global, error: ResolveError) {
    let copy = error.copy(alloc).expect(rt, OUT_OF_MEMORY);
    assert!(rt; copy == error);
    drop(copy);
    drop(error)
}

fn undefined(rt: &impl Abort, alloc: Global) -> ResolveError {
    let name = "main".to_string(alloc).expect(rt, OUT_OF_MEMORY);
    ResolveError::FunctionNotDefined { name }
}

#[test]
fn a_copy_of_an_error_is_equal(rt: HostRuntime) {
    let alloc = rt.alloc();
    is_copied(&rt, alloc, undefined(&rt, alloc));
    let words = "Multiply".to_string(alloc).expect(&rt, OUT_OF_MEMORY);
    is_copied(&rt, alloc, ResolveError::IncompatibleOperands(words));
    let words = "Max".to_string(alloc).expect(&rt, OUT_OF_MEMORY);
    is_copied(&rt, alloc, ResolveError::BuiltinArgumentsInvalid(words));
    is_copied(
        &rt,
        alloc,
        ResolveError::InvalidScalar(Handle::from_index(5)),
    );
    is_copied(&rt, alloc, ResolveError::OutOfMemory);
}

/// Asserts the text of an error.
fn shows<E: Display + Drop>(rt: &impl Abort, alloc: Global, error: E, text: &str) {
    let reported = error.to_string(alloc).expect(rt, OUT_OF_MEMORY);
    drop(error);
    assert!(rt; reported.as_str() == text);
}

#[test]
fn texts(rt: HostRuntime) {
    let alloc = rt.alloc();
    shows(
        &rt,
        alloc,
        undefined(&rt, alloc),
        "Function main not defined",
    );
    shows(&rt, alloc, ResolveError::OutOfMemory, "OutOfMemory");
}

#[test]
fn a_fault_shows_its_name(rt: HostRuntime) {
    let alloc = rt.alloc();
    for (fault, name) in [
        (ModuleFault::HandleOutOfRange, "HandleOutOfRange"),
        (ModuleFault::TypeNotEarlier, "TypeNotEarlier"),
        (ModuleFault::OperandNotEarlier, "OperandNotEarlier"),
        (ModuleFault::CalleeNotEarlier, "CalleeNotEarlier"),
        (ModuleFault::ArgumentCount, "ArgumentCount"),
        (ModuleFault::FilterNotEarlier, "FilterNotEarlier"),
        (ModuleFault::ValuePointerArgument, "ValuePointerArgument"),
        (ModuleFault::EmitRange, "EmitRange"),
    ] {
        shows(&rt, alloc, fault, name);
    }
    let location = ModuleLocation::EntryPointBody(0);
    let found = FaultAt {
        location,
        fault: ModuleFault::EmitRange,
    };
    shows(
        &rt,
        alloc,
        found,
        "entry point 0, its statements: EmitRange",
    );
}

#[test]
fn a_report_words_the_fault(rt: HostRuntime) {
    let alloc = rt.alloc();
    shows(
        &rt,
        alloc,
        ModuleFault::EmitRange.report(),
        "An emitted range ends past the function's expressions",
    );
    shows(
        &rt,
        alloc,
        ModuleFault::CalleeNotEarlier.report(),
        "A called function isn't an earlier one",
    );
    shows(
        &rt,
        alloc,
        ModuleFault::ArgumentCount.report(),
        "A call gives more or fewer arguments than its function takes",
    );
    shows(
        &rt,
        alloc,
        ModuleFault::ValuePointerArgument.report(),
        "A function takes an argument of a value pointer type",
    );
}

#[test]
fn a_report_shows_the_location(rt: HostRuntime) {
    let alloc = rt.alloc();
    let location = ModuleLocation::FunctionExpression(Handle::from_index(1), Handle::from_index(2));
    let fault = ModuleFault::OperandNotEarlier;
    let text = "function [1], expression [2]: An operand is the expression itself or a later one";
    shows(&rt, alloc, FaultAt { location, fault }.report(), text);
    let location = ModuleLocation::EntryPointBody(0);
    let fault = ModuleFault::EmitRange;
    let text =
        "entry point 0, its statements: An emitted range ends past the function's expressions";
    shows(&rt, alloc, FaultAt { location, fault }.report(), text);
}

#[test]
fn a_missing_special_type_is_reported(rt: HostRuntime) {
    assert!(rt; ResolveError::from(MissingSpecialType) == ResolveError::MissingSpecialType);
}
