//! What is wrong, in a sentence. No clause says the words: they may change in any release.

use crate::words::naga_message;
use report_diagnostics::{Code, LayoutCode, ModuleCode, ResourceCode, TypeCode};
use report_messages::{Misuse, Wording, resource_wording, type_wording};
use report_places::BodyPlace;
use shader_arena::Handle;
use shader_info::{ExpressionError, FunctionError};
use shader_ir::{Module, mark};
use std::alloc::{AllocError, Global};

/// Returns the sentence of a module that isn't well formed.
fn module_message(code: ModuleCode) -> &'static str {
    match code {
        ModuleCode::IndexOutOfRange => "an index is past the end of its list",
        ModuleCode::EmitOutOfRange => "an `Emit` ends past the expressions of its function",
        ModuleCode::TypeNotEarlier => "a type contains itself or a later type",
        ModuleCode::OperandNotEarlier => "an expression uses itself or a later expression",
        ModuleCode::FilterNotEarlier =>
            "the parent of a diagnostic filter is that filter or a later one",
        ModuleCode::CalleeNotEarlier => "a function calls itself or a later function",
        ModuleCode::ArgumentCount =>
            "a call passes more or fewer arguments than the function takes",
        ModuleCode::ValuePointerArgument =>
            "an argument is a `ValuePointer`, which no function takes",
    }
}

/// Returns the sentence of an expression without a type.
fn type_message(code: TypeCode) -> &'static str {
    match code {
        TypeCode::IndexPastTheEnd => "an index is past the end of what it indexes",
        TypeCode::NotIndexable => "a value without components can't be indexed",
        TypeCode::PointeeNotIndexable => "what a pointer points to can't be indexed in this way",
        TypeCode::NotAScalar => "a vector can't be filled from what isn't a scalar",
        TypeCode::NotAVector => "a value that isn't a vector has no components to reorder",
        TypeCode::NotAPointer => "a value that isn't a pointer can't be loaded from",
        TypeCode::NotAnImage =>
            "a value that isn't a texture can't be sampled, loaded from or queried",
        TypeCode::WrongOperands => "an operation can't take these operands",
        TypeCode::NoOverload => "no overload takes these arguments",
        TypeCode::NoSuchArgument => "the function has no such argument",
        TypeCode::NoResult => "the called function returns nothing, so its result can't be used",
        TypeCode::NoResultType => "the module lacks the struct that the built-in function returns",
    }
}

/// Returns the sentence of a use of a resource.
fn resource_message(code: ResourceCode) -> &'static str {
    match code {
        ResourceCode::NonUniformTextureIndex => {
            "an array of textures or samplers is indexed by a value that may differ between invocations"
        }
        ResourceCode::NonUniformStorageTextureIndex => {
            "an array of storage textures is indexed by a value that may differ between invocations"
        }
        ResourceCode::NotAResource => {
            "a texture or a sampler is neither a global variable, nor an element of one, nor an argument"
        }
        ResourceCode::NotBindable => {
            "an array can't be indexed by a value, as its elements are neither textures nor samplers"
        }
    }
}

/// Returns the sentence of a code, without any name.
pub fn message_of(code: Code) -> &'static str {
    match code {
        Code::Input(_) => "the input is no module",
        Code::Module(code) => module_message(code),
        Code::Type(code) => type_message(code),
        Code::Layout(LayoutCode::OddWidth) =>
            "a scalar whose width isn't a power of two has no layout",
        Code::Layout(LayoutCode::TooLarge) => "a type this large has no layout",
        Code::Resource(code) => resource_message(code),
        Code::Flow(_) => "a need of uniform control flow that only some invocations may reach",
        Code::TooManyUses => "an expression is used more often than can be counted",
    }
}

/// Returns what is said of a refused expression.
fn expression_wording(
    alloc: Global,
    module: &Module,
    place: &BodyPlace,
    handle: Handle<mark::Expression>,
    error: &ExpressionError,
    general: &str,
) -> Result<Wording, AllocError> {
    let misuse = match error {
        ExpressionError::Resolve(error) => {
            return type_wording(alloc, module, place, handle, error, general);
        }
        ExpressionError::MissingCapabilities(_) => Misuse::DifferingIndex,
        ExpressionError::ExpectedGlobalOrArgument => Misuse::Unbound,
        ExpressionError::BindingArrayElement => Misuse::Element,
    };
    resource_wording(alloc, module, place, handle, misuse, general)
}

/// Returns what is said of the refusal of the function, entry point or global expression at a place.
pub fn refusal_wording(
    alloc: Global,
    module: &Module,
    place: &BodyPlace,
    code: Code,
    cause: &FunctionError,
) -> Result<Wording, AllocError> {
    match cause {
        FunctionError::Expression { handle, source } => {
            expression_wording(alloc, module, place, *handle, source, message_of(code))
        }
        FunctionError::NonUniformControlFlow(_, expression, _) => {
            let message = naga_message(alloc, module, place, *expression)?;
            Ok(Wording::of(alloc, message))
        }
        _ => Ok(Wording::of(alloc, message_of(code).to_string(alloc)?)),
    }
}
