//! Refusals of modules as JSON.
ghost use Rattle.std.specs.Prelude.{◌≡◌, OnOk};
ghost use Rattle.report_json.specs.Refusals.{access_error_tokens, cause_tokens, disruptor_tokens, divergence_tokens};
ghost use Rattle.report_json.specs.Refusals.{expression_error_tokens, fault_name, location_tokens, operand_error_tokens, refusal_tokens};
ghost use Rattle.report_json.specs.Refusals.{resolve_error_tokens};
ghost use Rattle.report_json.specs.Tokens.{Adds, text_tokens};

use crate::members::{Member, write_fields, write_object};
use crate::write_json::{WriteJson, write_variant};
use json::Writer;
use shader_arena::Handle;
use shader_info::{
    AnalysisError, AnalysisLocation, ExpressionError, FunctionError, UniformityDisruptor,
    UniformityRequirements,
};
use shader_ir::mark;
use shader_resolve::{ModuleFault, ResolveError};
use std::alloc::{AllocError, Global};

/// Returns the name of a violation of well-formedness.
fn fault_name(fault: ModuleFault) -> &'static str
    ensures { result.now ≡ fault_name fault }
{
    match fault {
        ModuleFault::HandleOutOfRange => "HandleOutOfRange",
        ModuleFault::TypeNotEarlier => "TypeNotEarlier",
        ModuleFault::OperandNotEarlier => "OperandNotEarlier",
        ModuleFault::CalleeNotEarlier => "CalleeNotEarlier",
        ModuleFault::ArgumentCount => "ArgumentCount",
        ModuleFault::FilterNotEarlier => "FilterNotEarlier",
        ModuleFault::ValuePointerArgument => "ValuePointerArgument",
        ModuleFault::EmitRange => "EmitRange",
    }
}

impl WriteJson for ModuleFault {
    ghost tokens = { λ fault. text_tokens (fault_name fault) };

    fn write_json(&self, _alloc: Global, writer: &mut Writer) -> Result<(), AllocError> {
        writer.string(fault_name(*self))
    }
}

impl WriteJson for ResolveError {
    ghost tokens = { λ error. resolve_error_tokens error };

    #[tactic(auto, unfolding(crate::specs::Refusals::resolve_error_tokens))]
    fn write_json(&self, alloc: Global, writer: &mut Writer) -> Result<(), AllocError> {
        match self {
            ResolveError::FunctionNotDefined { name } => {
                write_fields(alloc, writer, "FunctionNotDefined", &Member("name", name))
            }
            ResolveError::FunctionReturnsVoid => writer.string("FunctionReturnsVoid"),
            ResolveError::IncompatibleOperands(name) => {
                write_variant(alloc, writer, "IncompatibleOperands", name)
            }
            ResolveError::FunctionArgumentNotFound(index) => {
                write_variant(alloc, writer, "FunctionArgumentNotFound", index)
            }
            ResolveError::MissingSpecialType => writer.string("MissingSpecialType"),
            ResolveError::BuiltinArgumentsInvalid(name) => {
                write_variant(alloc, writer, "BuiltinArgumentsInvalid", name)
            }
            ResolveError::OutOfMemory => writer.string("OutOfMemory"),
            error => write_operand_error(alloc, writer, error),
        }
    }
}

/// Writes an error of an operand as a whole, or one that `write_access_error` writes.
#[tactic(auto, unfolding(crate::specs::Refusals::operand_error_tokens))]
fn write_operand_error(
    alloc: Global,
    writer: &mut Writer,
    error: &ResolveError,
) -> Result<(), AllocError>
    ensures { OnOk result (Adds writer.old writer.new (operand_error_tokens error.now)) }
{
    match error {
        ResolveError::InvalidScalar(expr) => write_variant(alloc, writer, "InvalidScalar", expr),
        ResolveError::InvalidVector(expr) => write_variant(alloc, writer, "InvalidVector", expr),
        ResolveError::InvalidPointer(expr) => write_variant(alloc, writer, "InvalidPointer", expr),
        ResolveError::InvalidImage(expr) => write_variant(alloc, writer, "InvalidImage", expr),
        error => write_access_error(alloc, writer, error),
    }
}

/// Writes an error of an access. Any other error is written as null.
#[tactic(auto, unfolding(crate::specs::Refusals::access_error_tokens))]
fn write_access_error(
    alloc: Global,
    writer: &mut Writer,
    error: &ResolveError,
) -> Result<(), AllocError>
    ensures { OnOk result (Adds writer.old writer.new (access_error_tokens error.now)) }
{
    match error {
        ResolveError::OutOfBoundsIndex { expr, index } => {
            let members = (Member("expr", expr), Member("index", index));
            write_fields(alloc, writer, "OutOfBoundsIndex", &members)
        }
        ResolveError::InvalidAccess { expr, indexed } => {
            let members = (Member("expr", expr), Member("indexed", indexed));
            write_fields(alloc, writer, "InvalidAccess", &members)
        }
        ResolveError::InvalidSubAccess { ty, indexed } => {
            let members = (Member("ty", ty), Member("indexed", indexed));
            write_fields(alloc, writer, "InvalidSubAccess", &members)
        }
        _ => writer.null(),
    }
}

impl WriteJson for ExpressionError {
    ghost tokens = { λ error. expression_error_tokens error };

    #[tactic(auto, unfolding(crate::specs::Refusals::expression_error_tokens))]
    fn write_json(&self, alloc: Global, writer: &mut Writer) -> Result<(), AllocError> {
        match self {
            ExpressionError::Resolve(error) => write_variant(alloc, writer, "ResolveError", error),
            ExpressionError::MissingCapabilities(wanted) => {
                write_variant(alloc, writer, "MissingCapabilities", wanted)
            }
            ExpressionError::ExpectedGlobalOrArgument => writer.string("ExpectedGlobalOrArgument"),
            ExpressionError::BindingArrayElement => writer.string("BindingArrayElement"),
        }
    }
}

impl WriteJson for UniformityDisruptor {
    ghost tokens = { λ disruptor. disruptor_tokens disruptor };

    #[tactic(auto, unfolding(crate::specs::Refusals::disruptor_tokens))]
    fn write_json(&self, alloc: Global, writer: &mut Writer) -> Result<(), AllocError> {
        match self {
            UniformityDisruptor::Expression(handle) => {
                write_variant(alloc, writer, "Expression", handle)
            }
            UniformityDisruptor::Return => writer.string("Return"),
            UniformityDisruptor::Discard => writer.string("Discard"),
        }
    }
}

/// The needs of an expression in divergent control flow, the expression, and why control flow diverges.
#[derive(Clone, Copy)]
struct Divergence(
    UniformityRequirements,
    Handle<mark::Expression>,
    UniformityDisruptor,
);

impl WriteJson for Divergence {
    ghost tokens = { λ found. divergence_tokens found.0 found.1 found.2 };

    fn write_json(&self, alloc: Global, writer: &mut Writer) -> Result<(), AllocError> {
        writer.begin_array()?;
        self.0.write_json(alloc, writer)?;
        self.1.write_json(alloc, writer)?;
        self.2.write_json(alloc, writer)?;
        writer.end_array()
    }
}

impl WriteJson for FunctionError {
    ghost tokens = { λ error. cause_tokens error };

    #[tactic(auto, unfolding(crate::specs::Refusals::cause_tokens))]
    fn write_json(&self, alloc: Global, writer: &mut Writer) -> Result<(), AllocError> {
        match self {
            FunctionError::Expression { handle, source } => {
                let members = (Member("handle", handle), Member("error", source));
                write_fields(alloc, writer, "Expression", &members)
            }
            FunctionError::NonUniformControlFlow(requirements, handle, disruptor) => {
                let found = Divergence(*requirements, *handle, *disruptor);
                write_variant(alloc, writer, "NonUniformControlFlow", &found)
            }
            FunctionError::CountFull(handle) => write_variant(alloc, writer, "CountFull", handle),
            FunctionError::OutOfMemory => writer.string("OutOfMemory"),
        }
    }
}

impl WriteJson for AnalysisLocation {
    ghost tokens = { λ location. location_tokens location };

    #[tactic(auto, unfolding(crate::specs::Refusals::location_tokens))]
    fn write_json(&self, alloc: Global, writer: &mut Writer) -> Result<(), AllocError> {
        match self {
            AnalysisLocation::ConstExpression(handle) => {
                write_variant(alloc, writer, "ConstExpression", handle)
            }
            AnalysisLocation::Function(handle) => write_variant(alloc, writer, "Function", handle),
            AnalysisLocation::EntryPoint(index) => {
                write_variant(alloc, writer, "EntryPoint", index)
            }
        }
    }
}

impl WriteJson for AnalysisError {
    ghost tokens = { λ error. refusal_tokens error };

    #[tactic(auto, unfolding(crate::specs::Refusals::refusal_tokens))]
    fn write_json(&self, alloc: Global, writer: &mut Writer) -> Result<(), AllocError> {
        let members = (Member("place", &self.place), Member("cause", &self.cause));
        write_object(alloc, writer, &members)
    }
}
