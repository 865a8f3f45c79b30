//! Sentences that say why a function or an expression is refused.
//!
//! The errors themselves print as naga's do, or as the names of their variants; a report prints what they hold as well.
ghost use Rattle.std.specs.Prelude.{◌≡◌};

use crate::{
    AnalysisError, AnalysisLocation, Capabilities, ExpressionError, FunctionError,
    UniformityRequirements,
};
use bitflags::Flags;
use std::fmt;

/// The requirements, by the operations that have them.
#[derive(Clone, Copy)]
struct Requirements(UniformityRequirements);

impl fmt::Display for Requirements {
    fn fmt<W: fmt::Write>(&self, f: &mut fmt::Formatter<W>) -> fmt::Result {
        let named = [
            (
                UniformityRequirements::WORK_GROUP_BARRIER,
                "work group barrier",
            ),
            (UniformityRequirements::DERIVATIVE, "derivative"),
            (
                UniformityRequirements::IMPLICIT_LEVEL,
                "implicit level of detail",
            ),
            (UniformityRequirements::COOP_OPS, "cooperative operation"),
        ];
        let mut separator = "";
        for (flag, name) in named {
            if self.0.contains(flag) {
                write!(f, "{separator}{name}")?;
                separator = ", ";
            }
        }
        Ok(())
    }
}

/// The capabilities, by the names of their constants.
#[derive(Clone, Copy)]
struct CapabilityNames(Capabilities);

impl fmt::Display for CapabilityNames {
    fn fmt<W: fmt::Write>(&self, f: &mut fmt::Formatter<W>) -> fmt::Result {
        let named = [
            (
                Capabilities::TEXTURE_AND_SAMPLER_BINDING_ARRAY_NON_UNIFORM_INDEXING,
                "TEXTURE_AND_SAMPLER_BINDING_ARRAY_NON_UNIFORM_INDEXING",
            ),
            (
                Capabilities::STORAGE_TEXTURE_BINDING_ARRAY_NON_UNIFORM_INDEXING,
                "STORAGE_TEXTURE_BINDING_ARRAY_NON_UNIFORM_INDEXING",
            ),
        ];
        let mut separator = "";
        for (flag, name) in named {
            if self.0.contains(flag) {
                write!(f, "{separator}{name}")?;
                separator = ", ";
            }
        }
        Ok(())
    }
}

impl fmt::Display for AnalysisLocation {
    fn fmt<W: fmt::Write>(&self, f: &mut fmt::Formatter<W>) -> fmt::Result {
        match self {
            AnalysisLocation::ConstExpression(handle) => write!(f, "global expression {handle:?}"),
            AnalysisLocation::Function(handle) => write!(f, "function {handle:?}"),
            AnalysisLocation::EntryPoint(index) => write!(f, "entry point {index}"),
        }
    }
}

impl ExpressionError {
    /// Returns what prints a sentence that says why the expression is refused.
    pub fn report(&self) -> ExpressionReport<'_>
        ensures { result.error.now ≡ self.now }
    {
        ExpressionReport { error: self }
    }
}

/// A sentence that says why an expression is refused.
#[derive(Clone, Copy)]
pub struct ExpressionReport<'a> {
    pub error: &'a ExpressionError,
}

impl fmt::Display for ExpressionReport<'_> {
    fn fmt<W: fmt::Write>(&self, f: &mut fmt::Formatter<W>) -> fmt::Result {
        match self.error {
            ExpressionError::Resolve(error) => write!(f, "{error}"),
            ExpressionError::MissingCapabilities(capabilities) => write!(
                f,
                "resources are indexed by a non-uniform value, which requires {}",
                CapabilityNames(*capabilities)
            ),
            ExpressionError::ExpectedGlobalOrArgument => {
                f.write_str("its image or sampler is neither a global variable nor an argument")
            }
            ExpressionError::BindingArrayElement => f.write_str(
                "a binding array of neither images nor samplers is indexed by value",
            ),
        }
    }
}

impl FunctionError {
    /// Returns what prints a sentence that says why the function or the global expression is refused.
    pub fn report(&self) -> FunctionErrorReport<'_>
        ensures { result.error.now ≡ self.now }
    {
        FunctionErrorReport { error: self }
    }
}

/// A sentence that says why a function or a global expression is refused.
#[derive(Clone, Copy)]
pub struct FunctionErrorReport<'a> {
    pub error: &'a FunctionError,
}

impl fmt::Display for FunctionErrorReport<'_> {
    fn fmt<W: fmt::Write>(&self, f: &mut fmt::Formatter<W>) -> fmt::Result {
        match self.error {
            FunctionError::Expression { handle, source } => {
                let report = source.report();
                write!(f, "expression {handle:?}: {report}")
            }
            FunctionError::NonUniformControlFlow(requirements, handle, disruptor) => write!(
                f,
                "expression {handle:?} requires uniform control flow ({}): {disruptor}",
                Requirements(*requirements)
            ),
            FunctionError::CountFull(handle) => write!(
                f,
                "expression {handle:?} has more references than can be counted"
            ),
            FunctionError::OutOfMemory => f.write_str("out of memory"),
        }
    }
}

impl AnalysisError {
    /// Returns what prints a sentence that says why the module is refused, and where.
    pub fn report(&self) -> AnalysisReport<'_>
        ensures { result.error.now ≡ self.now }
    {
        AnalysisReport { error: self }
    }
}

/// A sentence that says why a module is refused, and where.
#[derive(Clone, Copy)]
pub struct AnalysisReport<'a> {
    pub error: &'a AnalysisError,
}

impl fmt::Display for AnalysisReport<'_> {
    fn fmt<W: fmt::Write>(&self, f: &mut fmt::Formatter<W>) -> fmt::Result {
        let report = self.error.cause.report();
        write!(f, "{}: {report}", self.error.place)
    }
}
