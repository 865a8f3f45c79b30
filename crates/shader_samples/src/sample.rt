//! The samples by name.
use crate::{
    counts, derivative, derivative_off, derivative_uniform, exit, exit_off, named, no_fall,
    sampling, stored,
};
use shader_ir::Module;
use std::alloc::{AllocError, Global};

/// A sample module. The function of the same name in this crate documents its content.
#[derive(Clone, Copy, Debug, PartialEq, Eq)]
pub enum Sample {
    /// A global that one function names and its caller writes.
    Named,
    /// A global that one function names and writes.
    Stored,
    /// An image and a sampler that are brought together along two calls.
    Sampling,
    /// A case that is fallen into after some invocations have returned.
    Exit,
    /// `Exit` without the fall-through.
    NoFall,
    /// `Exit` with a filter that permits the violation.
    ExitOff,
    /// An expression that is an operand five times.
    Counts,
    /// A derivative in a branch on a uniform condition.
    DerivativeUniform,
    /// A derivative in a branch on a condition that may differ among invocations.
    Derivative,
    /// `Derivative` with a filter that permits the violation.
    DerivativeOff,
}

impl Sample {
    ghost use Rattle.std.specs.Prelude.{◌≡◌, IfOk};
    ghost use Rattle.shader_samples.specs.Names.{sample_named, sample_text};
    ghost use Rattle.shader_samples.specs.Samples.{sample_module};

    /// All samples.
    pub const ALL: [Sample; 10] = [
        Sample::Named,
        Sample::Stored,
        Sample::Sampling,
        Sample::Exit,
        Sample::NoFall,
        Sample::ExitOff,
        Sample::Counts,
        Sample::DerivativeUniform,
        Sample::Derivative,
        Sample::DerivativeOff,
    ];

    /// Returns the name, in lower case with hyphens between words.
    pub fn name(self) -> &'static str
        ensures { result.now ≡ sample_text self }
    {
        match self {
            Sample::Named => "named",
            Sample::Stored => "stored",
            Sample::Sampling => "sampling",
            Sample::Exit => "exit",
            Sample::NoFall => "no-fall",
            Sample::ExitOff => "exit-off",
            Sample::Counts => "counts",
            Sample::DerivativeUniform => "derivative-uniform",
            Sample::Derivative => "derivative",
            Sample::DerivativeOff => "derivative-off",
        }
    }

    /// Returns the sample of this name.
    pub fn from_name(name: &[u8]) -> Option<Sample>
        ensures { result ≡ sample_named name.now }
    {
        Sample::ALL
            .iter()
            .copied()
            .find(|sample| sample.name().as_bytes() == name)
    }

    /// Builds the module.
    ///
    /// # Errors
    ///
    /// `AllocError` if allocation fails.
    pub fn build(self, alloc: Global) -> Result<Module, AllocError>
        ensures { IfOk result (λ built. built ≡ sample_module self) }
    {
        match self {
            Sample::Named => named(alloc),
            Sample::Stored => stored(alloc),
            Sample::Sampling => sampling(alloc),
            Sample::Exit => exit(alloc),
            Sample::NoFall => no_fall(alloc),
            Sample::ExitOff => exit_off(alloc),
            Sample::Counts => counts(alloc),
            Sample::DerivativeUniform => derivative_uniform(alloc),
            Sample::Derivative => derivative(alloc),
            Sample::DerivativeOff => derivative_off(alloc),
        }
    }
}
