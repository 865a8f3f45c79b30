//! A check that an info fits a function of a module.
ghost use Rattle.std.specs.Prelude.{◌≡◌, ◌↔◌, ◌<◌, All, IfSome, IsTrue, length};
ghost use Rattle.shader_resolve.specs.WellFormed.{pending_size, sizing_override};
ghost use Rattle.shader_info.specs.Fit.{Fits, IsKnown, IsOfModule, IsOpen, IsResourceInRange};

use crate::{ExpressionInfo, FunctionInfo, GlobalOrArgument, Sampling, SamplingKey};
use shader_ir::proc::TypeResolution;
use shader_ir::{ArraySize, Function, Module, TypeInner};
use std::collections::HashSet;

/// Returns whether the override that sizes an array, if one does, is in range.
fn is_size_in_range(module: &Module, size: ArraySize) -> bool
    ensures { IsTrue result ↔ IfSome (pending_size size) (λ override. override < length «module».now.overrides) }
{
    match size {
        ArraySize::Pending(handle) => module.overrides.contains_handle(handle),
        ArraySize::Constant(_) | ArraySize::Dynamic => true,
    }
}

fn is_sized_in_range(module: &Module, inner: &TypeInner) -> bool
    ensures { IsTrue result ↔ IfSome (sizing_override inner.now) (λ override. override < length «module».now.overrides) }
{
    match inner {
        TypeInner::Array { size, .. } | TypeInner::BindingArray { size, .. } => {
            is_size_in_range(module, *size)
        }
        _ => true,
    }
}

/// Returns whether the handles of a type are in range.
fn is_of_module(module: &Module, ty: &TypeResolution) -> bool
    ensures { IsTrue result ↔ IsOfModule «module».now ty.now }
{
    match ty {
        TypeResolution::Handle(handle) => module.types.contains_handle(*handle),
        TypeResolution::Value(inner) => {
            inner.is_in_range(&module.types) && is_sized_in_range(module, inner)
        }
    }
}

fn are_of_module(module: &Module, expressions: &[ExpressionInfo]) -> bool
    ensures { IsTrue result ↔ All (λ expression. IsOfModule «module».now expression.ty) expressions.now }
{
    expressions
        .iter()
        .all(|expression| is_of_module(module, &expression.ty))
}

fn is_known(globals: usize, key: &SamplingKey) -> bool
    ensures { IsTrue result ↔ IsKnown globals key.now }
{
    key.image.index() < globals && key.sampler.index() < globals
}

fn are_known(globals: usize, keys: &HashSet<SamplingKey>) -> bool
    ensures { IsTrue result ↔ All (IsKnown globals) keys.now.keys }
{
    keys.iter().all(|key| is_known(globals, key))
}

fn is_resource_in_range(globals: usize, arguments: usize, resource: &GlobalOrArgument) -> bool
    ensures { IsTrue result ↔ IsResourceInRange globals arguments resource.now }
{
    match resource {
        GlobalOrArgument::Global(global) => global.index() < globals,
        GlobalOrArgument::Argument(argument) => (*argument as usize) < arguments,
    }
}

fn is_open(globals: usize, arguments: usize, pair: &Sampling) -> bool
    ensures { IsTrue result ↔ IsOpen globals arguments pair.now }
{
    is_resource_in_range(globals, arguments, &pair.image)
        && is_resource_in_range(globals, arguments, &pair.sampler)
}

fn are_open(globals: usize, arguments: usize, pairs: &HashSet<Sampling>) -> bool
    ensures { IsTrue result ↔ All (IsOpen globals arguments) pairs.now.keys }
{
    pairs.iter().all(|pair| is_open(globals, arguments, pair))
}

impl FunctionInfo {
    /// Returns whether the info may be one of this function: its tables have an entry for each global and for each expression, and
    /// everything that its types and pairs name is in range. Each info of the analysis fits.
    pub fn fits(&self, function: &Function, module: &Module) -> bool
        ensures { IsTrue result ↔ Fits «module».now function.now self.now }
    {
        let globals = module.global_variables.len();
        self.global_uses.len() == globals
            && self.expressions.len() == function.expressions.len()
            && are_of_module(module, self.expressions.as_slice())
            && are_known(globals, &self.sampling_set)
            && are_open(globals, function.arguments.len(), &self.sampling)
    }
}
