//! The needs of the body at a location, and what its calls pass.
ghost use Rattle.std.specs.Prelude.{◌≡◌, [], IfOk, slice_get};
ghost use Rattle.std.specs.Option.{option_copied};
ghost use Rattle.shader_uniformity_needs.specs.Needs.{function_needs, needs_at, needs_of_function, needs_of_point};
ghost use Rattle.shader_uniformity_needs.specs.Passes.{function_passes, passes_at, passes_of_function, passes_of_point};

use crate::demands::{Demands, Scope, add_block};
use shader_ir::{Function, Module};
use shader_uniformity::places::places;
use shader_uniformity::{BodyLocation, function_at, is_severe};
use std::alloc::{AllocError, Global};

fn no_demands(alloc: Global) -> Demands
    ensures needs { result.needs.items ≡ [] }
    ensures passes { result.passes.items ≡ [] }
{
    Demands {
        needs: Vec::new(alloc),
        passes: Vec::new(alloc),
    }
}

fn function_demands(
    alloc: Global,
    module: &Module,
    function: &Function,
) -> Result<Demands, AllocError>
    ensures needs { IfOk result (λ demands. demands.needs.items ≡ function_needs «module».now function.now) }
    ensures passes { IfOk result (λ demands. demands.passes.items ≡ function_passes «module».now function.now) }
{
    let expressions = &function.expressions;
    let places = places(alloc, module, expressions)?;
    let scope = Scope {
        functions: &module.functions,
        expressions,
        places: places.as_slice(),
        severe: is_severe(&module.diagnostic_filters, function.diagnostic_filter_leaf),
    };
    let mut demands = no_demands(alloc);
    add_block(&mut demands, &scope, 1, None, &function.body)?;
    Ok(demands)
}

fn demands_of_function(alloc: Global, module: &Module, index: usize) -> Result<Demands, AllocError>
    ensures needs { IfOk result (λ demands. demands.needs.items ≡ needs_of_function «module».now (slice_get «module».now.functions index)) }
    ensures passes { IfOk result (λ demands. demands.passes.items
        ≡ passes_of_function «module».now (slice_get «module».now.functions index)) }
{
    match function_at(module, index) {
        Some(function) => function_demands(alloc, module, function),
        None => Ok(no_demands(alloc)),
    }
}

fn demands_of_point(alloc: Global, module: &Module, index: usize) -> Result<Demands, AllocError>
    ensures needs { IfOk result (λ demands. demands.needs.items ≡ needs_of_point «module».now (slice_get «module».now.entry_points index)) }
    ensures passes { IfOk result (λ demands. demands.passes.items
        ≡ passes_of_point «module».now (slice_get «module».now.entry_points index)) }
{
    match module.entry_points.as_slice().get(index) {
        Some(point) => function_demands(alloc, module, &point.function),
        None => Ok(no_demands(alloc)),
    }
}

/// Returns the needs of the function or entry point at a location, and what its calls pass: nothing if the module has no such location.
pub fn demands_at(
    alloc: Global,
    module: &Module,
    location: BodyLocation,
) -> Result<Demands, AllocError>
    ensures needs { IfOk result (λ demands. demands.needs.items ≡ needs_at «module».now location) }
    ensures passes { IfOk result (λ demands. demands.passes.items ≡ passes_at «module».now location) }
{
    match location {
        BodyLocation::Function(index) => demands_of_function(alloc, module, index),
        BodyLocation::EntryPoint(index) => demands_of_point(alloc, module, index),
    }
}
