//! Traces from a fact back to a first one: the implications on the way.
ghost use Rattle.std.specs.Prelude.{◌≡◌, IfOk, IfSome, slice_get, take};
ghost use Rattle.std.specs.Option.{option_copied};
ghost use Rattle.shader_uniformity.specs.Fault.{function_rules, severity};
ghost use Rattle.shader_uniformity.specs.Traces.{rules_at, rules_of_function, rules_of_point, IsShortest, IsTraceOf};

use crate::facts::{BodyLocation, Fact, Rule};
use crate::filters::is_severe;
use crate::known::function_rules;
use crate::ways::shortest_trace;
use shader_arena::Handle;
use shader_ir::{Function, Items, Module, mark};
use std::alloc::{AllocError, Global};

/// Returns the summaries of the functions before one.
fn earlier(known: &[Items<Rule>], index: usize) -> &[Items<Rule>]
    ensures { result.now ≡ take index known.now }
{
    if index < known.len() {
        &known[..index]
    } else {
        known
    }
}

/// Returns the function at a number, if there is one.
pub fn function_at(module: &Module, index: usize) -> Option<&Function>
    ensures { option_copied result ≡ slice_get «module».now.functions index }
{
    if index < module.functions.len() {
        let handle: Handle<mark::Function> = Handle::from_index(index as u32);
        Some(&module.functions[handle])
    } else {
        None
    }
}

fn rules_of_function(
    alloc: Global,
    module: &Module,
    known: &[Items<Rule>],
    index: usize,
) -> Result<Vec<Rule>, AllocError>
    ensures { IfOk result (λ rules. rules.items
        ≡ rules_of_function «module».now known.now index (slice_get «module».now.functions index)) }
{
    match function_at(module, index) {
        Some(function) => {
            let severe = is_severe(&module.diagnostic_filters, function.diagnostic_filter_leaf);
            function_rules(
                alloc,
                module,
                earlier(known, index),
                severe,
                false,
                function,
            )
        }
        None => Ok(Vec::new(alloc)),
    }
}

fn rules_of_point(
    alloc: Global,
    module: &Module,
    known: &[Items<Rule>],
    index: usize,
) -> Result<Vec<Rule>, AllocError>
    ensures { IfOk result (λ rules. rules.items ≡ rules_of_point «module».now known.now (slice_get «module».now.entry_points index)) }
{
    match module.entry_points.as_slice().get(index) {
        Some(point) => {
            let function = &point.function;
            let severe = is_severe(&module.diagnostic_filters, function.diagnostic_filter_leaf);
            function_rules(alloc, module, known, severe, true, function)
        }
        None => Ok(Vec::new(alloc)),
    }
}

/// Returns the implications of the function or entry point at a location, or none if the module has no such location.
///
/// # Errors
///
/// `AllocError` if memory runs out, or there are 2^32 positions.
pub fn rules_at(
    alloc: Global,
    module: &Module,
    known: &[Items<Rule>],
    location: BodyLocation,
) -> Result<Vec<Rule>, AllocError>
    ensures { IfOk result (λ rules. rules.items ≡ rules_at «module».now known.now location) }
{
    match location {
        BodyLocation::Function(index) => rules_of_function(alloc, module, known, index),
        BodyLocation::EntryPoint(index) => rules_of_point(alloc, module, known, index),
    }
}

/// Returns the implications by which the last fact follows from the first one at a location, from the last fact back: the shortest such
/// trace, where steps in time and from block to block cost nothing. `None` if the last fact doesn't follow from the first one.
///
/// `known` has the summaries that `find_divergence` returns. Of equally short traces, the first by the order of implications is returned.
///
/// # Errors
///
/// `AllocError` if memory runs out, or there are 2^32 implications.
pub fn trace(
    alloc: Global,
    module: &Module,
    known: &[Items<Rule>],
    location: BodyLocation,
    first: &Fact,
    last: &Fact,
) -> Result<Option<Vec<Rule>>, AllocError>
    ensures found { IfOk result (λ found. IsTraceOf (rules_at «module».now known.now location) first.now last.now found) }
    ensures shortest { IfOk result (λ found. IfSome found (λ trace.
        IsShortest (rules_at «module».now known.now location) first.now last.now trace.items)) }
{
    let rules = rules_at(alloc, module, known, location)?;
    shortest_trace(alloc, &rules, first, last)
}
