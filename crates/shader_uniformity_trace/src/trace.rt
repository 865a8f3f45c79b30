//! The reasons for non-uniform values in all functions of a module.
ghost use Rattle.std.specs.Prelude.{◌≡◌, ◌<◌, ◌≤◌, ◌+◌, ◌^◌, [], length, slice_get, IfOk, OnOk};
ghost use Rattle.std.specs.List.{enumerate_from};
ghost use Rattle.std.specs.Option.{option_and_then};
ghost use Rattle.shader_analysis_spec.specs.Program.{statements};
ghost use Rattle.shader_resolve.specs.WellFormed.{IsWellFormed};
ghost use Rattle.shader_uniformity_trace.specs.Chains.{HasFunction, IsFunctionAt, earlier_functions};
ghost use Rattle.shader_uniformity_trace.specs.Trace.{AreEntryTraces, AreTraces, IsTrace, IsTable};
ghost use Rattle.shader_uniformity_trace.specs.Reasons.{first_given, next_of, reason_at, reason_of, reasons_after};

use crate::link::{FunctionLocation, Link};
use crate::reasons::{Reason, Trace, first_given, reason_at, reasons_of, result_reason_at};
use shader_arena::Handle;
use shader_ir::{Function, Module, mark};
use shader_passes::flatten::statements_of;
use std::alloc::{AllocError, Global};

/// The reasons for non-uniform values in a module.
#[derive(Drop)]
pub struct Table {
    /// The reasons in each function.
    pub functions: Vec<Trace>,
    /// The reasons in each entry point.
    pub entry_points: Vec<Trace>,
}

/// Returns the function at a location.
fn function_at<'a>(module: &'a Module, location: &FunctionLocation) -> &'a Function
    requires { HasFunction «module».now location.now }
    ensures { IsFunctionAt «module».now location.now result.now }
{
    match location {
        FunctionLocation::Function(handle) => &module.functions[*handle],
        FunctionLocation::EntryPoint(index) => &module.entry_points.as_slice()[*index].function,
    }
}

/// Computes the reasons in a function.
fn walked(
    alloc: Global,
    module: &Module,
    traces: &[Trace],
    location: &FunctionLocation,
    function: &Function,
) -> Result<Trace, AllocError>
    ensures expressions { IfOk result (λ trace. trace.expressions.items ≡ reasons_after «module».now traces.now location.now function.now []
        (enumerate_from 0 function.now.expressions)) }
    ensures result { IfOk result (λ trace. trace.result ≡ first_given location.now traces.now trace.expressions.items
        (statements function.now.body)) }
{
    let expressions = reasons_of(alloc, module, traces, location, function)?;
    let all = statements_of(alloc, &function.body)?;
    let result = first_given(location, traces, &expressions, &all);
    Ok(Trace {
        expressions,
        result,
    })
}

/// Computes the reasons in a function, given those in the functions before it.
fn trace_of(
    alloc: Global,
    module: &Module,
    traces: &[Trace],
    location: &FunctionLocation,
) -> Result<Trace, AllocError>
    requires well_formed { IsWellFormed «module».now }
    requires traces { AreTraces «module».now (earlier_functions «module».now location.now) traces.now }
    requires function { HasFunction «module».now location.now }
    ensures { IfOk result (IsTrace «module».now location.now) }
{
    let function = function_at(module, location);
    let trace = walked(alloc, module, traces, location, function)?;
    Ok(trace)
}

/// Adds the reasons in the next function.
#[tactic(auto, using(crate::proofs::TraceLemmas::function_there))]
fn add_trace(
    alloc: Global,
    module: &Module,
    index: usize,
    traces: &mut Vec<Trace>,
) -> Result<(), AllocError>
    requires well_formed { IsWellFormed «module».now }
    requires there { index < length «module».now.functions }
    requires small { index < 2 ^ 32 }
    requires traces { AreTraces «module».now index traces.old.items }
    ensures { OnOk result (AreTraces «module».now (index + 1) traces.new.items) }
{
    let handle: Handle<mark::Function> = Handle::from_index(index as u32);
    let location = FunctionLocation::Function(handle);
    let trace = trace_of(alloc, module, traces, &location)?;
    traces.push(trace)?;
    Ok(())
}

/// Computes the reasons in the first functions.
#[tactic(auto, using(crate::proofs::TraceLemmas::no_traces))]
fn first_traces(alloc: Global, module: &Module, count: usize) -> Result<Vec<Trace>, AllocError>
    requires well_formed { IsWellFormed «module».now }
    requires there { count ≤ length «module».now.functions }
    requires small { count < 2 ^ 32 }
    ensures { IfOk result (λ traces. AreTraces «module».now count traces.items) }
{
    let mut traces = Vec::new(alloc);
    for index in 0..count {
        add_trace(alloc, module, index, &mut traces)?;
    }
    Ok(traces)
}

/// Adds the reasons in the next entry point.
#[tactic(auto, using(crate::proofs::TraceLemmas::entry_point_there))]
fn add_entry_trace(
    alloc: Global,
    module: &Module,
    functions: &[Trace],
    index: usize,
    traces: &mut Vec<Trace>,
) -> Result<(), AllocError>
    requires well_formed { IsWellFormed «module».now }
    requires there { index < length «module».now.entry_points }
    requires functions { AreTraces «module».now (length «module».now.functions) functions.now }
    requires traces { AreEntryTraces «module».now index traces.old.items }
    ensures { OnOk result (AreEntryTraces «module».now (index + 1) traces.new.items) }
{
    let location = FunctionLocation::EntryPoint(index);
    let trace = trace_of(alloc, module, functions, &location)?;
    traces.push(trace)?;
    Ok(())
}

/// Computes the reasons in the first entry points.
#[tactic(auto, using(crate::proofs::TraceLemmas::no_traces))]
fn first_entry_traces(
    alloc: Global,
    module: &Module,
    functions: &[Trace],
    count: usize,
) -> Result<Vec<Trace>, AllocError>
    requires well_formed { IsWellFormed «module».now }
    requires functions { AreTraces «module».now (length «module».now.functions) functions.now }
    requires there { count ≤ length «module».now.entry_points }
    ensures { IfOk result (λ traces. AreEntryTraces «module».now count traces.items) }
{
    let mut traces = Vec::new(alloc);
    for index in 0..count {
        add_entry_trace(alloc, module, functions, index, &mut traces)?;
    }
    Ok(traces)
}

/// Computes the reasons in each function, and then in each entry point.
///
/// # Errors
///
/// `AllocError` if the memory for one reason per expression can't be allocated.
pub fn table_of(alloc: Global, module: &Module) -> Result<Table, AllocError>
    requires well_formed { IsWellFormed «module».now }
    ensures { IfOk result (IsTable «module».now) }
{
    let functions = first_traces(alloc, module, module.functions.len())?;
    let count = module.entry_points.len();
    let entry_points = first_entry_traces(alloc, module, &functions, count)?;
    Ok(Table {
        functions,
        entry_points,
    })
}

/// Returns the reason for an expression of a function.
fn expression_at(
    traces: &[Trace],
    index: usize,
    expression: Handle<mark::Expression>,
) -> Option<Reason>
    ensures { result ≡ option_and_then (λ trace. reason_at trace.expressions.items expression) (slice_get traces.now index) }
{
    match traces.get(index) {
        Some(trace) => reason_at(&trace.expressions, expression),
        None => None,
    }
}

/// Returns the reason for a link.
pub fn reason_of(table: &Table, link: &Link) -> Option<Reason>
    ensures { result ≡ reason_of table.now link.now }
{
    match link {
        Link::Expression(location, expression) => match location {
            FunctionLocation::Function(handle) => {
                expression_at(&table.functions, handle.index(), *expression)
            }
            FunctionLocation::EntryPoint(index) => {
                expression_at(&table.entry_points, *index, *expression)
            }
        },
        Link::Result(location) => match location {
            FunctionLocation::Function(handle) => result_reason_at(
                &table.functions,
                handle.index(),
            ),
            FunctionLocation::EntryPoint(index) => result_reason_at(&table.entry_points, *index),
        },
    }
}

/// Returns the link that comes after one that is no source.
pub fn next_of(table: &Table, link: &Link) -> Option<Link>
    ensures { result ≡ next_of table.now link.now }
{
    match reason_of(table, link) {
        Some(reason) => match reason {
            Reason::Source => None,
            Reason::Through(next) => Some(next),
        },
        None => None,
    }
}
