//! The records of a function's expressions, from the first on, and the errors found on the way.
ghost use Rattle.std.specs.Prelude.{◌≡◌, ℕ, ◌+◌, ◌<◌, ◌++◌, [], ◌∷◌, All, List, IfOk, IfErr, OnOk, length, replicate};
ghost use Rattle.shader_analysis_spec.specs.Derivable.{AreTypes, Derives, function_context};
ghost use Rattle.shader_analysis_spec.specs.Program.{IsExpressionAt};
ghost use Rattle.shader_expression_types.specs.Checked.{IsSound, NamesFault, untyped_error};
ghost use Rattle.shader_expression_types.specs.Typed.{AreOfTheFirst};
ghost use Rattle.shader_info.specs.declared.error.FunctionError.TheVariants as error;
ghost use Rattle.shader_info.specs.declared.info.FunctionInfo.{FunctionInfo};
ghost use Rattle.shader_ir.specs.Key.{FitsTypes};
ghost use Rattle.shader_ir.specs.TypeTree.{IsBackward};
ghost use Rattle.shader_resolve.specs.ContextLaws.{FunctionFits};
ghost use Rattle.shader_passes.specs.Counting.{counts_in};
ghost use Rattle.shader_passes.specs.Facts.{Fact, entry};
ghost use Rattle.shader_passes.specs.InfoOf.{PointsBackwards};
ghost use Rattle.shader_passes.specs.Records.{facts_in, types_in};
ghost use Rattle.shader_passes.specs.Results.{computed_facts};

use crate::bindings::access_refusal;
use crate::one::type_beside;
use shader_arena::Handle;
use shader_info::{Capabilities, ExpressionError, ExpressionInfo, FunctionError, FunctionInfo};
use shader_ir::proc::TypeResolution;
use shader_ir::{Expression, Function, Module, mark};
use shader_passes::facts::{Facts, Root, own_root, record_of};
use shader_resolve::{ResolveContext, ResolveError};
use std::alloc::Global;

/// Returns the module data that type resolution reads for the function.
fn context_of<'a>(module: &'a Module, function: &'a Function) -> ResolveContext<'a>
    ensures { result ≡ function_context «module».now function.now }
{
    ResolveContext::with_locals(
        module,
        &function.local_variables,
        function.arguments.as_slice(),
    )
}

/// Returns the error of a function, or of a global expression, for an expression without a type. An allocation failure is returned as such,
/// any other refusal together with its expression.
pub fn untyped(handle: Handle<mark::Expression>, failure: ResolveError) -> FunctionError
    ensures { result ≡ untyped_error handle failure }
{
    match failure {
        ResolveError::OutOfMemory => FunctionError::OutOfMemory,
        failure => FunctionError::Expression {
            handle,
            source: ExpressionError::Resolve(failure),
        },
    }
}

/// Computes the type of the function's expression at `handle`, given the records of the expressions before it and their facts.
#[inline(always)]
fn next_type(
    alloc: Global,
    module: &Module,
    function: &Function,
    context: &ResolveContext<'_>,
    facts: &Facts<'_>,
    capabilities: Capabilities,
    records: &[ExpressionInfo],
    handle: Handle<mark::Expression>,
    expression: &Expression,
) -> Result<TypeResolution, FunctionError>
    requires backward { IsBackward «module».now.types }
    requires context { FunctionFits «module».now function.now }
    requires same { context.now ≡ function_context «module».now function.now }
    requires operands { PointsBackwards function.now }
    requires position { handle ≡ length records.now }
    requires known { length facts.now ≡ length records.now }
    requires there { IsExpressionAt function.now handle expression.now }
    requires first { AreOfTheFirst (function_context «module».now function.now) function.now.expressions (types_in records.now) }
    requires fit { All (FitsTypes «module».now.types) (types_in records.now) }
    ensures derived { IfOk result (λ resolution. Derives (function_context «module».now function.now) function.now.expressions
        handle resolution) }
    ensures fits { IfOk result (λ resolution. FitsTypes «module».now.types resolution) }
    ensures sound { (infos : List FunctionInfo) (later : List Fact) → computed_facts «module».now infos function.now ≡ facts.now ++ later →
        IfOk result (λ _. IsSound «module».now infos function.now capabilities handle) }
    ensures named { (infos : List FunctionInfo) (later : List Fact) → computed_facts «module».now infos function.now ≡ facts.now ++ later →
        IfErr result (λ failure. NamesFault «module».now infos function.now capabilities failure) }
{
    match access_refusal(&module.types, facts, records, capabilities, expression) {
        Some(source) => Err(FunctionError::Expression { handle, source }),
        None => match type_beside(alloc, context, records, expression) {
            Ok(resolution) => Ok(resolution),
            Err(failure) => Err(untyped(handle, failure)),
        },
    }
}

/// Adds the record of the next expression and the global that it points into.
#[inline(always)]
fn record_next(
    alloc: Global,
    module: &Module,
    infos: &[FunctionInfo],
    function: &Function,
    context: &ResolveContext<'_>,
    capabilities: Capabilities,
    records: &mut Vec<ExpressionInfo>,
    roots: &mut Vec<Root>,
    handle: Handle<mark::Expression>,
    expression: &Expression,
) -> Result<(), FunctionError>
    requires backward { IsBackward «module».now.types }
    requires context { FunctionFits «module».now function.now }
    requires same { context.now ≡ function_context «module».now function.now }
    requires operands { PointsBackwards function.now }
    requires position { handle ≡ length records.old.items }
    requires long { length records.old.items ≡ length roots.old.items }
    requires there { IsExpressionAt function.now handle expression.now }
    requires first { AreOfTheFirst (function_context «module».now function.now) function.now.expressions (types_in records.old.items) }
    requires fit { All (FitsTypes «module».now.types) (types_in records.old.items) }
    ensures one { OnOk result (length records.new.items ≡ length records.old.items + 1) }
    ensures long { OnOk result (length records.new.items ≡ length roots.new.items) }
    ensures facts { OnOk result (facts_in records.new.items roots.new.items ≡ facts_in records.old.items roots.old.items
        ++ entry «module».now infos.now function.now (facts_in records.old.items roots.old.items) handle expression.now ∷ []) }
    ensures counts { OnOk result (counts_in records.new.items ≡ counts_in records.old.items ++ 0 ∷ []) }
    ensures first { OnOk result (AreOfTheFirst (function_context «module».now function.now) function.now.expressions
        (types_in records.new.items)) }
    ensures fit { OnOk result (All (FitsTypes «module».now.types) (types_in records.new.items)) }
    ensures sound { (later : List Fact) →
        computed_facts «module».now infos.now function.now ≡ facts_in records.old.items roots.old.items ++ later →
        IfOk result (λ _. IsSound «module».now infos.now function.now capabilities handle) }
    ensures named { (later : List Fact) →
        computed_facts «module».now infos.now function.now ≡ facts_in records.old.items roots.old.items ++ later →
        IfErr result (λ failure. NamesFault «module».now infos.now function.now capabilities failure) }
{
    let facts = Facts::new(records.as_slice(), roots.as_slice());
    let ty = next_type(
        alloc,
        module,
        function,
        context,
        &facts,
        capabilities,
        records.as_slice(),
        handle,
        expression,
    )?;
    let root = own_root(&facts, expression);
    let found = record_of(module, infos, function, &facts, handle, expression, ty);
    add(records, roots, found, root)?;
    Ok(())
}

/// Adds a record and a root.
#[inline(always)]
fn add(
    records: &mut Vec<ExpressionInfo>,
    roots: &mut Vec<Root>,
    found: ExpressionInfo,
    root: Root,
) -> Result<(), FunctionError>
    ensures records { OnOk result (records.new.items ≡ records.old.items ++ found ∷ []) }
    ensures roots { OnOk result (roots.new.items ≡ roots.old.items ++ root ∷ []) }
    ensures memory { IfErr result (λ failure. failure ≡ error.OutOfMemory) }
{
    match records.push(found) {
        Ok(()) => {}
        Err(_) => return Err(FunctionError::OutOfMemory),
    }
    match roots.push(root) {
        Ok(()) => Ok(()),
        Err(_) => Err(FunctionError::OutOfMemory),
    }
}

/// Records the expressions of a function in `records`, and the globals that they point into in `roots`. Both are empty before. No reference
/// is counted yet.
///
/// # Errors
///
/// An expression that has no type; one that indexes a binding array of images or samplers by a value that may differ among invocations
/// without the capability, or a binding array of any other elements; an allocation failure.
pub fn record_expressions(
    alloc: Global,
    module: &Module,
    infos: &[FunctionInfo],
    function: &Function,
    capabilities: Capabilities,
    records: &mut Vec<ExpressionInfo>,
    roots: &mut Vec<Root>,
) -> Result<(), FunctionError>
    requires backward { IsBackward «module».now.types }
    requires context { FunctionFits «module».now function.now }
    requires operands { PointsBackwards function.now }
    requires no_record { records.old.items ≡ [] }
    requires no_root { roots.old.items ≡ [] }
    ensures long { OnOk result (length records.new.items ≡ length roots.new.items) }
    ensures facts { OnOk result (facts_in records.new.items roots.new.items ≡ computed_facts «module».now infos.now function.now) }
    ensures counts { OnOk result (counts_in records.new.items ≡ replicate (length function.now.expressions) 0) }
    ensures types { OnOk result (AreTypes (function_context «module».now function.now) function.now.expressions
        (types_in records.new.items)) }
    ensures fit { OnOk result (All (FitsTypes «module».now.types) (types_in records.new.items)) }
    ensures sound { IfOk result (λ _. (e : ℕ) → IsSound «module».now infos.now function.now capabilities e) }
    ensures named { IfErr result (λ failure. NamesFault «module».now infos.now function.now capabilities failure) }
{
    let context = context_of(module, function);
    for (handle, expression) in function.expressions.iter() {
        let added = record_next(
            alloc,
            module,
            infos,
            function,
            &context,
            capabilities,
            records,
            roots,
            handle,
            expression,
        );
        match added {
            Ok(()) => {}
            Err(failure) => return Err(failure),
        }
    }
    Ok(())
}
