//! The samples of a global that functions name, write, or both.
ghost use Rattle.std.specs.Prelude.{◌≡◌, ◌≤◌, [], ◌∷◌, None, length, IfOk};
ghost use Rattle.shader_arena.specs.Positions.{most_items};
ghost use Rattle.shader_ir.specs.Body.{End, Call, Leaf, Store};
ghost use Rattle.shader_ir.specs.BodyOf.{body_of};
ghost use Rattle.shader_ir.specs.declared.expression.Expression.TheVariants.{GlobalVariable};
ghost use Rattle.shader_samples.specs.Modules.{function_with};
ghost use Rattle.shader_samples.specs.Samples.{both, counter_named, named_module, number, over_a_counter, stored_module};

use crate::builders::{at, call, function_of, global, module_of, number, storage, store};
use shader_arena::Handle;
use shader_ir::{Function, Map, Module, Name, Scalar, Statement, TypeInner, mark};
use std::alloc::{AllocError, Global};

/// Returns the name of expression 0.
fn counter_named(alloc: Global) -> Result<Map<Handle<mark::Expression>, Name>, AllocError>
    ensures { IfOk result (λ built. built ≡ counter_named) }
{
    let mut named = Map::new(alloc);
    named.insert(at(0), Name::from("counter".to_string(alloc)?))?;
    Ok(named)
}

/// Builds a function of `let counter = &g;` and then these statements. `g` is expression 0 and `1u` is expression 1.
fn naming(alloc: Global, statements: Vec<Statement>) -> Result<Function, AllocError>
    ensures { IfOk result (λ built. built ≡ function_with [] None (GlobalVariable 0 ∷ number 1 ∷ []) counter_named
        (body_of statements.items)) }
{
    let named = counter_named(alloc)?;
    let expressions = vec![in alloc; global(0), number(1)]?;
    let mut function = function_of(alloc, expressions, statements)?;
    function.named_expressions = named;
    Ok(function)
}

/// Builds a function of `let counter = &g;` alone.
fn naming_alone(alloc: Global) -> Result<Function, AllocError>
    ensures { IfOk result (λ built. built ≡ function_with [] None (GlobalVariable 0 ∷ []) counter_named End) }
{
    let named = counter_named(alloc)?;
    let mut function = function_of(alloc, vec![in alloc; global(0)]?, Vec::new(alloc))?;
    function.named_expressions = named;
    Ok(function)
}

/// Builds a function of `f(); g = 1u;`.
fn calling(alloc: Global) -> Result<Function, AllocError>
    ensures { IfOk result (λ built. built ≡ function_with [] None (GlobalVariable 0 ∷ number 1 ∷ []) []
        (both (Leaf (Call 0 [] None)) (Leaf (Store 0 1)))) }
{
    let statements = vec![in alloc; call(0, Vec::new(alloc)), store(0, 1)]?;
    let expressions = vec![in alloc; global(0), number(1)]?;
    function_of(alloc, expressions, statements)
}

/// Builds a module of the functions over `var<storage, read_write> g: u32`.
fn over_a_counter(alloc: Global, functions: Vec<Function>) -> Result<Module, AllocError>
    requires { length functions.items ≤ most_items }
    ensures { IfOk result (λ built. built ≡ over_a_counter functions.items) }
{
    let types = vec![in alloc; TypeInner::Scalar(Scalar::U32)]?;
    module_of(alloc, types, vec![in alloc; storage(0)]?, functions)
}

/// Builds a module with a global that one function only names and that its caller writes:
///
/// ```wgsl
/// @group(0) @binding(0) var<storage, read_write> g: u32;
/// fn f() { let counter = &g; }
/// fn h() { f(); g = 1u; }
/// ```
///
/// # Errors
///
/// `AllocError` if allocation fails.
pub fn named(alloc: Global) -> Result<Module, AllocError>
    ensures { IfOk result (λ built. built ≡ named_module) }
{
    let functions = vec![in alloc; naming_alone(alloc)?, calling(alloc)?]?;
    over_a_counter(alloc, functions)
}

/// Builds a module with a global that is named and written:
///
/// ```wgsl
/// @group(0) @binding(0) var<storage, read_write> g: u32;
/// fn f() { let counter = &g; g = 1u; }
/// ```
///
/// # Errors
///
/// `AllocError` if allocation fails.
pub fn stored(alloc: Global) -> Result<Module, AllocError>
    ensures { IfOk result (λ built. built ≡ stored_module) }
{
    let statements = vec![in alloc; store(0, 1)]?;
    let functions = vec![in alloc; naming(alloc, statements)?]?;
    over_a_counter(alloc, functions)
}
