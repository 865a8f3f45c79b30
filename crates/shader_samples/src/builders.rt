//! Builders of items for the samples.
ghost use Rattle.std.specs.Prelude.{◌≡◌, ◌≤◌, [], None, length, IfOk};
ghost use Rattle.shader_arena.specs.Positions.{most_items};
ghost use Rattle.shader_ir.specs.BodyOf.{body_of};
ghost use Rattle.shader_ir.specs.declared.expression.Expression.TheVariants as form;
ghost use Rattle.shader_ir.specs.declared.statement.Statement.TheVariants as statement;
ghost use Rattle.shader_samples.specs.Modules.{function_with, module_with};
ghost use Rattle.shader_samples.specs.Samples.{argument, number, off, resource, storage};
ghost use Rattle.shader_samples.specs.Types.{types_after};

use shader_arena::{Arena, Handle, Range, UniqueArena};
use shader_ir::{
    AddressSpace, Block, DiagnosticFilterNode, DiagnosticRule, Expression, Function,
    FunctionArgument, GlobalVariable, Items, Literal, Map, Module, Severity, Statement,
    StorageAccess, SwitchCase, SwitchValue, Type, TypeInner, mark,
};
use std::alloc::{AllocError, Global};

/// Returns an arena of the items, in order.
///
/// # Errors
///
/// `AllocError` if allocation fails.
pub fn arena_of<T: Drop, M>(alloc: Global, items: Vec<T>) -> Result<Arena<T, M>, AllocError>
    requires { length items.items ≤ most_items }
    ensures { IfOk result (λ arena. arena ≡ items.items) }
{
    let mut arena = Arena::new(alloc);
    for item in items {
        arena.append(item)?;
    }
    Ok(arena)
}

/// Returns an arena of the types without names, in order. A repeated type is there once.
///
/// # Errors
///
/// `AllocError` if allocation fails.
pub fn types_of(
    alloc: Global,
    inners: Vec<TypeInner>,
) -> Result<UniqueArena<Type, mark::Type>, AllocError>
    requires { length inners.items ≤ most_items }
    ensures { IfOk result (λ types. types ≡ types_after [] inners.items) }
{
    let mut types = UniqueArena::new(alloc);
    for inner in inners {
        types.insert(Type { name: None, inner })?;
    }
    Ok(types)
}

/// Builds a module of these types, globals and functions alone.
///
/// # Errors
///
/// `AllocError` if allocation fails.
pub fn module_of(
    alloc: Global,
    types: Vec<TypeInner>,
    globals: Vec<GlobalVariable>,
    functions: Vec<Function>,
) -> Result<Module, AllocError>
    requires types { length types.items ≤ most_items }
    requires globals { length globals.items ≤ most_items }
    requires functions { length functions.items ≤ most_items }
    ensures { IfOk result (λ built. built ≡ module_with (types_after [] types.items) globals.items functions.items) }
{
    let functions = arena_of(alloc, functions)?;
    let globals = arena_of(alloc, globals)?;
    let types = types_of(alloc, types)?;
    Ok(module_with(alloc, types, globals, functions))
}

/// Builds a module that has these items and nothing else.
fn module_with(
    alloc: Global,
    types: UniqueArena<Type, mark::Type>,
    global_variables: Arena<GlobalVariable, mark::GlobalVariable>,
    functions: Arena<Function, mark::Function>,
) -> Module
    ensures { result ≡ module_with types global_variables functions }
{
    let mut module = Module::new(alloc);
    module.types = types;
    module.global_variables = global_variables;
    module.functions = functions;
    module
}

/// Builds a function without arguments, result and locals.
///
/// # Errors
///
/// `AllocError` if allocation fails.
pub fn function_of(
    alloc: Global,
    expressions: Vec<Expression>,
    statements: Vec<Statement>,
) -> Result<Function, AllocError>
    requires { length expressions.items ≤ most_items }
    ensures { IfOk result (λ built. built ≡ function_with [] None expressions.items [] (body_of statements.items)) }
{
    Ok(Function {
        name: None,
        arguments: Items::from(Vec::new(alloc)),
        result: None,
        local_variables: Arena::new(alloc),
        expressions: arena_of(alloc, expressions)?,
        named_expressions: Map::new(alloc),
        body: Block { statements },
        diagnostic_filter_leaf: None,
    })
}

/// Returns the handle of the expression at a position.
pub fn at(position: u32) -> Handle<mark::Expression>
    ensures { result ≡ position }
{
    Handle::from_index(position)
}

/// Returns a global in the handle space, as images and samplers are.
pub fn resource(ty: u32) -> GlobalVariable
    ensures { result ≡ resource ty }
{
    GlobalVariable {
        name: None,
        space: AddressSpace::Handle,
        ty: Handle::from_index(ty),
        init: None,
    }
}

/// Returns a global in a storage buffer that is read and written.
pub fn storage(ty: u32) -> GlobalVariable
    ensures { result ≡ storage ty }
{
    GlobalVariable {
        name: None,
        space: AddressSpace::Storage {
            access: StorageAccess::LOAD | StorageAccess::STORE,
        },
        ty: Handle::from_index(ty),
        init: None,
    }
}

/// Returns an argument without a binding.
pub fn argument(ty: u32) -> FunctionArgument
    ensures { result ≡ argument ty }
{
    FunctionArgument {
        name: None,
        ty: Handle::from_index(ty),
        binding: None,
    }
}

/// Returns the expression of the global at a position.
pub fn global(position: u32) -> Expression
    ensures { result ≡ form.GlobalVariable position }
{
    Expression::GlobalVariable(Handle::from_index(position))
}

/// Returns a literal of type u32.
pub fn number(value: u32) -> Expression
    ensures { result ≡ number value }
{
    Expression::Literal(Literal::U32(value))
}

/// Returns the statement that evaluates the expressions from `start` to `end`, excluding `end`.
pub fn emit(start: u32, end: u32) -> Statement
    ensures { result ≡ statement.Emit (start, end) }
{
    Statement::Emit(Range::new(at(start), at(end)))
}

/// Returns the statement that writes a value through a pointer.
pub fn store(pointer: u32, value: u32) -> Statement
    ensures { result ≡ statement.Store pointer value }
{
    Statement::Store {
        pointer: at(pointer),
        value: at(value),
    }
}

/// Returns the statement that calls a function and ignores its result.
pub fn call(function: u32, arguments: Vec<Handle<mark::Expression>>) -> Statement
    ensures { result ≡ statement.Call function arguments.items None }
{
    Statement::Call {
        function: Handle::from_index(function),
        arguments: Items::from(arguments),
        result: None,
    }
}

/// Returns the statement that runs the first statements if the condition holds, and otherwise the second.
pub fn branch(condition: u32, accept: Vec<Statement>, reject: Vec<Statement>) -> Statement
    ensures { result ≡ statement.If condition (body_of accept.items) (body_of reject.items) }
{
    Statement::If {
        condition: at(condition),
        accept: Block { statements: accept },
        reject: Block { statements: reject },
    }
}

/// Returns one case of a switch.
pub fn case(value: SwitchValue, statements: Vec<Statement>, fall_through: bool) -> SwitchCase
    ensures { result ≡ record { value = value; body = body_of statements.items; fall_through = fall_through } }
{
    SwitchCase {
        value,
        body: Block { statements },
        fall_through,
    }
}

/// Returns one filter, which turns off diagnostics of derivatives outside uniform flow.
///
/// # Errors
///
/// `AllocError` if allocation fails.
pub fn derivatives_off(
    alloc: Global,
) -> Result<Arena<DiagnosticFilterNode, mark::DiagnosticFilterNode>, AllocError>
    ensures { IfOk result (λ filters. filters ≡ off) }
{
    let filter = DiagnosticFilterNode {
        severity: Severity::Off,
        rule: DiagnosticRule::DerivativeUniformity,
        parent: None,
    };
    arena_of(alloc, vec![in alloc; filter]?)
}
