//! The first location of a module that violates well-formedness.
ghost use Rattle.std.specs.Prelude.{◌≡◌, ◌↔◌, IfSome, IsNone};
ghost use Rattle.shader_resolve.specs.FaultyLocations.{IsFirstModuleFault, in_entry_point, in_function};
ghost use Rattle.shader_resolve.specs.ModuleTests.{constant_in_range, global_in_range, override_in_range};
ghost use Rattle.shader_resolve.specs.LocationTests.{check_declarations, find_constants, find_entry_points, find_expressions, find_filters};
ghost use Rattle.shader_resolve.specs.LocationTests.{find_functions, find_global_expressions, find_globals, find_in_function};
ghost use Rattle.shader_resolve.specs.LocationTests.{find_in_module};
ghost use Rattle.shader_resolve.specs.LocationTests.{find_overrides, find_types, find_variables, located_here, handles_tested};
ghost use Rattle.shader_resolve.specs.WellFormed.{IsWellFormed, ModuleHasFault};

use super::data::{check_filter, check_type, special_in_range};
use super::expressions::{check_expression, is_below, is_optional_below};
use super::functions::{check_arguments, function_in_range};
use super::statements::check_block;
use super::{Bounds, ModuleFault};
use shader_arena::{Arena, Handle};
use shader_ir::{Constant, Expression, Function, GlobalVariable, Module, Override, mark};
use std::fmt;
use thiserror::Error;

/// A location in a function.
#[derive(Clone, Copy)]
pub enum LocationInFunction {
    /// The arguments, result, local variables, named expressions and filter.
    Declarations,
    /// An expression.
    Expression(Handle<mark::Expression>),
    /// The statements, at any depth.
    Body,
}

/// A location in a module.
#[derive(Clone, Copy, Debug, PartialEq, Eq)]
pub enum ModuleLocation {
    /// The special types.
    SpecialTypes,
    /// A constant.
    Constant(Handle<mark::Constant>),
    /// A constant that a pipeline may replace.
    Override(Handle<mark::Override>),
    /// A global variable.
    GlobalVariable(Handle<mark::GlobalVariable>),
    /// A type.
    Type(Handle<mark::Type>),
    /// A diagnostic filter.
    DiagnosticFilter(Handle<mark::DiagnosticFilterNode>),
    /// A global expression.
    GlobalExpression(Handle<mark::Expression>),
    /// The arguments, result, local variables, named expressions and filter of a function.
    Function(Handle<mark::Function>),
    /// An expression of a function.
    FunctionExpression(Handle<mark::Function>, Handle<mark::Expression>),
    /// The statements of a function, at any depth.
    FunctionBody(Handle<mark::Function>),
    /// The declarations of an entry point's function, as in `Function`. The index is that in `entry_points`.
    EntryPoint(usize),
    /// An expression of an entry point's function.
    EntryPointExpression(usize, Handle<mark::Expression>),
    /// The statements of an entry point's function.
    EntryPointBody(usize),
}

impl fmt::Display for ModuleLocation {
    fn fmt<W: fmt::Write>(&self, f: &mut fmt::Formatter<W>) -> fmt::Result {
        match *self {
            ModuleLocation::SpecialTypes => f.write_str("the special types"),
            ModuleLocation::Constant(handle) => write!(f, "constant {handle:?}"),
            ModuleLocation::Override(handle) => write!(f, "override {handle:?}"),
            ModuleLocation::GlobalVariable(handle) => write!(f, "global variable {handle:?}"),
            ModuleLocation::Type(handle) => write!(f, "type {handle:?}"),
            ModuleLocation::DiagnosticFilter(handle) => write!(f, "diagnostic filter {handle:?}"),
            ModuleLocation::GlobalExpression(handle) => write!(f, "global expression {handle:?}"),
            ModuleLocation::Function(handle) => write!(f, "function {handle:?}"),
            ModuleLocation::FunctionExpression(function, handle) => {
                write!(f, "function {function:?}, expression {handle:?}")
            }
            ModuleLocation::FunctionBody(handle) => write!(
                f,
                "function {handle:?}, its statements"
            ),
            ModuleLocation::EntryPoint(index) => write!(f, "entry point {index}"),
            ModuleLocation::EntryPointExpression(index, handle) => {
                write!(f, "entry point {index}, expression {handle:?}")
            }
            ModuleLocation::EntryPointBody(index) => write!(
                f,
                "entry point {index}, its statements"
            ),
        }
    }
}

/// A violation of well-formedness and its location. It prints the violation's name, and `report` words it.
#[derive(Clone, Copy, Debug, PartialEq, Eq, Error)]
#[error("{location}: {fault}")]
pub struct FaultAt {
    /// The location.
    pub location: ModuleLocation,
    /// The violation.
    pub fault: ModuleFault,
}

/// Returns the location in the module of a location in a function.
fn in_function(function: Handle<mark::Function>, location: LocationInFunction) -> ModuleLocation
    ensures { result ≡ in_function function location }
{
    match location {
        LocationInFunction::Declarations => ModuleLocation::Function(function),
        LocationInFunction::Expression(handle) => ModuleLocation::FunctionExpression(
            function, handle,
        ),
        LocationInFunction::Body => ModuleLocation::FunctionBody(function),
    }
}

/// Returns the location in the module of a location in the function of an entry point.
fn in_entry_point(index: usize, location: LocationInFunction) -> ModuleLocation
    ensures { result ≡ in_entry_point index location }
{
    match location {
        LocationInFunction::Declarations => ModuleLocation::EntryPoint(index),
        LocationInFunction::Expression(handle) => ModuleLocation::EntryPointExpression(
            index, handle,
        ),
        LocationInFunction::Body => ModuleLocation::EntryPointBody(index),
    }
}

type Located<P> = Result<(), (P, ModuleFault)>;

fn first_fault(module: &Module) -> Option<(ModuleLocation, ModuleFault)>
    ensures none { IsNone result ↔ IsWellFormed «module».now }
    ensures first { IfSome result (λ found. IsFirstModuleFault «module».now found.0 found.1) }
    ensures is_there { IfSome result (λ found. ModuleHasFault «module».now found.1) }
{
    find_in_module(module).err()
}

/// Returns the first faulty location of a module, with a violation that occurs there, or `None` if the module is well formed.
///
/// The order is that of the variants of `ModuleLocation` and by handle within each, except that the locations of one function or entry
/// point are consecutive. Like `check_module`, this assumes nothing of the module's handles and allocates nothing; it visits the module
/// once.
pub fn find_fault(module: &Module) -> Option<FaultAt>
    ensures none { IsNone result ↔ IsWellFormed «module».now }
    ensures first { IfSome result (λ found. IsFirstModuleFault «module».now found.location found.fault) }
    ensures is_there { IfSome result (λ found. ModuleHasFault «module».now found.fault) }
{
    let (location, fault) = first_fault(module)?;
    Some(FaultAt { location, fault })
}

fn find_in_module(module: &Module) -> Located<ModuleLocation>
    ensures { result ≡ find_in_module «module».now }
{
    find_in_variables(module)?;
    find_in_types(module)?;
    find_in_filters(module)?;
    find_in_global_expressions(module)?;
    find_in_functions(module)?;
    find_in_entry_points(module)
}

/// Returns the result of a check of handles alone.
fn handles_tested(are_in_range: bool) -> Result<(), ModuleFault>
    ensures { result ≡ handles_tested are_in_range }
{
    if are_in_range {
        Ok(())
    } else {
        Err(ModuleFault::HandleOutOfRange)
    }
}

/// Attaches a location to a violation.
fn located_here<P>(location: P, checked: Result<(), ModuleFault>) -> Located<P>
where
    P: Copy,
    ensures { result ≡ located_here location checked }
{
    match checked {
        Ok(()) => Ok(()),
        Err(fault) => Err((location, fault)),
    }
}

fn find_in_variables(module: &Module) -> Located<ModuleLocation>
    ensures { result ≡ find_variables «module».now }
{
    let special = special_in_range(module, &module.special_types);
    located_here(ModuleLocation::SpecialTypes, handles_tested(special))?;
    find_in_constants(module)?;
    find_in_overrides(module)?;
    find_in_globals(module)
}

fn constant_in_range(module: &Module, constant: &Constant) -> bool
    ensures { result ≡ constant_in_range «module».now constant.now }
{
    is_below(constant.ty, module.types.len())
        && is_below(constant.init, module.global_expressions.len())
}

fn find_in_constants(module: &Module) -> Located<ModuleLocation>
    ensures { result ≡ find_constants «module».now }
{
    for (handle, constant) in module.constants.iter() {
        let tested = handles_tested(constant_in_range(module, constant));
        located_here(ModuleLocation::Constant(handle), tested)?;
    }
    Ok(())
}

fn override_in_range(module: &Module, value: &Override) -> bool
    ensures { result ≡ override_in_range «module».now value.now }
{
    is_below(value.ty, module.types.len())
        && is_optional_below(value.init, module.global_expressions.len())
}

fn find_in_overrides(module: &Module) -> Located<ModuleLocation>
    ensures { result ≡ find_overrides «module».now }
{
    for (handle, value) in module.overrides.iter() {
        let tested = handles_tested(override_in_range(module, value));
        located_here(ModuleLocation::Override(handle), tested)?;
    }
    Ok(())
}

fn global_in_range(module: &Module, variable: &GlobalVariable) -> bool
    ensures { result ≡ global_in_range «module».now variable.now }
{
    is_below(variable.ty, module.types.len())
        && is_optional_below(variable.init, module.global_expressions.len())
}

fn find_in_globals(module: &Module) -> Located<ModuleLocation>
    ensures { result ≡ find_globals «module».now }
{
    for (handle, variable) in module.global_variables.iter() {
        let tested = handles_tested(global_in_range(module, variable));
        located_here(ModuleLocation::GlobalVariable(handle), tested)?;
    }
    Ok(())
}

fn find_in_types(module: &Module) -> Located<ModuleLocation>
    ensures { result ≡ find_types «module».now }
{
    for (handle, ty) in module.types.iter() {
        let checked = check_type(module, handle.index(), &ty.inner);
        located_here(ModuleLocation::Type(handle), checked)?;
    }
    Ok(())
}

fn find_in_filters(module: &Module) -> Located<ModuleLocation>
    ensures { result ≡ find_filters «module».now }
{
    for (handle, node) in module.diagnostic_filters.iter() {
        let checked = check_filter(module, handle.index(), node);
        located_here(ModuleLocation::DiagnosticFilter(handle), checked)?;
    }
    Ok(())
}

fn find_in_global_expressions(module: &Module) -> Located<ModuleLocation>
    ensures { result ≡ find_global_expressions «module».now }
{
    let bounds = Bounds {
        earlier: 0,
        locals: 0,
        expressions: module.global_expressions.len(),
    };
    for (handle, expression) in module.global_expressions.iter() {
        let checked = check_expression(module, bounds, handle.index(), expression);
        located_here(ModuleLocation::GlobalExpression(handle), checked)?;
    }
    Ok(())
}

fn check_declarations(module: &Module, function: &Function) -> Result<(), ModuleFault>
    ensures { result ≡ check_declarations «module».now function.now }
{
    handles_tested(function_in_range(module, function))?;
    check_arguments(module, function.arguments.as_slice())
}

fn find_in_expressions(
    module: &Module,
    bounds: Bounds,
    expressions: &Arena<Expression, mark::Expression>,
) -> Located<LocationInFunction>
    ensures { result ≡ find_expressions «module».now bounds expressions.now }
{
    for (handle, expression) in expressions.iter() {
        let checked = check_expression(module, bounds, handle.index(), expression);
        located_here(LocationInFunction::Expression(handle), checked)?;
    }
    Ok(())
}

/// Returns the first faulty location of a function with this many earlier ones.
fn find_in_function(
    module: &Module,
    earlier: usize,
    function: &Function,
) -> Located<LocationInFunction>
    ensures { result ≡ find_in_function «module».now earlier function.now }
{
    let bounds = Bounds {
        earlier,
        locals: function.local_variables.len(),
        expressions: function.expressions.len(),
    };
    located_here(
        LocationInFunction::Declarations,
        check_declarations(module, function),
    )?;
    find_in_expressions(module, bounds, &function.expressions)?;
    located_here(
        LocationInFunction::Body,
        check_block(&function.body, module, bounds),
    )
}

fn find_in_functions(module: &Module) -> Located<ModuleLocation>
    ensures { result ≡ find_functions «module».now }
{
    for (handle, function) in module.functions.iter() {
        if let Err((location, fault)) = find_in_function(module, handle.index(), function) {
            return Err((in_function(handle, location), fault));
        }
    }
    Ok(())
}

/// Returns the first faulty location of the entry points. To an entry point all functions are earlier.
fn find_in_entry_points(module: &Module) -> Located<ModuleLocation>
    ensures { result ≡ find_entry_points «module».now }
{
    let mut index: usize = 0;
    for entry in module.entry_points.as_slice() {
        if let Err((location, fault)) = find_in_function(
            module,
            module.functions.len(),
            &entry.function,
        ) {
            return Err((in_entry_point(index, location), fault));
        }
        index += 1;
    }
    Ok(())
}
