//! Well-formedness of modules.
ghost use Rattle.std.specs.Prelude.{◌≡◌, ◌↔◌, IsOk, IfErr};
ghost use Rattle.shader_resolve.specs.ModuleTests.{check_entry_point, check_function, check_module, in_arena, in_list};
ghost use Rattle.shader_resolve.specs.WellFormed.{IsWellFormed, ModuleHasFault};

mod data;
mod expressions;
mod functions;
mod locations;
mod nesting;
mod operands;
mod report;
mod statements;

use data::check_data;
use expressions::check_expressions;
use functions::check_function;
pub use locations::{FaultAt, ModuleLocation, find_fault};
pub use nesting::{MOST_LEVELS, nests_within};
pub use report::{FaultAtReport, ModuleFaultReport};
use shader_ir::Module;
use thiserror::Error;

/// The reason why a module isn't well formed. It prints as the name of its variant, and `report` words it.
#[derive(Clone, Copy, Debug, PartialEq, Eq, Error)]
pub enum ModuleFault {
    /// A handle is past the end of its arena. The range of an `Emit` is left to `EmitRange`, and a global expression has no locals.
    #[error("HandleOutOfRange")]
    HandleOutOfRange,
    /// A type names itself or a later type.
    #[error("TypeNotEarlier")]
    TypeNotEarlier,
    /// An operand of an expression is that expression or a later one.
    #[error("OperandNotEarlier")]
    OperandNotEarlier,
    /// A function calls itself or a later function, or names the result of such a call; or a global
    /// expression names the result of a call. To an entry point all functions are earlier.
    #[error("CalleeNotEarlier")]
    CalleeNotEarlier,
    /// A call passes more or fewer arguments than its callee takes.
    #[error("ArgumentCount")]
    ArgumentCount,
    /// The parent of a filter is that filter or a later one.
    #[error("FilterNotEarlier")]
    FilterNotEarlier,
    /// A function takes an argument of a `ValuePointer` type.
    #[error("ValuePointerArgument")]
    ValuePointerArgument,
    /// An `Emit` names an expression past the end of its function's.
    #[error("EmitRange")]
    EmitRange,
}

/// The numbers of functions, locals and expressions that the expressions and statements of a function may name.
#[derive(Clone, Copy)]
pub struct Bounds {
    /// The functions before it.
    pub earlier: usize,
    pub locals: usize,
    pub expressions: usize,
}

/// Checks that a module is well formed. The check is sound and complete: `Ok` exactly if the module is well formed, and else a violation
/// that the module has. Assumes nothing of the module's handles, and allocates nothing.
pub fn check_module(module: &Module) -> Result<(), ModuleFault>
    ensures ok { IsOk result ↔ IsWellFormed «module».now }
    ensures fault { IfErr result (λ fault. ModuleHasFault «module».now fault) }
{
    check_parts(module)
}

/// Checks the data, the global expressions, the functions and the entry points in this order. Returns the first violation.
fn check_parts(module: &Module) -> Result<(), ModuleFault>
    ensures { result ≡ check_module «module».now }
{
    check_data(module)?;
    let bounds = Bounds {
        earlier: 0,
        locals: 0,
        expressions: module.global_expressions.len(),
    };
    check_expressions(module, bounds, &module.global_expressions)?;
    check_functions(module)?;
    check_entry_points(module)
}

fn check_functions(module: &Module) -> Result<(), ModuleFault>
    ensures { result ≡ in_arena (check_function «module».now) «module».now.functions }
{
    for (handle, function) in module.functions.iter() {
        check_function(module, handle.index(), function)?;
    }
    Ok(())
}

/// Checks the entry points. To an entry point all functions are earlier.
fn check_entry_points(module: &Module) -> Result<(), ModuleFault>
    ensures { result ≡ in_list (check_entry_point «module».now) «module».now.entry_points }
{
    for entry in module.entry_points.as_slice() {
        check_function(module, module.functions.len(), &entry.function)?;
    }
    Ok(())
}
