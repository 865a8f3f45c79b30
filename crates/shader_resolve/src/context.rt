//! The module data that type resolution reads.
ghost use Rattle.std.specs.Prelude.{◌≡◌, ◌↔◌, IsTrue};
ghost use Rattle.shader_resolve.specs.Context.{IsInRange, context_of};

use shader_arena::{Arena, UniqueArena};
use shader_ir::{
    Constant, Expression, Function, FunctionArgument, GlobalVariable, LocalVariable, Module,
    Override, SpecialTypes, Type, mark,
};
use std::marker::Model;

/// The module data that type resolution reads.
#[derive(Drop)]
pub struct ResolveContext<'a> {
    pub constants: &'a Arena<Constant, mark::Constant>,
    pub overrides: &'a Arena<Override, mark::Override>,
    pub types: &'a UniqueArena<Type, mark::Type>,
    pub special_types: &'a SpecialTypes,
    pub global_vars: &'a Arena<GlobalVariable, mark::GlobalVariable>,
    /// The local variables of the expression's function; empty for a global expression.
    pub local_vars: &'a Arena<LocalVariable, mark::LocalVariable>,
    pub functions: &'a Arena<Function, mark::Function>,
    /// The arguments of the expression's function; empty for a global expression.
    pub arguments: &'a [FunctionArgument],
}

impl<'a> Model for ResolveContext<'a> {
    ghost use Rattle.std.specs.Coded.{codes};
    ghost use Rattle.shader_ir.specs.BodyCode.{coded_body};
    ghost use Rattle.shader_resolve.specs.Context.{Context};

    ghost Value = { Context };

    ghost coded = { Prim.hlevel (codes, coded_body) };

    ghost view = { λ context. record {
      constants = context.constants.now;
      overrides = context.overrides.now;
      types = context.types.now;
      special_types = context.special_types.now;
      globals = context.global_vars.now;
      locals = context.local_vars.now;
      functions = context.functions.now;
      arguments = context.arguments.now;
    } };
}

impl<'a> ResolveContext<'a> {
    /// Returns the context for the expressions of a function with these locals and arguments.
    pub fn with_locals(
        module: &'a Module,
        local_vars: &'a Arena<LocalVariable, mark::LocalVariable>,
        arguments: &'a [FunctionArgument],
    ) -> Self
        ensures { result ≡ context_of «module».now local_vars.now arguments.now }
    {
        ResolveContext {
            constants: &module.constants,
            overrides: &module.overrides,
            types: &module.types,
            special_types: &module.special_types,
            global_vars: &module.global_variables,
            local_vars,
            functions: &module.functions,
            arguments,
        }
    }

    /// Checks whether the handles of an expression are in range, its operands aside, as `resolve` requires.
    pub fn names_in_range(&self, expression: &Expression) -> bool
        ensures { IsTrue result ↔ IsInRange self.now expression.now }
    {
        match expression {
            Expression::Constant(constant) => self.constants.contains_handle(*constant),
            Expression::Override(value) => self.overrides.contains_handle(*value),
            Expression::ZeroValue(ty)
            | Expression::Compose { ty, .. }
            | Expression::AtomicResult { ty, .. }
            | Expression::WorkGroupUniformLoadResult { ty }
            | Expression::SubgroupOperationResult { ty } => self.types.contains_handle(*ty),
            Expression::GlobalVariable(variable) => self.global_vars.contains_handle(*variable),
            Expression::LocalVariable(variable) => self.local_vars.contains_handle(*variable),
            Expression::CallResult(function) => self.functions.contains_handle(*function),
            _ => true,
        }
    }
}
