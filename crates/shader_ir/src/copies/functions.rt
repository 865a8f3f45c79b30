//! Copies of functions and entry points.
ghost use Rattle.std.specs.Prelude.{◌≡◌, IfOk};

use crate::{
    EntryPoint, Expression, Function, FunctionArgument, Items, LocalVariable, Name,
    NamedExpressions, TryCopy, mark,
};
use shader_arena::Arena;
use std::alloc::{AllocError, Global};

impl LocalVariable {
    /// Returns an equal variable.
    ///
    /// # Errors
    ///
    /// `AllocError` if allocating the name fails.
    pub fn copy(&self, alloc: Global) -> Result<LocalVariable, AllocError>
        ensures { IfOk result (λ copy. copy ≡ self.now) }
    {
        Ok(LocalVariable {
            name: self.name.try_copy(alloc)?,
            ty: self.ty,
            init: self.init,
        })
    }
}

impl TryCopy for LocalVariable {
    fn try_copy(&self, alloc: Global) -> Result<LocalVariable, AllocError> {
        self.copy(alloc)
    }
}

impl FunctionArgument {
    /// Returns an equal argument.
    ///
    /// # Errors
    ///
    /// `AllocError` if allocating the name fails.
    pub fn copy(&self, alloc: Global) -> Result<FunctionArgument, AllocError>
        ensures { IfOk result (λ copy. copy ≡ self.now) }
    {
        Ok(FunctionArgument {
            name: self.name.try_copy(alloc)?,
            ty: self.ty,
            binding: self.binding,
        })
    }
}

impl TryCopy for FunctionArgument {
    fn try_copy(&self, alloc: Global) -> Result<FunctionArgument, AllocError> {
        self.copy(alloc)
    }
}

impl Function {
    /// Returns an equal function.
    ///
    /// # Errors
    ///
    /// `AllocError` if allocation fails.
    pub fn copy(&self, alloc: Global) -> Result<Function, AllocError>
        ensures { IfOk result (λ copy. copy ≡ self.now) }
    {
        let (local_variables, expressions) = self.copy_arenas(alloc)?;
        let (name, arguments, named_expressions) = self.copy_names(alloc)?;
        Ok(Function {
            name,
            arguments,
            result: self.result,
            local_variables,
            expressions,
            named_expressions,
            body: self.body.copy(alloc)?,
            diagnostic_filter_leaf: self.diagnostic_filter_leaf,
        })
    }

    fn copy_arenas(
        &self,
        alloc: Global,
    ) -> Result<
        (
            Arena<LocalVariable, mark::LocalVariable>,
            Arena<Expression, mark::Expression>,
        ),
        AllocError,
    >
        ensures variables { IfOk result (λ copies. copies.0 ≡ self.now.local_variables) }
        ensures expressions { IfOk result (λ copies. copies.1 ≡ self.now.expressions) }
    {
        let variables = self.local_variables.copy(alloc)?;
        Ok((variables, self.expressions.copy(alloc)?))
    }

    fn copy_names(
        &self,
        alloc: Global,
    ) -> Result<(Option<Name>, Items<FunctionArgument>, NamedExpressions), AllocError>
        ensures name { IfOk result (λ copies. copies.0 ≡ self.now.name) }
        ensures arguments { IfOk result (λ copies. copies.1 ≡ self.now.arguments) }
        ensures named_expressions { IfOk result (λ copies. copies.2 ≡ self.now.named_expressions) }
    {
        let name = self.name.try_copy(alloc)?;
        let arguments = self.arguments.copy(alloc)?;
        Ok((name, arguments, self.named_expressions.copy(alloc)?))
    }
}

impl TryCopy for Function {
    fn try_copy(&self, alloc: Global) -> Result<Function, AllocError> {
        self.copy(alloc)
    }
}

impl EntryPoint {
    /// Returns an equal entry point.
    ///
    /// # Errors
    ///
    /// `AllocError` if allocation fails.
    pub fn copy(&self, alloc: Global) -> Result<EntryPoint, AllocError>
        ensures { IfOk result (λ copy. copy ≡ self.now) }
    {
        Ok(EntryPoint {
            name: self.name.copy(alloc)?,
            stage: self.stage,
            function: self.function.copy(alloc)?,
        })
    }
}

impl TryCopy for EntryPoint {
    fn try_copy(&self, alloc: Global) -> Result<EntryPoint, AllocError> {
        self.copy(alloc)
    }
}
