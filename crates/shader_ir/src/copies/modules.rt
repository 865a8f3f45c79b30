//! Copies of modules and of the items they declare.
ghost use Rattle.std.specs.Prelude.{◌≡◌, IfOk, OnOk};

use crate::{
    Constant, DiagnosticFilterNode, GlobalVariable, Module, Override, PredeclaredType,
    SpecialTypes, TryCopy, Type,
};
use std::alloc::{AllocError, Global};

impl TryCopy for Type {
    fn try_copy(&self, alloc: Global) -> Result<Type, AllocError> {
        self.copy(alloc)
    }
}

impl TryCopy for PredeclaredType {
    fn try_copy(&self, _alloc: Global) -> Result<PredeclaredType, AllocError> {
        Ok(*self)
    }
}

impl TryCopy for DiagnosticFilterNode {
    fn try_copy(&self, _alloc: Global) -> Result<DiagnosticFilterNode, AllocError> {
        Ok(*self)
    }
}

impl Constant {
    /// Returns an equal constant.
    ///
    /// # Errors
    ///
    /// `AllocError` if allocating the name fails.
    pub fn copy(&self, alloc: Global) -> Result<Constant, AllocError>
        ensures { IfOk result (λ copy. copy ≡ self.now) }
    {
        Ok(Constant {
            name: self.name.try_copy(alloc)?,
            ty: self.ty,
            init: self.init,
        })
    }
}

impl TryCopy for Constant {
    fn try_copy(&self, alloc: Global) -> Result<Constant, AllocError> {
        self.copy(alloc)
    }
}

impl Override {
    /// Returns an equal override.
    ///
    /// # Errors
    ///
    /// `AllocError` if allocating the name fails.
    pub fn copy(&self, alloc: Global) -> Result<Override, AllocError>
        ensures { IfOk result (λ copy. copy ≡ self.now) }
    {
        Ok(Override {
            name: self.name.try_copy(alloc)?,
            ty: self.ty,
            init: self.init,
        })
    }
}

impl TryCopy for Override {
    fn try_copy(&self, alloc: Global) -> Result<Override, AllocError> {
        self.copy(alloc)
    }
}

impl GlobalVariable {
    /// Returns an equal variable.
    ///
    /// # Errors
    ///
    /// `AllocError` if allocating the name fails.
    pub fn copy(&self, alloc: Global) -> Result<GlobalVariable, AllocError>
        ensures { IfOk result (λ copy. copy ≡ self.now) }
    {
        Ok(GlobalVariable {
            name: self.name.try_copy(alloc)?,
            space: self.space,
            ty: self.ty,
            init: self.init,
        })
    }
}

impl TryCopy for GlobalVariable {
    fn try_copy(&self, alloc: Global) -> Result<GlobalVariable, AllocError> {
        self.copy(alloc)
    }
}

impl SpecialTypes {
    /// Returns equal special types.
    ///
    /// # Errors
    ///
    /// `AllocError` if allocating the map fails.
    pub fn copy(&self, alloc: Global) -> Result<SpecialTypes, AllocError>
        ensures { IfOk result (λ copy. copy ≡ self.now) }
    {
        Ok(SpecialTypes {
            ray_intersection: self.ray_intersection,
            ray_vertex_return: self.ray_vertex_return,
            predeclared_types: self.predeclared_types.copy(alloc)?,
        })
    }
}

impl Module {
    /// Returns an equal module.
    ///
    /// # Errors
    ///
    /// `AllocError` if allocation fails.
    pub fn copy(&self, alloc: Global) -> Result<Module, AllocError>
        ensures { IfOk result (λ copy. copy ≡ self.now) }
    {
        let mut copy = Module::new(alloc);
        copy.copy_from(alloc, self)?;
        Ok(copy)
    }

    /// Makes this module equal to `other`.
    ///
    /// After an error, only some of its fields may be equal.
    fn copy_from(&mut self, alloc: Global, other: &Module) -> Result<(), AllocError>
        ensures { OnOk result (self.new ≡ other.now) }
    {
        self.types = other.types.copy(alloc)?;
        self.special_types = other.special_types.copy(alloc)?;
        self.constants = other.constants.copy(alloc)?;
        self.overrides = other.overrides.copy(alloc)?;
        self.global_variables = other.global_variables.copy(alloc)?;
        self.global_expressions = other.global_expressions.copy(alloc)?;
        self.functions = other.functions.copy(alloc)?;
        self.entry_points = other.entry_points.copy(alloc)?;
        self.diagnostic_filters = other.diagnostic_filters.copy(alloc)?;
        Ok(())
    }
}
