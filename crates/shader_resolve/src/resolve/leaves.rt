//! The types of expressions whose typing rules read no operand.
ghost use Rattle.std.specs.Prelude.{◌≡◌};
ghost use Rattle.shader_resolve.specs.Outcome.{ForNothing, Meets};
ghost use Rattle.shader_resolve.specs.TypingRules.{literal_scalar, special_type};

use super::Resolved;
use super::values::{scalar_type, vector_type};
use crate::{ResolveContext, ResolveError};
use shader_arena::Handle;
use shader_ir::proc::TypeResolution;
use shader_ir::{AddressSpace, Expression, Literal, Scalar, TypeInner, VectorSize, mark};

/// Returns the scalar of a literal.
fn scalar_of_literal(literal: Literal) -> Scalar
    ensures { result ≡ literal_scalar literal }
{
    match literal {
        Literal::F64(_) => Scalar::F64,
        Literal::F32(_) => Scalar::F32,
        Literal::F16(_) => Scalar::F16,
        Literal::AbstractFloat(_) => Scalar::ABSTRACT_FLOAT,
        Literal::U16(_) => Scalar::U16,
        Literal::I16(_) => Scalar::I16,
        Literal::U32(_) => Scalar::U32,
        Literal::I32(_) => Scalar::I32,
        Literal::U64(_) => Scalar::U64,
        Literal::I64(_) => Scalar::I64,
        Literal::AbstractInt(_) => Scalar::ABSTRACT_INT,
        Literal::Bool(_) => Scalar::BOOL,
    }
}

/// Returns a registered special type, or an error if the module hasn't registered it.
fn special(ty: Option<Handle<mark::Type>>) -> Resolved
    ensures { Meets ForNothing result (special_type ty) }
{
    match ty {
        Some(ty) => Ok(TypeResolution::Handle(ty)),
        None => Err(ResolveError::MissingSpecialType),
    }
}

impl<'a> ResolveContext<'a> {
    ghost use Rattle.std.specs.Prelude.{◌≡◌, ◌<◌, length, slice_get};
    ghost use Rattle.shader_resolve.specs.Context.{IsInRange};
    ghost use Rattle.shader_resolve.specs.DerivesByRule.{IsLeafAnswer};
    ghost use Rattle.shader_resolve.specs.Outcome.{ForNothing, Given, Meets};
    ghost use Rattle.shader_resolve.specs.TypingRules.{argument_type, call_type, global_type, local_type, typing_rule};

    /// Returns the type of an expression whose typing rule reads no operand, or `None` for any
    /// other expression.
    // Inlined, since a call that takes the whole context would keep it in memory.
    #[inline(always)]
    pub(super) fn leaf_type(&self, expr: &Expression) -> Option<Resolved>
        requires { IsInRange self.now expr.now }
        ensures { IsLeafAnswer result expr.now (typing_rule self.now expr.now) }
    {
        Some(match expr {
            Expression::Literal(literal) => Ok(scalar_type(scalar_of_literal(*literal))),
            Expression::Constant(constant) => {
                Ok(TypeResolution::Handle(self.constants[*constant].ty))
            }
            Expression::Override(value) => Ok(TypeResolution::Handle(self.overrides[*value].ty)),
            Expression::ZeroValue(ty)
            | Expression::Compose { ty, .. }
            | Expression::AtomicResult { ty, .. }
            | Expression::WorkGroupUniformLoadResult { ty }
            | Expression::SubgroupOperationResult { ty } => Ok(TypeResolution::Handle(*ty)),
            Expression::FunctionArgument(index) => self.argument(*index),
            Expression::GlobalVariable(variable) => Ok(self.global(*variable)),
            Expression::LocalVariable(variable) => Ok(self.local(*variable)),
            Expression::CallResult(function) => self.call(*function),
            Expression::RayQueryGetIntersection { .. } => {
                special(self.special_types.ray_intersection)
            }
            Expression::RayQueryVertexPositions { .. } => {
                special(self.special_types.ray_vertex_return)
            }
            Expression::ArrayLength(_) => Ok(scalar_type(Scalar::U32)),
            Expression::RayQueryProceedResult => Ok(scalar_type(Scalar::BOOL)),
            Expression::SubgroupBallotResult => Ok(vector_type(VectorSize::Quad, Scalar::U32)),
            _ => return None,
        })
    }

    #[inline(always)]
    fn argument(&self, index: u32) -> Resolved
        ensures { Meets ForNothing result (argument_type index (slice_get self.now.arguments index)) }
    {
        match self.arguments.get(index as usize) {
            Some(argument) => Ok(TypeResolution::Handle(argument.ty)),
            None => Err(ResolveError::FunctionArgumentNotFound(index)),
        }
    }

    #[inline(always)]
    fn global(&self, variable: Handle<mark::GlobalVariable>) -> TypeResolution
        requires { variable < length self.now.globals }
        ensures { global_type (slice_get self.now.globals variable) ≡ Given result }
    {
        let variable = &self.global_vars[variable];
        match variable.space {
            AddressSpace::Handle => TypeResolution::Handle(variable.ty),
            space => TypeResolution::Value(TypeInner::Pointer {
                base: variable.ty,
                space,
            }),
        }
    }

    #[inline(always)]
    fn local(&self, variable: Handle<mark::LocalVariable>) -> TypeResolution
        requires { variable < length self.now.locals }
        ensures { local_type (slice_get self.now.locals variable) ≡ Given result }
    {
        TypeResolution::Value(TypeInner::Pointer {
            base: self.local_vars[variable].ty,
            space: AddressSpace::Function,
        })
    }

    #[inline(always)]
    fn call(&self, function: Handle<mark::Function>) -> Resolved
        requires { function < length self.now.functions }
        ensures { Meets ForNothing result (call_type (slice_get self.now.functions function)) }
    {
        match &self.functions[function].result {
            Some(result) => Ok(TypeResolution::Handle(result.ty)),
            None => Err(ResolveError::FunctionReturnsVoid),
        }
    }
}
