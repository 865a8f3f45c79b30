//! Copies of expressions.
ghost use Rattle.std.specs.Prelude.{◌≡◌, IfOk, IsOk};
ghost use Rattle.shader_ir.specs.ExpressionKinds.{AppliesOperator, HoldsNoList, IsCooperative, IsResult, NamesDeclared};
ghost use Rattle.shader_ir.specs.ExpressionKinds.{ReadsImage, SamplesImage, SelectsOrCalls, TakesPart};

use crate::{Expression, TryCopy};
use std::alloc::{AllocError, Global};

impl Expression {
    /// Returns an equal expression.
    ///
    /// # Errors
    ///
    /// `AllocError` if allocating the components of a `Compose` fails.
    pub fn copy(&self, alloc: Global) -> Result<Expression, AllocError>
        ensures copy { IfOk result (λ copy. copy ≡ self.now) }
        ensures ok { HoldsNoList self.now → IsOk result }
    {
        match self {
            Expression::Compose { ty, components } => Ok(Expression::Compose {
                ty: *ty,
                components: components.copy(alloc)?,
            }),
            Expression::Literal(_)
            | Expression::Constant(_)
            | Expression::Override(_)
            | Expression::ZeroValue(_)
            | Expression::FunctionArgument(_)
            | Expression::GlobalVariable(_)
            | Expression::LocalVariable(_) => Ok(self.copy_of_declared()),
            Expression::Access { .. }
            | Expression::AccessIndex { .. }
            | Expression::Splat { .. }
            | Expression::Swizzle { .. }
            | Expression::Load { .. }
            | Expression::ArrayLength(_) => Ok(self.copy_of_part()),
            Expression::ImageSample { .. } => Ok(self.copy_of_sample()),
            Expression::ImageLoad { .. } | Expression::ImageQuery { .. } => Ok(self.copy_of_read()),
            Expression::Unary { .. }
            | Expression::Binary { .. }
            | Expression::Derivative { .. }
            | Expression::Relational { .. }
            | Expression::As { .. } => Ok(self.copy_of_operation()),
            Expression::Select { .. } | Expression::Math { .. } => Ok(self.copy_of_choice()),
            Expression::CooperativeLoad { .. } | Expression::CooperativeMultiplyAdd { .. } => {
                Ok(self.copy_of_cooperative())
            }
            _ => Ok(self.copy_of_result()),
        }
    }

    /// Copies an expression that is a literal or names a declared item.
    fn copy_of_declared(&self) -> Expression
        requires { NamesDeclared self.now }
        ensures { result ≡ self.now }
    {
        match self {
            Expression::Literal(literal) => Expression::Literal(*literal),
            Expression::Constant(constant) => Expression::Constant(*constant),
            Expression::Override(declared) => Expression::Override(*declared),
            Expression::ZeroValue(ty) => Expression::ZeroValue(*ty),
            Expression::FunctionArgument(index) => Expression::FunctionArgument(*index),
            Expression::GlobalVariable(variable) => Expression::GlobalVariable(*variable),
            Expression::LocalVariable(variable) => Expression::LocalVariable(*variable),
            _ => unreachable!(),
        }
    }

    /// Copies an expression that accesses or spreads components of a value.
    fn copy_of_part(&self) -> Expression
        requires { TakesPart self.now }
        ensures { result ≡ self.now }
    {
        match self {
            Expression::Access { base, index } => Expression::Access {
                base: *base,
                index: *index,
            },
            Expression::AccessIndex { base, index } => Expression::AccessIndex {
                base: *base,
                index: *index,
            },
            Expression::Splat { size, value } => Expression::Splat {
                size: *size,
                value: *value,
            },
            Expression::Swizzle {
                size,
                vector,
                pattern,
            } => Expression::Swizzle {
                size: *size,
                vector: *vector,
                pattern: *pattern,
            },
            Expression::Load { pointer } => Expression::Load { pointer: *pointer },
            Expression::ArrayLength(array) => Expression::ArrayLength(*array),
            _ => unreachable!(),
        }
    }

    /// Copies an expression that samples an image.
    fn copy_of_sample(&self) -> Expression
        requires { SamplesImage self.now }
        ensures { result ≡ self.now }
    {
        match self {
            Expression::ImageSample {
                image,
                sampler,
                gather,
                coordinate,
                array_index,
                offset,
                level,
                depth_ref,
                clamp_to_edge,
            } => Expression::ImageSample {
                image: *image,
                sampler: *sampler,
                gather: *gather,
                coordinate: *coordinate,
                array_index: *array_index,
                offset: *offset,
                level: *level,
                depth_ref: *depth_ref,
                clamp_to_edge: *clamp_to_edge,
            },
            _ => unreachable!(),
        }
    }

    /// Copies an expression that reads an image without a sampler.
    fn copy_of_read(&self) -> Expression
        requires { ReadsImage self.now }
        ensures { result ≡ self.now }
    {
        match self {
            Expression::ImageLoad {
                image,
                coordinate,
                array_index,
                sample,
                level,
            } => Expression::ImageLoad {
                image: *image,
                coordinate: *coordinate,
                array_index: *array_index,
                sample: *sample,
                level: *level,
            },
            Expression::ImageQuery { image, query } => Expression::ImageQuery {
                image: *image,
                query: *query,
            },
            _ => unreachable!(),
        }
    }

    /// Copies an expression that applies an operator.
    fn copy_of_operation(&self) -> Expression
        requires { AppliesOperator self.now }
        ensures { result ≡ self.now }
    {
        match self {
            Expression::Unary { op, expr } => Expression::Unary {
                op: *op,
                expr: *expr,
            },
            Expression::Binary { op, left, right } => Expression::Binary {
                op: *op,
                left: *left,
                right: *right,
            },
            Expression::Derivative { axis, ctrl, expr } => Expression::Derivative {
                axis: *axis,
                ctrl: *ctrl,
                expr: *expr,
            },
            Expression::Relational { fun, argument } => Expression::Relational {
                fun: *fun,
                argument: *argument,
            },
            Expression::As {
                expr,
                kind,
                convert,
            } => Expression::As {
                expr: *expr,
                kind: *kind,
                convert: *convert,
            },
            _ => unreachable!(),
        }
    }

    /// Copies an expression that selects or calls a built-in function.
    fn copy_of_choice(&self) -> Expression
        requires { SelectsOrCalls self.now }
        ensures { result ≡ self.now }
    {
        match self {
            Expression::Select {
                condition,
                accept,
                reject,
            } => Expression::Select {
                condition: *condition,
                accept: *accept,
                reject: *reject,
            },
            Expression::Math {
                fun,
                arg,
                arg1,
                arg2,
                arg3,
            } => Expression::Math {
                fun: *fun,
                arg: *arg,
                arg1: *arg1,
                arg2: *arg2,
                arg3: *arg3,
            },
            _ => unreachable!(),
        }
    }

    /// Copies an expression that stands for the result of a statement or the state of a ray query.
    fn copy_of_result(&self) -> Expression
        requires { IsResult self.now }
        ensures { result ≡ self.now }
    {
        match self {
            Expression::CallResult(function) => Expression::CallResult(*function),
            Expression::AtomicResult { ty, comparison } => Expression::AtomicResult {
                ty: *ty,
                comparison: *comparison,
            },
            Expression::WorkGroupUniformLoadResult { ty } =>
                Expression::WorkGroupUniformLoadResult { ty: *ty },
            Expression::RayQueryVertexPositions { query, committed } =>
                Expression::RayQueryVertexPositions {
                    query: *query,
                    committed: *committed,
                },
            Expression::RayQueryProceedResult => Expression::RayQueryProceedResult,
            Expression::RayQueryGetIntersection { query, committed } =>
                Expression::RayQueryGetIntersection {
                    query: *query,
                    committed: *committed,
                },
            Expression::SubgroupBallotResult => Expression::SubgroupBallotResult,
            Expression::SubgroupOperationResult { ty } => Expression::SubgroupOperationResult {
                ty: *ty,
            },
            _ => unreachable!(),
        }
    }

    /// Copies an expression that yields a cooperative matrix.
    fn copy_of_cooperative(&self) -> Expression
        requires { IsCooperative self.now }
        ensures { result ≡ self.now }
    {
        match self {
            Expression::CooperativeLoad {
                columns,
                rows,
                role,
                tile,
            } => Expression::CooperativeLoad {
                columns: *columns,
                rows: *rows,
                role: *role,
                tile: *tile,
            },
            Expression::CooperativeMultiplyAdd { a, b, c } => Expression::CooperativeMultiplyAdd {
                a: *a,
                b: *b,
                c: *c,
            },
            _ => unreachable!(),
        }
    }
}

impl TryCopy for Expression {
    fn try_copy(&self, alloc: Global) -> Result<Expression, AllocError> {
        self.copy(alloc)
    }
}
