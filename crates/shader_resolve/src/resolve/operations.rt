//! The types of tests, products and conversions.
ghost use Rattle.std.specs.Prelude.{◌≡◌};
ghost use Rattle.shader_resolve.specs.Operations.{cast_type, logical_type, product_of, test_type};
ghost use Rattle.shader_resolve.specs.Outcome.{ForWords, IncompatibleOperands, IsRefusal, Meets};

use super::Resolved;
use super::values::{copied, matrix_type, scalar_type, vector_type};
use crate::{ResolveContext, ResolveError};
use shader_ir::proc::TypeResolution;
use shader_ir::{BinaryOperator, Scalar, ScalarKind, TypeInner};
use std::alloc::{AllocError, Global};
use std::fmt::Debug;

impl<'a> ResolveContext<'a> {
    ghost use Rattle.shader_ir.specs.Key.{PointsInRange};
    ghost use Rattle.shader_ir.specs.TypeTree.{IsBackward};
    ghost use Rattle.shader_resolve.specs.DerivesByRule.{memory_of_binary};
    ghost use Rattle.shader_resolve.specs.Operations.{left_type, product};
    ghost use Rattle.shader_resolve.specs.Outcome.{ForWords, Meets};

    /// Returns the type of a product.
    #[inline(always)]
    pub(super) fn product(
        &self,
        alloc: Global,
        left: &'a TypeResolution,
        right: &'a TypeResolution,
    ) -> Resolved
        requires backward { IsBackward self.now.types }
        requires left_in_range { PointsInRange self.now.types left.now }
        requires right_in_range { PointsInRange self.now.types right.now }
        ensures { Meets ForWords result (product self.now.types left.now right.now) }
    {
        match product_of(self.inner(left), self.inner(right)) {
            Product::AsLeft => copied(alloc, left),
            Product::AsRight => copied(alloc, right),
            Product::Built(inner) => Ok(TypeResolution::Value(inner)),
            Product::NoProduct => Err(incompatible("Multiply".to_string(alloc))),
        }
    }

    /// Returns the type of a binary operation that depends only on its left operand.
    #[inline(always)]
    pub(super) fn left_type(
        &self,
        alloc: Global,
        op: BinaryOperator,
        left: &'a TypeResolution,
    ) -> Resolved
        requires backward { IsBackward self.now.types }
        requires in_range { PointsInRange self.now.types left.now }
        ensures { Meets (memory_of_binary op) result (left_type self.now.types op left.now) }
    {
        match op {
            BinaryOperator::Equal
            | BinaryOperator::NotEqual
            | BinaryOperator::Less
            | BinaryOperator::LessEqual
            | BinaryOperator::Greater
            | BinaryOperator::GreaterEqual => component_test(alloc, &op, self.inner(left)),
            BinaryOperator::LogicalAnd | BinaryOperator::LogicalOr => {
                logical(alloc, &op, self.inner(left))
            }
            _ => copied(alloc, left),
        }
    }
}

/// Returns the error for operands that don't fit each other, under the name of the operation.
fn incompatible(name: Result<String, AllocError>) -> ResolveError
    ensures { IsRefusal ForWords IncompatibleOperands result }
{
    match name {
        Ok(name) => ResolveError::IncompatibleOperands(name),
        Err(_) => ResolveError::OutOfMemory,
    }
}

/// Returns the type of a test of each component.
#[inline(always)]
pub fn component_test(alloc: Global, operation: &impl Debug, inner: &TypeInner) -> Resolved
    ensures { Meets ForWords result (test_type inner.now) }
{
    match inner {
        TypeInner::Scalar(_) => Ok(scalar_type(Scalar::BOOL)),
        TypeInner::Vector { size, .. } => Ok(vector_type(*size, Scalar::BOOL)),
        _ => Err(incompatible(format!(in alloc; "{operation:?}"))),
    }
}

/// Returns the type of a conjunction or a disjunction.
fn logical(alloc: Global, operation: &impl Debug, inner: &TypeInner) -> Resolved
    ensures { Meets ForWords result (logical_type inner.now) }
{
    match inner {
        TypeInner::Scalar(scalar) if *scalar == Scalar::BOOL => Ok(scalar_type(Scalar::BOOL)),
        _ => Err(incompatible(format!(in alloc; "{operation:?}"))),
    }
}

/// Returns the type of a conversion to a kind, and to a width if one is given.
pub fn cast(alloc: Global, kind: ScalarKind, convert: Option<u8>, inner: &TypeInner) -> Resolved
    ensures { Meets ForWords result (cast_type kind convert inner.now) }
{
    match inner {
        TypeInner::Scalar(old) => {
            let width = convert.unwrap_or(old.width);
            Ok(scalar_type(Scalar { kind, width }))
        }
        TypeInner::Vector { size, scalar: old } => {
            let width = convert.unwrap_or(old.width);
            Ok(vector_type(*size, Scalar { kind, width }))
        }
        TypeInner::Matrix {
            columns,
            rows,
            scalar: old,
        } => {
            let scalar = Scalar {
                kind: old.kind,
                width: convert.unwrap_or(old.width),
            };
            Ok(matrix_type(*columns, *rows, scalar))
        }
        _ => Err(incompatible("As".to_string(alloc))),
    }
}

/// The type of a product: that of an operand, or a new one.
#[derive(Drop)]
pub enum Product {
    AsLeft,
    AsRight,
    Built(TypeInner),
    NoProduct,
}

/// Returns the type of a product of operands with these shapes.
#[inline(always)]
fn product_of(left: &TypeInner, right: &TypeInner) -> Product
    ensures { result ≡ product_of left.now right.now }
{
    match (left, right) {
        (TypeInner::Matrix { rows, scalar, .. }, TypeInner::Matrix { columns, .. }) => {
            Product::Built(TypeInner::Matrix {
                columns: *columns,
                rows: *rows,
                scalar: *scalar,
            })
        }
        (TypeInner::Matrix { rows, scalar, .. }, TypeInner::Vector { .. }) => {
            Product::Built(TypeInner::Vector {
                size: *rows,
                scalar: *scalar,
            })
        }
        (
            TypeInner::Vector { .. },
            TypeInner::Matrix {
                columns,
                scalar,
                ..
            },
        ) => Product::Built(TypeInner::Vector {
            size: *columns,
            scalar: *scalar,
        }),
        (TypeInner::Scalar(_), _) => Product::AsRight,
        (_, TypeInner::Scalar(_)) | (TypeInner::Vector { .. }, TypeInner::Vector { .. }) => {
            Product::AsLeft
        }
        (
            TypeInner::CooperativeMatrix {
                rows,
                scalar,
                role,
                ..
            },
            TypeInner::CooperativeMatrix { columns, .. },
        ) => Product::Built(TypeInner::CooperativeMatrix {
            columns: *columns,
            rows: *rows,
            scalar: *scalar,
            role: *role,
        }),
        _ => Product::NoProduct,
    }
}
