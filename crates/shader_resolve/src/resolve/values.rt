//! Types outside the arena.
ghost use Rattle.std.specs.Prelude.{◌≡◌};
ghost use Rattle.shader_resolve.specs.Outcome.{Given, Meets, Memory};

use super::Resolved;
use crate::ResolveError;
use shader_ir::proc::TypeResolution;
use shader_ir::{CooperativeRole, CooperativeSize, Scalar, TypeInner, VectorSize};
use std::alloc::Global;

pub fn scalar_type(scalar: Scalar) -> TypeResolution
    ensures { result ≡ TypeResolution.Value (TypeInner.Scalar scalar) }
{
    TypeResolution::Value(TypeInner::Scalar(scalar))
}

pub fn vector_type(size: VectorSize, scalar: Scalar) -> TypeResolution
    ensures { result ≡ TypeResolution.Value (TypeInner.Vector size scalar) }
{
    TypeResolution::Value(TypeInner::Vector { size, scalar })
}

pub fn matrix_type(columns: VectorSize, rows: VectorSize, scalar: Scalar) -> TypeResolution
    ensures { result ≡ TypeResolution.Value (TypeInner.Matrix columns rows scalar) }
{
    TypeResolution::Value(TypeInner::Matrix {
        columns,
        rows,
        scalar,
    })
}

pub fn cooperative_type(
    columns: CooperativeSize,
    rows: CooperativeSize,
    scalar: Scalar,
    role: CooperativeRole,
) -> TypeResolution
    ensures { result ≡ TypeResolution.Value (TypeInner.CooperativeMatrix columns rows scalar role) }
{
    TypeResolution::Value(TypeInner::CooperativeMatrix {
        columns,
        rows,
        scalar,
        role,
    })
}

/// Returns an equal resolution, which takes memory only for the members of a struct outside the arena. Scalars and vectors, which most
/// operands are, are copied inline.
#[inline(always)]
pub fn copied(alloc: Global, resolution: &TypeResolution) -> Resolved
    ensures { (memory : Memory) → Meets memory result (Given resolution.now) }
{
    match resolution {
        TypeResolution::Value(TypeInner::Scalar(scalar)) => Ok(scalar_type(*scalar)),
        TypeResolution::Value(TypeInner::Vector { size, scalar }) => {
            Ok(vector_type(*size, *scalar))
        }
        _ => match resolution.copy(alloc) {
            Ok(copy) => Ok(copy),
            Err(_) => Err(ResolveError::OutOfMemory),
        },
    }
}
