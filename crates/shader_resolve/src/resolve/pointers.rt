//! The types behind pointers.

use super::Resolved;
use super::values::{cooperative_type, scalar_type, vector_type};
use crate::{ResolveContext, ResolveError};
use shader_arena::Handle;
use shader_ir::proc::TypeResolution;
use shader_ir::{CooperativeRole, CooperativeSize, Scalar, TypeInner, mark};

impl<'a> ResolveContext<'a> {
    ghost use Rattle.std.specs.Prelude.{◌≡◌, length};
    ghost use Rattle.shader_ir.specs.TypeTree.{PointsBelow};
    ghost use Rattle.shader_resolve.specs.Outcome.{ForNothing, Meets};
    ghost use Rattle.shader_resolve.specs.TypingRules.{load_type, pointed_scalar, tile_type};

    /// Returns the pointee's type, or its scalar if it is an atomic.
    #[inline(always)]
    pub(super) fn load(&self, pointer: Handle<mark::Expression>, inner: &TypeInner) -> Resolved
        requires { PointsBelow (length self.now.types) inner.now }
        ensures { Meets ForNothing result (load_type pointer self.now.types inner.now) }
    {
        match inner {
            TypeInner::Pointer { base, .. } => match &self.types[*base].inner {
                TypeInner::Atomic(scalar) => Ok(scalar_type(*scalar)),
                _ => Ok(TypeResolution::Handle(*base)),
            },
            TypeInner::ValuePointer {
                size: Some(size),
                scalar,
                ..
            } => Ok(vector_type(*size, *scalar)),
            TypeInner::ValuePointer { scalar, .. } => Ok(scalar_type(*scalar)),
            _ => Err(ResolveError::InvalidPointer(pointer)),
        }
    }

    /// Returns the scalar of the pointee.
    #[inline(always)]
    fn pointed_scalar(&self, inner: &TypeInner) -> Option<Scalar>
        requires { PointsBelow (length self.now.types) inner.now }
        ensures { result ≡ pointed_scalar self.now.types inner.now }
    {
        match inner {
            TypeInner::Pointer { base, .. } => self.types[*base].inner.scalar(),
            TypeInner::ValuePointer { scalar, .. } => Some(*scalar),
            _ => None,
        }
    }

    /// Returns the cooperative matrix that is loaded through a pointer.
    #[inline(always)]
    pub(super) fn load_tile(
        &self,
        pointer: Handle<mark::Expression>,
        columns: CooperativeSize,
        rows: CooperativeSize,
        role: CooperativeRole,
        inner: &TypeInner,
    ) -> Resolved
        requires { PointsBelow (length self.now.types) inner.now }
        ensures { Meets ForNothing result (tile_type pointer self.now.types columns rows role inner.now) }
    {
        match self.pointed_scalar(inner) {
            Some(scalar) => Ok(cooperative_type(columns, rows, scalar, role)),
            None => Err(ResolveError::InvalidPointer(pointer)),
        }
    }
}
