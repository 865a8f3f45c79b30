//! Checks that each type in an arena names only earlier types.
ghost use Rattle.std.specs.Prelude.{◌↔◌, ◌<◌, All, IsTrue, length};
ghost use Rattle.shader_ir.specs.TypeTree.{IsBackward, PointsBelow};

use crate::{StructMember, Type, TypeInner, mark};
use shader_arena::{Handle, UniqueArena};

/// Returns whether every type handle in the arena is in range and points to an earlier type. Queries that go from a type to the types that
/// it names require this.
pub fn types_backward(types: &UniqueArena<Type, mark::Type>) -> bool
    ensures { IsTrue result ↔ IsBackward types.now }
{
    for (handle, ty) in types.iter() {
        if !ty.inner.points_below(handle) {
            return false;
        }
    }
    true
}

/// Returns whether the types of the members are before the position.
fn members_point_below(members: &[StructMember], position: Handle<mark::Type>) -> bool
    ensures { IsTrue result ↔ All (λ member. member.ty < position) members.now }
{
    members
        .iter()
        .all(|member| member.ty.index() < position.index())
}

impl TypeInner {
    /// Returns whether every type handle in this type, which may be outside the arena, is in range. Queries on the type require this.
    pub fn is_in_range(&self, types: &UniqueArena<Type, mark::Type>) -> bool
        ensures { IsTrue result ↔ PointsBelow (length types.now) self.now }
    {
        self.points_below(Handle::from_index(types.len() as u32))
    }

    /// Returns whether the type names only types before the position.
    fn points_below(&self, position: Handle<mark::Type>) -> bool
        ensures { IsTrue result ↔ PointsBelow position self.now }
    {
        match self {
            TypeInner::Pointer { base, .. }
            | TypeInner::Array { base, .. }
            | TypeInner::BindingArray { base, .. } => base.index() < position.index(),
            TypeInner::Struct { members, .. } => members_point_below(members.as_slice(), position),
            _ => true,
        }
    }
}
