//! Types whose `==` compares everything that contracts see of them.
ghost use Rattle.std.specs.Prelude.{◌≡◌, ◌↔◌, IsTrue};
ghost use Rattle.shader_ir.specs.Same.{DecidesSame};
ghost use Rattle.shader_ir.specs.SameLaws.{array_size_decides, inner_decides, member_decides, predeclared_decides};
ghost use Rattle.shader_ir.specs.SameLaws.{scalar_decides, size_decides, type_decides};

use crate::{ArraySize, PredeclaredType, Scalar, StructMember, Type, TypeInner, VectorSize};

/// A type whose `==` ignores nothing: two values are equal exactly if contracts see the same of both.
///
/// A `UniqueArena` of such items therefore stores each of them once, and returns the handle of the very item that was inserted.
pub trait Same: Eq {
    /// Returns whether both values are the same.
    final fn is_same(&self, other: &Self) -> bool
        ensures { IsTrue result ↔ (self.now ≡ other.now) }
    {
        self == other
    }

    // `==` is true exactly of values that are the same.
    ghost decides: { DecidesSame Self.PartialEq.eq };
}

impl Same for Scalar {
    ghost decides = { scalar_decides };
}

impl Same for VectorSize {
    ghost decides = { size_decides };
}

impl Same for ArraySize {
    ghost decides = { array_size_decides };
}

impl Same for StructMember {
    ghost decides = { member_decides };
}

impl Same for TypeInner {
    ghost decides = { inner_decides };
}

impl Same for Type {
    ghost decides = { type_decides };
}

impl Same for PredeclaredType {
    ghost decides = { predeclared_decides };
}
