//! Types given by constructor and scalar.
ghost use Rattle.std.specs.Prelude.{◌≡◌};
ghost use Rattle.shader_overloads.specs.Constructors.{to_inner};

use shader_ir::{Scalar, TypeInner};
use shader_overloads::ConstructorSize;

/// A type given by its constructor and its scalar.
pub type Built = (ConstructorSize, Scalar);

pub fn inner(built: Built) -> TypeInner
    ensures { result ≡ to_inner built.0 built.1 }
{
    built.0.to_inner(built.1)
}
