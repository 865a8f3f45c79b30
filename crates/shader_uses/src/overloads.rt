//! The overload that a call means.
ghost use Rattle.std.specs.Prelude.{◌≡◌, IfOk};

use shader_typing::arena::UniqueArena;
use shader_typing::ir::{MathFunction, Scalar, TypeInner};
use shader_typing::proc::{Conclusion, MathOverloads, OverloadSet};
use std::alloc::{AllocError, Global};

/// Returns the type of `max(a, 1)`, where `a` is a `u32` and `1` a literal without a suffix: `u32`.
///
/// # Errors
///
/// `AllocError` if memory can't be allocated.
pub fn max_of_u32_and_literal(alloc: Global) -> Result<Conclusion, AllocError>
    ensures { IfOk result (λ conclusion.
        conclusion ≡ Conclusion.Value (TypeInner.Scalar Scalar.U32)) }
{
    let types = UniqueArena::new(alloc);
    let set = MathFunction::Max.overloads(alloc)?;
    let set = set.arg(alloc, 0, &TypeInner::Scalar(Scalar::U32), &types)?;
    let set = set.arg(alloc, 1, &TypeInner::Scalar(Scalar::ABSTRACT_INT), &types)?;
    if set.is_empty() {
        unreachable!()
    }
    let rule = set.most_preferred(alloc)?;
    Ok(rule.conclusion)
}
