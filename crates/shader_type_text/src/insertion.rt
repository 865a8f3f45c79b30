//! Insertion of spelled types into an arena of the IR.

ghost use Rattle.std.specs.Prelude.{◌≡◌, ◌<◌, ◌≤◌, ◌+◌, [], length, IfOk, OnErr};
ghost use Rattle.shader_arena.specs.Positions.{most_items};
ghost use Rattle.shader_ir.specs.TypeTree.{PointsBelow};
ghost use Rattle.shader_type_text.specs.Insertions.{AreFlat, NeedsMemory, IsInserted, PreservesTypes, own_inner, own_types};

use crate::types::SpelledType;
use shader_arena::UniqueArena;
use shader_ir::{ArraySize, Type, TypeInner, mark};
use std::alloc::AllocError;

/// Returns the type in its IR form. The base of an array is inserted into the arena.
///
/// # Errors
///
/// `AllocError` if allocating the base of an array that the arena doesn't have yet fails. The arena is then unchanged.
pub fn insert_type(
    types: &mut UniqueArena<Type, mark::Type>,
    spelled: SpelledType,
) -> Result<TypeInner, AllocError>
    requires room { length types.old < most_items }
    requires flat { AreFlat types.old }
    ensures flat { IfOk result (λ _. AreFlat types.new) }
    ensures retained { IfOk result (λ _. PreservesTypes types.old types.new) }
    ensures room { IfOk result (λ _. length types.new ≤ length types.old + 1) }
    ensures in_arena { IfOk result (λ inner. IsInserted types.new spelled inner) }
    ensures alone { IfOk result (λ inner. types.old ≡ [] → (types.new ≡ own_types spelled) × (inner ≡ own_inner spelled)) }
    ensures within { IfOk result (λ inner. PointsBelow (length types.new) inner) }
    ensures err { OnErr result (types.new ≡ types.old) }
    ensures needs_memory { OnErr result (NeedsMemory types.old spelled) }
{
    match spelled {
        SpelledType::Plain(plain) => Ok(plain.inner()),
        SpelledType::Array {
            base,
            count,
            stride,
        } => {
            let base = types.insert(Type {
                name: None,
                inner: base.inner(),
            })?;
            Ok(TypeInner::Array {
                base,
                size: ArraySize::Constant(count),
                stride,
            })
        }
    }
}
