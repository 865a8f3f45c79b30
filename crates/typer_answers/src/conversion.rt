//! Requests for conversions between spelled types.

ghost use Rattle.std.specs.Prelude.{◌≡◌, ◌⊎◌, [], IfErr, IfOk};
ghost use Rattle.shader_type_text.specs.Insertions.{NeedsMemory};
ghost use Rattle.typer_answers.specs.Conversions.{conversion_of};

use shader_arena::UniqueArena;
use shader_ir::Scalar;
use shader_type_text::{SpelledType, insert_type};
use std::alloc::{AllocError, Global};

/// Returns the leaf scalars, from and to, if a value of the first type converts to the second. Only the base of an array takes memory.
pub fn conversion(
    alloc: Global,
    from: SpelledType,
    to: SpelledType,
) -> Result<Option<(Scalar, Scalar)>, AllocError>
    ensures converts { IfOk result (λ scalars. scalars ≡ conversion_of from to) }
    ensures needs_memory { IfErr result (λ _. NeedsMemory [] from ⊎ NeedsMemory [] to) }
{
    let mut types = UniqueArena::new(alloc);
    let from = insert_type(&mut types, from)?;
    let to = insert_type(&mut types, to)?;
    Ok(from.automatically_converts_to(&to, &types))
}
