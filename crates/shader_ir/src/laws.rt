//! Laws about the results of this crate's functions. Each law is the contract of a function that does nothing.
ghost use Rattle.std.specs.Prelude.{◌≡◌, [], ◌∷◌};
ghost use Rattle.shader_ir.specs.Conversion.{ConversionsListed};
ghost use Rattle.shader_ir.specs.LayoutLaws.{RefusalsRepeat, UpdatesCompose};
ghost use Rattle.shader_ir.specs.Scalars.{abstract_float, abstract_int, named_scalars, scalar};
ghost use Rattle.shader_ir.specs.declared.scalar.TheConstants.Scalar.{ABSTRACT_FLOAT, ABSTRACT_INT, BOOL, F16};
ghost use Rattle.shader_ir.specs.declared.scalar.TheConstants.Scalar.{F32, F64, I16, I32, I64, U16, U32, U64};

use crate::ScalarKind;
use crate::proc::Alignment;

/// States that the constants of `Scalar` are the twelve named scalars (naga's `Scalar`; the widths of the abstract ones are this
/// project's).
#[tactic(auto, unfolding(crate::specs::Scalars::named_scalars))]
pub fn scalars_are_named()
    ensures abstract_int { ABSTRACT_INT ≡ abstract_int }
    ensures abstract_float { ABSTRACT_FLOAT ≡ abstract_float }
    ensures i32 { I32 ≡ scalar ScalarKind.Sint 4 }
    ensures i16 { I16 ≡ scalar ScalarKind.Sint 2 }
    ensures i64 { I64 ≡ scalar ScalarKind.Sint 8 }
    ensures u32 { U32 ≡ scalar ScalarKind.Uint 4 }
    ensures u16 { U16 ≡ scalar ScalarKind.Uint 2 }
    ensures u64 { U64 ≡ scalar ScalarKind.Uint 8 }
    ensures f32 { F32 ≡ scalar ScalarKind.Float 4 }
    ensures f16 { F16 ≡ scalar ScalarKind.Float 2 }
    ensures f64 { F64 ≡ scalar ScalarKind.Float 8 }
    ensures bool { BOOL ≡ scalar ScalarKind.Bool 1 }
    ensures all { ABSTRACT_INT ∷ ABSTRACT_FLOAT ∷ I32 ∷ I16 ∷ I64 ∷ U32 ∷ U16 ∷ U64
        ∷ F32 ∷ F16 ∷ F64 ∷ BOOL ∷ [] ≡ named_scalars }
{}

/// Returns the least alignment of arrays and structs in a uniform buffer: 16 bytes (WGSL, "Address Space Layout Constraints").
pub fn uniform_buffers_are_aligned() -> Alignment
    ensures { result ≡ 16 }
{
    Alignment::MIN_UNIFORM
}

/// States that a named scalar converts to another exactly if the pair is listed.
pub fn conversions_are_listed()
    ensures { ConversionsListed }
{}

/// States that successful updates compose. If a `Layouter` starts with no layouts and each update succeeds over a context that extends the
/// one before it, the final layouts are those of a single update over the last context.
pub fn updates_compose()
    ensures { UpdatesCompose }
{}

/// States that a refusal repeats. After `update` has refused a type, the same call lays out nothing more and returns the same error,
/// whatever layouts were stored before.
pub fn refusals_repeat()
    ensures { RefusalsRepeat }
{}
