//! Conversion ranks (WGSL, "Conversion Rank").

ghost use Rattle.std.specs.Prelude.{◌≡◌, ◌&&◌};
ghost use Rattle.shader_ir.specs.Scalars.{same_scalar};
ghost use Rattle.shader_overloads.specs.Rank.{conversion_rank, rank_among};

use shader_ir::Scalar;

/// A scalar, a scalar to which it converts automatically, and the rank of that conversion.
type RankEntry = (Scalar, Scalar, u32);

/// All automatic conversions with their ranks.
const RANKS: [RankEntry; 25] = [
    (Scalar::ABSTRACT_INT, Scalar::ABSTRACT_INT, 0),
    (Scalar::ABSTRACT_FLOAT, Scalar::ABSTRACT_FLOAT, 0),
    (Scalar::I32, Scalar::I32, 0),
    (Scalar::I16, Scalar::I16, 0),
    (Scalar::I64, Scalar::I64, 0),
    (Scalar::U32, Scalar::U32, 0),
    (Scalar::U16, Scalar::U16, 0),
    (Scalar::U64, Scalar::U64, 0),
    (Scalar::F32, Scalar::F32, 0),
    (Scalar::F16, Scalar::F16, 0),
    (Scalar::F64, Scalar::F64, 0),
    (Scalar::BOOL, Scalar::BOOL, 0),
    (Scalar::ABSTRACT_FLOAT, Scalar::F32, 1),
    (Scalar::ABSTRACT_FLOAT, Scalar::F16, 2),
    (Scalar::ABSTRACT_FLOAT, Scalar::F64, 3),
    (Scalar::ABSTRACT_INT, Scalar::I32, 4),
    (Scalar::ABSTRACT_INT, Scalar::U32, 5),
    (Scalar::ABSTRACT_INT, Scalar::I16, 6),
    (Scalar::ABSTRACT_INT, Scalar::U16, 7),
    (Scalar::ABSTRACT_INT, Scalar::I64, 8),
    (Scalar::ABSTRACT_INT, Scalar::U64, 9),
    (Scalar::ABSTRACT_INT, Scalar::ABSTRACT_FLOAT, 10),
    (Scalar::ABSTRACT_INT, Scalar::F32, 11),
    (Scalar::ABSTRACT_INT, Scalar::F16, 12),
    (Scalar::ABSTRACT_INT, Scalar::F64, 13),
];

/// Returns whether the entry is that of the conversion.
fn is_of(row: &RankEntry, from: Scalar, to: Scalar) -> bool
    ensures { result ≡ (same_scalar from row.now.0 && same_scalar to row.now.1) }
{
    from == row.0 && to == row.1
}

/// Returns the rank of the first entry from the one scalar to the other.
fn rank_in(rows: &[RankEntry], from: Scalar, to: Scalar) -> Option<u32>
    ensures { result ≡ rank_among rows.now from to }
{
    for row in rows {
        if is_of(row, from, to) {
            return Some(row.2);
        }
    }
    None
}

/// Returns the rank of an automatic conversion: smaller is better, and 0 stands for no conversion at all. `None` if the first scalar
/// doesn't convert automatically to the second, or isn't a named one.
#[tactic(auto, unfolding(shader_ir::specs::Scalars::named_scalars))]
pub fn conversion_rank(from: Scalar, to: Scalar) -> Option<u32>
    ensures { result ≡ conversion_rank from to }
{
    rank_in(&RANKS, from, to)
}
