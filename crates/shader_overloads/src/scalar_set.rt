//! Sets of scalars.
ghost use Rattle.std.specs.Prelude.{⊤, codes, ◌≡◌, ◌==◌, ◌≢◌, ◌↔◌, ◌<◌, ◌||◌, [], ◌∷◌, filter, map, IsTrue, Some, slice_get};
ghost use Rattle.std.specs.Iterator.{YieldsFirstBy, item_count};
ghost use Rattle.shader_ir.specs.Scalars.{is_convertible, named_scalars, same_scalar};
ghost use Rattle.shader_overloads.specs.ScalarSets.{has_scalar, is_concrete_scalar, scalars_in};

use bitflags::{Flag, Flags};
use shader_ir::Scalar;
use std::marker::Model;
use std::ops::{BitAnd, BitOr};

/// A set of named scalars.
///
/// The bits are ordered so that a scalar comes before those that it converts to, and among scalars of one kind the one of 32 bits comes
/// first.
#[derive(Clone, Copy, Debug)]
pub struct ScalarSet(u16);

impl ScalarSet {
    pub const ABSTRACT_INT: ScalarSet = ScalarSet(1);

    pub const ABSTRACT_FLOAT: ScalarSet = ScalarSet(1 << 1);

    pub const I32: ScalarSet = ScalarSet(1 << 2);

    pub const I16: ScalarSet = ScalarSet(1 << 3);

    pub const I64: ScalarSet = ScalarSet(1 << 4);

    pub const U32: ScalarSet = ScalarSet(1 << 5);

    pub const U16: ScalarSet = ScalarSet(1 << 6);

    pub const U64: ScalarSet = ScalarSet(1 << 7);

    pub const F32: ScalarSet = ScalarSet(1 << 8);

    pub const F16: ScalarSet = ScalarSet(1 << 9);

    pub const F64: ScalarSet = ScalarSet(1 << 10);

    pub const BOOL: ScalarSet = ScalarSet(1 << 11);

    /// The floating-point scalars.
    pub const FLOAT: ScalarSet = ScalarSet(
        Self::ABSTRACT_FLOAT.0 | Self::F16.0 | Self::F32.0 | Self::F64.0,
    );

    /// The integers, signed and unsigned.
    pub const INTEGER: ScalarSet = ScalarSet(
        Self::ABSTRACT_INT.0
            | Self::I16.0
            | Self::I32.0
            | Self::I64.0
            | Self::U16.0
            | Self::U32.0
            | Self::U64.0,
    );

    pub const NUMERIC: ScalarSet = ScalarSet(Self::FLOAT.0 | Self::INTEGER.0);

    pub const ABSTRACT: ScalarSet = ScalarSet(Self::ABSTRACT_INT.0 | Self::ABSTRACT_FLOAT.0);

    /// All scalars that aren't abstract, including `BOOL`.
    pub const CONCRETE: ScalarSet = ScalarSet(ALL & !Self::ABSTRACT.0);

    pub const CONCRETE_INTEGER: ScalarSet = ScalarSet(Self::INTEGER.0 & Self::CONCRETE.0);

    pub const CONCRETE_FLOAT: ScalarSet = ScalarSet(Self::FLOAT.0 & Self::CONCRETE.0);

    /// The concrete floating-point scalars, for a built-in function whose abstract form isn't implemented. No such function is left.
    pub const FLOAT_ABSTRACT_UNIMPLEMENTED: ScalarSet = Self::CONCRETE_FLOAT;

    pub const EMPTY: ScalarSet = ScalarSet(0);

    pub const FLAGS: &'static [Flag<ScalarSet>] = &[
        Flag {
            name: "ABSTRACT_INT",
            value: Self::ABSTRACT_INT,
        },
        Flag {
            name: "ABSTRACT_FLOAT",
            value: Self::ABSTRACT_FLOAT,
        },
        Flag {
            name: "I32",
            value: Self::I32,
        },
        Flag {
            name: "I16",
            value: Self::I16,
        },
        Flag {
            name: "I64",
            value: Self::I64,
        },
        Flag {
            name: "U32",
            value: Self::U32,
        },
        Flag {
            name: "U16",
            value: Self::U16,
        },
        Flag {
            name: "U64",
            value: Self::U64,
        },
        Flag {
            name: "F32",
            value: Self::F32,
        },
        Flag {
            name: "F16",
            value: Self::F16,
        },
        Flag {
            name: "F64",
            value: Self::F64,
        },
        Flag {
            name: "BOOL",
            value: Self::BOOL,
        },
    ];
}

/// The bits of all twelve scalars.
const ALL: u16 = 0xfff;

/// The scalars by the positions of their bits.
static SCALARS_FOR_BITS: [Scalar; 12] = [
    Scalar::ABSTRACT_INT,
    Scalar::ABSTRACT_FLOAT,
    Scalar::I32,
    Scalar::I16,
    Scalar::I64,
    Scalar::U32,
    Scalar::U16,
    Scalar::U64,
    Scalar::F32,
    Scalar::F16,
    Scalar::F64,
    Scalar::BOOL,
];

/// Returns the scalar at a position.
#[tactic(auto, unfolding(shader_ir::specs::Scalars::named_scalars))]
pub fn scalar_at(position: usize) -> Scalar
    requires { position < 12 }
    ensures { slice_get named_scalars position ≡ Some result }
{
    SCALARS_FOR_BITS[position]
}

#[tactic(auto, unfolding(shader_ir::specs::Scalars::named_scalars))]
impl ScalarSet {
    pub fn empty() -> ScalarSet
        ensures { scalars_in result ≡ [] }
    {
        Self::EMPTY
    }

    /// Returns the set of one scalar, or the empty set if it isn't a named one.
    pub fn singleton(scalar: Scalar) -> ScalarSet
        ensures { scalars_in result ≡ filter (same_scalar scalar) named_scalars }
    {
        match scalar {
            Scalar::ABSTRACT_INT => Self::ABSTRACT_INT,
            Scalar::ABSTRACT_FLOAT => Self::ABSTRACT_FLOAT,
            Scalar::I32 => Self::I32,
            Scalar::I16 => Self::I16,
            Scalar::I64 => Self::I64,
            Scalar::U32 => Self::U32,
            Scalar::U16 => Self::U16,
            Scalar::U64 => Self::U64,
            Scalar::F32 => Self::F32,
            Scalar::F16 => Self::F16,
            Scalar::F64 => Self::F64,
            Scalar::BOOL => Self::BOOL,
            _ => Self::EMPTY,
        }
    }

    /// Returns the scalars to which this one converts automatically.
    pub fn convertible_from(scalar: Scalar) -> ScalarSet
        ensures { scalars_in result ≡ filter (is_convertible scalar) named_scalars }
    {
        match scalar {
            Scalar::ABSTRACT_INT => Self::NUMERIC,
            Scalar::ABSTRACT_FLOAT => Self::FLOAT,
            _ => Self::singleton(scalar),
        }
    }

    /// Returns the scalars that aren't abstract.
    pub fn concrete() -> ScalarSet
        ensures { scalars_in result ≡ filter is_concrete_scalar named_scalars }
    {
        Self::CONCRETE
    }

    pub fn is_empty(self) -> bool
        ensures { IsTrue result ↔ (scalars_in self ≡ []) }
    {
        self.0 & ALL == 0
    }

    /// Returns the first scalar in the order of the bits.
    pub fn most_general_scalar(self) -> Scalar
        requires { scalars_in self ≢ [] }
        ensures { slice_get (scalars_in self) 0 ≡ Some result }
    {
        SCALARS_FOR_BITS[self.0.trailing_zeros() as usize]
    }

    /// Returns an iterator over the one-scalar subsets of this set, in the order of the bits.
    pub fn members(self) -> ScalarMembers
        ensures { result ≡ scalars_in self }
    {
        ScalarMembers { left: self }
    }
}

impl Flags for ScalarSet {
    type Bits = u16;

    ghost exact = { ⊤ };

    ghost table = { (codes "ABSTRACT_INT", 1) ∷ (codes "ABSTRACT_FLOAT", 2) ∷ (codes "I32", 4) ∷ (codes "I16", 8) ∷ (codes "I64", 16)
        ∷ (codes "U32", 32) ∷ (codes "U16", 64) ∷ (codes "U64", 128) ∷ (codes "F32", 256) ∷ (codes "F16", 512) ∷ (codes "F64", 1024)
        ∷ (codes "BOOL", 2048) ∷ [] };

    ghost set_of = { λ set. set.0 };

    fn flags<'a>() -> &'a [Flag<ScalarSet>] {
        Self::FLAGS
    }

    fn bits(&self) -> u16 {
        self.0
    }

    fn from_bits_retain(bits: u16) -> ScalarSet {
        ScalarSet(bits)
    }
}

impl BitAnd for ScalarSet {
    type Output = ScalarSet;

    ghost bitand_gives = { λ a b both. scalars_in both ≡ filter (has_scalar b) (scalars_in a) };

    fn bitand(self, other: ScalarSet) -> ScalarSet {
        ScalarSet(self.0 & other.0)
    }
}

impl BitOr for ScalarSet {
    type Output = ScalarSet;

    ghost bitor_gives = { λ a b either. scalars_in either ≡ filter (λ scalar. has_scalar a scalar || has_scalar b scalar) named_scalars };

    fn bitor(self, other: ScalarSet) -> ScalarSet {
        ScalarSet(self.0 | other.0)
    }
}

/// An iterator over the remaining members of a set of scalars, which contracts see as their list.
#[derive(Drop)]
pub struct ScalarMembers {
    left: ScalarSet,
}

impl Model for ScalarMembers {
    ghost use Rattle.std.specs.Prelude.{List};
    ghost use Rattle.shader_ir.specs.declared.scalar.Scalar.{Scalar};
    ghost use Rattle.shader_overloads.specs.ScalarSets.{scalars_in};

    ghost Value = { List Scalar };

    ghost view = { λ members. scalars_in members.left };
}

impl Iterator for ScalarMembers {
    type Item = ScalarSet;

    ghost next_gives = { YieldsFirstBy scalars_in (λ left. map (λ scalar. scalar ∷ []) left) };

    ghost remaining = { item_count (λ left. left) };

    fn next(&mut self) -> Option<ScalarSet> {
        if self.left.is_empty() {
            return None;
        }
        let below = self.left.0 - 1;
        let item = ScalarSet(self.left.0 & !below);
        self.left = ScalarSet(self.left.0 & below);
        Some(item)
    }
}
