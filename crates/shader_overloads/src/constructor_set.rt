//! Sets of type constructors.
ghost use Rattle.std.specs.Prelude.{⊤, codes, ◌≡◌, ◌==◌, ◌≢◌, ◌↔◌, ◌<◌, ◌||◌, [], ◌∷◌, length, filter, map, IsTrue, Some, slice_get};
ghost use Rattle.std.specs.Iterator.{YieldsFirstBy, item_count};
ghost use Rattle.shader_overloads.specs.Constructors.{all_constructors, constructors_in, has_constructor};
ghost use Rattle.shader_overloads.specs.Constructors.{is_built_by, same_constructor, to_inner};

use bitflags::{Flag, Flags};
use shader_ir::{Scalar, TypeInner, VectorSize};
use std::marker::Model;
use std::ops::{BitAnd, BitOr};

/// A type constructor, which builds a type from a scalar.
#[derive(Clone, Copy, Debug)]
pub enum ConstructorSize {
    /// The scalar itself.
    Scalar,
    /// A vector of the scalar.
    Vector(VectorSize),
    /// A matrix of the scalar, by its columns and rows.
    Matrix {
        columns: VectorSize,
        rows: VectorSize,
    },
}

impl ConstructorSize {
    /// Returns the type that the constructor builds from the scalar.
    pub fn to_inner(self, scalar: Scalar) -> TypeInner
        ensures { result ≡ to_inner self scalar }
    {
        match self {
            ConstructorSize::Scalar => TypeInner::Scalar(scalar),
            ConstructorSize::Vector(size) => TypeInner::Vector { size, scalar },
            ConstructorSize::Matrix { columns, rows } => TypeInner::Matrix {
                columns,
                rows,
                scalar,
            },
        }
    }
}

/// The constructors by the positions of their bits.
static SIZES_FOR_BITS: [ConstructorSize; 13] = [
    ConstructorSize::Scalar,
    ConstructorSize::Vector(VectorSize::Bi),
    ConstructorSize::Vector(VectorSize::Tri),
    ConstructorSize::Vector(VectorSize::Quad),
    ConstructorSize::Matrix {
        columns: VectorSize::Bi,
        rows: VectorSize::Bi,
    },
    ConstructorSize::Matrix {
        columns: VectorSize::Bi,
        rows: VectorSize::Tri,
    },
    ConstructorSize::Matrix {
        columns: VectorSize::Bi,
        rows: VectorSize::Quad,
    },
    ConstructorSize::Matrix {
        columns: VectorSize::Tri,
        rows: VectorSize::Bi,
    },
    ConstructorSize::Matrix {
        columns: VectorSize::Tri,
        rows: VectorSize::Tri,
    },
    ConstructorSize::Matrix {
        columns: VectorSize::Tri,
        rows: VectorSize::Quad,
    },
    ConstructorSize::Matrix {
        columns: VectorSize::Quad,
        rows: VectorSize::Bi,
    },
    ConstructorSize::Matrix {
        columns: VectorSize::Quad,
        rows: VectorSize::Tri,
    },
    ConstructorSize::Matrix {
        columns: VectorSize::Quad,
        rows: VectorSize::Quad,
    },
];

/// Returns the constructor at a position.
#[tactic(auto, unfolding(crate::specs::Constructors::all_constructors))]
pub fn size_at(position: usize) -> ConstructorSize
    requires { position < 13 }
    ensures { slice_get all_constructors position ≡ Some result }
{
    SIZES_FOR_BITS[position]
}

/// Returns the position of a constructor.
#[tactic(auto, unfolding(crate::specs::Constructors::all_constructors))]
#[inline(always)]
pub fn position_of(size: ConstructorSize) -> usize
    ensures { slice_get all_constructors result ≡ Some size }
{
    match size {
        ConstructorSize::Scalar => 0,
        ConstructorSize::Vector(size) => position_of_vector(size),
        ConstructorSize::Matrix { columns, rows } => position_of_matrix(columns, rows),
    }
}

#[tactic(auto, unfolding(crate::specs::Constructors::all_constructors))]
fn position_of_vector(size: VectorSize) -> usize
    ensures { slice_get all_constructors result ≡ Some (ConstructorSize.Vector size) }
{
    match size {
        VectorSize::Bi => 1,
        VectorSize::Tri => 2,
        VectorSize::Quad => 3,
    }
}

#[tactic(auto, unfolding(crate::specs::Constructors::all_constructors))]
fn position_of_matrix(columns: VectorSize, rows: VectorSize) -> usize
    ensures { slice_get all_constructors result ≡ Some (ConstructorSize.Matrix columns rows) }
{
    match (columns, rows) {
        (VectorSize::Bi, VectorSize::Bi) => 4,
        (VectorSize::Bi, VectorSize::Tri) => 5,
        (VectorSize::Bi, VectorSize::Quad) => 6,
        (VectorSize::Tri, VectorSize::Bi) => 7,
        (VectorSize::Tri, VectorSize::Tri) => 8,
        (VectorSize::Tri, VectorSize::Quad) => 9,
        (VectorSize::Quad, VectorSize::Bi) => 10,
        (VectorSize::Quad, VectorSize::Tri) => 11,
        (VectorSize::Quad, VectorSize::Quad) => 12,
    }
}

/// A set of type constructors.
#[derive(Clone, Copy, Debug, PartialEq)]
pub struct ConstructorSet(u16);

impl ConstructorSet {
    pub const SCALAR: ConstructorSet = ConstructorSet(1);

    pub const VEC2: ConstructorSet = ConstructorSet(1 << 1);

    pub const VEC3: ConstructorSet = ConstructorSet(1 << 2);

    pub const VEC4: ConstructorSet = ConstructorSet(1 << 3);

    pub const MAT2X2: ConstructorSet = ConstructorSet(1 << 4);

    pub const MAT2X3: ConstructorSet = ConstructorSet(1 << 5);

    pub const MAT2X4: ConstructorSet = ConstructorSet(1 << 6);

    pub const MAT3X2: ConstructorSet = ConstructorSet(1 << 7);

    pub const MAT3X3: ConstructorSet = ConstructorSet(1 << 8);

    pub const MAT3X4: ConstructorSet = ConstructorSet(1 << 9);

    pub const MAT4X2: ConstructorSet = ConstructorSet(1 << 10);

    pub const MAT4X3: ConstructorSet = ConstructorSet(1 << 11);

    pub const MAT4X4: ConstructorSet = ConstructorSet(1 << 12);

    /// All vectors.
    pub const VECN: ConstructorSet = ConstructorSet(Self::VEC2.0 | Self::VEC3.0 | Self::VEC4.0);

    pub const SCALAR_OR_VECN: ConstructorSet = ConstructorSet(Self::SCALAR.0 | Self::VECN.0);

    /// The matrices with as many rows as columns.
    pub const SQUARE_MATRICES: ConstructorSet = ConstructorSet(
        Self::MAT2X2.0 | Self::MAT3X3.0 | Self::MAT4X4.0,
    );

    pub const EMPTY: ConstructorSet = ConstructorSet(0);

    pub const FLAGS: &'static [Flag<ConstructorSet>] = &[
        Flag {
            name: "SCALAR",
            value: Self::SCALAR,
        },
        Flag {
            name: "VEC2",
            value: Self::VEC2,
        },
        Flag {
            name: "VEC3",
            value: Self::VEC3,
        },
        Flag {
            name: "VEC4",
            value: Self::VEC4,
        },
        Flag {
            name: "MAT2X2",
            value: Self::MAT2X2,
        },
        Flag {
            name: "MAT2X3",
            value: Self::MAT2X3,
        },
        Flag {
            name: "MAT2X4",
            value: Self::MAT2X4,
        },
        Flag {
            name: "MAT3X2",
            value: Self::MAT3X2,
        },
        Flag {
            name: "MAT3X3",
            value: Self::MAT3X3,
        },
        Flag {
            name: "MAT3X4",
            value: Self::MAT3X4,
        },
        Flag {
            name: "MAT4X2",
            value: Self::MAT4X2,
        },
        Flag {
            name: "MAT4X3",
            value: Self::MAT4X3,
        },
        Flag {
            name: "MAT4X4",
            value: Self::MAT4X4,
        },
    ];
}

/// The bits of all thirteen constructors.
const ALL: u16 = 0x1fff;

#[tactic(auto, unfolding(crate::specs::Constructors::all_constructors))]
impl ConstructorSet {
    pub fn empty() -> ConstructorSet
        ensures { constructors_in result ≡ [] }
    {
        Self::EMPTY
    }

    /// Returns the set of the type's constructor, or the empty set if it has none.
    pub fn singleton(inner: &TypeInner) -> ConstructorSet
        ensures { constructors_in result ≡ filter (is_built_by inner.now) all_constructors }
    {
        match inner {
            TypeInner::Scalar(_) => Self::SCALAR,
            TypeInner::Vector { size, .. } => Self::vector(*size),
            TypeInner::Matrix { columns, rows, .. } => Self::matrix(*columns, *rows),
            _ => Self::EMPTY,
        }
    }

    fn vector(size: VectorSize) -> ConstructorSet
        ensures { constructors_in result ≡ filter (same_constructor (ConstructorSize.Vector size)) all_constructors }
    {
        match size {
            VectorSize::Bi => Self::VEC2,
            VectorSize::Tri => Self::VEC3,
            VectorSize::Quad => Self::VEC4,
        }
    }

    fn matrix(columns: VectorSize, rows: VectorSize) -> ConstructorSet
        ensures { constructors_in result ≡ filter (same_constructor (ConstructorSize.Matrix columns rows)) all_constructors }
    {
        match (columns, rows) {
            (VectorSize::Bi, VectorSize::Bi) => Self::MAT2X2,
            (VectorSize::Bi, VectorSize::Tri) => Self::MAT2X3,
            (VectorSize::Bi, VectorSize::Quad) => Self::MAT2X4,
            (VectorSize::Tri, VectorSize::Bi) => Self::MAT3X2,
            (VectorSize::Tri, VectorSize::Tri) => Self::MAT3X3,
            (VectorSize::Tri, VectorSize::Quad) => Self::MAT3X4,
            (VectorSize::Quad, VectorSize::Bi) => Self::MAT4X2,
            (VectorSize::Quad, VectorSize::Tri) => Self::MAT4X3,
            (VectorSize::Quad, VectorSize::Quad) => Self::MAT4X4,
        }
    }

    pub fn is_empty(self) -> bool
        ensures { IsTrue result ↔ (constructors_in self ≡ []) }
    {
        self.0 & ALL == 0
    }

    pub fn is_singleton(self) -> bool
        ensures { IsTrue result ↔ (length (constructors_in self) ≡ 1) }
    {
        !self.is_empty() && ConstructorSet(self.0 & (self.0 - 1)).is_empty()
    }

    /// Returns the sole constructor.
    pub fn size(self) -> ConstructorSize
        requires { length (constructors_in self) ≡ 1 }
        ensures { constructors_in self ≡ result ∷ [] }
    {
        self.first_size()
    }

    /// Returns the first constructor in the order of the bits.
    pub fn first_size(self) -> ConstructorSize
        requires { constructors_in self ≢ [] }
        ensures { slice_get (constructors_in self) 0 ≡ Some result }
    {
        SIZES_FOR_BITS[self.0.trailing_zeros() as usize]
    }

    /// Returns an iterator over the one-constructor subsets of this set, in the order of the bits.
    pub fn members(self) -> ConstructorMembers
        ensures { result ≡ constructors_in self }
    {
        ConstructorMembers { left: self }
    }
}

impl Flags for ConstructorSet {
    type Bits = u16;

    ghost exact = { ⊤ };

    ghost table = { (codes "SCALAR", 1) ∷ (codes "VEC2", 2) ∷ (codes "VEC3", 4) ∷ (codes "VEC4", 8) ∷ (codes "MAT2X2", 16)
        ∷ (codes "MAT2X3", 32) ∷ (codes "MAT2X4", 64) ∷ (codes "MAT3X2", 128) ∷ (codes "MAT3X3", 256) ∷ (codes "MAT3X4", 512)
        ∷ (codes "MAT4X2", 1024) ∷ (codes "MAT4X3", 2048) ∷ (codes "MAT4X4", 4096) ∷ [] };

    ghost set_of = { λ set. set.0 };

    fn flags<'a>() -> &'a [Flag<ConstructorSet>] {
        Self::FLAGS
    }

    fn bits(&self) -> u16 {
        self.0
    }

    fn from_bits_retain(bits: u16) -> ConstructorSet {
        ConstructorSet(bits)
    }
}

impl BitAnd for ConstructorSet {
    type Output = ConstructorSet;

    ghost bitand_gives = { λ a b both. constructors_in both ≡ filter (has_constructor b) (constructors_in a) };

    fn bitand(self, other: ConstructorSet) -> ConstructorSet {
        ConstructorSet(self.0 & other.0)
    }
}

impl BitOr for ConstructorSet {
    type Output = ConstructorSet;

    ghost bitor_gives = { λ a b either. constructors_in either
        ≡ filter (λ size. has_constructor a size || has_constructor b size) all_constructors };

    fn bitor(self, other: ConstructorSet) -> ConstructorSet {
        ConstructorSet(self.0 | other.0)
    }
}

/// An iterator over the remaining members of a set of constructors, which contracts see as their
/// list.
#[derive(Drop)]
pub struct ConstructorMembers {
    left: ConstructorSet,
}

impl Model for ConstructorMembers {
    ghost use Rattle.std.specs.Prelude.{List};
    ghost use Rattle.shader_overloads.specs.declared.constructor_set.ConstructorSize.{ConstructorSize};
    ghost use Rattle.shader_overloads.specs.Constructors.{constructors_in};

    ghost Value = { List ConstructorSize };

    ghost view = { λ members. constructors_in members.left };
}

impl Iterator for ConstructorMembers {
    type Item = ConstructorSet;

    ghost next_gives = { YieldsFirstBy constructors_in (λ left. map (λ size. size ∷ []) left) };

    ghost remaining = { item_count (λ left. left) };

    fn next(&mut self) -> Option<ConstructorSet> {
        if self.left.is_empty() {
            return None;
        }
        let below = self.left.0 - 1;
        let item = ConstructorSet(self.left.0 & !below);
        self.left = ConstructorSet(self.left.0 & below);
        Some(item)
    }
}
