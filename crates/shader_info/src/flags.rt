//! Sets of flags: requirements, uses, validation flags and capabilities.
ghost use Rattle.std.specs.Prelude.{⊤, ◌≡◌, [], ◌∷◌, codes};
ghost use Rattle.std.specs.Int.RustNames.{bit_and, bit_or};

use bitflags::{Flag, Flags};
use std::ops::{BitAnd, BitOr};

/// The reasons why an expression or a function requires uniform control flow (WGSL, "Uniformity").
#[derive(Clone, Copy, Debug, PartialEq, Eq)]
pub struct UniformityRequirements(pub u8);

impl UniformityRequirements {
    /// A barrier for the whole work group.
    pub const WORK_GROUP_BARRIER: UniformityRequirements = UniformityRequirements(1);

    /// A derivative.
    pub const DERIVATIVE: UniformityRequirements = UniformityRequirements(2);

    /// A sample whose level of detail is determined by derivatives.
    pub const IMPLICIT_LEVEL: UniformityRequirements = UniformityRequirements(4);

    /// An operation on a matrix that invocations store together.
    pub const COOP_OPS: UniformityRequirements = UniformityRequirements(8);

    /// Returns the bits that have a name.
    pub fn known(self) -> UniformityRequirements
        ensures { result.0 ≡ bit_and self.0 15 }
    {
        UniformityRequirements(self.0 & 15)
    }
}

impl Flags for UniformityRequirements {
    type Bits = u8;

    ghost exact = { ⊤ };

    ghost table = { (codes "WORK_GROUP_BARRIER", 1) ∷ (codes "DERIVATIVE", 2) ∷ (codes "IMPLICIT_LEVEL", 4) ∷ (codes "COOP_OPS", 8) ∷ [] };

    ghost set_of = { λ requirements. requirements.0 };

    fn flags<'a>() -> &'a [Flag<UniformityRequirements>] {
        &[
            Flag {
                name: "WORK_GROUP_BARRIER",
                value: UniformityRequirements::WORK_GROUP_BARRIER,
            },
            Flag {
                name: "DERIVATIVE",
                value: UniformityRequirements::DERIVATIVE,
            },
            Flag {
                name: "IMPLICIT_LEVEL",
                value: UniformityRequirements::IMPLICIT_LEVEL,
            },
            Flag {
                name: "COOP_OPS",
                value: UniformityRequirements::COOP_OPS,
            },
        ]
    }

    fn bits(&self) -> u8 {
        self.0
    }

    fn from_bits_retain(bits: u8) -> UniformityRequirements {
        UniformityRequirements(bits)
    }
}

impl BitOr for UniformityRequirements {
    type Output = UniformityRequirements;

    ghost bitor_gives = { λ requirements other both. both.0 ≡ bit_or requirements.0 other.0 };

    fn bitor(self, other: UniformityRequirements) -> UniformityRequirements {
        UniformityRequirements(self.0 | other.0)
    }
}

impl BitAnd for UniformityRequirements {
    type Output = UniformityRequirements;

    ghost bitand_gives = { λ requirements other common. common.0 ≡ bit_and requirements.0 other.0 };

    fn bitand(self, other: UniformityRequirements) -> UniformityRequirements {
        UniformityRequirements(self.0 & other.0)
    }
}

/// The uses of a global variable.
#[derive(Clone, Copy, Debug, PartialEq, Eq)]
pub struct GlobalUse(pub u8);

impl GlobalUse {
    /// A read of the contents.
    pub const READ: GlobalUse = GlobalUse(1);

    /// A write.
    pub const WRITE: GlobalUse = GlobalUse(2);

    /// A query of the size or of another property.
    pub const QUERY: GlobalUse = GlobalUse(4);

    /// An atomic operation on the image.
    pub const ATOMIC: GlobalUse = GlobalUse(8);

    /// Returns the bits that have a name.
    pub fn known(self) -> GlobalUse
        ensures { result.0 ≡ bit_and self.0 15 }
    {
        GlobalUse(self.0 & 15)
    }
}

impl Flags for GlobalUse {
    type Bits = u8;

    ghost exact = { ⊤ };

    ghost table = { (codes "READ", 1) ∷ (codes "WRITE", 2) ∷ (codes "QUERY", 4) ∷ (codes "ATOMIC", 8) ∷ [] };

    ghost set_of = { λ uses. uses.0 };

    fn flags<'a>() -> &'a [Flag<GlobalUse>] {
        &[
            Flag {
                name: "READ",
                value: GlobalUse::READ,
            },
            Flag {
                name: "WRITE",
                value: GlobalUse::WRITE,
            },
            Flag {
                name: "QUERY",
                value: GlobalUse::QUERY,
            },
            Flag {
                name: "ATOMIC",
                value: GlobalUse::ATOMIC,
            },
        ]
    }

    fn bits(&self) -> u8 {
        self.0
    }

    fn from_bits_retain(bits: u8) -> GlobalUse {
        GlobalUse(bits)
    }
}

impl BitOr for GlobalUse {
    type Output = GlobalUse;

    ghost bitor_gives = { λ uses other both. both.0 ≡ bit_or uses.0 other.0 };

    fn bitor(self, other: GlobalUse) -> GlobalUse {
        GlobalUse(self.0 | other.0)
    }
}

impl BitAnd for GlobalUse {
    type Output = GlobalUse;

    ghost bitand_gives = { λ uses other common. common.0 ≡ bit_and uses.0 other.0 };

    fn bitand(self, other: GlobalUse) -> GlobalUse {
        GlobalUse(self.0 & other.0)
    }
}

/// The checks of the validation.
#[derive(Clone, Copy)]
pub struct ValidationFlags(pub u8);

impl ValidationFlags {
    /// The check that everything that requires uniform control flow is in uniform control flow.
    pub const CONTROL_FLOW_UNIFORMITY: ValidationFlags = ValidationFlags(1);
}

impl Flags for ValidationFlags {
    type Bits = u8;

    ghost exact = { ⊤ };

    ghost table = { (codes "CONTROL_FLOW_UNIFORMITY", 1) ∷ [] };

    ghost set_of = { λ flags. flags.0 };

    fn flags<'a>() -> &'a [Flag<ValidationFlags>] {
        &[Flag {
            name: "CONTROL_FLOW_UNIFORMITY",
            value: ValidationFlags::CONTROL_FLOW_UNIFORMITY,
        }]
    }

    fn bits(&self) -> u8 {
        self.0
    }

    fn from_bits_retain(bits: u8) -> ValidationFlags {
        ValidationFlags(bits)
    }
}

impl BitOr for ValidationFlags {
    type Output = ValidationFlags;

    ghost bitor_gives = { λ flags other both. both.0 ≡ bit_or flags.0 other.0 };

    fn bitor(self, other: ValidationFlags) -> ValidationFlags {
        ValidationFlags(self.0 | other.0)
    }
}

impl BitAnd for ValidationFlags {
    type Output = ValidationFlags;

    ghost bitand_gives = { λ flags other common. common.0 ≡ bit_and flags.0 other.0 };

    fn bitand(self, other: ValidationFlags) -> ValidationFlags {
        ValidationFlags(self.0 & other.0)
    }
}

/// The capabilities of a device beyond the core language.
#[derive(Clone, Copy, Debug, PartialEq, Eq)]
pub struct Capabilities(pub u64);

impl Capabilities {
    /// Indexing of an array of sampled images or of samplers by a value that may differ among
    /// invocations.
    pub const TEXTURE_AND_SAMPLER_BINDING_ARRAY_NON_UNIFORM_INDEXING: Capabilities = Capabilities(
        1,
    );

    /// Indexing of an array of storage images by a value that may differ among invocations.
    pub const STORAGE_TEXTURE_BINDING_ARRAY_NON_UNIFORM_INDEXING: Capabilities = Capabilities(2);
}

impl Flags for Capabilities {
    type Bits = u64;

    ghost exact = { ⊤ };

    ghost table = { (codes "TEXTURE_AND_SAMPLER_BINDING_ARRAY_NON_UNIFORM_INDEXING", 1)
        ∷ (codes "STORAGE_TEXTURE_BINDING_ARRAY_NON_UNIFORM_INDEXING", 2) ∷ [] };

    ghost set_of = { λ capabilities. capabilities.0 };

    fn flags<'a>() -> &'a [Flag<Capabilities>] {
        &[
            Flag {
                name: "TEXTURE_AND_SAMPLER_BINDING_ARRAY_NON_UNIFORM_INDEXING",
                value: Capabilities::TEXTURE_AND_SAMPLER_BINDING_ARRAY_NON_UNIFORM_INDEXING,
            },
            Flag {
                name: "STORAGE_TEXTURE_BINDING_ARRAY_NON_UNIFORM_INDEXING",
                value: Capabilities::STORAGE_TEXTURE_BINDING_ARRAY_NON_UNIFORM_INDEXING,
            },
        ]
    }

    fn bits(&self) -> u64 {
        self.0
    }

    fn from_bits_retain(bits: u64) -> Capabilities {
        Capabilities(bits)
    }
}

impl BitOr for Capabilities {
    type Output = Capabilities;

    ghost bitor_gives = { λ capabilities other both. both.0 ≡ bit_or capabilities.0 other.0 };

    fn bitor(self, other: Capabilities) -> Capabilities {
        Capabilities(self.0 | other.0)
    }
}

impl BitAnd for Capabilities {
    type Output = Capabilities;

    ghost bitand_gives = { λ capabilities other common. common.0 ≡ bit_and capabilities.0 other.0 };

    fn bitand(self, other: Capabilities) -> Capabilities {
        Capabilities(self.0 & other.0)
    }
}
