//! The names of scalars.

ghost use Rattle.std.specs.Prelude.{◌≡◌};
ghost use Rattle.shader_type_text.specs.Scalars.{scalar_of_word};

use shader_ir::{Scalar, ScalarKind};
use std::fmt;

/// The name of a scalar.
#[derive(Clone, Copy, Debug, PartialEq, Eq)]
pub enum ScalarName {
    /// A signed integer of 16 bits.
    I16,
    /// A signed integer of 32 bits.
    I32,
    /// A signed integer of 64 bits.
    I64,
    /// An unsigned integer of 16 bits.
    U16,
    /// An unsigned integer of 32 bits.
    U32,
    /// An unsigned integer of 64 bits.
    U64,
    /// A float of 16 bits.
    F16,
    /// A float of 32 bits.
    F32,
    /// A float of 64 bits.
    F64,
    /// A boolean.
    Bool,
    /// The integer of a constant expression without a concrete type.
    AbstractInt,
    /// The float of a constant expression without a concrete type.
    AbstractFloat,
}

impl ScalarName {
    ghost use Rattle.shader_type_text.specs.Scalars.{name_of, scalar_name_text, named_scalar};

    const ALL: [ScalarName; 12] = [
        ScalarName::I16,
        ScalarName::I32,
        ScalarName::I64,
        ScalarName::U16,
        ScalarName::U32,
        ScalarName::U64,
        ScalarName::F16,
        ScalarName::F32,
        ScalarName::F64,
        ScalarName::Bool,
        ScalarName::AbstractInt,
        ScalarName::AbstractFloat,
    ];

    fn word(self) -> &'static str
        ensures { result.now ≡ scalar_name_text self }
    {
        match self {
            ScalarName::I16 => "i16",
            ScalarName::I32 => "i32",
            ScalarName::I64 => "i64",
            ScalarName::U16 => "u16",
            ScalarName::U32 => "u32",
            ScalarName::U64 => "u64",
            ScalarName::F16 => "f16",
            ScalarName::F32 => "f32",
            ScalarName::F64 => "f64",
            ScalarName::Bool => "bool",
            ScalarName::AbstractInt => "AbstractInt",
            ScalarName::AbstractFloat => "AbstractFloat",
        }
    }

    fn from_word(word: &[u8]) -> Option<ScalarName>
        ensures { result ≡ name_of word.now }
    {
        ScalarName::ALL
            .iter()
            .copied()
            .find(|name| name.word().as_bytes() == word)
    }

    fn scalar(self) -> Scalar
        ensures { result ≡ named_scalar self }
    {
        match self {
            ScalarName::I16 => Scalar::I16,
            ScalarName::I32 => Scalar::I32,
            ScalarName::I64 => Scalar::I64,
            ScalarName::U16 => Scalar::U16,
            ScalarName::U32 => Scalar::U32,
            ScalarName::U64 => Scalar::U64,
            ScalarName::F16 => Scalar::F16,
            ScalarName::F32 => Scalar::F32,
            ScalarName::F64 => Scalar::F64,
            ScalarName::Bool => Scalar::BOOL,
            ScalarName::AbstractInt => Scalar::ABSTRACT_INT,
            ScalarName::AbstractFloat => Scalar::ABSTRACT_FLOAT,
        }
    }
}

/// Returns the scalar with this name.
pub fn scalar_from_word(word: &[u8]) -> Option<Scalar>
    ensures { result ≡ scalar_of_word word.now }
{
    ScalarName::from_word(word).map(ScalarName::scalar)
}

/// A scalar in printed form: a letter and its bits, or the name of its kind.
#[derive(Clone, Copy)]
pub struct ScalarText(pub Scalar);

impl fmt::Display for ScalarText {
    ghost use Rattle.std.specs.Prelude.{Some};
    ghost use Rattle.shader_type_text.specs.Scalars.{scalar_text};

    ghost output = { λ text. Some (scalar_text text.0) };

    fn fmt<W: fmt::Write>(&self, f: &mut fmt::Formatter<W>) -> fmt::Result {
        let bits = 8 * self.0.width as u16;
        match self.0.kind {
            ScalarKind::Sint => write!(f, "i{bits}"),
            ScalarKind::Uint => write!(f, "u{bits}"),
            ScalarKind::Float => write!(f, "f{bits}"),
            ScalarKind::Bool => f.write_str("bool"),
            ScalarKind::AbstractInt => f.write_str("AbstractInt"),
            ScalarKind::AbstractFloat => f.write_str("AbstractFloat"),
        }
    }
}
