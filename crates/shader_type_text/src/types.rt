//! The types that a line can spell.

ghost use Rattle.std.specs.Prelude.{◌≡◌};
ghost use Rattle.std.specs.Option.{option_map};

use crate::bytes::{after_prefix, before_suffix, split_generic};
use crate::numbers::number_from_word;
use crate::pieces::Pieces;
use crate::scalars::scalar_from_word;
use crate::shape::{Shape, shape_from_word};
use shader_ir::{Count, Scalar, TypeInner, VectorSize};

/// A scalar, a vector or a matrix.
#[derive(Clone, Copy, Debug, PartialEq, Eq)]
pub enum PlainType {
    /// A scalar.
    Scalar(Scalar),
    /// A vector.
    Vector {
        size: VectorSize,
        scalar: Scalar,
    },
    /// A matrix.
    Matrix {
        columns: VectorSize,
        rows: VectorSize,
        scalar: Scalar,
    },
}

/// A plain type, or an array of one with its stride in bytes.
#[derive(Clone, Copy, Debug, PartialEq, Eq)]
pub enum SpelledType {
    /// A type that isn't an array.
    Plain(PlainType),
    /// An array of plain types, with its stride in bytes.
    Array {
        base: PlainType,
        count: Count,
        stride: u32,
    },
}

impl PlainType {
    ghost use Rattle.shader_type_text.specs.Types.{plain_inner, plain_of, shape_type};

    /// Returns the type with this shape and scalar.
    fn of(shape: Shape, scalar: Scalar) -> PlainType
        ensures { result ≡ shape_type shape scalar }
    {
        match shape {
            Shape::Vector(size) => PlainType::Vector { size, scalar },
            Shape::Matrix(columns, rows) => PlainType::Matrix {
                columns,
                rows,
                scalar,
            },
        }
    }

    /// Returns the type with this text.
    pub fn from_word(word: &[u8]) -> Option<PlainType>
        ensures { result ≡ plain_of word.now }
    {
        let Some((name, argument)) = split_generic(word) else {
            return scalar_from_word(word).map(PlainType::Scalar);
        };
        let scalar = scalar_from_word(argument)?;
        let shape = shape_from_word(name)?;
        Some(PlainType::of(shape, scalar))
    }

    /// Returns the type in its IR form.
    pub fn inner(self) -> TypeInner
        ensures { result ≡ plain_inner self }
    {
        match self {
            PlainType::Scalar(scalar) => TypeInner::Scalar(scalar),
            PlainType::Vector { size, scalar } => TypeInner::Vector { size, scalar },
            PlainType::Matrix {
                columns,
                rows,
                scalar,
            } => TypeInner::Matrix {
                columns,
                rows,
                scalar,
            },
        }
    }
}

/// Returns the count from 1 to 4,294,967,295 with this decimal.
fn count_from_word(word: &[u8]) -> Option<Count>
    ensures { result ≡ count_of_word word.now }
{
    Count::new(number_from_word(word)?)
}

/// Returns the text between the brackets of `array<..>`.
fn array_items(word: &[u8]) -> Option<&[u8]>
    ensures { option_map (λ items. items.now) result ≡ array_items word.now }
{
    before_suffix(after_prefix(word, b"array<")?, b">")
}

ghost use Rattle.shader_type_text.specs.Numbers.{count_of_word};
ghost use Rattle.shader_type_text.specs.Types.{array_items};

impl SpelledType {
    ghost use Rattle.shader_type_text.specs.Types.{array_from, array_type, type_of};

    /// Returns the array of a base type, a count and a stride, each as text.
    fn array_of(base: &[u8], count: &[u8], stride: &[u8]) -> Option<SpelledType>
        ensures { result ≡ array_type base.now count.now stride.now }
    {
        let base = PlainType::from_word(base)?;
        let count = count_from_word(count)?;
        let stride = number_from_word(stride)?;
        Some(SpelledType::Array {
            base,
            count,
            stride,
        })
    }

    /// Returns the array that three texts spell. Other numbers of texts spell none.
    fn from_items(mut items: Pieces<'_>) -> Option<SpelledType>
        ensures { result ≡ array_from items.entry }
    {
        let base = items.next()?;
        let count = items.next()?;
        let stride = items.next()?;
        if items.next().is_some() {
            return None;
        }
        SpelledType::array_of(base, count, stride)
    }

    /// Returns the type with this text.
    pub fn from_word(word: &[u8]) -> Option<SpelledType>
        ensures { result ≡ type_of word.now }
    {
        match array_items(word) {
            Some(items) => SpelledType::from_items(Pieces::new(items, b',')),
            None => PlainType::from_word(word).map(SpelledType::Plain),
        }
    }
}
