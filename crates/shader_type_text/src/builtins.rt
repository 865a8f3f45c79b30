//! The names of built-in functions, which are those of the variants.

ghost use Rattle.std.specs.Prelude.{◌≡◌};
ghost use Rattle.shader_type_text.specs.Builtins.{builtin_of, builtin_text};

use shader_ir::MathFunction;

// Invokes the macro `$write` with the names of all built-in functions.
macro_rules! builtins {
    ($write:ident $($given:ident)?) => {
        $write! { [$($given)?]
            Abs Min Max Clamp Saturate Cos Cosh Sin Sinh Tan Tanh Acos Asin Atan Atan2 Asinh Acosh Atanh Radians
            Degrees Ceil Floor Round Fract Trunc Modf Frexp Ldexp Exp Exp2 Log Log2 Pow Dot Dot4I8Packed
            Dot4U8Packed Outer Cross Distance Length Normalize FaceForward Reflect Refract Sign Fma Mix Step
            SmoothStep Sqrt InverseSqrt Inverse Transpose Determinant QuantizeToF16 CountTrailingZeros
            CountLeadingZeros CountOneBits ReverseBits ExtractBits InsertBits FirstTrailingBit FirstLeadingBit
            Pack4x8snorm Pack4x8unorm Pack2x16snorm Pack2x16unorm Pack2x16float Pack4xI8 Pack4xU8 Pack4xI8Clamp
            Pack4xU8Clamp Unpack4x8snorm Unpack4x8unorm Unpack2x16snorm Unpack2x16unorm Unpack2x16float
            Unpack4xI8 Unpack4xU8
        }
    };
}

macro_rules! list {
    ([] $($name:ident)*) => { [$(MathFunction::$name),*] };
}

macro_rules! name {
    ([$function:ident] $($name:ident)*) => {
        match $function {
            $(MathFunction::$name => stringify!($name),)*
        }
    };
}

/// All built-in functions.
const NAMED: [MathFunction; 79] = builtins!(list);

/// Returns the name of the built-in function.
fn name_of(function: MathFunction) -> &'static str
    ensures { result.now ≡ builtin_text function }
{
    builtins!(name function)
}

/// Returns the built-in function with this name.
pub fn builtin_from_word(word: &[u8]) -> Option<MathFunction>
    ensures { result ≡ builtin_of word.now }
{
    NAMED
        .iter()
        .copied()
        .find(|function| name_of(*function).as_bytes() == word)
}
