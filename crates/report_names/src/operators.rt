//! Operators and built-in functions as WGSL spells them.
ghost use Rattle.std.specs.Prelude.{◌≡◌};
ghost use Rattle.report_names.specs.Builtins.{math_word};
ghost use Rattle.report_names.specs.Operators.{binary_word, component_word, derivative_word, relational_word, unary_word};

use shader_ir::{
    BinaryOperator, DerivativeAxis, DerivativeControl, MathFunction, RelationalFunction,
    SwizzleComponent, UnaryOperator,
};

/// Returns an operator on one operand (WGSL, "Expressions").
pub fn unary_word(op: UnaryOperator) -> &'static str
    ensures { result.now ≡ unary_word op }
{
    match op {
        UnaryOperator::Negate => "-",
        UnaryOperator::LogicalNot => "!",
        UnaryOperator::BitwiseNot => "~",
    }
}

/// Returns an operator on two operands (WGSL, "Expressions").
pub fn binary_word(op: BinaryOperator) -> &'static str
    ensures { result.now ≡ binary_word op }
{
    match op {
        BinaryOperator::Add => "+",
        BinaryOperator::Subtract => "-",
        BinaryOperator::Multiply => "*",
        BinaryOperator::Divide => "/",
        BinaryOperator::Modulo => "%",
        BinaryOperator::Equal => "==",
        BinaryOperator::NotEqual => "!=",
        BinaryOperator::Less => "<",
        BinaryOperator::LessEqual => "<=",
        BinaryOperator::Greater => ">",
        BinaryOperator::GreaterEqual => ">=",
        BinaryOperator::And => "&",
        BinaryOperator::ExclusiveOr => "^",
        BinaryOperator::InclusiveOr => "|",
        BinaryOperator::LogicalAnd => "&&",
        BinaryOperator::LogicalOr => "||",
        BinaryOperator::ShiftLeft => "<<",
        BinaryOperator::ShiftRight => ">>",
    }
}

/// Returns the name of a test of a value. `isNan` and `isInf` are naga's, since WGSL has none.
pub fn relational_word(fun: RelationalFunction) -> &'static str
    ensures { result.now ≡ relational_word fun }
{
    match fun {
        RelationalFunction::All => "all",
        RelationalFunction::Any => "any",
        RelationalFunction::IsNan => "isNan",
        RelationalFunction::IsInf => "isInf",
    }
}

/// Returns the name of a derivative (WGSL, "Derivative Built-in Functions").
pub fn derivative_word(axis: DerivativeAxis, ctrl: DerivativeControl) -> &'static str
    ensures { result.now ≡ derivative_word axis ctrl }
{
    match (axis, ctrl) {
        (DerivativeAxis::X, DerivativeControl::None) => "dpdx",
        (DerivativeAxis::X, DerivativeControl::Coarse) => "dpdxCoarse",
        (DerivativeAxis::X, DerivativeControl::Fine) => "dpdxFine",
        (DerivativeAxis::Y, DerivativeControl::None) => "dpdy",
        (DerivativeAxis::Y, DerivativeControl::Coarse) => "dpdyCoarse",
        (DerivativeAxis::Y, DerivativeControl::Fine) => "dpdyFine",
        (DerivativeAxis::Width, DerivativeControl::None) => "fwidth",
        (DerivativeAxis::Width, DerivativeControl::Coarse) => "fwidthCoarse",
        (DerivativeAxis::Width, DerivativeControl::Fine) => "fwidthFine",
    }
}

/// Returns the letter of a component of a vector.
pub fn component_word(component: SwizzleComponent) -> &'static str
    ensures { result.now ≡ component_word component }
{
    match component {
        SwizzleComponent::X => "x",
        SwizzleComponent::Y => "y",
        SwizzleComponent::Z => "z",
        SwizzleComponent::W => "w",
    }
}

// Matches a built-in function, and gives the word behind its name.
macro_rules! spelled {
    ($function:ident $($name:ident $word:literal)*) => {
        match $function {
            $(MathFunction::$name => $word,)*
        }
    };
}

/// Returns the name of a built-in function (WGSL, "Built-in Functions"); of one that WGSL lacks, naga's.
pub fn math_word(fun: MathFunction) -> &'static str
    ensures { result.now ≡ math_word fun }
{
    spelled! { fun
        Abs "abs" Min "min" Max "max" Clamp "clamp" Saturate "saturate" Cos "cos" Cosh "cosh" Sin "sin"
        Sinh "sinh" Tan "tan" Tanh "tanh" Acos "acos" Asin "asin" Atan "atan" Atan2 "atan2" Asinh "asinh"
        Acosh "acosh" Atanh "atanh" Radians "radians" Degrees "degrees" Ceil "ceil" Floor "floor"
        Round "round" Fract "fract" Trunc "trunc" Modf "modf" Frexp "frexp" Ldexp "ldexp" Exp "exp"
        Exp2 "exp2" Log "log" Log2 "log2" Pow "pow" Dot "dot" Dot4I8Packed "dot4I8Packed"
        Dot4U8Packed "dot4U8Packed" Outer "outerProduct" Cross "cross" Distance "distance" Length "length"
        Normalize "normalize" FaceForward "faceForward" Reflect "reflect" Refract "refract" Sign "sign"
        Fma "fma" Mix "mix" Step "step" SmoothStep "smoothstep" Sqrt "sqrt" InverseSqrt "inverseSqrt"
        Inverse "inverse" Transpose "transpose" Determinant "determinant" QuantizeToF16 "quantizeToF16"
        CountTrailingZeros "countTrailingZeros" CountLeadingZeros "countLeadingZeros"
        CountOneBits "countOneBits" ReverseBits "reverseBits" ExtractBits "extractBits"
        InsertBits "insertBits" FirstTrailingBit "firstTrailingBit" FirstLeadingBit "firstLeadingBit"
        Pack4x8snorm "pack4x8snorm" Pack4x8unorm "pack4x8unorm" Pack2x16snorm "pack2x16snorm"
        Pack2x16unorm "pack2x16unorm" Pack2x16float "pack2x16float" Pack4xI8 "pack4xI8" Pack4xU8 "pack4xU8"
        Pack4xI8Clamp "pack4xI8Clamp" Pack4xU8Clamp "pack4xU8Clamp" Unpack4x8snorm "unpack4x8snorm"
        Unpack4x8unorm "unpack4x8unorm" Unpack2x16snorm "unpack2x16snorm" Unpack2x16unorm "unpack2x16unorm"
        Unpack2x16float "unpack2x16float" Unpack4xI8 "unpack4xI8" Unpack4xU8 "unpack4xU8"
    }
}
