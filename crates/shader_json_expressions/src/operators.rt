//! Reads operators, built-in functions and modes of expressions.
ghost use Rattle.std.specs.Prelude.{IfOk};
ghost use Rattle.json.specs.Value.{value_view};
ghost use Rattle.shader_json_expressions.specs.Names.{axis_name, binary_name, component_name, control_name, function_name};
ghost use Rattle.shader_json_expressions.specs.Names.{relational_name, unary_name};
ghost use Rattle.shader_json_expressions.specs.Operators.{IsAxis, IsBinaryOperator, IsComponent, IsControl, IsBuiltinFunction};
ghost use Rattle.shader_json_expressions.specs.Operators.{IsPattern, IsRelational, IsUnaryOperator};
ghost use Rattle.shader_json_reader.specs.Answers.{Accepts};
ghost use Rattle.shader_json_reader.specs.Shapes.{IsNullable};

use crate::code::Code;
use json::Value;
use shader_ir::{
    BinaryOperator, DerivativeAxis, DerivativeControl, MathFunction, RelationalFunction,
    SwizzleComponent, UnaryOperator,
};
use shader_json_declarations::{Read, Spelled, named};
use shader_json_reader::{Context, Failure, within};

impl Spelled for Code<UnaryOperator> {
    ghost spelling = { λ item. unary_name item.0 };
}

impl Read for Code<UnaryOperator> {
    ghost reads = { λ j item. IsUnaryOperator j item.0 };

    fn read(context: Context, value: &Value<'_>) -> Result<Code<UnaryOperator>, Failure> {
        let table = [
            ("Negate", Code(UnaryOperator::Negate)),
            ("LogicalNot", Code(UnaryOperator::LogicalNot)),
            ("BitwiseNot", Code(UnaryOperator::BitwiseNot)),
        ];
        named(context, value, &table, "the name of a unary operator")
    }
}

/// All binary operators, by name.
const BINARY_OPERATORS: [(&str, Code<BinaryOperator>); 18] = [
    ("Add", Code(BinaryOperator::Add)),
    ("Subtract", Code(BinaryOperator::Subtract)),
    ("Multiply", Code(BinaryOperator::Multiply)),
    ("Divide", Code(BinaryOperator::Divide)),
    ("Modulo", Code(BinaryOperator::Modulo)),
    ("Equal", Code(BinaryOperator::Equal)),
    ("NotEqual", Code(BinaryOperator::NotEqual)),
    ("Less", Code(BinaryOperator::Less)),
    ("LessEqual", Code(BinaryOperator::LessEqual)),
    ("Greater", Code(BinaryOperator::Greater)),
    ("GreaterEqual", Code(BinaryOperator::GreaterEqual)),
    ("And", Code(BinaryOperator::And)),
    ("ExclusiveOr", Code(BinaryOperator::ExclusiveOr)),
    ("InclusiveOr", Code(BinaryOperator::InclusiveOr)),
    ("LogicalAnd", Code(BinaryOperator::LogicalAnd)),
    ("LogicalOr", Code(BinaryOperator::LogicalOr)),
    ("ShiftLeft", Code(BinaryOperator::ShiftLeft)),
    ("ShiftRight", Code(BinaryOperator::ShiftRight)),
];

impl Spelled for Code<BinaryOperator> {
    ghost spelling = { λ item. binary_name item.0 };
}

impl Read for Code<BinaryOperator> {
    ghost reads = { λ j item. IsBinaryOperator j item.0 };

    fn read(context: Context, value: &Value<'_>) -> Result<Code<BinaryOperator>, Failure> {
        named(
            context,
            value,
            &BINARY_OPERATORS,
            "the name of a binary operator",
        )
    }
}

impl Spelled for Code<DerivativeAxis> {
    ghost spelling = { λ item. axis_name item.0 };
}

impl Read for Code<DerivativeAxis> {
    ghost reads = { λ j item. IsAxis j item.0 };

    fn read(context: Context, value: &Value<'_>) -> Result<Code<DerivativeAxis>, Failure> {
        let table = [
            ("X", Code(DerivativeAxis::X)),
            ("Y", Code(DerivativeAxis::Y)),
            ("Width", Code(DerivativeAxis::Width)),
        ];
        named(context, value, &table, "`X`, `Y` or `Width`")
    }
}

impl Spelled for Code<DerivativeControl> {
    ghost spelling = { λ item. control_name item.0 };
}

impl Read for Code<DerivativeControl> {
    ghost reads = { λ j item. IsControl j item.0 };

    fn read(context: Context, value: &Value<'_>) -> Result<Code<DerivativeControl>, Failure> {
        let table = [
            ("Coarse", Code(DerivativeControl::Coarse)),
            ("Fine", Code(DerivativeControl::Fine)),
            ("None", Code(DerivativeControl::None)),
        ];
        named(context, value, &table, "`Coarse`, `Fine` or `None`")
    }
}

impl Spelled for Code<RelationalFunction> {
    ghost spelling = { λ item. relational_name item.0 };
}

impl Read for Code<RelationalFunction> {
    ghost reads = { λ j item. IsRelational j item.0 };

    fn read(context: Context, value: &Value<'_>) -> Result<Code<RelationalFunction>, Failure> {
        let table = [
            ("All", Code(RelationalFunction::All)),
            ("Any", Code(RelationalFunction::Any)),
            ("IsNan", Code(RelationalFunction::IsNan)),
            ("IsInf", Code(RelationalFunction::IsInf)),
        ];
        named(context, value, &table, "the name of a relational function")
    }
}

impl Spelled for Code<SwizzleComponent> {
    ghost spelling = { λ item. component_name item.0 };
}

impl Read for Code<SwizzleComponent> {
    ghost reads = { λ j item. IsComponent j item.0 };

    fn read(context: Context, value: &Value<'_>) -> Result<Code<SwizzleComponent>, Failure> {
        let table = [
            ("X", Code(SwizzleComponent::X)),
            ("Y", Code(SwizzleComponent::Y)),
            ("Z", Code(SwizzleComponent::Z)),
            ("W", Code(SwizzleComponent::W)),
        ];
        named(context, value, &table, "`X`, `Y`, `Z` or `W`")
    }
}

impl Read for Code<Option<SwizzleComponent>> {
    ghost reads = { λ j item. IsNullable IsComponent j item.0 };

    fn read(
        context: Context,
        value: &Value<'_>,
    ) -> Result<Code<Option<SwizzleComponent>>, Failure> {
        if value.is_null() {
            return Ok(Code(None));
        }
        let Code(component) = Code::read(context, value)?;
        Ok(Code(Some(component)))
    }
}

/// All built-in functions, by name.
const BUILTIN_FUNCTIONS: [(&str, Code<MathFunction>); 79] = [
    ("Abs", Code(MathFunction::Abs)),
    ("Min", Code(MathFunction::Min)),
    ("Max", Code(MathFunction::Max)),
    ("Clamp", Code(MathFunction::Clamp)),
    ("Saturate", Code(MathFunction::Saturate)),
    ("Cos", Code(MathFunction::Cos)),
    ("Cosh", Code(MathFunction::Cosh)),
    ("Sin", Code(MathFunction::Sin)),
    ("Sinh", Code(MathFunction::Sinh)),
    ("Tan", Code(MathFunction::Tan)),
    ("Tanh", Code(MathFunction::Tanh)),
    ("Acos", Code(MathFunction::Acos)),
    ("Asin", Code(MathFunction::Asin)),
    ("Atan", Code(MathFunction::Atan)),
    ("Atan2", Code(MathFunction::Atan2)),
    ("Asinh", Code(MathFunction::Asinh)),
    ("Acosh", Code(MathFunction::Acosh)),
    ("Atanh", Code(MathFunction::Atanh)),
    ("Radians", Code(MathFunction::Radians)),
    ("Degrees", Code(MathFunction::Degrees)),
    ("Ceil", Code(MathFunction::Ceil)),
    ("Floor", Code(MathFunction::Floor)),
    ("Round", Code(MathFunction::Round)),
    ("Fract", Code(MathFunction::Fract)),
    ("Trunc", Code(MathFunction::Trunc)),
    ("Modf", Code(MathFunction::Modf)),
    ("Frexp", Code(MathFunction::Frexp)),
    ("Ldexp", Code(MathFunction::Ldexp)),
    ("Exp", Code(MathFunction::Exp)),
    ("Exp2", Code(MathFunction::Exp2)),
    ("Log", Code(MathFunction::Log)),
    ("Log2", Code(MathFunction::Log2)),
    ("Pow", Code(MathFunction::Pow)),
    ("Dot", Code(MathFunction::Dot)),
    ("Dot4I8Packed", Code(MathFunction::Dot4I8Packed)),
    ("Dot4U8Packed", Code(MathFunction::Dot4U8Packed)),
    ("Outer", Code(MathFunction::Outer)),
    ("Cross", Code(MathFunction::Cross)),
    ("Distance", Code(MathFunction::Distance)),
    ("Length", Code(MathFunction::Length)),
    ("Normalize", Code(MathFunction::Normalize)),
    ("FaceForward", Code(MathFunction::FaceForward)),
    ("Reflect", Code(MathFunction::Reflect)),
    ("Refract", Code(MathFunction::Refract)),
    ("Sign", Code(MathFunction::Sign)),
    ("Fma", Code(MathFunction::Fma)),
    ("Mix", Code(MathFunction::Mix)),
    ("Step", Code(MathFunction::Step)),
    ("SmoothStep", Code(MathFunction::SmoothStep)),
    ("Sqrt", Code(MathFunction::Sqrt)),
    ("InverseSqrt", Code(MathFunction::InverseSqrt)),
    ("Inverse", Code(MathFunction::Inverse)),
    ("Transpose", Code(MathFunction::Transpose)),
    ("Determinant", Code(MathFunction::Determinant)),
    ("QuantizeToF16", Code(MathFunction::QuantizeToF16)),
    ("CountTrailingZeros", Code(MathFunction::CountTrailingZeros)),
    ("CountLeadingZeros", Code(MathFunction::CountLeadingZeros)),
    ("CountOneBits", Code(MathFunction::CountOneBits)),
    ("ReverseBits", Code(MathFunction::ReverseBits)),
    ("ExtractBits", Code(MathFunction::ExtractBits)),
    ("InsertBits", Code(MathFunction::InsertBits)),
    ("FirstTrailingBit", Code(MathFunction::FirstTrailingBit)),
    ("FirstLeadingBit", Code(MathFunction::FirstLeadingBit)),
    ("Pack4x8snorm", Code(MathFunction::Pack4x8snorm)),
    ("Pack4x8unorm", Code(MathFunction::Pack4x8unorm)),
    ("Pack2x16snorm", Code(MathFunction::Pack2x16snorm)),
    ("Pack2x16unorm", Code(MathFunction::Pack2x16unorm)),
    ("Pack2x16float", Code(MathFunction::Pack2x16float)),
    ("Pack4xI8", Code(MathFunction::Pack4xI8)),
    ("Pack4xU8", Code(MathFunction::Pack4xU8)),
    ("Pack4xI8Clamp", Code(MathFunction::Pack4xI8Clamp)),
    ("Pack4xU8Clamp", Code(MathFunction::Pack4xU8Clamp)),
    ("Unpack4x8snorm", Code(MathFunction::Unpack4x8snorm)),
    ("Unpack4x8unorm", Code(MathFunction::Unpack4x8unorm)),
    ("Unpack2x16snorm", Code(MathFunction::Unpack2x16snorm)),
    ("Unpack2x16unorm", Code(MathFunction::Unpack2x16unorm)),
    ("Unpack2x16float", Code(MathFunction::Unpack2x16float)),
    ("Unpack4xI8", Code(MathFunction::Unpack4xI8)),
    ("Unpack4xU8", Code(MathFunction::Unpack4xU8)),
];

impl Spelled for Code<MathFunction> {
    ghost spelling = { λ item. function_name item.0 };
}

impl Read for Code<MathFunction> {
    ghost reads = { λ j item. IsBuiltinFunction j item.0 };

    fn read(context: Context, value: &Value<'_>) -> Result<Code<MathFunction>, Failure> {
        named(
            context,
            value,
            &BUILTIN_FUNCTIONS,
            "the name of a builtin function",
        )
    }
}

/// The components that a swizzle takes of a vector.
#[derive(Drop)]
pub(crate) struct Pattern(pub [SwizzleComponent; 4]);

impl Read for Pattern {
    ghost reads = { λ j pattern. IsPattern j pattern.0 };

    fn read(context: Context, value: &Value<'_>) -> Result<Pattern, Failure> {
        let wanted = "an array of 4 components";
        let Value::Array(items) = value else {
            return Err(context.refused(wanted));
        };
        match items.as_slice() {
            [x, y, z, w] => Ok(Pattern([
                component(context, 0, x)?,
                component(context, 1, y)?,
                component(context, 2, z)?,
                component(context, 3, w)?,
            ])),
            _ => Err(context.refused(wanted)),
        }
    }
}

/// Reads the component at that index of a pattern.
fn component(context: Context, index: usize, value: &Value<'_>) -> Result<SwizzleComponent, Failure>
    ensures reads { IfOk result (λ component. IsComponent (value_view value.now) component) }
    ensures accepts { Accepts (IsComponent (value_view value.now)) result }
{
    let Code(component) = within(index, Code::read(context, value))?;
    Ok(component)
}
