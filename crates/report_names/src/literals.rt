//! Literals as WGSL spells them.
ghost use Rattle.std.specs.Prelude.{◌≡◌, IfOk, string_bytes};
ghost use Rattle.report_names.specs.Literals.{IsText, double_text, literal_text};

use shader_ir::Literal;
use std::alloc::{AllocError, Global};
use std::num::{f32_from_bits_with_nan, f64_from_bits_with_nan};

/// Returns the value of an f16 that is neither infinite nor a NaN. An f32 has the same value.
fn half_value(bits: u16) -> f32 {
    let sign = (bits as u32 & 0x8000) << 16;
    let exponent = (bits as u32 >> 10) & 0x1F;
    let fraction = bits as u32 & 0x3FF;
    if exponent == 0 {
        // A multiple of 2 to the power of -24.
        let magnitude = f32::from(bits & 0x3FF) * 5.960_464_5e-8;
        if sign == 0 { magnitude } else { -magnitude }
    } else {
        f32_from_bits_with_nan(sign | ((exponent + 112) << 23) | (fraction << 13))
    }
}

/// Returns the literal of an f32, with a point or an exponent. One that WGSL can't spell is shown as its bits.
fn single_text(alloc: Global, bits: u32) -> Result<String, AllocError>
    ensures { IfOk result (λ text. IsText (literal_text (Literal.F32 bits)) (string_bytes text)) }
{
    if bits & 0x7F80_0000 == 0x7F80_0000 {
        return format!(in alloc; "bitcast<f32>({bits}u)");
    }
    let value = f32_from_bits_with_nan(bits);
    format!(in alloc; "{value:?}")
}

/// Returns the digits of an f64 with a suffix, or its bits if WGSL can't spell it.
fn double_text(alloc: Global, bits: u64, suffix: &str) -> Result<String, AllocError>
    ensures { IfOk result (λ text. IsText (double_text bits) (string_bytes text)) }
{
    if bits & 0x7FF0_0000_0000_0000 == 0x7FF0_0000_0000_0000 {
        return format!(in alloc; "bitcast<f64>({bits}lu)");
    }
    let value = f64_from_bits_with_nan(bits);
    format!(in alloc; "{value:?}{suffix}")
}

/// Returns the literal of an f16. One that WGSL can't spell is shown as its bits.
fn half_text(alloc: Global, bits: u16) -> Result<String, AllocError>
    ensures { IfOk result (λ text. IsText (literal_text (Literal.F16 bits)) (string_bytes text)) }
{
    if bits & 0x7C00 == 0x7C00 {
        return format!(in alloc; "bitcast<vec2<f16>>({bits}u).x");
    }
    let value = half_value(bits);
    format!(in alloc; "{value:?}h")
}

/// Returns a literal (WGSL, "Literals"). A float has the fewest digits that tell it from others, and a number without a suffix is abstract
/// or one that WGSL gives this type.
pub fn literal_text(alloc: Global, literal: Literal) -> Result<String, AllocError>
    ensures { IfOk result (λ text. IsText (literal_text literal) (string_bytes text)) }
{
    match literal {
        Literal::F64(bits) => double_text(alloc, bits, "lf"),
        Literal::F32(bits) => single_text(alloc, bits),
        Literal::F16(bits) => half_text(alloc, bits),
        Literal::AbstractFloat(bits) => double_text(alloc, bits, ""),
        Literal::U16(number) => format!(in alloc; "u16({number})"),
        Literal::I16(number) => format!(in alloc; "i16({number})"),
        Literal::U32(number) => format!(in alloc; "{number}u"),
        Literal::I32(number) => format!(in alloc; "{number}"),
        Literal::U64(number) => format!(in alloc; "{number}lu"),
        Literal::I64(number) => format!(in alloc; "{number}li"),
        Literal::AbstractInt(number) => format!(in alloc; "{number}"),
        Literal::Bool(true) => String::from_str(alloc, "true"),
        Literal::Bool(false) => String::from_str(alloc, "false"),
    }
}
