//! JSON numbers as numbers of Rust.
ghost use Rattle.std.specs.Prelude.{ℕ, ℤ, IfNone, IfSome};
ghost use Rattle.json.specs.Value.{value_view};
ghost use Rattle.shader_json_reader.specs.Numbers.{IsDouble, IsSigned, IsSingle, IsUnsigned};

use json::Value;

/// Returns an integer from 0 to `most` that is written without point and exponent, or `None` for any other value.
pub fn unsigned(value: &Value<'_>, most: u64) -> Option<u64>
    ensures some { IfSome result (λ number. IsUnsigned most (value_view value.now) number) }
    ensures none { IfNone result ((number : ℕ) → IsUnsigned most (value_view value.now) number → ⊥) }
{
    match value.as_u64() {
        Some(number) if number <= most => Some(number),
        _ => None,
    }
}

/// Returns an integer from `least` to `most` that is written without point and exponent, or `None` for any other value, `-0` among them.
pub fn signed(value: &Value<'_>, least: i64, most: i64) -> Option<i64>
    ensures some { IfSome result (λ number. IsSigned least most (value_view value.now) number) }
    ensures none { IfNone result ((number : ℤ) → IsSigned least most (value_view value.now) number → ⊥) }
{
    let text = value.as_number()?;
    if text == "-0" {
        return None;
    }
    match value.as_i64() {
        Some(number) if least <= number && number <= most => Some(number),
        _ => None,
    }
}

/// Returns the bits of the f64 nearest to a number, ties to even, or `None` for an infinite one or any other value.
pub fn double_bits(value: &Value<'_>) -> Option<u64>
    ensures some { IfSome result (λ bits. IsDouble (value_view value.now) bits) }
    ensures none { IfNone result ((bits : ℕ) → IsDouble (value_view value.now) bits → ⊥) }
{
    let number = value.as_f64()?;
    if number.is_finite() {
        Some(number.to_bits())
    } else {
        None
    }
}

/// Returns the bits of the f32 nearest to a number, ties to even, or `None` for an infinite one or any other value. The number is rounded
/// once.
pub fn single_bits(value: &Value<'_>) -> Option<u32>
    ensures some { IfSome result (λ bits. IsSingle (value_view value.now) bits) }
    ensures none { IfNone result ((bits : ℕ) → IsSingle (value_view value.now) bits → ⊥) }
{
    let number: f32 = fast_float::parse(value.as_number()?).ok()?;
    if number.is_finite() {
        Some(number.to_bits())
    } else {
        None
    }
}
