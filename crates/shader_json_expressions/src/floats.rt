//! Reads numbers as the bits of an f64 or an f32.
ghost use Rattle.shader_json_reader.specs.Numbers.{IsDouble, IsSingle};

use json::Value;
use shader_json_declarations::Read;
use shader_json_reader::{Context, Failure, double_bits, single_bits};

/// The bits of an f64.
#[derive(Clone, Copy)]
pub(crate) struct Double(pub u64);

/// The bits of an f32.
#[derive(Clone, Copy)]
pub(crate) struct Single(pub u32);

impl Read for Double {
    ghost reads = { λ j float. IsDouble j float.0 };

    fn read(context: Context, value: &Value<'_>) -> Result<Double, Failure> {
        match double_bits(value) {
            Some(bits) => Ok(Double(bits)),
            None => Err(context.refused("a number in the range of f64")),
        }
    }
}

impl Read for Single {
    ghost reads = { λ j float. IsSingle j float.0 };

    fn read(context: Context, value: &Value<'_>) -> Result<Single, Failure> {
        match single_bits(value) {
            Some(bits) => Ok(Single(bits)),
            None => Err(context.refused("a number in the range of f32")),
        }
    }
}
