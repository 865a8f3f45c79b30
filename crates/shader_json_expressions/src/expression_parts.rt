//! Reads the components of expressions, other than operators.
ghost use Rattle.shader_json_expressions.specs.Operators.{IsLevel, IsQuery, IsTile};

use crate::code::Code;
use json::Value;
use shader_ir::{CooperativeData, ImageQuery, SampleLevel};
use shader_json_declarations::{Fields, Read, Variant};
use shader_json_reader::{Context, Failure};

impl Read for Code<SampleLevel> {
    ghost reads = { λ j level. IsLevel j level.0 };

    fn read(context: Context, value: &Value<'_>) -> Result<Code<SampleLevel>, Failure> {
        let Variant { name, payload } = Variant::of(context, value)?;
        let found = match (name, payload) {
            ("Auto", None) => SampleLevel::Auto,
            ("Zero", None) => SampleLevel::Zero,
            ("Exact", Some(payload)) => SampleLevel::Exact(payload.read(context)?),
            ("Bias", Some(payload)) => SampleLevel::Bias(payload.read(context)?),
            ("Gradient", Some(payload)) => {
                let (x, y) = payload.pair(context, "x", "y")?;
                SampleLevel::Gradient { x, y }
            }
            _ => return Err(context.refused("a level to sample at")),
        };
        Ok(Code(found))
    }
}

impl Read for Code<ImageQuery> {
    ghost reads = { λ j query. IsQuery j query.0 };

    fn read(context: Context, value: &Value<'_>) -> Result<Code<ImageQuery>, Failure> {
        let Variant { name, payload } = Variant::of(context, value)?;
        let found = match (name, payload) {
            ("Size", Some(payload)) => ImageQuery::Size {
                level: payload.fields(context)?.optional(context, "level")?,
            },
            ("NumLevels", None) => ImageQuery::NumLevels,
            ("NumLayers", None) => ImageQuery::NumLayers,
            ("NumSamples", None) => ImageQuery::NumSamples,
            _ => return Err(context.refused("a query of an image")),
        };
        Ok(Code(found))
    }
}

/// The location of a cooperative matrix in memory. Statements have it too.
#[derive(Clone, Copy)]
pub struct Tile(pub CooperativeData);

impl Read for Tile {
    ghost reads = { λ j tile. IsTile j tile.0 };

    fn read(context: Context, value: &Value<'_>) -> Result<Tile, Failure> {
        let fields = Fields::of(context, value)?;
        let (pointer, stride, row_major) = fields.triple(
            context,
            "pointer",
            "stride",
            "row_major",
        )?;
        Ok(Tile(CooperativeData {
            pointer,
            stride,
            row_major,
        }))
    }
}
