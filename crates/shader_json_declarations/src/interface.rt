//! Reads what a module declares to its host and to other stages. The IR lacks it, so what is read here is only checked and dropped.
ghost use Rattle.shader_json_declarations.specs.Interface.{IsInterpolation, IsResourceBinding, IsSampling};
ghost use Rattle.shader_json_declarations.specs.Interface.{interpolation_name, sampling_name};
ghost use Rattle.shader_json_reader.specs.Shapes.{IsTriple};

use crate::fields::Fields;
use crate::names::{Spelled, named};
use crate::values::{Read, read_item};
use json::Value;
use shader_json_reader::{Context, Failure};

/// The bind group of a resource and its number there.
#[derive(Clone, Copy)]
pub struct ResourceBinding {
    pub group: u32,
    pub binding: u32,
}

impl Read for ResourceBinding {
    ghost reads = { λ j bound. IsResourceBinding j bound };

    fn read(context: Context, value: &Value<'_>) -> Result<ResourceBinding, Failure> {
        let (group, binding) = Fields::of(context, value)?.pair(context, "group", "binding")?;
        Ok(ResourceBinding { group, binding })
    }
}

/// How a value is interpolated between the vertices of a primitive.
#[derive(Clone, Copy)]
pub enum Interpolation {
    Perspective,
    Linear,
    Flat,
    PerVertex,
}

impl Spelled for Interpolation {
    ghost spelling = { λ item. interpolation_name item };
}

impl Read for Interpolation {
    ghost reads = { λ j interpolation. IsInterpolation j interpolation };

    fn read(context: Context, value: &Value<'_>) -> Result<Interpolation, Failure> {
        let table = [
            ("Perspective", Interpolation::Perspective),
            ("Linear", Interpolation::Linear),
            ("Flat", Interpolation::Flat),
            ("PerVertex", Interpolation::PerVertex),
        ];
        let wanted = "`Perspective`, `Linear`, `Flat` or `PerVertex`";
        named(context, value, &table, wanted)
    }
}

/// Where in a pixel a value is interpolated, or of which vertex it is.
#[derive(Clone, Copy)]
pub enum Sampling {
    Center,
    Centroid,
    Sample,
    First,
    Either,
}

impl Spelled for Sampling {
    ghost spelling = { λ item. sampling_name item };
}

impl Read for Sampling {
    ghost reads = { λ j sampling. IsSampling j sampling };

    fn read(context: Context, value: &Value<'_>) -> Result<Sampling, Failure> {
        let table = [
            ("Center", Sampling::Center),
            ("Centroid", Sampling::Centroid),
            ("Sample", Sampling::Sample),
            ("First", Sampling::First),
            ("Either", Sampling::Either),
        ];
        let wanted = "`Center`, `Centroid`, `Sample`, `First` or `Either`";
        named(context, value, &table, wanted)
    }
}

impl<T: Read + Drop> Read for [T; 3] {
    ghost reads = { λ j items. IsTriple T.reads j items };

    fn read(context: Context, value: &Value<'_>) -> Result<[T; 3], Failure> {
        let wanted = "an array of 3 items";
        let Value::Array(items) = value else {
            return Err(context.refused(wanted));
        };
        match items.as_slice() {
            [x, y, z] => Ok([
                read_item(context, 0, x)?,
                read_item(context, 1, y)?,
                read_item(context, 2, z)?,
            ]),
            _ => Err(context.refused(wanted)),
        }
    }
}
