//! Reads image types.
ghost use Rattle.shader_json_declarations.specs.Names.{dimension_name, format_name};
ghost use Rattle.shader_json_declarations.specs.Scalars.{IsAccess, IsClass, IsDimension, IsFormat};

use crate::fields::Variant;
use crate::names::{Spelled, named};
use crate::values::Read;
use json::Value;
use shader_ir::{ImageClass, ImageDimension, StorageAccess, StorageFormat};
use shader_json_reader::{Context, Failure, flags};

impl Spelled for ImageDimension {
    ghost spelling = { λ item. dimension_name item };
}

impl Read for ImageDimension {
    ghost reads = { λ j dimension. IsDimension j dimension };

    fn read(context: Context, value: &Value<'_>) -> Result<ImageDimension, Failure> {
        let table = [
            ("D1", ImageDimension::D1),
            ("D2", ImageDimension::D2),
            ("D3", ImageDimension::D3),
            ("Cube", ImageDimension::Cube),
        ];
        named(context, value, &table, "`D1`, `D2`, `D3` or `Cube`")
    }
}

impl Read for StorageAccess {
    ghost reads = { λ j access. IsAccess j access };

    fn read(context: Context, value: &Value<'_>) -> Result<StorageAccess, Failure> {
        flags(context, value, "names of `LOAD | STORE | ATOMIC`")
    }
}

impl Read for ImageClass {
    ghost reads = { λ j class. IsClass j class };

    fn read(context: Context, value: &Value<'_>) -> Result<ImageClass, Failure> {
        let Variant { name, payload } = Variant::of(context, value)?;
        match (name, payload) {
            ("External", None) => Ok(ImageClass::External),
            ("Sampled", Some(payload)) => {
                let (kind, multi) = payload.pair(context, "kind", "multi")?;
                Ok(ImageClass::Sampled { kind, multi })
            }
            ("Depth", Some(payload)) => Ok(ImageClass::Depth {
                multi: payload.field(context, "multi")?,
            }),
            ("Storage", Some(payload)) => {
                let (format, access) = payload.pair(context, "format", "access")?;
                Ok(ImageClass::Storage { format, access })
            }
            _ => Err(context.refused("a class of images")),
        }
    }
}

/// All storage formats, by name.
const FORMATS: [(&str, StorageFormat); 41] = [
    ("R8Unorm", StorageFormat::R8Unorm),
    ("R8Snorm", StorageFormat::R8Snorm),
    ("R8Uint", StorageFormat::R8Uint),
    ("R8Sint", StorageFormat::R8Sint),
    ("Rg8Unorm", StorageFormat::Rg8Unorm),
    ("Rg8Snorm", StorageFormat::Rg8Snorm),
    ("Rg8Uint", StorageFormat::Rg8Uint),
    ("Rg8Sint", StorageFormat::Rg8Sint),
    ("Rgba8Unorm", StorageFormat::Rgba8Unorm),
    ("Rgba8Snorm", StorageFormat::Rgba8Snorm),
    ("Rgba8Uint", StorageFormat::Rgba8Uint),
    ("Rgba8Sint", StorageFormat::Rgba8Sint),
    ("R16Unorm", StorageFormat::R16Unorm),
    ("R16Snorm", StorageFormat::R16Snorm),
    ("R16Uint", StorageFormat::R16Uint),
    ("R16Sint", StorageFormat::R16Sint),
    ("R16Float", StorageFormat::R16Float),
    ("Rg16Unorm", StorageFormat::Rg16Unorm),
    ("Rg16Snorm", StorageFormat::Rg16Snorm),
    ("Rg16Uint", StorageFormat::Rg16Uint),
    ("Rg16Sint", StorageFormat::Rg16Sint),
    ("Rg16Float", StorageFormat::Rg16Float),
    ("Rgba16Unorm", StorageFormat::Rgba16Unorm),
    ("Rgba16Snorm", StorageFormat::Rgba16Snorm),
    ("Rgba16Uint", StorageFormat::Rgba16Uint),
    ("Rgba16Sint", StorageFormat::Rgba16Sint),
    ("Rgba16Float", StorageFormat::Rgba16Float),
    ("R32Uint", StorageFormat::R32Uint),
    ("R32Sint", StorageFormat::R32Sint),
    ("R32Float", StorageFormat::R32Float),
    ("Rg32Uint", StorageFormat::Rg32Uint),
    ("Rg32Sint", StorageFormat::Rg32Sint),
    ("Rg32Float", StorageFormat::Rg32Float),
    ("Rgba32Uint", StorageFormat::Rgba32Uint),
    ("Rgba32Sint", StorageFormat::Rgba32Sint),
    ("Rgba32Float", StorageFormat::Rgba32Float),
    ("Bgra8Unorm", StorageFormat::Bgra8Unorm),
    ("Rgb10a2Uint", StorageFormat::Rgb10a2Uint),
    ("Rgb10a2Unorm", StorageFormat::Rgb10a2Unorm),
    ("Rg11b10Ufloat", StorageFormat::Rg11b10Ufloat),
    ("R64Uint", StorageFormat::R64Uint),
];

impl Spelled for StorageFormat {
    ghost spelling = { λ item. format_name item };
}

impl Read for StorageFormat {
    ghost reads = { λ j format. IsFormat j format };

    fn read(context: Context, value: &Value<'_>) -> Result<StorageFormat, Failure> {
        named(context, value, &FORMATS, "the name of a storage format")
    }
}
