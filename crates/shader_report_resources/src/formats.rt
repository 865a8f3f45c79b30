//! The names of texel formats in WGSL.
ghost use Rattle.std.specs.Prelude.{◌≡◌};
ghost use Rattle.shader_report_resources.specs.Formats.{format_word, wide_format_word};

use shader_ir::StorageFormat;

/// Returns the name of a format of more than one channel.
fn wide_format_word(format: StorageFormat) -> &'static str
    ensures { result.now ≡ wide_format_word format }
{
    match format {
        StorageFormat::Rg8Unorm => "rg8unorm",
        StorageFormat::Rg8Snorm => "rg8snorm",
        StorageFormat::Rg8Uint => "rg8uint",
        StorageFormat::Rg8Sint => "rg8sint",
        StorageFormat::Rgba8Unorm => "rgba8unorm",
        StorageFormat::Rgba8Snorm => "rgba8snorm",
        StorageFormat::Rgba8Uint => "rgba8uint",
        StorageFormat::Rgba8Sint => "rgba8sint",
        StorageFormat::Rg16Unorm => "rg16unorm",
        StorageFormat::Rg16Snorm => "rg16snorm",
        StorageFormat::Rg16Uint => "rg16uint",
        StorageFormat::Rg16Sint => "rg16sint",
        StorageFormat::Rg16Float => "rg16float",
        StorageFormat::Rgba16Unorm => "rgba16unorm",
        StorageFormat::Rgba16Snorm => "rgba16snorm",
        StorageFormat::Rgba16Uint => "rgba16uint",
        StorageFormat::Rgba16Sint => "rgba16sint",
        StorageFormat::Rgba16Float => "rgba16float",
        StorageFormat::Rg32Uint => "rg32uint",
        StorageFormat::Rg32Sint => "rg32sint",
        StorageFormat::Rg32Float => "rg32float",
        StorageFormat::Rgba32Uint => "rgba32uint",
        StorageFormat::Rgba32Sint => "rgba32sint",
        StorageFormat::Rgba32Float => "rgba32float",
        StorageFormat::Bgra8Unorm => "bgra8unorm",
        StorageFormat::Rgb10a2Uint => "rgb10a2uint",
        StorageFormat::Rgb10a2Unorm => "rgb10a2unorm",
        StorageFormat::Rg11b10Ufloat => "rg11b10ufloat",
        _ => "",
    }
}

/// Returns the name of a format.
pub(crate) fn format_word(format: StorageFormat) -> &'static str
    ensures { result.now ≡ format_word format }
{
    match format {
        StorageFormat::R8Unorm => "r8unorm",
        StorageFormat::R8Snorm => "r8snorm",
        StorageFormat::R8Uint => "r8uint",
        StorageFormat::R8Sint => "r8sint",
        StorageFormat::R16Unorm => "r16unorm",
        StorageFormat::R16Snorm => "r16snorm",
        StorageFormat::R16Uint => "r16uint",
        StorageFormat::R16Sint => "r16sint",
        StorageFormat::R16Float => "r16float",
        StorageFormat::R32Uint => "r32uint",
        StorageFormat::R32Sint => "r32sint",
        StorageFormat::R32Float => "r32float",
        StorageFormat::R64Uint => "r64uint",
        _ => wide_format_word(format),
    }
}
