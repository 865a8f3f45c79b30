//! Textures as WGSL spells them.
ghost use Rattle.std.specs.Prelude.{◌≡◌, IfOk, string_bytes};
ghost use Rattle.report_names.specs.Images.{access_word, depth_name, dimension_word, format_word, image_text, layers_word};
ghost use Rattle.report_names.specs.Images.{sampled_name, samples_word, storage_name};

use crate::scalars::scalar_text;
use shader_ir::{ImageClass, ImageDimension, Scalar, ScalarKind, StorageAccess, StorageFormat};
use std::alloc::{AllocError, Global};

/// Returns the dimension in the name of a texture type.
fn dimension_word(dim: ImageDimension) -> &'static str
    ensures { result.now ≡ dimension_word dim }
{
    match dim {
        ImageDimension::D1 => "1d",
        ImageDimension::D2 => "2d",
        ImageDimension::D3 => "3d",
        ImageDimension::Cube => "cube",
    }
}

/// Returns the end of the name of a texture type, which says whether it has layers.
fn layers_word(arrayed: bool) -> &'static str
    ensures { result.now ≡ layers_word arrayed }
{
    if arrayed { "_array" } else { "" }
}

/// Returns the part of the name of a texture type that says whether it has several samples per texel.
fn samples_word(multi: bool) -> &'static str
    ensures { result.now ≡ samples_word multi }
{
    if multi { "multisampled_" } else { "" }
}

/// Returns an access mode (WGSL, "Access Mode"). `atomic` is naga's. No access at all is spelled `read`.
pub fn access_word(access: StorageAccess) -> &'static str
    ensures { result.now ≡ access_word access }
{
    if access.0 & 4 == 4 {
        return "atomic";
    }
    if access.0 & 3 == 3 {
        return "read_write";
    }
    if access.0 & 2 == 2 { "write" } else { "read" }
}

// Matches a format, and gives the word behind its name.
macro_rules! spelled {
    ($format:ident $($name:ident $word:literal)*) => {
        match $format {
            $(StorageFormat::$name => $word,)*
        }
    };
}

/// Returns the name of a texel format (WGSL, "Texel Formats"); of one that WGSL lacks, naga's.
pub fn format_word(format: StorageFormat) -> &'static str
    ensures { result.now ≡ format_word format }
{
    spelled! { format
        R8Unorm "r8unorm" R8Snorm "r8snorm" R8Uint "r8uint" R8Sint "r8sint" Rg8Unorm "rg8unorm"
        Rg8Snorm "rg8snorm" Rg8Uint "rg8uint" Rg8Sint "rg8sint" Rgba8Unorm "rgba8unorm"
        Rgba8Snorm "rgba8snorm" Rgba8Uint "rgba8uint" Rgba8Sint "rgba8sint" R16Unorm "r16unorm"
        R16Snorm "r16snorm" R16Uint "r16uint" R16Sint "r16sint" R16Float "r16float" Rg16Unorm "rg16unorm"
        Rg16Snorm "rg16snorm" Rg16Uint "rg16uint" Rg16Sint "rg16sint" Rg16Float "rg16float"
        Rgba16Unorm "rgba16unorm" Rgba16Snorm "rgba16snorm" Rgba16Uint "rgba16uint" Rgba16Sint "rgba16sint"
        Rgba16Float "rgba16float" R32Uint "r32uint" R32Sint "r32sint" R32Float "r32float" Rg32Uint "rg32uint"
        Rg32Sint "rg32sint" Rg32Float "rg32float" Rgba32Uint "rgba32uint" Rgba32Sint "rgba32sint"
        Rgba32Float "rgba32float" Bgra8Unorm "bgra8unorm" Rgb10a2Uint "rgb10a2uint"
        Rgb10a2Unorm "rgb10a2unorm" Rg11b10Ufloat "rg11b10ufloat" R64Uint "r64uint"
    }
}

/// Returns the type of a texture whose texels are of the scalar.
#[tactic(auto, unfolding(crate::specs::Images::sampled_name))]
fn sampled_name(
    alloc: Global,
    samples: &str,
    dim: &str,
    layers: &str,
    scalar: &str,
) -> Result<String, AllocError>
    ensures { IfOk result (λ text. string_bytes text ≡ sampled_name samples.now dim.now layers.now scalar.now) }
{
    format!(in alloc; "texture_{samples}{dim}{layers}<{scalar}>")
}

/// Returns the type of a texture of depths.
#[tactic(auto, unfolding(crate::specs::Images::depth_name))]
fn depth_name(alloc: Global, samples: &str, dim: &str, layers: &str) -> Result<String, AllocError>
    ensures { IfOk result (λ text. string_bytes text ≡ depth_name samples.now dim.now layers.now) }
{
    format!(in alloc; "texture_depth_{samples}{dim}{layers}")
}

/// Returns the type of a storage texture.
#[tactic(auto, unfolding(crate::specs::Images::storage_name))]
fn storage_name(
    alloc: Global,
    dim: &str,
    layers: &str,
    format: &str,
    access: &str,
) -> Result<String, AllocError>
    ensures { IfOk result (λ text. string_bytes text ≡ storage_name dim.now layers.now format.now access.now) }
{
    format!(in alloc; "texture_storage_{dim}{layers}<{format}, {access}>")
}

/// Returns the type of a texture (WGSL, "Texture Types").
pub fn image_text(
    alloc: Global,
    dim: ImageDimension,
    arrayed: bool,
    class: ImageClass,
) -> Result<String, AllocError>
    ensures { IfOk result (λ text. string_bytes text ≡ image_text dim arrayed class) }
{
    let dim = dimension_word(dim);
    let layers = layers_word(arrayed);
    match class {
        ImageClass::Sampled { kind, multi } => {
            let samples = samples_word(multi);
            let scalar = scalar_text(alloc, Scalar { kind, width: 4 })?;
            sampled_name(alloc, samples, dim, layers, scalar.as_str())
        }
        ImageClass::Depth { multi } => {
            let samples = samples_word(multi);
            depth_name(alloc, samples, dim, layers)
        }
        ImageClass::Storage { format, access } => {
            let format = format_word(format);
            let access = access_word(access);
            storage_name(alloc, dim, layers, format, access)
        }
        ImageClass::External => String::from_str(alloc, "texture_external"),
    }
}
