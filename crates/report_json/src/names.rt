//! The names of variants as JSON.
ghost use Rattle.std.specs.Prelude.{◌≡◌};
ghost use Rattle.report_json.specs.Names.{cooperative_name, dimension_name, format_name, kind_name, role_name, size_name};
ghost use Rattle.report_json.specs.Names.{wide_format_name};
ghost use Rattle.report_json.specs.Tokens.{text_tokens};

use crate::write_json::WriteJson;
use json::Writer;
use shader_ir::{
    CooperativeRole, CooperativeSize, ImageDimension, ScalarKind, StorageFormat, VectorSize,
};
use std::alloc::{AllocError, Global};

/// Returns the name of a scalar kind.
fn kind_name(value: ScalarKind) -> &'static str
    ensures { result.now ≡ kind_name value }
{
    match value {
        ScalarKind::Sint => "Sint",
        ScalarKind::Uint => "Uint",
        ScalarKind::Float => "Float",
        ScalarKind::Bool => "Bool",
        ScalarKind::AbstractInt => "AbstractInt",
        ScalarKind::AbstractFloat => "AbstractFloat",
    }
}

/// Returns the name of a vector size.
fn size_name(value: VectorSize) -> &'static str
    ensures { result.now ≡ size_name value }
{
    match value {
        VectorSize::Bi => "Bi",
        VectorSize::Tri => "Tri",
        VectorSize::Quad => "Quad",
    }
}

/// Returns the name of a size of cooperative matrices.
fn cooperative_name(value: CooperativeSize) -> &'static str
    ensures { result.now ≡ cooperative_name value }
{
    match value {
        CooperativeSize::Eight => "Eight",
        CooperativeSize::Sixteen => "Sixteen",
    }
}

/// Returns the name of a role of a cooperative matrix.
fn role_name(value: CooperativeRole) -> &'static str
    ensures { result.now ≡ role_name value }
{
    match value {
        CooperativeRole::A => "A",
        CooperativeRole::B => "B",
        CooperativeRole::C => "C",
    }
}

/// Returns the name of an image dimension.
fn dimension_name(value: ImageDimension) -> &'static str
    ensures { result.now ≡ dimension_name value }
{
    match value {
        ImageDimension::D1 => "D1",
        ImageDimension::D2 => "D2",
        ImageDimension::D3 => "D3",
        ImageDimension::Cube => "Cube",
    }
}

/// Returns the name of a storage format.
fn format_name(value: StorageFormat) -> &'static str
    ensures { result.now ≡ format_name value }
{
    match value {
        StorageFormat::R8Unorm => "R8Unorm",
        StorageFormat::R8Snorm => "R8Snorm",
        StorageFormat::R8Uint => "R8Uint",
        StorageFormat::R8Sint => "R8Sint",
        StorageFormat::R16Unorm => "R16Unorm",
        StorageFormat::R16Snorm => "R16Snorm",
        StorageFormat::R16Uint => "R16Uint",
        StorageFormat::R16Sint => "R16Sint",
        StorageFormat::R16Float => "R16Float",
        StorageFormat::R32Uint => "R32Uint",
        StorageFormat::R32Sint => "R32Sint",
        StorageFormat::R32Float => "R32Float",
        StorageFormat::R64Uint => "R64Uint",
        _ => wide_format_name(value),
    }
}

/// Returns the name of a storage format with more than one channel.
fn wide_format_name(value: StorageFormat) -> &'static str
    ensures { result.now ≡ wide_format_name value }
{
    match value {
        StorageFormat::Rg8Unorm => "Rg8Unorm",
        StorageFormat::Rg8Snorm => "Rg8Snorm",
        StorageFormat::Rg8Uint => "Rg8Uint",
        StorageFormat::Rg8Sint => "Rg8Sint",
        StorageFormat::Rgba8Unorm => "Rgba8Unorm",
        StorageFormat::Rgba8Snorm => "Rgba8Snorm",
        StorageFormat::Rgba8Uint => "Rgba8Uint",
        StorageFormat::Rgba8Sint => "Rgba8Sint",
        StorageFormat::Rg16Unorm => "Rg16Unorm",
        StorageFormat::Rg16Snorm => "Rg16Snorm",
        StorageFormat::Rg16Uint => "Rg16Uint",
        StorageFormat::Rg16Sint => "Rg16Sint",
        StorageFormat::Rg16Float => "Rg16Float",
        StorageFormat::Rgba16Unorm => "Rgba16Unorm",
        StorageFormat::Rgba16Snorm => "Rgba16Snorm",
        StorageFormat::Rgba16Uint => "Rgba16Uint",
        StorageFormat::Rgba16Sint => "Rgba16Sint",
        StorageFormat::Rgba16Float => "Rgba16Float",
        StorageFormat::Rg32Uint => "Rg32Uint",
        StorageFormat::Rg32Sint => "Rg32Sint",
        StorageFormat::Rg32Float => "Rg32Float",
        StorageFormat::Rgba32Uint => "Rgba32Uint",
        StorageFormat::Rgba32Sint => "Rgba32Sint",
        StorageFormat::Rgba32Float => "Rgba32Float",
        StorageFormat::Bgra8Unorm => "Bgra8Unorm",
        StorageFormat::Rgb10a2Uint => "Rgb10a2Uint",
        StorageFormat::Rgb10a2Unorm => "Rgb10a2Unorm",
        StorageFormat::Rg11b10Ufloat => "Rg11b10Ufloat",
        _ => "",
    }
}

impl WriteJson for ScalarKind {
    ghost tokens = { λ value. text_tokens (kind_name value) };

    fn write_json(&self, _alloc: Global, writer: &mut Writer) -> Result<(), AllocError> {
        writer.string(kind_name(*self))
    }
}

impl WriteJson for VectorSize {
    ghost tokens = { λ value. text_tokens (size_name value) };

    fn write_json(&self, _alloc: Global, writer: &mut Writer) -> Result<(), AllocError> {
        writer.string(size_name(*self))
    }
}

impl WriteJson for CooperativeSize {
    ghost tokens = { λ value. text_tokens (cooperative_name value) };

    fn write_json(&self, _alloc: Global, writer: &mut Writer) -> Result<(), AllocError> {
        writer.string(cooperative_name(*self))
    }
}

impl WriteJson for CooperativeRole {
    ghost tokens = { λ value. text_tokens (role_name value) };

    fn write_json(&self, _alloc: Global, writer: &mut Writer) -> Result<(), AllocError> {
        writer.string(role_name(*self))
    }
}

impl WriteJson for ImageDimension {
    ghost tokens = { λ value. text_tokens (dimension_name value) };

    fn write_json(&self, _alloc: Global, writer: &mut Writer) -> Result<(), AllocError> {
        writer.string(dimension_name(*self))
    }
}

impl WriteJson for StorageFormat {
    ghost tokens = { λ value. text_tokens (format_name value) };

    fn write_json(&self, _alloc: Global, writer: &mut Writer) -> Result<(), AllocError> {
        writer.string(format_name(*self))
    }
}
