//! The contents of images and their extents.
ghost use Rattle.std.specs.Prelude.{◌≡◌};
ghost use Rattle.shader_resolve.specs.Images.{extent_type, format_scalar, gather_type, sample_type};
ghost use Rattle.shader_resolve.specs.Outcome.{ForNothing, Meets};

use super::Resolved;
use super::values::{scalar_type, vector_type};
use crate::ResolveError;
use shader_arena::Handle;
use shader_ir::{
    ImageClass, ImageDimension, Scalar, ScalarKind, StorageFormat, TypeInner, VectorSize, mark,
};

/// Returns the type of the gathered components of four texels.
pub fn gather(image: Handle<mark::Expression>, inner: &TypeInner) -> Resolved
    ensures { Meets ForNothing result (gather_type image inner.now) }
{
    let TypeInner::Image { class, .. } = inner else {
        return Err(ResolveError::InvalidImage(image));
    };
    let kind = match class {
        ImageClass::Sampled { kind, .. } => *kind,
        _ => ScalarKind::Float,
    };
    Ok(vector_type(VectorSize::Quad, Scalar { kind, width: 4 }))
}

/// Returns the scalar of a format's texels.
fn scalar_of_format(format: StorageFormat) -> Scalar
    ensures { result ≡ format_scalar format }
{
    match format {
        StorageFormat::R8Uint
        | StorageFormat::Rg8Uint
        | StorageFormat::Rgba8Uint
        | StorageFormat::R16Uint
        | StorageFormat::Rg16Uint
        | StorageFormat::Rgba16Uint
        | StorageFormat::R32Uint
        | StorageFormat::Rg32Uint
        | StorageFormat::Rgba32Uint
        | StorageFormat::Rgb10a2Uint => Scalar::U32,
        StorageFormat::R64Uint => Scalar::U64,
        StorageFormat::R8Sint
        | StorageFormat::Rg8Sint
        | StorageFormat::Rgba8Sint
        | StorageFormat::R16Sint
        | StorageFormat::Rg16Sint
        | StorageFormat::Rgba16Sint
        | StorageFormat::R32Sint
        | StorageFormat::Rg32Sint
        | StorageFormat::Rgba32Sint => Scalar::I32,
        _ => Scalar::F32,
    }
}

/// Returns the type of a texel.
pub fn sample(image: Handle<mark::Expression>, inner: &TypeInner) -> Resolved
    ensures { Meets ForNothing result (sample_type image inner.now) }
{
    let TypeInner::Image { class, .. } = inner else {
        return Err(ResolveError::InvalidImage(image));
    };
    Ok(match class {
        ImageClass::Depth { .. } => scalar_type(Scalar::F32),
        ImageClass::Sampled { kind, .. } => vector_type(
            VectorSize::Quad,
            Scalar {
                kind: *kind,
                width: 4,
            },
        ),
        ImageClass::Storage { format, .. } => {
            vector_type(VectorSize::Quad, scalar_of_format(*format))
        }
        ImageClass::External => vector_type(VectorSize::Quad, Scalar::F32),
    })
}

/// Returns the type of an image's extent.
pub fn image_extent(image: Handle<mark::Expression>, inner: &TypeInner) -> Resolved
    ensures { Meets ForNothing result (extent_type image inner.now) }
{
    let TypeInner::Image { dim, .. } = inner else {
        return Err(ResolveError::InvalidImage(image));
    };
    Ok(match dim {
        ImageDimension::D1 => scalar_type(Scalar::U32),
        ImageDimension::D2 | ImageDimension::Cube => vector_type(VectorSize::Bi, Scalar::U32),
        ImageDimension::D3 => vector_type(VectorSize::Tri, Scalar::U32),
    })
}
