//! Spells types as WGSL does.
ghost use Rattle.std.specs.Prelude.{◌≡◌, IfOk, string_bytes};
ghost use Rattle.std.specs.Option.{option_map};
ghost use Rattle.shader_report_resources.specs.Words.{arrayed_word, base_at, base_of, built_words, composed_words, cooperative_word};
ghost use Rattle.shader_report_resources.specs.Words.{count_words, dimension_word, image_words, multi_word, name_or_number, override_words};
ghost use Rattle.shader_report_resources.specs.Words.{plain_words, role_word, sampler_word, sized_words, told_words, vertex_return_word};
ghost use Rattle.shader_report_resources.specs.Words.{words, words_within};

use crate::formats::format_word;
use crate::spaces::{access_word, space_word};
use shader_arena::Handle;
use shader_ir::proc::vector_size_str;
use shader_ir::{
    ArraySize, CooperativeRole, CooperativeSize, ImageClass, ImageDimension, Module, Name, Scalar,
    TypeInner, VectorSize, mark,
};
use shader_type_text::ScalarText;
use std::alloc::{AllocError, Global};

/// The greatest number of nested levels of a type that are spelled. WGSL nests types at most 15 deep.
const MOST_LEVELS: usize = 16;

/// Returns the dimension of an image.
fn dimension_word(dim: ImageDimension) -> &'static str
    ensures { result.now ≡ dimension_word dim }
{
    match dim {
        ImageDimension::D1 => "1d",
        ImageDimension::D2 => "2d",
        ImageDimension::D3 => "3d",
        ImageDimension::Cube => "cube",
    }
}

/// Returns the suffix of an image that has layers.
fn arrayed_word(arrayed: bool) -> &'static str
    ensures { result.now ≡ arrayed_word arrayed }
{
    if arrayed { "_array" } else { "" }
}

/// Returns the prefix of an image that has several samples per texel.
fn multi_word(multi: bool) -> &'static str
    ensures { result.now ≡ multi_word multi }
{
    if multi { "multisampled_" } else { "" }
}

/// Returns the spelling of an image.
#[tactic(auto, unfolding(crate::specs::Words::image_words))]
fn image_words(
    alloc: Global,
    dim: ImageDimension,
    arrayed: bool,
    class: ImageClass,
) -> Result<String, AllocError>
    ensures { IfOk result (λ text. string_bytes text ≡ image_words dim arrayed class) }
{
    let (dim, arrayed) = (dimension_word(dim), arrayed_word(arrayed));
    match class {
        ImageClass::Sampled { kind, multi } => {
            let (multi, texel) = (multi_word(multi), ScalarText(Scalar { kind, width: 4 }));
            format!(in alloc; "texture_{multi}{dim}{arrayed}<{texel}>")
        }
        ImageClass::Depth { multi } => {
            let multi = multi_word(multi);
            format!(in alloc; "texture_depth_{multi}{dim}{arrayed}")
        }
        ImageClass::Storage { format, access } => {
            let (format, access) = (format_word(format), access_word(access));
            format!(in alloc; "texture_storage_{dim}{arrayed}<{format}, {access}>")
        }
        ImageClass::External => format!(in alloc; "texture_external"),
    }
}

/// Returns the number of a cooperative matrix's rows or columns.
fn cooperative_word(size: CooperativeSize) -> &'static str
    ensures { result.now ≡ cooperative_word size }
{
    match size {
        CooperativeSize::Eight => "8",
        CooperativeSize::Sixteen => "16",
    }
}

/// Returns the role of a cooperative matrix.
fn role_word(role: CooperativeRole) -> &'static str
    ensures { result.now ≡ role_word role }
{
    match role {
        CooperativeRole::A => "A",
        CooperativeRole::B => "B",
        CooperativeRole::C => "C",
    }
}

/// Returns the spelling of a scalar, or of a vector of it if there is a size.
fn sized_words(
    alloc: Global,
    size: Option<VectorSize>,
    scalar: Scalar,
) -> Result<String, AllocError>
    ensures { IfOk result (λ text. string_bytes text ≡ sized_words size scalar) }
{
    match size {
        Some(size) => { format!(in alloc; "vec{}<{}>", vector_size_str(size), ScalarText(scalar)) }
        None => format!(in alloc; "{}", ScalarText(scalar)),
    }
}

/// Returns the suffix of acceleration structures and ray queries that return the vertices of a hit.
fn vertex_return_word(vertex_return: bool) -> &'static str
    ensures { result.now ≡ vertex_return_word vertex_return }
{
    if vertex_return { "<vertex_return>" } else { "" }
}

/// Returns the spelling of a sampler.
fn sampler_word(comparison: bool) -> &'static str
    ensures { result.now ≡ sampler_word comparison }
{
    if comparison {
        "sampler_comparison"
    } else {
        "sampler"
    }
}

/// Returns a name, or the position of an item without one.
fn name_or_number(alloc: Global, name: Option<&Name>, position: usize) -> Result<String, AllocError>
    ensures { IfOk result (λ text. string_bytes text ≡ name_or_number (option_map (λ name. name.now) name.entry) position) }
{
    match name {
        Some(name) => format!(in alloc; "{}", name.as_str()),
        None => format!(in alloc; "#{position}"),
    }
}

/// Returns the name of an override, or its position.
fn override_words(
    alloc: Global,
    module: &Module,
    handle: Handle<mark::Override>,
) -> Result<String, AllocError>
    ensures { IfOk result (λ text. string_bytes text ≡ override_words «module».now handle) }
{
    let name = match module.overrides.try_get(handle) {
        Some(found) => found.name.as_ref(),
        None => None,
    };
    name_or_number(alloc, name, handle.index())
}

/// Returns the number of an array's elements after a comma, or an empty text if it isn't known before the shader runs.
fn count_words(alloc: Global, module: &Module, size: ArraySize) -> Result<String, AllocError>
    ensures { IfOk result (λ text. string_bytes text ≡ count_words «module».now size) }
{
    match size {
        ArraySize::Constant(count) => format!(in alloc; ", {}", count.get()),
        ArraySize::Pending(handle) => {
            let words = override_words(alloc, module, handle)?;
            format!(in alloc; ", {}", words.as_str())
        }
        ArraySize::Dynamic => Ok(String::new(alloc)),
    }
}

/// Returns the base type of a pointer, an array or a binding array.
fn base_of(inner: &TypeInner) -> Option<Handle<mark::Type>>
    ensures { result ≡ base_of inner.now }
{
    match inner {
        TypeInner::Pointer { base, .. } => Some(*base),
        TypeInner::Array { base, .. } => Some(*base),
        TypeInner::BindingArray { base, .. } => Some(*base),
        _ => None,
    }
}

/// Returns the spelling of a pointer or an array, given that of its base type.
fn composed_words(
    alloc: Global,
    module: &Module,
    base: &str,
    inner: &TypeInner,
) -> Result<String, AllocError>
    ensures { IfOk result (λ text. string_bytes text ≡ composed_words «module».now base.now inner.now) }
{
    match inner {
        TypeInner::Pointer { space, .. } => {
            let space = space_word(*space);
            format!(in alloc; "ptr<{space}, {base}>")
        }
        TypeInner::Array { size, .. } => {
            let count = count_words(alloc, module, *size)?;
            format!(in alloc; "array<{base}{}>", count.as_str())
        }
        TypeInner::BindingArray { size, .. } => {
            let count = count_words(alloc, module, *size)?;
            format!(in alloc; "binding_array<{base}{}>", count.as_str())
        }
        _ => Ok(String::new(alloc)),
    }
}

/// Returns the spelling of a type of one or more scalars.
fn plain_words(alloc: Global, inner: &TypeInner) -> Result<String, AllocError>
    ensures { IfOk result (λ text. string_bytes text ≡ plain_words inner.now) }
{
    match inner {
        TypeInner::Scalar(scalar) => sized_words(alloc, None, *scalar),
        TypeInner::Vector { size, scalar } => sized_words(alloc, Some(*size), *scalar),
        TypeInner::Matrix {
            columns,
            rows,
            scalar,
        } => {
            let (columns, rows) = (vector_size_str(*columns), vector_size_str(*rows));
            format!(in alloc; "mat{columns}x{rows}<{}>", ScalarText(*scalar))
        }
        TypeInner::CooperativeMatrix {
            columns,
            rows,
            scalar,
            role,
        } => {
            let (columns, rows) = (cooperative_word(*columns), cooperative_word(*rows));
            let (scalar, role) = (ScalarText(*scalar), role_word(*role));
            format!(in alloc; "coop_mat{columns}x{rows}<{scalar}, {role}>")
        }
        TypeInner::Atomic(scalar) => format!(in alloc; "atomic<{}>", ScalarText(*scalar)),
        TypeInner::ValuePointer {
            size,
            scalar,
            space,
        } => {
            let (space, pointee) = (space_word(*space), sized_words(alloc, *size, *scalar)?);
            format!(in alloc; "ptr<{space}, {}>", pointee.as_str())
        }
        _ => Ok(String::new(alloc)),
    }
}

/// Returns the spelling of the unnamed type at a position, given that of its base type.
fn built_words(
    alloc: Global,
    module: &Module,
    base: &str,
    position: usize,
    inner: &TypeInner,
) -> Result<String, AllocError>
    ensures { IfOk result (λ text. string_bytes text ≡ built_words «module».now base.now position inner.now) }
{
    match inner {
        TypeInner::Struct { .. } => format!(in alloc; "#{position}"),
        TypeInner::Pointer { .. } | TypeInner::Array { .. } | TypeInner::BindingArray { .. } => {
            composed_words(alloc, module, base, inner)
        }
        TypeInner::Image {
            dim,
            arrayed,
            class,
        } => image_words(alloc, *dim, *arrayed, *class),
        TypeInner::Sampler { comparison } => { format!(in alloc; "{}", sampler_word(*comparison)) }
        TypeInner::AccelerationStructure { vertex_return } => {
            let hit = vertex_return_word(*vertex_return);
            format!(in alloc; "acceleration_structure{hit}")
        }
        TypeInner::RayQuery { vertex_return } => {
            let hit = vertex_return_word(*vertex_return);
            format!(in alloc; "ray_query{hit}")
        }
        _ => plain_words(alloc, inner),
    }
}

/// Returns the name of a type, or its spelling if it has none, given that of its base type.
fn told_words(
    alloc: Global,
    module: &Module,
    base: &str,
    ty: Handle<mark::Type>,
) -> Result<String, AllocError>
    ensures { IfOk result (λ text. string_bytes text ≡ told_words «module».now base.now ty) }
{
    let position = ty.index();
    let Some(found) = module.types.try_get(ty) else {
        return format!(in alloc; "#{position}");
    };
    match &found.name {
        Some(name) => format!(in alloc; "{}", name.as_str()),
        None => built_words(alloc, module, base, position, &found.inner),
    }
}

/// Returns the base type of the type with this handle, if it has one.
fn base_at(module: &Module, ty: Handle<mark::Type>) -> Option<Handle<mark::Type>>
    ensures { result ≡ base_at «module».now ty }
{
    match module.types.try_get(ty) {
        Some(found) => base_of(&found.inner),
        None => None,
    }
}

/// Returns the spelling of a type up to `levels` deep. A base type below that is printed as its position.
fn words_within(
    alloc: Global,
    module: &Module,
    levels: usize,
    ty: Handle<mark::Type>,
) -> Result<String, AllocError>
    ensures { IfOk result (λ text. string_bytes text ≡ words_within «module».now levels ty) }
{
    if levels == 0 {
        return format!(in alloc; "#{}", ty.index());
    }
    match base_at(module, ty) {
        Some(base) => {
            let words = words_within(alloc, module, levels - 1, base)?;
            told_words(alloc, module, words.as_str(), ty)
        }
        None => told_words(alloc, module, "", ty),
    }
}

/// Returns the name of a type, or its spelling if it has none, up to 16 levels deep.
///
/// # Errors
///
/// `AllocError` if an allocation fails.
pub(crate) fn words(
    alloc: Global,
    module: &Module,
    ty: Handle<mark::Type>,
) -> Result<String, AllocError>
    ensures { IfOk result (λ text. string_bytes text ≡ words «module».now ty) }
{
    words_within(alloc, module, MOST_LEVELS, ty)
}
