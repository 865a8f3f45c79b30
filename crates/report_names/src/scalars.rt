//! Scalars, vectors and matrices as WGSL spells them.
ghost use Rattle.std.specs.Prelude.{◌≡◌, IfOk, string_bytes};
ghost use Rattle.report_names.specs.Scalars.{cooperative_name, cooperative_text, edge_word, matrix_text, role_word};
ghost use Rattle.report_names.specs.Scalars.{scalar_text, size_word, vector_text, vector_word};

use shader_ir::{CooperativeRole, CooperativeSize, Scalar, ScalarKind, VectorSize};
use std::alloc::{AllocError, Global};

/// Returns the name of a scalar type: a letter and the bits, or the name of its kind.
pub fn scalar_text(alloc: Global, scalar: Scalar) -> Result<String, AllocError>
    ensures { IfOk result (λ text. string_bytes text ≡ scalar_text scalar) }
{
    let bits = 8 * scalar.width as u16;
    match scalar.kind {
        ScalarKind::Sint => format!(in alloc; "i{bits}"),
        ScalarKind::Uint => format!(in alloc; "u{bits}"),
        ScalarKind::Float => format!(in alloc; "f{bits}"),
        ScalarKind::Bool => String::from_str(alloc, "bool"),
        ScalarKind::AbstractInt => String::from_str(alloc, "AbstractInt"),
        ScalarKind::AbstractFloat => String::from_str(alloc, "AbstractFloat"),
    }
}

/// Returns the digit of a size.
fn size_word(size: VectorSize) -> &'static str
    ensures { result.now ≡ size_word size }
{
    match size {
        VectorSize::Bi => "2",
        VectorSize::Tri => "3",
        VectorSize::Quad => "4",
    }
}

/// Returns the name of a vector type without its scalar, as `vec3`.
pub fn vector_word(size: VectorSize) -> &'static str
    ensures { result.now ≡ vector_word size }
{
    match size {
        VectorSize::Bi => "vec2",
        VectorSize::Tri => "vec3",
        VectorSize::Quad => "vec4",
    }
}

/// Returns the name of a vector type.
pub fn vector_text(alloc: Global, size: VectorSize, scalar: Scalar) -> Result<String, AllocError>
    ensures { IfOk result (λ text. string_bytes text ≡ vector_text size scalar) }
{
    let word = vector_word(size);
    let scalar = scalar_text(alloc, scalar)?;
    format!(in alloc; "{word}<{scalar}>")
}

/// Returns the name of a matrix type.
pub fn matrix_text(
    alloc: Global,
    columns: VectorSize,
    rows: VectorSize,
    scalar: Scalar,
) -> Result<String, AllocError>
    ensures { IfOk result (λ text. string_bytes text ≡ matrix_text columns rows scalar) }
{
    let columns = size_word(columns);
    let rows = size_word(rows);
    let scalar = scalar_text(alloc, scalar)?;
    format!(in alloc; "mat{columns}x{rows}<{scalar}>")
}

/// Returns the number of rows or columns of a cooperative matrix.
fn edge_word(size: CooperativeSize) -> &'static str
    ensures { result.now ≡ edge_word size }
{
    match size {
        CooperativeSize::Eight => "8",
        CooperativeSize::Sixteen => "16",
    }
}

/// Returns the role of a cooperative matrix.
fn role_word(role: CooperativeRole) -> &'static str
    ensures { result.now ≡ role_word role }
{
    match role {
        CooperativeRole::A => "A",
        CooperativeRole::B => "B",
        CooperativeRole::C => "C",
    }
}

/// Returns the name of the type of a cooperative matrix whose parts are spelled so.
#[tactic(auto, unfolding(crate::specs::Scalars::cooperative_name))]
fn cooperative_name(
    alloc: Global,
    columns: &str,
    rows: &str,
    scalar: &str,
    role: &str,
) -> Result<String, AllocError>
    ensures { IfOk result (λ text. string_bytes text ≡ cooperative_name columns.now rows.now scalar.now role.now) }
{
    format!(in alloc; "coop_mat{columns}x{rows}<{scalar}, {role}>")
}

/// Returns the name of the type of a cooperative matrix, by naga's extension of WGSL.
pub fn cooperative_text(
    alloc: Global,
    columns: CooperativeSize,
    rows: CooperativeSize,
    scalar: Scalar,
    role: CooperativeRole,
) -> Result<String, AllocError>
    ensures { IfOk result (λ text. string_bytes text ≡ cooperative_text columns rows scalar role) }
{
    let columns = edge_word(columns);
    let rows = edge_word(rows);
    let role = role_word(role);
    let scalar = scalar_text(alloc, scalar)?;
    cooperative_name(alloc, columns, rows, scalar.as_str(), role)
}
