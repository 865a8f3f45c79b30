//! Vectors and matrices without their scalar.

ghost use Rattle.std.specs.Prelude.{◌≡◌};
ghost use Rattle.shader_type_text.specs.Types.{shape_of_word};

use shader_ir::VectorSize;

/// The size of a vector, or the columns and rows of a matrix.
#[derive(Clone, Copy, Debug, PartialEq, Eq)]
pub enum Shape {
    /// A vector of this size.
    Vector(VectorSize),
    /// A matrix with these columns and rows.
    Matrix(VectorSize, VectorSize),
}

/// Returns the shape with this name, as `vec3` or `mat4x2`.
pub fn shape_from_word(word: &[u8]) -> Option<Shape>
    ensures { result ≡ shape_of_word word.now }
{
    match word {
        b"vec2" => Some(Shape::Vector(VectorSize::Bi)),
        b"vec3" => Some(Shape::Vector(VectorSize::Tri)),
        b"vec4" => Some(Shape::Vector(VectorSize::Quad)),
        b"mat2x2" => Some(Shape::Matrix(VectorSize::Bi, VectorSize::Bi)),
        b"mat2x3" => Some(Shape::Matrix(VectorSize::Bi, VectorSize::Tri)),
        b"mat2x4" => Some(Shape::Matrix(VectorSize::Bi, VectorSize::Quad)),
        b"mat3x2" => Some(Shape::Matrix(VectorSize::Tri, VectorSize::Bi)),
        b"mat3x3" => Some(Shape::Matrix(VectorSize::Tri, VectorSize::Tri)),
        b"mat3x4" => Some(Shape::Matrix(VectorSize::Tri, VectorSize::Quad)),
        b"mat4x2" => Some(Shape::Matrix(VectorSize::Quad, VectorSize::Bi)),
        b"mat4x3" => Some(Shape::Matrix(VectorSize::Quad, VectorSize::Tri)),
        b"mat4x4" => Some(Shape::Matrix(VectorSize::Quad, VectorSize::Quad)),
        _ => None,
    }
}
