//! The functions that expressions and statements call.
ghost use Rattle.std.specs.Prelude.{ℕ, Option, Some};
ghost use Rattle.shader_ir.specs.declared.expression.Expression.{Expression};
ghost use Rattle.report_expressions.specs.Pieces.{IsWordOf};

use crate::line::Source;
use crate::pieces::{Word, number_of};
use crate::references::vector_size;
use report_names::{
    atomic_word, derivative_word, gather_word, image_atomic_word, math_word, relational_word,
    vector_word,
};
use shader_ir::{Expression, ImageQuery, RayQueryFunction, SampleLevel, Scalar, Statement};

/// Returns the name of a sample by its level (WGSL, "Texture Built-in Functions").
fn sample_word(level: SampleLevel, clamp_to_edge: bool) -> &'static str {
    match level {
        SampleLevel::Auto => "textureSample",
        SampleLevel::Zero => {
            if clamp_to_edge {
                "textureSampleBaseClampToEdge"
            } else {
                "textureSampleLevel"
            }
        }
        SampleLevel::Exact(_) => "textureSampleLevel",
        SampleLevel::Bias(_) => "textureSampleBias",
        SampleLevel::Gradient { .. } => "textureSampleGrad",
    }
}

/// Returns the name of a sample that is compared with a depth.
fn compared_word(level: SampleLevel) -> &'static str {
    match level {
        SampleLevel::Zero => "textureSampleCompareLevel",
        _ => "textureSampleCompare",
    }
}

/// Returns the name of a function that reads texels, or of a query of a texture.
fn texture_word(expression: &Expression) -> &'static str {
    match expression {
        Expression::ImageSample {
            gather,
            clamp_to_edge,
            level,
            depth_ref,
            ..
        } => match (gather.is_some(), depth_ref.is_some()) {
            (true, true) => "textureGatherCompare",
            (true, false) => "textureGather",
            (false, true) => compared_word(*level),
            (false, false) => sample_word(*level, *clamp_to_edge),
        },
        Expression::ImageQuery { query, .. } => match query {
            ImageQuery::Size { .. } => "textureDimensions",
            ImageQuery::NumLevels => "textureNumLevels",
            ImageQuery::NumLayers => "textureNumLayers",
            ImageQuery::NumSamples => "textureNumSamples",
        },
        _ => "textureLoad",
    }
}

/// Returns the name of a function of ray queries or cooperative matrices, by naga's extension of WGSL.
fn extension_word(expression: &Expression) -> &'static str {
    match expression {
        Expression::RayQueryVertexPositions {
            committed: true,
            ..
        } => "getCommittedHitVertexPositions",
        Expression::RayQueryVertexPositions {
            committed: false,
            ..
        } => "getCandidateHitVertexPositions",
        Expression::RayQueryGetIntersection {
            committed: true,
            ..
        } => "rayQueryGetCommittedIntersection",
        Expression::RayQueryGetIntersection {
            committed: false,
            ..
        } => "rayQueryGetCandidateIntersection",
        Expression::CooperativeMultiplyAdd { .. } => "coopMultiplyAdd",
        _ => "...",
    }
}

/// Returns the name of a function by the expression's form alone.
fn fixed_word(expression: &Expression) -> &'static str {
    match expression {
        Expression::ImageSample { .. }
        | Expression::ImageLoad { .. }
        | Expression::ImageQuery { .. } => texture_word(expression),
        Expression::Splat { size, .. } => vector_word(*size),
        Expression::Select { .. } => "select",
        Expression::Derivative { axis, ctrl, .. } => derivative_word(*axis, *ctrl),
        Expression::Relational { fun, .. } => relational_word(*fun),
        Expression::Math { fun, .. } => math_word(*fun),
        Expression::ArrayLength(_) => "arrayLength",
        other => extension_word(other),
    }
}

/// Returns the name of the function that an expression calls. That of a conversion is its type: a vector, if the operand is one by its
/// form.
pub fn callee_word(source: &Source, e: u32, expression: &Expression) -> Word
    ensures { IsWordOf e (Some expression.now) result }
{
    match expression {
        Expression::Compose { ty, .. } => Word::Type(number_of(*ty)),
        Expression::As {
            kind,
            convert: None,
            ..
        } => Word::Bitcast(Scalar {
            kind: *kind,
            width: 4,
        }),
        Expression::As {
            kind,
            convert: Some(width),
            ..
        } => {
            let scalar = Scalar {
                kind: *kind,
                width: *width,
            };
            match vector_size(source, expression) {
                Some(size) => Word::Vector(size, scalar),
                None => Word::Scalar(scalar),
            }
        }
        Expression::CooperativeLoad {
            columns,
            rows,
            role,
            tile,
        } => Word::CooperativeLoad(*columns, *rows, *role, tile.row_major),
        other => Word::Fixed(fixed_word(other)),
    }
}

/// Returns the name of the function that a statement with a result calls, other than one of the module.
pub fn maker_word(statement: &Statement) -> Word
    ensures { (e : ℕ) (x : Option Expression) → IsWordOf e x result }
{
    match statement {
        Statement::Atomic { fun, .. } => Word::Fixed(atomic_word(*fun)),
        Statement::WorkGroupUniformLoad { .. } => Word::Fixed("workgroupUniformLoad"),
        Statement::SubgroupBallot { .. } => Word::Fixed("subgroupBallot"),
        Statement::SubgroupGather { mode, .. } => Word::Fixed(gather_word(*mode)),
        Statement::SubgroupCollectiveOperation {
            op,
            collective_op,
            ..
        } => Word::Collective(*op, *collective_op),
        Statement::RayQuery { fun, .. } => Word::Fixed(query_word(*fun)),
        other => Word::Fixed(effect_word(other)),
    }
}

/// Returns the name of a step of a ray query, by naga's extension of WGSL.
fn query_word(fun: RayQueryFunction) -> &'static str {
    match fun {
        RayQueryFunction::Initialize { .. } => "rayQueryInitialize",
        RayQueryFunction::Proceed { .. } => "rayQueryProceed",
        RayQueryFunction::GenerateIntersection { .. } => "rayQueryGenerateIntersection",
        RayQueryFunction::ConfirmIntersection => "rayQueryConfirmIntersection",
        RayQueryFunction::Terminate => "rayQueryTerminate",
    }
}

/// Returns the name of the function that a statement without a result calls.
fn effect_word(statement: &Statement) -> &'static str {
    match statement {
        Statement::ImageStore { .. } => "textureStore",
        Statement::ImageAtomic { fun, .. } => image_atomic_word(*fun),
        Statement::RayPipelineFunction(_) => "traceRay",
        Statement::CooperativeStore { tile, .. } => {
            if tile.row_major {
                "coopStoreT"
            } else {
                "coopStore"
            }
        }
        _ => "...",
    }
}
