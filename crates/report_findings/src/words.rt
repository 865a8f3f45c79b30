//! The built-in functions of WGSL that need uniform control flow, and what is said of them.

use report_diagnostics::{Label, Text};
use report_places::{BodyPlace, StatementAt, expression_at};
use shader_arena::Handle;
use shader_ir::{
    Barrier, DerivativeAxis, DerivativeControl, Expression, Module, SampleLevel, Statement, mark,
};
use shader_uniformity::Fact;
use shader_uniformity_needs::{Need, NeedKind};
use std::alloc::{AllocError, Global};

/// Returns the name of a derivative.
fn derivative_word(axis: DerivativeAxis, control: DerivativeControl) -> &'static str {
    match (axis, control) {
        (DerivativeAxis::X, DerivativeControl::Coarse) => "dpdxCoarse",
        (DerivativeAxis::X, DerivativeControl::Fine) => "dpdxFine",
        (DerivativeAxis::X, DerivativeControl::None) => "dpdx",
        (DerivativeAxis::Y, DerivativeControl::Coarse) => "dpdyCoarse",
        (DerivativeAxis::Y, DerivativeControl::Fine) => "dpdyFine",
        (DerivativeAxis::Y, DerivativeControl::None) => "dpdy",
        (DerivativeAxis::Width, DerivativeControl::Coarse) => "fwidthCoarse",
        (DerivativeAxis::Width, DerivativeControl::Fine) => "fwidthFine",
        (DerivativeAxis::Width, DerivativeControl::None) => "fwidth",
    }
}

/// Returns the name of a sample whose level is computed from neighbouring invocations.
fn sample_word(level: &SampleLevel, compares: bool) -> &'static str {
    match level {
        SampleLevel::Bias(_) => "textureSampleBias",
        _ => {
            if compares {
                "textureSampleCompare"
            } else {
                "textureSample"
            }
        }
    }
}

/// Returns the name of the load of a cooperative matrix.
fn load_word(by_rows: bool) -> &'static str {
    if by_rows { "coopLoadT" } else { "coopLoad" }
}

/// Returns the name of what makes an expression, if the expression needs uniform control flow.
fn expression_word(expression: &Expression) -> Option<&'static str> {
    match expression {
        Expression::Derivative { axis, ctrl, .. } => Some(derivative_word(*axis, *ctrl)),
        Expression::ImageSample {
            level,
            depth_ref,
            ..
        } => Some(sample_word(level, depth_ref.is_some())),
        Expression::CooperativeLoad { tile, .. } => Some(load_word(tile.row_major)),
        Expression::CooperativeMultiplyAdd { .. } => Some("coopMultiplyAdd"),
        _ => None,
    }
}

/// Returns the name of a control barrier. WGSL has one for each kind of memory.
fn barrier_word(barrier: Barrier) -> &'static str {
    if barrier.0 == Barrier::STORAGE.0 {
        "storageBarrier"
    } else if barrier.0 == Barrier::WORK_GROUP.0 {
        "workgroupBarrier"
    } else if barrier.0 == Barrier::SUB_GROUP.0 {
        "subgroupBarrier"
    } else if barrier.0 == Barrier::TEXTURE.0 {
        "textureBarrier"
    } else {
        "controlBarrier"
    }
}

/// Returns the name of a statement that needs uniform control flow.
fn statement_word(statement: &Statement) -> Option<&'static str> {
    match statement {
        Statement::ControlBarrier(barrier) => Some(barrier_word(*barrier)),
        Statement::MemoryBarrier(_) => Some("memoryBarrier"),
        Statement::WorkGroupUniformLoad { .. } => Some("workgroupUniformLoad"),
        Statement::CooperativeStore { .. } => Some("coopStore"),
        _ => None,
    }
}

/// Returns the name of the kind of a need, where its expression or statement isn't found.
fn kind_word(kind: NeedKind) -> &'static str {
    match kind {
        NeedKind::Derivative => "dpdx",
        NeedKind::ImplicitLevel => "textureSample",
        NeedKind::Barrier => "controlBarrier",
        NeedKind::MemoryBarrier => "memoryBarrier",
        NeedKind::UniformLoad => "workgroupUniformLoad",
        NeedKind::CooperativeOperation => "coopStore",
    }
}

/// Returns the name of what has a need.
fn need_word(
    module: &Module,
    place: &BodyPlace,
    need: &Need,
    found: &Option<StatementAt<'_>>,
) -> &'static str {
    let word = match need.expression {
        Some(handle) => match expression_at(module, place, handle) {
            Some(expression) => expression_word(expression),
            None => None,
        },
        None => match found {
            Some(at) => statement_word(at.statement),
            None => None,
        },
    };
    match word {
        Some(word) => word,
        None => kind_word(need.kind),
    }
}

/// Returns the sentence of a violated need.
pub fn need_message(
    alloc: Global,
    module: &Module,
    place: &BodyPlace,
    need: &Need,
    found: &Option<StatementAt<'_>>,
) -> Result<Text, AllocError> {
    let word = need_word(module, place, need, found);
    let text = match need.violated_by {
        Fact::Differs(_) => {
            format!(in alloc;
                "`{word}` needs one pointer, but invocations may pass different ones"
            )?
        }
        _ => {
            format!(in alloc;
                "`{word}` needs uniform control flow, but some invocations may not reach it"
            )?
        }
    };
    Ok(Text::from(text))
}

/// Returns what is said of the place of a violated need, if its kind alone doesn't tell that.
pub fn need_label(alloc: Global, need: &Need) -> Result<Option<Label>, AllocError> {
    match need.violated_by {
        Fact::Differs(_) => {
            let words = "needs the same pointer in all invocations of the workgroup";
            Ok(Some(Label {
                operand: None,
                words: Text::from(String::from_str(alloc, words)?),
            }))
        }
        _ => Ok(None),
    }
}

/// Returns the sentence of an expression that naga's rules refuse.
pub fn naga_message(
    alloc: Global,
    module: &Module,
    place: &BodyPlace,
    handle: Handle<mark::Expression>,
) -> Result<String, AllocError> {
    let word = match expression_at(module, place, handle) {
        Some(expression) => expression_word(expression),
        None => None,
    };
    let word = match word {
        Some(word) => word,
        None => "a built-in function",
    };
    format!(in alloc; "`{word}` needs uniform control flow, which naga's rules don't find here")
}
