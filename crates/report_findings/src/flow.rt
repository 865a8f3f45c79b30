//! Diagnostics of violated needs of uniform control flow.
ghost use Rattle.std.specs.Prelude.{◌≡◌, IfOk};
ghost use Rattle.std.specs.Option.{option_map};
ghost use Rattle.report_places.specs.Sites.{place_of_body};
ghost use Rattle.report_findings.specs.Bodies.{IsOutlined};
ghost use Rattle.report_findings.specs.Flow.{IsFlowDiagnostic, flow_code, need_location, need_pointer};

use crate::bodies::OutlinedBody;
use crate::sites::{path_of, text_of};
use crate::words::need_message;
use report_diagnostics::{Code, Diagnostic, FlowCode, Location, Text};
use report_places::{
    BodyPlace, StatementAt, body_pointer, expression_pointer, name_at, statement_pointer,
};
use shader_arena::Handle;
use shader_ir::{Module, mark};
use shader_uniformity_needs::{Need, NeedKind, Violation};
use std::alloc::{AllocError, Global};

/// Returns the code of a need.
fn flow_code(kind: NeedKind) -> FlowCode
    ensures { result ≡ flow_code kind }
{
    match kind {
        NeedKind::Derivative => FlowCode::Derivative,
        NeedKind::ImplicitLevel => FlowCode::ImplicitLevel,
        NeedKind::Barrier => FlowCode::Barrier,
        NeedKind::MemoryBarrier => FlowCode::MemoryBarrier,
        NeedKind::UniformLoad => FlowCode::UniformLoad,
        NeedKind::CooperativeOperation => FlowCode::CooperativeOperation,
    }
}

/// Returns the pointer to the expression that has a need, or else to the statement.
fn need_pointer(
    alloc: Global,
    place: &BodyPlace,
    expression: Option<Handle<mark::Expression>>,
    found: &Option<StatementAt<'_>>,
) -> Result<Text, AllocError>
    ensures { IfOk result (λ text. text ≡ need_pointer place.now expression (option_map (λ at. at.path.steps) found.now)) }
{
    let text = match expression {
        Some(expression) => expression_pointer(alloc, place, expression.index())?,
        None => match found {
            Some(at) => statement_pointer(alloc, place, at.path.steps.as_slice())?,
            None => body_pointer(alloc, place)?,
        },
    };
    Ok(Text::from(text))
}

/// Returns the place of a need, whose statement was found.
fn need_location(
    alloc: Global,
    module: &Module,
    place: &BodyPlace,
    need: &Need,
    found: Option<StatementAt<'_>>,
) -> Result<Location, AllocError>
    ensures { IfOk result (λ location. location
        ≡ need_location «module».now place.now need.now (option_map (λ at. at.path.steps) found.entry)) }
{
    let name = text_of(name_at(alloc, module, place)?);
    let pointer = need_pointer(alloc, place, need.expression, &found)?;
    Ok(Location::within_module(
        Some(*place),
        name,
        path_of(found),
        need.expression,
        None,
        pointer,
    ))
}

/// Returns the diagnostic of a violated need of a body.
///
/// # Errors
///
/// `AllocError` if an allocation fails.
pub fn flow_diagnostic(
    alloc: Global,
    module: &Module,
    body: &OutlinedBody<'_>,
    violation: &Violation,
) -> Result<Diagnostic, AllocError>
    requires outlined { IsOutlined «module».now body.now }
    requires place { body.now.place ≡ place_of_body violation.now.place }
    ensures { IfOk result (IsFlowDiagnostic «module».now violation.now) }
{
    let place = &body.place;
    let need = &violation.need;
    let found = body.outline.get(alloc, need.position)?;
    let message = need_message(alloc, module, place, need, &found)?;
    let location = need_location(alloc, module, place, need, found)?;
    let code = Code::Flow(flow_code(need.kind));
    Ok(Diagnostic::error(alloc, code, message, location))
}
