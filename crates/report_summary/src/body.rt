//! What one body does: its calls, whether it discards, and its needs of uniform control flow.

use crate::counts::NeedCounts;
use report_places::{function_of, place_of_body};
use shader_arena::{Handle, Range};
use shader_ir::{
    Block, DiagnosticRule, Expression, Function, Module, SampleLevel, Severity, Statement, mark,
};
use shader_uniformity::{BodyLocation, Fact};
use shader_uniformity_needs::{NeedKind, demands_at};
use std::alloc::{AllocError, Global};

/// What a body does, without the functions that it calls.
#[derive(Drop)]
pub struct Body {
    /// The functions that it calls, by their numbers.
    pub callees: Vec<usize>,
    /// True if it has a `discard`.
    pub discards: bool,
    /// Its needs of uniform control flow, those that a filter exempts left out.
    pub needs: NeedCounts,
    /// Its derivatives and its samples with an implicit level.
    pub filtered: NeedCounts,
    /// The severity that filters give to derivatives and samples outside of uniform control flow.
    pub severity: Severity,
}

/// Returns the severity of derivatives and samples outside of uniform control flow, by the filters from `leaf` outwards (WGSL, "Diagnostic
/// Filtering").
fn severity_of(module: &Module, leaf: Option<Handle<mark::DiagnosticFilterNode>>) -> Severity {
    let filters = &module.diagnostic_filters;
    let mut next = leaf;
    for (_, _step) in filters.iter() {
        let filter = match next {
            Some(handle) => match filters.try_get(handle) {
                Some(filter) => *filter,
                None => return Severity::Error,
            },
            None => return Severity::Error,
        };
        match filter.rule {
            DiagnosticRule::DerivativeUniformity => return filter.severity,
            DiagnosticRule::Other => next = filter.parent,
        }
    }
    Severity::Error
}

/// Returns why an expression needs uniform control flow, if it does and filters may exempt it.
fn filtered_kind(expression: &Expression) -> Option<NeedKind> {
    match expression {
        Expression::Derivative { .. } => Some(NeedKind::Derivative),
        Expression::ImageSample {
            level: SampleLevel::Auto | SampleLevel::Bias(_),
            ..
        } => Some(NeedKind::ImplicitLevel),
        _ => None,
    }
}

/// Adds the derivatives and samples that an `Emit` evaluates.
fn add_emitted(body: &mut Body, function: &Function, range: &Range<mark::Expression>) {
    for handle in range.iter() {
        if let Some(expression) = function.expressions.try_get(handle) {
            if let Some(kind) = filtered_kind(expression) {
                body.filtered.add(kind);
            }
        }
    }
}

/// Adds what the statements of a block do.
#[cycle(walk)]
fn add_block(body: &mut Body, function: &Function, block: &Block) -> Result<(), AllocError> {
    for statement in &block.statements {
        add_statement(body, function, statement)?;
    }
    Ok(())
}

/// Adds what a statement does.
#[cycle(walk)]
fn add_statement(
    body: &mut Body,
    function: &Function,
    statement: &Statement,
) -> Result<(), AllocError> {
    match statement {
        Statement::Block(inner) => {
            add_block(body, function, inner)?;
        }
        Statement::If { accept, reject, .. } => {
            add_block(body, function, accept)?;
            add_block(body, function, reject)?;
        }
        Statement::Switch { cases, .. } => {
            for case in cases {
                add_block(body, function, &case.body)?;
            }
        }
        Statement::Loop {
            body: rounds,
            continuing,
            ..
        } => {
            add_block(body, function, rounds)?;
            add_block(body, function, continuing)?;
        }
        Statement::Emit(range) => {
            add_emitted(body, function, range);
        }
        Statement::Call {
            function: callee,
            ..
        } => {
            body.callees.push(callee.index())?;
        }
        Statement::Kill => {
            body.discards = true;
        }
        _ => {}
    }
    Ok(())
}

/// Counts the needs of the body at a place. A uniform load has two needs, of which one counts.
fn needs_at(alloc: Global, module: &Module, place: BodyLocation) -> Result<NeedCounts, AllocError> {
    let demands = demands_at(alloc, module, place)?;
    let mut needs = NeedCounts::none();
    for need in &demands.needs {
        if let Fact::Apart(_) = need.violated_by {
            needs.add(need.kind);
        }
    }
    Ok(needs)
}

/// Returns what the body at a place does.
pub fn body_at(alloc: Global, module: &Module, place: BodyLocation) -> Result<Body, AllocError> {
    let mut body = Body {
        callees: Vec::new(alloc),
        discards: false,
        needs: needs_at(alloc, module, place)?,
        filtered: NeedCounts::none(),
        severity: Severity::Error,
    };
    if let Some(function) = function_of(module, &place_of_body(place)) {
        body.severity = severity_of(module, function.diagnostic_filter_leaf);
        add_block(&mut body, function, &function.body)?;
    }
    Ok(body)
}
