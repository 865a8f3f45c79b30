//! The diagnostic filters around a function.
ghost use Rattle.std.specs.Prelude.{◌≡◌, IfOk, Some, slice_get};
ghost use Rattle.std.specs.Option.{option_copied};
ghost use Rattle.shader_uniformity.specs.Filters.{filter_at, is_error, is_severe, known_severity, next_severity, severity_table};

use shader_arena::{Arena, Handle};
use shader_ir::{DiagnosticFilterNode, DiagnosticRule, Severity, mark};
use std::alloc::{AllocError, Global};

/// Returns whether a diagnostic of this severity refuses the module.
fn is_error(severity: Severity) -> bool
    ensures { result ≡ is_error severity }
{
    match severity {
        Severity::Error => true,
        Severity::Off | Severity::Info | Severity::Warning => false,
    }
}

/// Returns the filter at a handle, if there is one.
fn filter_at(
    filters: &Arena<DiagnosticFilterNode, mark::DiagnosticFilterNode>,
    leaf: Option<Handle<mark::DiagnosticFilterNode>>,
) -> Option<DiagnosticFilterNode>
    ensures { result ≡ filter_at filters.now leaf }
{
    match leaf {
        Some(handle) => {
            if filters.contains_handle(handle) {
                Some(filters[handle])
            } else {
                None
            }
        }
        None => None,
    }
}

/// Checks whether non-uniform derivatives and implicit levels are errors under the filters from `leaf` outwards (WGSL, "Diagnostic
/// Filtering").
///
/// It walks the filters. For many functions `is_severe_by` is faster.
pub fn is_severe(
    filters: &Arena<DiagnosticFilterNode, mark::DiagnosticFilterNode>,
    leaf: Option<Handle<mark::DiagnosticFilterNode>>,
) -> bool
    ensures { result ≡ is_severe filters.now filters.now leaf }
{
    let mut next = leaf;
    for (_, _step) in filters.iter() {
        match filter_at(filters, next) {
            Some(filter) => match filter.rule {
                DiagnosticRule::DerivativeUniformity => return is_error(filter.severity),
                DiagnosticRule::Other => next = filter.parent,
            },
            None => return true,
        }
    }
    true
}

/// Returns the recorded severity of a filter chain.
fn severity_at(
    severities: &[Option<bool>],
    handle: Handle<mark::DiagnosticFilterNode>,
) -> Option<bool>
    ensures { result ≡ known_severity severities.now (Some handle) }
{
    match severities.get(handle.index()) {
        Some(severe) => *severe,
        None => None,
    }
}

/// Returns the severity of a filter, given that of its parent, or `None` if it depends on a parent without a recorded severity.
fn next_severity(earlier: &[Option<bool>], filter: &DiagnosticFilterNode) -> Option<bool>
    ensures { result ≡ next_severity earlier.now filter.now }
{
    match filter.rule {
        DiagnosticRule::DerivativeUniformity => Some(is_error(filter.severity)),
        DiagnosticRule::Other => match filter.parent {
            Some(parent) => severity_at(earlier, parent),
            None => Some(true),
        },
    }
}

/// Returns the result of `is_severe` for each filter, or `None` if a filter on the way outwards isn't after its parent.
///
/// # Errors
///
/// `AllocError` if memory runs out.
pub fn severity_table(
    alloc: Global,
    filters: &Arena<DiagnosticFilterNode, mark::DiagnosticFilterNode>,
) -> Result<Vec<Option<bool>>, AllocError>
    ensures { IfOk result (λ severities. severities.items ≡ severity_table filters.now) }
{
    let mut severities = Vec::with_capacity(alloc, filters.len())?;
    for (_, filter) in filters.iter() {
        let severe = next_severity(severities.as_slice(), filter);
        severities.push(severe)?;
    }
    Ok(severities)
}

/// Checks the same as `is_severe`, by the table of the filters.
#[tactic(auto, using(crate::proofs::FilterLemmas::known_is_severe, crate::proofs::FilterLemmas::unfiltered_is_severe))]
pub fn is_severe_by(
    severities: &[Option<bool>],
    filters: &Arena<DiagnosticFilterNode, mark::DiagnosticFilterNode>,
    leaf: Option<Handle<mark::DiagnosticFilterNode>>,
) -> bool
    requires { severities.now ≡ severity_table filters.now }
    ensures { result ≡ is_severe filters.now filters.now leaf }
{
    match leaf {
        Some(handle) => match severity_at(severities, handle) {
            Some(severe) => severe,
            None => is_severe(filters, Some(handle)),
        },
        None => true,
    }
}
