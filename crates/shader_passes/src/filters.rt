//! Severity of derivative-uniformity diagnostics under the filters around a function.
ghost use Rattle.std.specs.Prelude.{◌≡◌, ◌<◌, length, IfSome};
ghost use Rattle.shader_analysis_spec.specs.Filters.{Governs, HaveEarlierParents};

use shader_arena::{Arena, Handle};
use shader_ir::{DiagnosticFilterNode, DiagnosticRule, Severity, mark};

/// Returns the severity of derivative-uniformity diagnostics under the filters from `leaf` outwards (WGSL, "Diagnostic Filtering"): the
/// severity of the innermost filter of that rule, or `Error` if no filter has it.
///
/// Every filter's parent must be an earlier filter, which `check_module` establishes.
#[tactic(auto, using(crate::proofs::FilterLemmas::leads_itself, crate::proofs::FilterLemmas::leads_to_parent, crate::proofs::FilterLemmas::governed_by, crate::proofs::FilterLemmas::governed_last, crate::proofs::FilterLemmas::parent_within, crate::proofs::FilterLemmas::parent_lower))]
pub fn derivative_severity(
    filters: &Arena<DiagnosticFilterNode, mark::DiagnosticFilterNode>,
    leaf: Option<Handle<mark::DiagnosticFilterNode>>,
) -> Severity
    requires parents { HaveEarlierParents filters.now }
    requires leaf { IfSome leaf (λ position. position < length filters.now) }
    ensures { Governs filters.now leaf result }
{
    let mut next = leaf;
    while let Some(handle) = next {
        let filter = &filters[handle];
        match filter.rule {
            DiagnosticRule::DerivativeUniformity => return filter.severity,
            DiagnosticRule::Other => next = filter.parent,
        }
    }
    Severity::Error
}
