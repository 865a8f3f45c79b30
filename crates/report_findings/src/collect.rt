//! The diagnostics of a module.
ghost use Rattle.std.specs.Prelude.{◌≡◌, [], ◌∷◌, IfOk, OnOk, option_to_list};
ghost use Rattle.report_places.specs.Sites.{place_of_body};
ghost use Rattle.report_findings.specs.Bodies.{IsOutlined};
ghost use Rattle.report_findings.specs.Collected.{AddsEach, AddsFlow, AddsViolations, AreAnalysisDiagnostics, AreDiagnostics};
ghost use Rattle.report_findings.specs.Collected.{HasNoneIfAccepted};
ghost use Rattle.report_findings.specs.Flow.{IsFlowDiagnostic};
ghost use Rattle.report_findings.specs.ModuleFaults.{IsFaultDiagnostic};
ghost use Rattle.shader_uniformity_causes.specs.Callers.{AreCallers};
ghost use Rattle.report_findings.specs.Refusals.{IsLayoutDiagnostic, IsRefusalDiagnostic};

use crate::advice::advised;
use crate::bodies::OutlinedBody;
use crate::flow::flow_diagnostic;
use crate::help::need_help;
use crate::module_faults::fault_diagnostic;
use crate::refusals::{layout_diagnostic, refusal_diagnostic};
use crate::related::causes_of_need;
use crate::roots::others_note;
use crate::sites::expression_text_at;
use crate::words::need_label;
use report_diagnostics::{Diagnostic, Text};
use report_model::{Analysis, Analyzed};
use report_places::{BodyPlace, place_of_body};
use shader_info::AnalysisError;
use shader_ir::proc::LayoutError;
use shader_ir::{Items, Module};
use shader_resolve::FaultAt;
use shader_uniformity::{Rule, Uniformity};
use shader_uniformity_causes::{Cause, PassedBy, find_callers};
use shader_uniformity_needs::{Violation, find_violations};
use std::alloc::{AllocError, Global};

/// The most diagnostics with causes, unless all have them. Causes of one cost time in the size of a function.
const MOST_EXPLAINED: usize = 100;

/// How many causes of a violated need are kept.
#[derive(Clone, Copy)]
enum Kept {
    /// None is looked for.
    None,
    /// The first ones and the last ones.
    Ends,
    /// All.
    All,
}

/// Adds the diagnostic of a module that isn't well formed.
fn add_fault(
    alloc: Global,
    module: &Module,
    diagnostics: &mut Vec<Diagnostic>,
    found: &FaultAt,
) -> Result<(), AllocError>
    ensures { OnOk result (AddsEach (IsFaultDiagnostic «module».now) (found.now ∷ []) diagnostics.old.items diagnostics.new.items) }
{
    let diagnostic = fault_diagnostic(alloc, module, found)?;
    diagnostics.push(diagnostic)?;
    Ok(())
}

/// Adds the diagnostic of a type without a layout, if there is one.
fn add_layout(
    alloc: Global,
    module: &Module,
    diagnostics: &mut Vec<Diagnostic>,
    error: &Option<LayoutError>,
) -> Result<(), AllocError>
    ensures { OnOk result (AddsEach IsLayoutDiagnostic (option_to_list error.now) diagnostics.old.items diagnostics.new.items) }
{
    match error {
        Some(error) => {
            let diagnostic = layout_diagnostic(alloc, module, error)?;
            diagnostics.push(diagnostic)?;
            Ok(())
        }
        None => Ok(()),
    }
}

/// Adds the diagnostic of a refusal.
fn add_refusal(
    alloc: Global,
    module: &Module,
    diagnostics: &mut Vec<Diagnostic>,
    refusal: &AnalysisError,
) -> Result<(), AllocError>
    ensures { OnOk result (AddsEach (IsRefusalDiagnostic «module».now) (refusal.now ∷ []) diagnostics.old.items diagnostics.new.items) }
{
    let diagnostic = refusal_diagnostic(alloc, module, refusal)?;
    diagnostics.push(diagnostic)?;
    Ok(())
}

/// Returns the diagnostic of a violated need, with what is said of its place.
fn labelled_diagnostic(
    alloc: Global,
    module: &Module,
    body: &OutlinedBody<'_>,
    violation: &Violation,
) -> Result<Diagnostic, AllocError>
    requires outlined { IsOutlined «module».now body.now }
    requires place { body.now.place ≡ place_of_body violation.now.place }
    ensures { IfOk result (IsFlowDiagnostic «module».now violation.now) }
{
    let diagnostic = flow_diagnostic(alloc, module, body, violation)?;
    let text = expression_text_at(alloc, module, &diagnostic.location)?;
    let label = need_label(alloc, &violation.need)?;
    Ok(Diagnostic {
        text,
        label,
        ..diagnostic
    })
}

/// Returns the notes on a violated need, of which a chain of causes shows one function or entry point in which it is violated.
fn need_notes(
    alloc: Global,
    module: &Module,
    known: &[Items<Rule>],
    violation: &Violation,
    chain: &[Cause],
) -> Result<Vec<Text>, AllocError> {
    let shown = match chain.last() {
        Some(cause) => cause.place,
        None => violation.place,
    };
    let mut notes = Vec::new(alloc);
    if let Some(note) = others_note(alloc, module, known, violation, shown)? {
        notes.push(Text::from(note))?;
    }
    Ok(notes)
}

/// Returns the diagnostic of a violated need, with its causes.
fn explained(
    alloc: Global,
    module: &Module,
    known: &[Items<Rule>],
    callers: &[Vec<PassedBy>],
    body: &OutlinedBody<'_>,
    violation: &Violation,
    keeps_all: bool,
) -> Result<Diagnostic, AllocError>
    requires callers { AreCallers «module».now known.now callers.now }
    requires outlined { IsOutlined «module».now body.now }
    requires place { body.now.place ≡ place_of_body violation.now.place }
    ensures { IfOk result (IsFlowDiagnostic «module».now violation.now) }
{
    let causes = causes_of_need(alloc, module, known, callers, violation, keeps_all)?;
    let diagnostic = labelled_diagnostic(alloc, module, body, violation)?;
    let chain = causes.chain.as_slice();
    let notes = need_notes(alloc, module, known, violation, chain)?;
    let help = need_help(
        alloc,
        module,
        known,
        callers,
        violation,
        &diagnostic.location,
        chain,
    )?;
    let advised = advised(diagnostic, causes.related, notes, help);
    Ok(Diagnostic {
        omitted: causes.omitted,
        ..advised
    })
}

/// Returns the diagnostic of a violated need whose causes aren't looked for.
fn unexplained(
    alloc: Global,
    module: &Module,
    body: &OutlinedBody<'_>,
    violation: &Violation,
) -> Result<Diagnostic, AllocError>
    requires outlined { IsOutlined «module».now body.now }
    requires place { body.now.place ≡ place_of_body violation.now.place }
    ensures { IfOk result (IsFlowDiagnostic «module».now violation.now) }
{
    let diagnostic = labelled_diagnostic(alloc, module, body, violation)?;
    let note = format!(in alloc; "causes are given for the first {MOST_EXPLAINED} errors only")?;
    let mut notes = Vec::new(alloc);
    notes.push(Text::from(note))?;
    Ok(advised(diagnostic, Vec::new(alloc), notes, Vec::new(alloc)))
}

/// Returns the diagnostic of a violated need, with as many of its causes.
fn diagnostic_of(
    alloc: Global,
    module: &Module,
    known: &[Items<Rule>],
    callers: &[Vec<PassedBy>],
    body: &OutlinedBody<'_>,
    violation: &Violation,
    kept: Kept,
) -> Result<Diagnostic, AllocError>
    requires callers { AreCallers «module».now known.now callers.now }
    requires outlined { IsOutlined «module».now body.now }
    requires place { body.now.place ≡ place_of_body violation.now.place }
    ensures { IfOk result (IsFlowDiagnostic «module».now violation.now) }
{
    match kept {
        Kept::None => unexplained(alloc, module, body, violation),
        Kept::Ends => explained(alloc, module, known, callers, body, violation, false),
        Kept::All => explained(alloc, module, known, callers, body, violation, true),
    }
}

/// Adds the diagnostics of violated needs, each with its causes, or without them if there are many. `callers` are those of the functions,
/// which are known by these rules.
fn add_each(
    alloc: Global,
    module: &Module,
    diagnostics: &mut Vec<Diagnostic>,
    known: &[Items<Rule>],
    callers: &[Vec<PassedBy>],
    violations: &[Violation],
    keeps_all: bool,
) -> Result<(), AllocError>
    requires { AreCallers «module».now known.now callers.now }
    ensures { OnOk result (AddsEach (IsFlowDiagnostic «module».now) violations.now diagnostics.old.items diagnostics.new.items) }
{
    let mut body = OutlinedBody::at(alloc, module, BodyPlace::ConstExpression(0))?;
    for violation in violations {
        body = body.moved_to(alloc, module, place_of_body(violation.place))?;
        let kept = if keeps_all {
            Kept::All
        } else if diagnostics.len() < MOST_EXPLAINED {
            Kept::Ends
        } else {
            Kept::None
        };
        let diagnostic = diagnostic_of(alloc, module, known, callers, &body, violation, kept)?;
        diagnostics.push(diagnostic)?;
    }
    Ok(())
}

/// Adds a diagnostic for each violated need, where functions are known by these rules.
fn add_violations(
    alloc: Global,
    module: &Module,
    diagnostics: &mut Vec<Diagnostic>,
    known: &[Items<Rule>],
    keeps_all: bool,
) -> Result<(), AllocError>
    ensures { OnOk result (AddsViolations «module».now known.now diagnostics.old.items diagnostics.new.items) }
{
    let violations = find_violations(alloc, module, known)?;
    let callers = find_callers(alloc, module, known)?;
    add_each(
        alloc,
        module,
        diagnostics,
        known,
        &callers,
        violations.as_slice(),
        keeps_all,
    )?;
    Ok(())
}

/// Adds a diagnostic for each violated need, if control flow is refused.
fn add_flow(
    alloc: Global,
    module: &Module,
    diagnostics: &mut Vec<Diagnostic>,
    uniformity: &Option<Uniformity>,
    keeps_all: bool,
) -> Result<(), AllocError>
    ensures { OnOk result (AddsFlow «module».now uniformity.now diagnostics.old.items diagnostics.new.items) }
{
    match uniformity {
        Some(found) => match found.fault {
            Some(_) => {
                let known = found.functions.as_slice();
                add_violations(alloc, module, diagnostics, known, keeps_all)
            }
            None => Ok(()),
        },
        None => Ok(()),
    }
}

/// Returns the diagnostics of a well-formed module.
fn analysis_diagnostics(
    alloc: Global,
    module: &Module,
    analysis: &Analysis,
    keeps_all: bool,
) -> Result<Vec<Diagnostic>, AllocError>
    ensures { IfOk result (λ diagnostics. AreAnalysisDiagnostics «module».now analysis.now diagnostics.items) }
{
    let mut diagnostics = Vec::new(alloc);
    add_layout(alloc, module, &mut diagnostics, &analysis.layout_error)?;
    if let Err(refusal) = &analysis.info {
        add_refusal(alloc, module, &mut diagnostics, refusal)?;
    }
    add_flow(
        alloc,
        module,
        &mut diagnostics,
        &analysis.uniformity,
        keeps_all,
    )?;
    Ok(diagnostics)
}

/// Returns the diagnostics of a module.
fn list_diagnostics(
    alloc: Global,
    module: &Module,
    found: &Analyzed,
    keeps_all: bool,
) -> Result<Vec<Diagnostic>, AllocError>
    ensures { IfOk result (λ diagnostics. AreDiagnostics «module».now found.now diagnostics.items) }
{
    match found {
        Analyzed::Fault(fault) => {
            let mut diagnostics = Vec::new(alloc);
            add_fault(alloc, module, &mut diagnostics, fault)?;
            Ok(diagnostics)
        }
        Analyzed::WellFormed(analysis) => analysis_diagnostics(alloc, module, analysis, keeps_all),
    }
}

/// Returns what is wrong with a module, in the order in which it was checked: a fault of a module that isn't well formed; or else the first
/// type without a layout, the refused expression, and each violated need of uniform control flow in the order of the module. An accepted
/// module has no diagnostics. Of more than 100 causes of one need those at both ends are kept, or all.
///
/// # Errors
///
/// `AllocError` if an allocation fails, or a function has 2^32 statements. Also if the refusal of the analysis is an allocation failure,
/// which that of `analyze` never is.
#[tactic(auto, using(crate::proofs::AcceptedLemmas::accepted_none))]
pub fn diagnostics_of(
    alloc: Global,
    module: &Module,
    found: &Analyzed,
    keeps_all: bool,
) -> Result<Vec<Diagnostic>, AllocError>
    ensures diagnostics { IfOk result (λ diagnostics. AreDiagnostics «module».now found.now diagnostics.items) }
    ensures accepted { IfOk result (λ diagnostics. HasNoneIfAccepted «module».now found.now diagnostics.items) }
{
    let diagnostics = list_diagnostics(alloc, module, found, keeps_all)?;
    Ok(diagnostics)
}
