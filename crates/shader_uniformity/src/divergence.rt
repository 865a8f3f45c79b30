//! The entry points in which only some invocations may execute a statement that needs uniform control flow.
ghost use Rattle.std.specs.Prelude.{◌≡◌, ◌↔◌, None, IfOk, IsTrue, slice_get, map};
ghost use Rattle.shader_uniformity.specs.Fault.{AreAllKnown, AreFaulty, IsFault, IsKnownBy, IsVerdict};
ghost use Rattle.shader_uniformity.specs.Filters.{severity_table};

use crate::cells::holds;
use crate::facts::{BodyLocation, Fact, Rule};
use crate::filters::{is_severe_by, severity_table};
use crate::known::{function_rules, known_of};
use crate::reach::reach;
use crate::verdict::verdict_of;
use shader_ir::{EntryPoint, Function, Items, Module};
use std::alloc::{AllocError, Global};

/// The result of `find_divergence` for a module.
#[derive(Drop)]
pub struct Uniformity {
    /// The summary of each function: which facts at the end of a call follow from which at its beginning.
    pub functions: Items<Items<Rule>>,
    /// For each entry point, true if it is at fault: it may violate a need of uniform control flow.
    pub faulty: Items<bool>,
    /// The first function that is at fault whoever calls it, or else the first entry point at fault.
    pub fault: Option<BodyLocation>,
}

impl Uniformity {
    /// Checks whether the module is accepted: no function and no entry point is at fault.
    pub fn is_accepted(&self) -> bool
        ensures { IsTrue result ↔ (self.now.fault ≡ None) }
    {
        self.fault.is_none()
    }
}

/// Returns the summary of one more function.
fn known_next(
    alloc: Global,
    module: &Module,
    severities: &[Option<bool>],
    callees: &[Items<Rule>],
    function: &Function,
) -> Result<Items<Rule>, AllocError>
    requires { severities.now ≡ severity_table «module».now.diagnostic_filters }
    ensures { IfOk result (λ known. IsKnownBy «module».now callees.now function.now known) }
{
    let severe = is_severe_by(
        severities,
        &module.diagnostic_filters,
        function.diagnostic_filter_leaf,
    );
    let rules = function_rules(alloc, module, callees, severe, false, function)?;
    known_of(alloc, function.arguments.as_slice(), &rules)
}

/// Returns the summary of each function.
fn known_functions(
    alloc: Global,
    module: &Module,
    severities: &[Option<bool>],
) -> Result<Vec<Items<Rule>>, AllocError>
    requires { severities.now ≡ severity_table «module».now.diagnostic_filters }
    ensures { IfOk result (λ known. AreAllKnown «module».now known.items) }
{
    let mut known = Vec::new(alloc);
    for (_, function) in module.functions.iter() {
        let next = known_next(alloc, module, severities, &known, function)?;
        known.push(next)?;
    }
    Ok(known)
}

/// Checks whether an entry point is at fault.
fn is_fault(
    alloc: Global,
    module: &Module,
    severities: &[Option<bool>],
    callees: &[Items<Rule>],
    function: &Function,
) -> Result<bool, AllocError>
    requires { severities.now ≡ severity_table «module».now.diagnostic_filters }
    ensures { IfOk result (λ faulty. IsTrue faulty ↔ IsFault «module».now callees.now function.now) }
{
    let severe = is_severe_by(
        severities,
        &module.diagnostic_filters,
        function.diagnostic_filter_leaf,
    );
    let rules = function_rules(alloc, module, callees, severe, true, function)?;
    let table = reach(alloc, &rules, &Fact::Always)?;
    Ok(holds(&table, &Fact::Must))
}

/// Checks for each of some entry points whether it is at fault.
fn faulty_points(
    alloc: Global,
    module: &Module,
    severities: &[Option<bool>],
    callees: &[Items<Rule>],
    points: &[EntryPoint],
) -> Result<Vec<bool>, AllocError>
    requires { severities.now ≡ severity_table «module».now.diagnostic_filters }
    ensures { IfOk result (λ faulty. AreFaulty «module».now callees.now points.now faulty.items) }
{
    let mut faulty = Vec::new(alloc);
    for point in points {
        faulty.push(is_fault(alloc, module, severities, callees, &point.function)?)?;
    }
    Ok(faulty)
}

/// Finds the entry points of a module that are at fault: only some invocations may execute a barrier, a derivative, an implicit
/// level or another statement that needs uniform control flow (WGSL, "Uniformity"). Also returns the summary of each function.
///
/// A summary is based on those of earlier functions; a call of any other function counts as a fault. If a function is at fault
/// whoever calls it, the module is refused, even if nothing calls the function.
///
/// # Errors
///
/// `AllocError` if memory runs out, or a function has 2^32 statements.
#[tactic(auto, using(crate::proofs::VerdictLemmas::verdict_is))]
pub fn find_divergence(alloc: Global, module: &Module) -> Result<Uniformity, AllocError>
    ensures functions { IfOk result (λ found. AreAllKnown «module».now found.functions) }
    ensures faulty { IfOk result (λ found. AreFaulty «module».now found.functions «module».now.entry_points found.faulty) }
    ensures fault { IfOk result (λ found. IsVerdict «module».now found.functions found.fault) }
{
    let severities = severity_table(alloc, &module.diagnostic_filters)?;
    let known = known_functions(alloc, module, &severities)?;
    let points = module.entry_points.as_slice();
    let faulty = faulty_points(alloc, module, &severities, &known, points)?;
    let fault = verdict_of(&known, &faulty);
    Ok(Uniformity {
        functions: Items::from(known),
        faulty: Items::from(faulty),
        fault,
    })
}
