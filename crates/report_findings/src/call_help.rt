//! What to do about a need that a single call violates, by standing where only some invocations are.
ghost use Rattle.std.specs.Prelude.{◌≡◌, ◌<◌, ℕ, true, false, IfOk, IfSome};
ghost use Rattle.shader_uniformity.specs.Marks.{Marked};
ghost use Rattle.shader_uniformity.specs.Traces.{rules_at};
ghost use Rattle.shader_uniformity_causes.specs.Callers.{AreCallers};
ghost use Rattle.shader_uniformity_needs.specs.Violations.{MayHold};
ghost use Rattle.report_findings.specs.Calls.{IfCallMoved, IsCallMovable, IsCalledApart, IsExcused, IsMovable, IsOnlyCall, PassesNoOther};
ghost use Rattle.report_findings.specs.Calls.{body_at, body_count};

use crate::effects::{is_quiet_at, quiet_functions};
use crate::point_help::start_words;
use crate::steady::{are_steady_values, steady_expressions};
use report_messages::result_text;
use report_names::name_text;
use report_places::{BodyPlace, Wanted, statement_at};
use shader_arena::Handle;
use shader_ir::{EntryPoint, Items, Module, Statement, mark};
use shader_uniformity::laws::traces_mark;
use shader_uniformity::{BodyLocation, Fact, Rule, rules_at, shortest_trace};
use shader_uniformity_causes::{PassedBy, causes_of};
use shader_uniformity_needs::{Pass, Violation, demands_at};
use std::alloc::{AllocError, Global};

/// A call in an entry point, by the position of its statement.
#[derive(Clone, Copy)]
pub struct CallAt {
    pub point: usize,
    pub position: u32,
}

/// Returns the call of an entry point that stands where only some invocations are, if it is such a call that passes that.
fn called_apart(by: &PassedBy) -> Option<CallAt> {
    match (by.pass.beginning, by.caller, by.pass.cause) {
        (Fact::Flow, BodyLocation::EntryPoint(point), Fact::Apart(position)) => Some(CallAt {
            point,
            position,
        }),
        _ => None,
    }
}

/// Returns the first of some calls that stands in an entry point where only some invocations are.
fn first_apart(calls: &[PassedBy]) -> Option<CallAt> {
    for by in calls {
        if let Some(call) = called_apart(by) {
            return Some(call);
        }
    }
    None
}

/// Checks whether what a call passes is that it stands where only some invocations are, and the call is this one.
fn is_by(call: &CallAt, caller: BodyLocation, pass: &Pass) -> bool
    ensures { result ≡ true → IsCalledApart call.now caller pass.now }
{
    match caller {
        BodyLocation::EntryPoint(point) => match pass.beginning {
            Fact::Flow => match pass.cause {
                Fact::Apart(position) => point == call.point && position == call.position,
                _ => false,
            },
            _ => false,
        },
        BodyLocation::Function(_) => false,
    }
}

/// A violated need of a function, and the call that may violate it alone.
#[derive(Clone, Copy)]
pub struct Called<'a> {
    pub violation: Violation,
    /// The implications of the function.
    pub rules: &'a [Rule],
    pub call: CallAt,
}

/// Checks whether a call of the function at a place passes something.
fn is_passed_to(place: BodyLocation, pass: &Pass) -> bool
    ensures { result ≡ false → place ≡ BodyLocation.Function pass.now.function → ⊥ }
{
    match place {
        BodyLocation::Function(index) => index == pass.function.index(),
        BodyLocation::EntryPoint(_) => false,
    }
}

/// Checks whether a fact follows from another one.
fn leads(alloc: Global, rules: &[Rule], first: &Fact, fact: &Fact) -> Result<bool, AllocError>
    ensures { IfOk result (λ found. found ≡ false → Marked rules.now first.now fact.now → ⊥) }
{
    traces_mark();
    match shortest_trace(alloc, rules, first, fact)? {
        Some(_) => Ok(true),
        None => Ok(false),
    }
}

/// Checks whether a fact may be true in a call of the function or entry point at a place.
fn may_hold(
    alloc: Global,
    module: &Module,
    known: &[Items<Rule>],
    callers: &[Vec<PassedBy>],
    place: BodyLocation,
    fact: &Fact,
) -> Result<bool, AllocError>
    requires { AreCallers «module».now known.now callers.now }
    ensures { IfOk result (λ found. found ≡ false → MayHold «module».now known.now place fact.now → ⊥) }
{
    match causes_of(alloc, module, known, callers, place, fact)? {
        Some(_) => Ok(true),
        None => Ok(false),
    }
}

/// Checks whether what a call in the body at a place passes violates the need only if it is the one call, by where it stands.
fn is_excused(
    alloc: Global,
    module: &Module,
    known: &[Items<Rule>],
    callers: &[Vec<PassedBy>],
    called: &Called<'_>,
    caller: BodyLocation,
    pass: &Pass,
) -> Result<bool, AllocError>
    requires callers { AreCallers «module».now known.now callers.now }
    requires rules { called.now.rules.now ≡ rules_at «module».now known.now called.now.violation.place }
    ensures { IfOk result (λ found. found ≡ true
        → IsExcused «module».now known.now called.now.violation called.now.call caller pass.now) }
{
    if !is_passed_to(called.violation.place, pass) || is_by(&called.call, caller, pass) {
        return Ok(true);
    }
    let violated_by = &called.violation.need.violated_by;
    if !leads(alloc, called.rules, &pass.beginning, violated_by)? {
        return Ok(true);
    }
    Ok(!may_hold(alloc, module, known, callers, caller, &pass.cause)?)
}

/// Checks whether no call in the body at a place violates the need, besides the one call.
fn passes_no_other(
    alloc: Global,
    module: &Module,
    known: &[Items<Rule>],
    callers: &[Vec<PassedBy>],
    called: &Called<'_>,
    caller: BodyLocation,
) -> Result<bool, AllocError>
    requires callers { AreCallers «module».now known.now callers.now }
    requires rules { called.now.rules.now ≡ rules_at «module».now known.now called.now.violation.place }
    ensures { IfOk result (λ found. found ≡ true
        → PassesNoOther «module».now known.now called.now.violation called.now.call caller) }
{
    let demands = demands_at(alloc, module, caller)?;
    for pass in &demands.passes {
        if !is_excused(alloc, module, known, callers, called, caller, pass)? {
            return Ok(false);
        }
    }
    Ok(true)
}

/// The bodies of a module of which a part is searched at once.
#[derive(Clone, Copy)]
enum Bodies {
    Functions,
    EntryPoints,
}

impl Bodies {
    /// Returns how many a module has.
    fn count(self, module: &Module) -> usize
        ensures { result ≡ body_count «module».now self }
    {
        match self {
            Bodies::Functions => module.functions.len(),
            Bodies::EntryPoints => module.entry_points.len(),
        }
    }

    /// Returns the place of the one at an index.
    fn at(self, index: usize) -> BodyLocation
        ensures { result ≡ body_at self index }
    {
        match self {
            Bodies::Functions => BodyLocation::Function(index),
            Bodies::EntryPoints => BodyLocation::EntryPoint(index),
        }
    }
}

/// Checks whether no call in some bodies violates the need, besides the one call.
fn all_pass_no_other(
    alloc: Global,
    module: &Module,
    known: &[Items<Rule>],
    callers: &[Vec<PassedBy>],
    called: &Called<'_>,
    bodies: Bodies,
) -> Result<bool, AllocError>
    requires callers { AreCallers «module».now known.now callers.now }
    requires rules { called.now.rules.now ≡ rules_at «module».now known.now called.now.violation.place }
    ensures { IfOk result (λ found. found ≡ true → (i : ℕ) → i < body_count «module».now bodies
        → PassesNoOther «module».now known.now called.now.violation called.now.call (body_at bodies i)) }
{
    for index in 0..bodies.count(module) {
        if !passes_no_other(alloc, module, known, callers, called, bodies.at(index))? {
            return Ok(false);
        }
    }
    Ok(true)
}

/// Checks whether only one call violates the need: no other one does, nor the function by itself.
fn is_only_call(
    alloc: Global,
    module: &Module,
    known: &[Items<Rule>],
    callers: &[Vec<PassedBy>],
    called: &Called<'_>,
) -> Result<bool, AllocError>
    requires callers { AreCallers «module».now known.now callers.now }
    requires rules { called.now.rules.now ≡ rules_at «module».now known.now called.now.violation.place }
    ensures { IfOk result (λ found. found ≡ true → IsOnlyCall «module».now known.now called.now.violation called.now.call) }
{
    if leads(
        alloc,
        called.rules,
        &Fact::Always,
        &called.violation.need.violated_by,
    )? {
        return Ok(false);
    }
    let functions = all_pass_no_other(alloc, module, known, callers, called, Bodies::Functions)?;
    if !functions {
        return Ok(false);
    }
    all_pass_no_other(alloc, module, known, callers, called, Bodies::EntryPoints)
}

/// Checks whether a call may as well be made at the start of its entry point: it passes values that don't change to a function without
/// effects.
fn is_movable(
    alloc: Global,
    module: &Module,
    point: &EntryPoint,
    callee: Handle<mark::Function>,
    arguments: &[Handle<mark::Expression>],
) -> Result<bool, AllocError>
    ensures { IfOk result (λ found. found ≡ true → IsMovable «module».now point.now callee arguments.now) }
{
    let function = &point.function;
    let steady = steady_expressions(alloc, module, function)?;
    if !are_steady_values(function, steady.as_slice(), arguments) {
        return Ok(false);
    }
    let quiet = quiet_functions(alloc, module, callee.index().saturating_add(1))?;
    Ok(is_quiet_at(quiet.as_slice(), callee))
}

/// Returns the call that alone violates a need of a function, if one does.
fn only_call(
    alloc: Global,
    module: &Module,
    known: &[Items<Rule>],
    callers: &[Vec<PassedBy>],
    violation: &Violation,
) -> Result<Option<CallAt>, AllocError>
    requires { AreCallers «module».now known.now callers.now }
    ensures { IfOk result (λ found. IfSome found (IsOnlyCall «module».now known.now violation.now)) }
{
    let BodyLocation::Function(function) = violation.place else {
        return Ok(None);
    };
    let Some(calls) = callers.get(function) else {
        return Ok(None);
    };
    let Some(call) = first_apart(calls.as_slice()) else {
        return Ok(None);
    };
    let rules = rules_at(alloc, module, known, violation.place)?;
    let called = Called {
        violation: *violation,
        rules: rules.as_slice(),
        call,
    };
    if is_only_call(alloc, module, known, callers, &called)? {
        Ok(Some(call))
    } else {
        Ok(None)
    }
}

/// Returns the help to make a call at the start of its entry point, if the call may as well be made there.
fn moved_help(alloc: Global, module: &Module, call: CallAt) -> Result<Option<String>, AllocError>
    ensures { IfOk result (IsCallMovable «module».now call) }
{
    let Some(point) = module.entry_points.as_slice().get(call.point) else {
        return Ok(None);
    };
    let place = BodyPlace::EntryPoint(call.point);
    let Some(found) = statement_at(alloc, module, &place, &Wanted::At(call.position))? else {
        return Ok(None);
    };
    match found.statement {
        Statement::Call {
            function,
            arguments,
            result: Some(result),
        } if is_movable(alloc, module, point, *function, arguments.as_slice())? => {
            let text = result_text(alloc, module, &point.function, *result)?;
            let name = name_text(alloc, point.name.as_str())?;
            Ok(Some(start_words(alloc, text.as_str(), "the call", name.as_str())?))
        }
        _ => Ok(None),
    }
}

/// Returns the help for a need of a function that a single call violates, which may as well be made at the start of its entry point, where
/// all invocations are.
///
/// # Errors
///
/// `AllocError` if an allocation fails, or a function has 2^32 statements or implications.
pub fn call_help(
    alloc: Global,
    module: &Module,
    known: &[Items<Rule>],
    callers: &[Vec<PassedBy>],
    violation: &Violation,
) -> Result<Option<String>, AllocError>
    requires { AreCallers «module».now known.now callers.now }
    ensures { IfOk result (IfCallMoved «module».now known.now violation.now) }
{
    match only_call(alloc, module, known, callers, violation)? {
        Some(call) => moved_help(alloc, module, call),
        None => Ok(None),
    }
}
