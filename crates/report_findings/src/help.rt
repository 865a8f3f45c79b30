//! What to do about a diagnostic. Each help removes it if it is followed.
ghost use Rattle.std.specs.Prelude.{◌≡◌, IfOk, IfSome};
ghost use Rattle.shader_uniformity_causes.specs.Callers.{AreCallers};
ghost use Rattle.report_findings.specs.Help.{IfAcceptedByRules, IsNeedOf, IsWayToNeed};

use crate::call_help::call_help;
use crate::point_help::BodyNeed;
use report_diagnostics::{Code, FlowCode, Location, ResourceCode, Text};
use report_messages::Wording;
use report_names::{ItemKind, item_text, name_text};
use report_places::{BodyPlace, Wanted, find_statement, function_of, place_of_body};
use shader_arena::Handle;
use shader_info::FunctionError;
use shader_ir::{Expression, Function, Items, Module, SampleLevel, mark};
use shader_uniformity::{BodyLocation, Rule, find_divergence, function_at, rules_at};
use shader_uniformity_causes::{Cause, PassedBy};
use shader_uniformity_needs::{NeedKind, Violation};
use std::alloc::{AllocError, Global};

/// Returns the name of a function or an entry point that no diagnostic filter stands around.
fn unfiltered_name(
    alloc: Global,
    module: &Module,
    place: BodyPlace,
) -> Result<Option<String>, AllocError> {
    match place {
        BodyPlace::ConstExpression(_) => Ok(None),
        BodyPlace::Function(index) => match function_at(module, index) {
            Some(function) if function.diagnostic_filter_leaf.is_none() => {
                let name = item_text(alloc, ItemKind::Function, &function.name, index)?;
                Ok(Some(name))
            }
            _ => Ok(None),
        },
        BodyPlace::EntryPoint(index) => match module.entry_points.as_slice().get(index) {
            Some(point) if point.function.diagnostic_filter_leaf.is_none() => {
                Ok(Some(name_text(alloc, point.name.as_str())?))
            }
            _ => Ok(None),
        },
    }
}

/// Returns the help for a need that a diagnostic filter exempts (WGSL, "Filterable Triggering Rules").
fn filter_help(
    alloc: Global,
    module: &Module,
    place: BodyPlace,
) -> Result<Option<String>, AllocError> {
    match unfiltered_name(alloc, module, place)? {
        Some(name) => {
            let help = format!(in alloc;
                "accept it as it is: put `@diagnostic(off, derivative_uniformity)` on `{name}`"
            )?;
            Ok(Some(help))
        }
        None => Ok(None),
    }
}

/// Returns the help for an index that needs a capability of the device.
fn capability_help(alloc: Global, kinds: &str) -> Result<Option<String>, AllocError> {
    let help = format!(in alloc;
        "if the device supports that, allow it by `--non-uniform-indexing={kinds}`"
    )?;
    Ok(Some(help))
}

/// Adds what to do, if there is something. All but the first are alternatives.
fn add_help(alloc: Global, all: &mut Vec<Text>, help: Option<String>) -> Result<(), AllocError> {
    if let Some(help) = help {
        let words = if all.is_empty() {
            help
        } else {
            format!(in alloc; "or {help}")?
        };
        all.push(Text::from(words))?;
    }
    Ok(())
}

/// Adds what to do about a refusal.
///
/// # Errors
///
/// `AllocError` if an allocation fails.
pub fn add_help_of(
    alloc: Global,
    module: &Module,
    wording: &mut Wording,
    code: Code,
    place: BodyPlace,
) -> Result<(), AllocError> {
    let help = match code {
        Code::Flow(FlowCode::Derivative | FlowCode::ImplicitLevel) => {
            filter_help(alloc, module, place)?
        }
        Code::Resource(ResourceCode::NonUniformTextureIndex) => capability_help(alloc, "textures")?,
        Code::Resource(ResourceCode::NonUniformStorageTextureIndex) => {
            capability_help(alloc, "storage-textures")?
        }
        _ => None,
    };
    add_help(alloc, &mut wording.help, help)
}

/// Returns the help to decide by WGSL's rules, if these accept the control flow of the module.
///
/// # Errors
///
/// `AllocError` if an allocation fails, or a function has 2^32 statements.
fn rules_help(alloc: Global, module: &Module) -> Result<Option<String>, AllocError>
    ensures { IfOk result (IfAcceptedByRules «module».now) }
{
    let found = find_divergence(alloc, module)?;
    if found.is_accepted() {
        let help =
            "decide by WGSL's rules, which accept it: leave out `--uniformity=naga`".to_string(
                alloc,
            )?;
        Ok(Some(help))
    } else {
        Ok(None)
    }
}

/// Adds the help to decide by WGSL's rules about an expression that naga's rules refuse, if the former accept the control flow of the
/// module.
///
/// # Errors
///
/// `AllocError` if an allocation fails, or a function has 2^32 statements.
pub fn add_rules_help(
    alloc: Global,
    module: &Module,
    wording: &mut Wording,
    cause: &FunctionError,
) -> Result<(), AllocError> {
    match cause {
        FunctionError::NonUniformControlFlow(..) => {
            let help = rules_help(alloc, module)?;
            add_help(alloc, &mut wording.help, help)
        }
        _ => Ok(()),
    }
}

/// Returns the help for a sample that has a counterpart with an explicit level.
fn level_help(
    alloc: Global,
    function: &Function,
    expression: Handle<mark::Expression>,
) -> Result<Option<String>, AllocError> {
    match function.expressions.try_get(expression) {
        Some(
            Expression::ImageSample {
                gather: None,
                depth_ref: None,
                level: SampleLevel::Auto | SampleLevel::Bias(_),
                clamp_to_edge: false,
                ..
            },
        ) => {
            let help =
                "sample with `textureSampleLevel` or `textureSampleGrad`, which need no uniform control flow";
            Ok(Some(String::from_str(alloc, help)?))
        }
        _ => Ok(None),
    }
}

/// Returns a violated need with what follows in its function or entry point, if that is there.
fn body_need<'a>(
    alloc: Global,
    module: &'a Module,
    known: &[Items<Rule>],
    violation: &Violation,
) -> Result<Option<BodyNeed<'a>>, AllocError>
    ensures need { IfOk result (λ found. IfSome found (IsNeedOf «module».now known.now violation.now)) }
    ensures way { IfOk result (λ found. IfSome found IsWayToNeed) }
{
    let place = place_of_body(violation.place);
    let Some(function) = function_of(module, &place) else {
        return Ok(None);
    };
    let wanted = Wanted::At(violation.need.position);
    let at = find_statement(alloc, &function.body, &wanted)?;
    let rules = rules_at(alloc, module, known, violation.place)?;
    Ok(Some(BodyNeed {
        module,
        function,
        place: violation.place,
        rules,
        need: violation.need,
        at,
    }))
}

/// Adds what to do about a violated need of the entry point at an index.
fn add_point_help(
    alloc: Global,
    all: &mut Vec<Text>,
    found: &BodyNeed<'_>,
    index: usize,
    chain: &[Cause],
) -> Result<(), AllocError>
    requires { IsWayToNeed found.now }
{
    match found.need.kind {
        NeedKind::Derivative | NeedKind::ImplicitLevel => {
            match found.module.entry_points.as_slice().get(index) {
                Some(point) => {
                    let name = name_text(alloc, point.name.as_str())?;
                    add_help(alloc, all, found.start_help(alloc, name.as_str())?)
                }
                None => Ok(()),
            }
        }
        _ => {
            add_help(alloc, all, found.move_help(alloc)?)?;
            add_help(alloc, all, found.jump_help(alloc, chain)?)?;
            add_help(alloc, all, found.load_help(alloc, chain)?)
        }
    }
}

/// Adds what to do about a violated need of a function, by the calls of it.
fn add_function_help(
    alloc: Global,
    all: &mut Vec<Text>,
    known: &[Items<Rule>],
    callers: &[Vec<PassedBy>],
    violation: &Violation,
    found: &BodyNeed<'_>,
) -> Result<(), AllocError>
    requires callers { AreCallers found.now.«module».now known.now callers.now }
    requires way { IsWayToNeed found.now }
{
    let help = match found.need.kind {
        NeedKind::Derivative | NeedKind::ImplicitLevel => {
            call_help(alloc, found.module, known, callers, violation)?
        }
        _ => found.move_in_calls_help(alloc, known, callers)?,
    };
    add_help(alloc, all, help)
}

/// Adds what to do about a violated need of a derivative or a sample (WGSL, "Uniformity").
fn add_derivative_help(
    alloc: Global,
    all: &mut Vec<Text>,
    module: &Module,
    location: &Location,
) -> Result<(), AllocError> {
    let (Some(place), Some(expression)) = (location.body, location.expression) else {
        return Ok(());
    };
    if let Some(function) = function_of(module, &place) {
        add_help(alloc, all, level_help(alloc, function, expression)?)?;
    }
    add_help(alloc, all, filter_help(alloc, module, place)?)
}

/// Returns what to do about a violated need, by the implications that are known of functions and a chain of causes.
///
/// # Errors
///
/// `AllocError` if an allocation fails, or the entry point has 2^32 statements or implications.
pub fn need_help(
    alloc: Global,
    module: &Module,
    known: &[Items<Rule>],
    callers: &[Vec<PassedBy>],
    violation: &Violation,
    location: &Location,
    chain: &[Cause],
) -> Result<Vec<Text>, AllocError>
    requires { AreCallers «module».now known.now callers.now }
{
    let mut all = Vec::new(alloc);
    if let Some(found) = body_need(alloc, module, known, violation)? {
        match violation.place {
            BodyLocation::Function(_) => {
                add_function_help(alloc, &mut all, known, callers, violation, &found)?;
            }
            BodyLocation::EntryPoint(index) => {
                add_point_help(alloc, &mut all, &found, index, chain)?;
            }
        }
    }
    match violation.need.kind {
        NeedKind::Derivative | NeedKind::ImplicitLevel => {
            add_derivative_help(alloc, &mut all, module, location)?;
        }
        _ => {}
    }
    Ok(all)
}
