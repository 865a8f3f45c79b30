//! The optional sections of a report: structs, bounds checks and resources.
ghost use Rattle.std.specs.Prelude.{◌≡◌, ◌∷◌, List, Option, IfOk, OnOk, codes, length, string_bytes};
ghost use Rattle.json.specs.Json.{Json};
ghost use Rattle.json.specs.Token.{Token, key};
ghost use Rattle.json.specs.Value.{value_view};
ghost use Rattle.report_json.specs.Tokens.{Adds};
ghost use Rattle.report_model.specs.Fitting.{Fits, HasInfos};
ghost use Rattle.report_answers.specs.Analyses.{IsAnalysisOf};
ghost use Rattle.report_answers.specs.Sections.{AreBindings, AreBoundsAsked, AreBoundsLines, AreGroups, AreLinesAsked, AreResourcesAsked};
ghost use Rattle.report_answers.specs.Sections.{AreSections, EndsWithLines, IsRootIf, IsTextOfBounds, bounds_members};
ghost use Rattle.shader_interface.specs.Interface.{seen};
ghost use Rattle.shader_report_resources.specs.Resources.{AreResources};

use crate::options::Options;
use json::{Value, Writer};
use report_json::{Member, WriteMembers};
use report_layouts::structs_text;
use report_model::{Analyzed, Sound};
use shader_bounds::BoundsCheckPolicies;
use shader_interface::{Interface, ResourceBinding, WorkgroupSize};
use shader_ir::Module;
use shader_report_bounds::{ModuleBounds, bounds_text, find_bounds};
use shader_report_resources::{resources_lines, write_resources};
use std::alloc::{AllocError, Global};

/// Returns the bounds checks of a module, if the options ask for them and the analysis accepts it.
fn asked_bounds(
    alloc: Global,
    options: Options,
    module: &Module,
    analyzed: &Analyzed,
) -> Result<Option<ModuleBounds>, AllocError>
    requires { IsAnalysisOf options «module».now analyzed.now }
    ensures { IfOk result (AreBoundsAsked options «module».now analyzed.now) }
{
    match (options.bounds(), analyzed.info()) {
        (Some(policies), Some(infos)) => {
            let bounds = find_bounds(alloc, module, infos, policies)?;
            Ok(Some(bounds))
        }
        _ => Ok(None),
    }
}

/// Writes the bounds checks as a member, if the options ask for them and the analysis accepts the module.
fn write_bounds(
    alloc: Global,
    writer: &mut Writer,
    options: Options,
    module: &Module,
    analyzed: &Analyzed,
) -> Result<(), AllocError>
    requires { IsAnalysisOf options «module».now analyzed.now }
    ensures { OnOk result ((found : Option ModuleBounds) × AreBoundsAsked options «module».now analyzed.now found
        × Adds writer.old writer.new (bounds_members found)) }
{
    match asked_bounds(alloc, options, module, analyzed)? {
        Some(bounds) => Member("bounds", &bounds).write_members(alloc, writer),
        None => Ok(()),
    }
}

/// Writes the resources of a module as a member.
fn write_found_resources(
    alloc: Global,
    writer: &mut Writer,
    root: &Value<'_>,
    module: &Module,
    found: Sound<'_>,
) -> Result<(), AllocError>
    requires layouts { length found.layouts.now ≡ length «module».now.types }
    requires infos { HasInfos «module».now found.info.now }
    ensures { OnOk result ((tokens : List Token)
        × AreResources (value_view root.now) «module».now found.entry.layouts.now found.entry.info.now tokens
        × Adds writer.old writer.new (key (codes "resources") ∷ tokens)) }
{
    writer.key("resources")?;
    write_resources(writer, alloc, module, root, found.layouts, found.info)
}

/// Writes the resources of a module with this JSON as a member, if the options ask for them and the module has no fault besides its
/// control flow.
fn write_asked_resources(
    alloc: Global,
    writer: &mut Writer,
    options: Options,
    root: Option<&Value<'_>>,
    module: &Module,
    analyzed: &Analyzed,
) -> Result<(), AllocError>
    requires { Fits «module».now analyzed.now }
    ensures { OnOk result ((tokens : List Token) × ((j : Json) → IsRootIf options.has_resources j (seen root.entry) →
        AreResourcesAsked options j «module».now analyzed.now tokens) × Adds writer.old writer.new tokens) }
{
    if !options.has_resources {
        return Ok(());
    }
    match (root, analyzed.sound()) {
        (Some(root), Some(found)) => write_found_resources(alloc, writer, root, module, found),
        _ => Ok(()),
    }
}

/// Writes the members that the options ask for.
pub fn write_sections(
    alloc: Global,
    writer: &mut Writer,
    options: Options,
    root: Option<&Value<'_>>,
    module: &Module,
    analyzed: &Analyzed,
) -> Result<(), AllocError>
    requires { IsAnalysisOf options «module».now analyzed.now }
    ensures { OnOk result ((tokens : List Token) × ((j : Json) → IsRootIf options.has_resources j (seen root.entry) →
        AreSections options j «module».now analyzed.now tokens) × Adds writer.old writer.new tokens) }
{
    write_bounds(alloc, writer, options, module, analyzed)?;
    write_asked_resources(alloc, writer, options, root, module, analyzed)
}

/// Returns the bounds checks as text, given the policies, or an empty text if none were found.
fn found_bounds(
    alloc: Global,
    module: &Module,
    policies: Option<BoundsCheckPolicies>,
    found: &Option<ModuleBounds>,
) -> Result<String, AllocError>
    ensures { IfOk result (λ text. IsTextOfBounds policies found.now «module».now (string_bytes text)) }
{
    let Some(policies) = policies else {
        return Ok(String::new(alloc));
    };
    match found {
        Some(bounds) => bounds_text(alloc, module, policies, bounds),
        None => Ok(String::new(alloc)),
    }
}

/// Returns the bounds checks as text, or an empty text if the options don't ask for them or the analysis doesn't accept the module.
fn bounds_lines(
    alloc: Global,
    options: Options,
    module: &Module,
    analyzed: &Analyzed,
) -> Result<String, AllocError>
    requires { IsAnalysisOf options «module».now analyzed.now }
    ensures { IfOk result (λ text. AreBoundsLines options «module».now analyzed.now (string_bytes text)) }
{
    let found = asked_bounds(alloc, options, module, analyzed)?;
    found_bounds(alloc, module, options.bounds(), &found)
}

/// Returns the resources of a module with this JSON as text, or an empty text if the options don't ask for them or the module has a
/// fault besides its control flow.
fn asked_resources(
    alloc: Global,
    options: Options,
    root: Option<&Value<'_>>,
    module: &Module,
    analyzed: &Analyzed,
) -> Result<String, AllocError>
    requires { Fits «module».now analyzed.now }
    ensures { IfOk result (λ text. (j : Json) → IsRootIf options.has_resources j (seen root.entry) →
        AreLinesAsked options j «module».now analyzed.now (string_bytes text)) }
{
    if !options.has_resources {
        return Ok(String::new(alloc));
    }
    match (root, analyzed.sound()) {
        (Some(root), Some(found)) => {
            resources_lines(alloc, module, root, found.layouts, found.info)
        }
        _ => Ok(String::new(alloc)),
    }
}

/// Returns the structs of a module, each behind an empty line, if the options ask for them and all types have a layout.
fn asked_structs(
    alloc: Global,
    options: Options,
    module: &Module,
    analyzed: &Analyzed,
) -> Result<String, AllocError> {
    if !options.declares_structs() {
        return Ok(String::new(alloc));
    }
    let Analyzed::WellFormed(analysis) = analyzed else {
        return Ok(String::new(alloc));
    };
    if analysis.layout_error.is_some() {
        return Ok(String::new(alloc));
    }
    structs_text(alloc, module, &analysis.layouts, options.draws_structs())
}

/// Returns what the options ask for beside the verdict: the structs, then the bounds checks, then the resources. An empty line stands
/// before each part.
pub fn section_lines(
    alloc: Global,
    options: Options,
    root: Option<&Value<'_>>,
    module: &Module,
    analyzed: &Analyzed,
) -> Result<String, AllocError>
    requires { IsAnalysisOf options «module».now analyzed.now }
    ensures { IfOk result (λ text. (j : Json) → IsRootIf options.has_resources j (seen root.entry) →
        EndsWithLines options j «module».now analyzed.now (string_bytes text)) }
{
    let structs = asked_structs(alloc, options, module, analyzed)?;
    let bounds = bounds_lines(alloc, options, module, analyzed)?;
    let resources = asked_resources(alloc, options, root, module, analyzed)?;
    format!(in alloc; "{structs}{bounds}{resources}")
}

/// Returns the binding of each global variable, for a text report. JSON has resources as a member of their own.
fn bindings_of(
    alloc: Global,
    options: Options,
    root: &Value<'_>,
    module: &Module,
) -> Result<Vec<Option<ResourceBinding>>, AllocError>
    ensures { IfOk result (λ bindings. AreBindings options (value_view root.now) «module».now bindings.items) }
{
    if options.is_json {
        Ok(Vec::new(alloc))
    } else {
        Interface(root).bound_first(alloc, module.global_variables.len())
    }
}

/// Returns the size of the work groups of each entry point, for a text report.
fn groups_of(
    alloc: Global,
    options: Options,
    root: &Value<'_>,
    module: &Module,
) -> Result<Vec<WorkgroupSize>, AllocError>
    ensures { IfOk result (λ groups. AreGroups options (value_view root.now) «module».now groups.items) }
{
    if options.is_json {
        Ok(Vec::new(alloc))
    } else {
        Interface(root).workgroups_first(alloc, module.entry_points.len())
    }
}

/// What a module declares to its host, as far as a text report prints it of each module.
#[derive(Drop)]
pub struct Declared {
    /// The binding of each global variable.
    pub bindings: Vec<Option<ResourceBinding>>,
    /// The size of the work groups of each entry point.
    pub groups: Vec<WorkgroupSize>,
}

/// Returns what the JSON of a module declares to the host.
///
/// # Errors
///
/// `AllocError` if an allocation fails.
pub fn declared_of(
    alloc: Global,
    options: Options,
    root: &Value<'_>,
    module: &Module,
) -> Result<Declared, AllocError>
    ensures bindings { IfOk result (λ declared. AreBindings options (value_view root.now) «module».now declared.bindings.items) }
    ensures groups { IfOk result (λ declared. AreGroups options (value_view root.now) «module».now declared.groups.items) }
{
    Ok(Declared {
        bindings: bindings_of(alloc, options, root, module)?,
        groups: groups_of(alloc, options, root, module)?,
    })
}
