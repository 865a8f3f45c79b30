//! The report on a module as members of a JSON object.
ghost use Rattle.std.specs.Prelude.{◌≡◌, [], List, IfOk, None, OnOk, length, map};
ghost use Rattle.json.specs.Token.{Token};
ghost use Rattle.report_json.specs.Tokens.{Adds};
ghost use Rattle.report_model.specs.Fitting.{Fits, FitsAnalysis, FitsInfo, FitsLayouts, HasInfos};
ghost use Rattle.shader_report_json.specs.Answers.{AddsAnswer, AreAnalysisMembers, AreAnswersOf, AreInfoMembers, AreInfoTokens};
ghost use Rattle.shader_report_json.specs.Answers.{AreModuleMembers, layouts_members};

use crate::sorted::function_answer;
use json::Writer;
use report_json::{FunctionAnswer, Member, WriteMembers, write_object};
use report_model::{Analysis, Analyzed};
use shader_analysis::ModuleInfo;
use shader_arena::Handle;
use shader_info::{AnalysisError, FunctionInfo};
use shader_ir::proc::{LayoutError, Layouter, TypeLayout, TypeResolution};
use shader_ir::{Module, mark};
use std::alloc::{AllocError, Global};

/// Adds the report on a function.
fn add_answer<'a>(
    alloc: Global,
    info: &'a FunctionInfo,
    answers: &mut Vec<FunctionAnswer<'a>>,
) -> Result<(), AllocError>
    ensures { OnOk result (AddsAnswer info.now answers.old.items answers.new.items) }
{
    let answer = function_answer(alloc, info)?;
    answers.push(answer)?;
    Ok(())
}

/// Adds the reports on all functions.
fn add_functions<'a>(
    alloc: Global,
    module: &Module,
    infos: &'a ModuleInfo,
    answers: &mut Vec<FunctionAnswer<'a>>,
) -> Result<(), AllocError>
    requires stored { length infos.now.functions ≡ length «module».now.functions }
    requires none { answers.old.items ≡ [] }
    ensures { OnOk result (AreAnswersOf infos.now.functions answers.new.items) }
{
    for index in 0..module.functions.len() {
        let handle: Handle<mark::Function> = Handle::from_index(index as u32);
        add_answer(alloc, &infos[handle], answers)?;
    }
    Ok(())
}

/// Adds the reports on all entry points.
fn add_entry_points<'a>(
    alloc: Global,
    module: &Module,
    infos: &'a ModuleInfo,
    answers: &mut Vec<FunctionAnswer<'a>>,
) -> Result<(), AllocError>
    requires stored { length infos.now.entry_points ≡ length «module».now.entry_points }
    requires none { answers.old.items ≡ [] }
    ensures { OnOk result (AreAnswersOf infos.now.entry_points answers.new.items) }
{
    for index in 0..module.entry_points.len() {
        add_answer(alloc, infos.get_entry_point(index), answers)?;
    }
    Ok(())
}

/// Returns the types of all global expressions.
fn types_of<'a>(
    alloc: Global,
    module: &Module,
    infos: &'a ModuleInfo,
) -> Result<Vec<&'a TypeResolution>, AllocError>
    requires { length infos.now.global_expressions ≡ length «module».now.global_expressions }
    ensures { IfOk result (λ types. map (λ type. type.now) types.items ≡ infos.now.global_expressions) }
{
    let mut types = Vec::new(alloc);
    for index in 0..module.global_expressions.len() {
        let handle: Handle<mark::Expression> = Handle::from_index(index as u32);
        types.push(&infos[handle])?;
    }
    Ok(types)
}

/// Writes the results of the analysis.
fn write_infos(
    alloc: Global,
    writer: &mut Writer,
    module: &Module,
    infos: &ModuleInfo,
) -> Result<(), AllocError>
    requires { HasInfos «module».now infos.now }
    ensures { OnOk result ((tokens : List Token) × AreInfoTokens infos.now tokens × Adds writer.old writer.new tokens) }
{
    writer.key("info")?;
    let mut functions = Vec::new(alloc);
    add_functions(alloc, module, infos, &mut functions)?;
    let mut entry_points = Vec::new(alloc);
    add_entry_points(alloc, module, infos, &mut entry_points)?;
    let types = types_of(alloc, module, infos)?;
    let members = (
        Member("functions", &functions),
        Member("entry_points", &entry_points),
        Member("const_expression_types", &types),
    );
    write_object(alloc, writer, &members)
}

/// Writes the results of the analysis, or the fault that it found.
fn write_info(
    alloc: Global,
    writer: &mut Writer,
    module: &Module,
    info: &Result<ModuleInfo, AnalysisError>,
) -> Result<(), AllocError>
    requires { FitsInfo «module».now info.now }
    ensures { OnOk result ((tokens : List Token) × AreInfoMembers info.now tokens × Adds writer.old writer.new tokens) }
{
    match info {
        Ok(infos) => write_infos(alloc, writer, module, infos),
        Err(error) => Member("refused", error).write_members(alloc, writer),
    }
}

/// Returns the layouts of all types.
fn layouts_in(
    alloc: Global,
    module: &Module,
    layouter: &Layouter,
) -> Result<Vec<TypeLayout>, AllocError>
    requires { length layouter.now ≡ length «module».now.types }
    ensures { IfOk result (λ layouts. layouts.items ≡ layouter.now) }
{
    let mut layouts = Vec::new(alloc);
    for index in 0..module.types.len() {
        let handle: Handle<mark::Type> = Handle::from_index(index as u32);
        layouts.push(layouter[handle])?;
    }
    Ok(layouts)
}

/// Writes the layouts of all types.
fn write_all_layouts(
    alloc: Global,
    writer: &mut Writer,
    module: &Module,
    layouter: &Layouter,
) -> Result<(), AllocError>
    requires { length layouter.now ≡ length «module».now.types }
    ensures { OnOk result (Adds writer.old writer.new (layouts_members layouter.now None)) }
{
    let layouts = layouts_in(alloc, module, layouter)?;
    Member("layouts", &layouts).write_members(alloc, writer)
}

/// Writes the layouts, or the first type that has none.
fn write_layouts(
    alloc: Global,
    writer: &mut Writer,
    module: &Module,
    layouter: &Layouter,
    error: Option<LayoutError>,
) -> Result<(), AllocError>
    requires { FitsLayouts «module».now layouter.now error }
    ensures { OnOk result (Adds writer.old writer.new (layouts_members layouter.now error)) }
{
    match error {
        None => write_all_layouts(alloc, writer, module, layouter),
        Some(error) => Member("layout_error", &error).write_members(alloc, writer),
    }
}

/// Writes what was found of a well-formed module.
fn write_analysis(
    alloc: Global,
    writer: &mut Writer,
    module: &Module,
    analysis: &Analysis,
) -> Result<(), AllocError>
    requires { FitsAnalysis «module».now analysis.now }
    ensures { OnOk result ((tokens : List Token) × AreAnalysisMembers analysis.now tokens × Adds writer.old writer.new tokens) }
{
    write_layouts(
        alloc,
        writer,
        module,
        &analysis.layouts,
        analysis.layout_error,
    )?;
    write_info(alloc, writer, module, &analysis.info)
}

/// Writes what was found of a module as members of a JSON object: a violation of well-formedness, or else the layouts of its types and the
/// results of the analysis.
///
/// # Errors
///
/// `AllocError` if an allocation fails.
pub fn write_module(
    alloc: Global,
    writer: &mut Writer,
    module: &Module,
    analyzed: &Analyzed,
) -> Result<(), AllocError>
    requires { Fits «module».now analyzed.now }
    ensures { OnOk result ((tokens : List Token) × AreModuleMembers analyzed.now tokens × Adds writer.old writer.new tokens) }
{
    match analyzed {
        Analyzed::Fault(found) => Member("fault", &found.fault).write_members(alloc, writer),
        Analyzed::WellFormed(analysis) => write_analysis(alloc, writer, module, analysis),
    }
}
