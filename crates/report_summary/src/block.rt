//! The block on an entry point or a function.
ghost use Rattle.std.specs.Prelude.{IfOk, string_bytes};
ghost use Rattle.report_summary.specs.Summaries.{IsBlock};

use crate::body::Body;
use crate::detail::Detail;
use crate::flow::flow_lines;
use crate::globals::global_lines;
use crate::headings::heading;
use crate::pairs::pair_lines;
use crate::reached::reached_from;
use report_model::Analyzed;
use report_places::{function_of, place_of_body};
use shader_analysis::ModuleInfo;
use shader_arena::Handle;
use shader_info::FunctionInfo;
use shader_interface::ResourceBinding;
use shader_ir::{Module, mark};
use shader_uniformity::BodyLocation;
use std::alloc::{AllocError, Global};

/// What the blocks are printed with, and what each function of the module does.
#[derive(Drop)]
pub struct Checked<'a> {
    pub detail: Detail<'a>,
    pub functions: Vec<Body>,
}

/// Returns the info of a function, if there is one.
fn function_info(infos: &ModuleInfo, index: usize) -> Option<&FunctionInfo> {
    if index < infos.function_count() && index <= u32::MAX as usize {
        let handle: Handle<mark::Function> = Handle::from_index(index as u32);
        Some(&infos[handle])
    } else {
        None
    }
}

/// Returns the info of the function or entry point at a place, if there is one.
fn info_at(analyzed: &Analyzed, place: BodyLocation) -> Option<&FunctionInfo> {
    match analyzed.info() {
        Some(infos) => match place {
            BodyLocation::Function(index) => function_info(infos, index),
            BodyLocation::EntryPoint(index) => {
                if index < infos.entry_point_count() {
                    Some(infos.get_entry_point(index))
                } else {
                    None
                }
            }
        },
        None => None,
    }
}

/// Returns whether a place is an entry point.
fn is_entry_point(place: BodyLocation) -> bool {
    match place {
        BodyLocation::Function(_) => false,
        BodyLocation::EntryPoint(_) => true,
    }
}

/// Returns the lines on the global variables that the function at a place uses.
fn use_lines(
    alloc: Global,
    module: &Module,
    analyzed: &Analyzed,
    bindings: &[Option<ResourceBinding>],
    place: BodyLocation,
    shows_all: bool,
) -> Result<String, AllocError> {
    let Some(function) = function_of(module, &place_of_body(place)) else {
        return Ok(String::new(alloc));
    };
    let Some(info) = info_at(analyzed, place) else {
        return Ok(String::new(alloc));
    };
    let globals = global_lines(alloc, module, bindings, info, shows_all)?;
    let pairs = pair_lines(alloc, module, function, info, shows_all)?;
    format!(in alloc; "{globals}{pairs}")
}

/// Returns what the block on the entry point or function at a place says of it: what it uses and needs, at any depth of calls.
fn lines_of(
    alloc: Global,
    module: &Module,
    analyzed: &Analyzed,
    bindings: &[Option<ResourceBinding>],
    checked: &Checked<'_>,
    place: BodyLocation,
) -> Result<String, AllocError> {
    let detail = checked.detail;
    let uses = use_lines(alloc, module, analyzed, bindings, place, detail.shows_all)?;
    let reached = reached_from(alloc, module, checked.functions.as_slice(), place)?;
    let discards = if reached.discards {
        "  may discard\n"
    } else {
        ""
    };
    let flow = flow_lines(alloc, detail.rules, is_entry_point(place), &reached)?;
    format!(in alloc; "{uses}{discards}{flow}")
}

/// Returns the block on the entry point or function at a place: what it uses and needs, at any depth of calls, and then a reason.
pub fn block_of(
    alloc: Global,
    module: &Module,
    analyzed: &Analyzed,
    bindings: &[Option<ResourceBinding>],
    checked: &Checked<'_>,
    place: BodyLocation,
    reason: &str,
) -> Result<String, AllocError>
    ensures { IfOk result (λ text. IsBlock «module».now checked.now.detail.groups.now place reason.now (string_bytes text)) }
{
    let heading = heading(alloc, module, checked.detail.groups, place)?;
    let lines = lines_of(alloc, module, analyzed, bindings, checked, place)?;
    format!(in alloc; "{heading}{lines}{reason}")
}
