//! The pairs of an image and a sampler with which it is sampled.

use report_names::{argument_text, global_text};
use shader_arena::Handle;
use shader_info::{FunctionInfo, GlobalOrArgument};
use shader_ir::{Function, Module, mark};
use std::alloc::{AllocError, Global};
use std::collections::BTreeSet;

/// The most pairs of a function that get a line, unless all do.
const MOST_PAIRS: usize = 12;

/// Whether a resource is an argument, and its number.
type Resource = (bool, u32);

/// Returns a global variable as a resource.
fn global_number(global: Handle<mark::GlobalVariable>) -> Resource {
    (false, global.index() as u32)
}

/// Returns whether a resource is an argument, and its number.
fn numbered(resource: GlobalOrArgument) -> Resource {
    match resource {
        GlobalOrArgument::Global(handle) => global_number(handle),
        GlobalOrArgument::Argument(index) => (true, index),
    }
}

/// Returns the pairs of two global variables in ascending order, and then those with an argument.
fn pairs_of(alloc: Global, info: &FunctionInfo) -> Result<Vec<(Resource, Resource)>, AllocError> {
    let globals: BTreeSet<(Resource, Resource)> = info
        .sampling_set
        .iter()
        .map(|key| (global_number(key.image), global_number(key.sampler)))
        .collect(alloc)?;
    let arguments: BTreeSet<(Resource, Resource)> = info
        .sampling
        .iter()
        .map(|pair| (numbered(pair.image), numbered(pair.sampler)))
        .collect(alloc)?;
    let mut pairs: Vec<(Resource, Resource)> = globals.into_iter().collect(alloc)?;
    for pair in arguments {
        pairs.push(pair)?;
    }
    Ok(pairs)
}

/// Returns an argument behind the word for it, unless it is shown by its number.
fn argument_words(alloc: Global, function: &Function, index: u32) -> Result<String, AllocError> {
    let name = argument_text(alloc, function, index)?;
    let is_named = match function.arguments.as_slice().get(index as usize) {
        Some(argument) => match &argument.name {
            Some(name) => !name.as_str().is_empty(),
            None => false,
        },
        None => false,
    };
    if is_named {
        format!(in alloc; "argument {name}")
    } else {
        Ok(name)
    }
}

/// Returns an image or a sampler by its name.
fn resource_words(
    alloc: Global,
    module: &Module,
    function: &Function,
    resource: Resource,
) -> Result<String, AllocError> {
    match resource {
        (false, index) => global_text(alloc, module, Handle::from_index(index)),
        (true, index) => argument_words(alloc, function, index),
    }
}

/// Returns a line for each pair of an image and a sampler with which a function samples it, by itself or in a function that it calls.
pub fn pair_lines(
    alloc: Global,
    module: &Module,
    function: &Function,
    info: &FunctionInfo,
    shows_all: bool,
) -> Result<String, AllocError> {
    let pairs = pairs_of(alloc, info)?;
    let most = if shows_all { pairs.len() } else { MOST_PAIRS };
    let mut text = String::new(alloc);
    for pair in pairs.iter().take(most) {
        let image = resource_words(alloc, module, function, pair.0)?;
        let sampler = resource_words(alloc, module, function, pair.1)?;
        let line = format!(in alloc; "  samples {image} with {sampler}\n")?;
        text.push_str(line.as_str())?;
    }
    let more = pairs.len().saturating_sub(most);
    if more > 0 {
        let line = format!(in alloc; "  ... and {more} more\n")?;
        text.push_str(line.as_str())?;
    }
    Ok(text)
}
