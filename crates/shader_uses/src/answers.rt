//! What the uses say of modules, as text.
ghost use Rattle.std.specs.Prelude.{◌<◌, length};
ghost use Rattle.shader_typing.specs.ExactRecord.{IsExactRecord};
ghost use Rattle.shader_typing.specs.WellFormed.{IsWellFormed};

use crate::analyzed::{Refused, analyzed, globals_read, kills, result_varies, samples, writes};
use crate::bounds::checks_of;
use crate::built::doubling_module;
use crate::explained::refusal_of;
use crate::layouts::vertex_layout;
use crate::overloads::max_of_u32_and_literal;
use crate::processed::entry_point_of_two;
use crate::reading::{Unread, read};
use crate::typed::type_of_third;
use crate::typifying::scalar_of_sum;
use crate::uniform::first_divergence;
use crate::validated::validated;
use shader_json_module::ReadError;
use shader_typing::arena::Handle;
use shader_typing::ir::{MathFunction, Module, Scalar, TypeInner, mark};
use shader_typing::proc::index::{BoundsCheckPolicies, BoundsCheckPolicy};
use shader_typing::proc::{TypeResolution, types_backward};
use shader_typing::valid::{Capabilities, ModuleInfo, ValidationFlags, check_module};
use std::alloc::{AllocError, Global};

/// Adds what the uses say that take no module.
fn add_constants(alloc: Global, text: &mut String) -> Result<(), AllocError> {
    let layout = vertex_layout(alloc)?;
    writeln!(text, "{layout:?}")?;
    let conclusion = max_of_u32_and_literal(alloc)?;
    writeln!(text, "max {conclusion:?}")?;
    add_built(alloc, text)
}

/// Adds whether a module is valid.
fn add_validity(alloc: Global, text: &mut String, module: &Module) -> Result<(), AllocError> {
    let flags = ValidationFlags::CONTROL_FLOW_UNIFORMITY;
    match validated(alloc, module, flags, Capabilities(0)) {
        Ok(info) => {
            drop(info);
            text.push_str("valid\n")
        }
        Err(invalid) => writeln!(text, "{invalid:?}"),
    }
}

/// Adds whether the module that is built by hand is valid.
fn add_built(alloc: Global, text: &mut String) -> Result<(), AllocError> {
    let module = doubling_module(alloc)?;
    text.push_str("built ")?;
    let added = add_validity(alloc, text, &module);
    drop(module);
    added
}

/// Adds where control flow first isn't uniform although it must be.
fn add_flow(alloc: Global, text: &mut String, module: &Module) -> Result<(), AllocError> {
    match first_divergence(alloc, module)? {
        Some(location) => writeln!(text, "diverges {location:?}"),
        None => text.push_str("uniform\n"),
    }
}

/// Adds why `max` of a `u32` and an `f32` is refused.
fn add_refusal(alloc: Global, text: &mut String, module: &Module) -> Result<(), AllocError> {
    if !types_backward(&module.types) {
        return text.push_str("max over no types\n");
    }
    let arguments = [
        TypeInner::Scalar(Scalar::U32),
        TypeInner::Scalar(Scalar::F32),
    ];
    let refusal = refusal_of(alloc, module, MathFunction::Max, &arguments)?;
    writeln!(text, "max {refusal:?}")
}

/// Adds the scalar of the sum of the first type's zero value and 1.
fn add_sum(alloc: Global, text: &mut String, module: &Module) -> Result<(), AllocError> {
    if !types_backward(&module.types) {
        return text.push_str("sum of no type\n");
    }
    match scalar_of_sum(alloc, module, Handle::from_index(0)) {
        Ok(scalar) => writeln!(text, "sum {scalar:?}"),
        Err(error) => writeln!(text, "sum {error:?}"),
    }
}

/// Adds the type of the first function's third expression, where the two before it are of the first type and of `u32`.
fn add_third(alloc: Global, text: &mut String, module: &Module) -> Result<(), AllocError> {
    let first = TypeResolution::Handle(Handle::from_index(0));
    let second = TypeResolution::Value(TypeInner::Scalar(Scalar::U32));
    let stored = vec![in alloc; first, second]?;
    match type_of_third(alloc, module, stored.as_slice()) {
        Ok(ty) => writeln!(text, "third {ty:?}"),
        Err(untyped) => writeln!(text, "third {untyped:?}"),
    }
}

/// Adds whether the first entry point of a module of two functions kills.
fn add_entry_point(alloc: Global, text: &mut String, module: &Module) -> Result<(), AllocError> {
    if check_module(module).is_err()
        || module.functions.len() != 2
        || module.entry_points.is_empty()
    {
        return text.push_str("no entry point\n");
    }
    match entry_point_of_two(alloc, module) {
        Ok(info) => writeln!(text, "entry point kills {}", info.may_kill),
        Err(error) => writeln!(text, "entry point {error:?}"),
    }
}

/// Adds which global images a function samples, each with which global samplers.
fn add_samples(
    text: &mut String,
    module: &Module,
    info: &ModuleInfo,
    function: Handle<mark::Function>,
) -> Result<(), AllocError>
    requires exact { IsExactRecord «module».now info.now }
    requires there { function < length «module».now.functions }
{
    for (image, _) in module.global_variables.iter() {
        for (sampler, _) in module.global_variables.iter() {
            if samples(module, info, function, image, sampler) {
                write!(text, " samples {} {}", image.index(), sampler.index())?;
            }
        }
    }
    Ok(())
}

/// Adds which globals a function reads.
fn add_reads(
    alloc: Global,
    text: &mut String,
    module: &Module,
    info: &ModuleInfo,
    function: Handle<mark::Function>,
) -> Result<(), AllocError>
    requires exact { IsExactRecord «module».now info.now }
    requires there { function < length «module».now.functions }
{
    let globals = globals_read(alloc, module, info, function)?;
    for global in globals.iter() {
        write!(text, " reads {}", global.index())?;
    }
    Ok(())
}

/// Adds which globals a function writes.
fn add_writes(
    text: &mut String,
    module: &Module,
    info: &ModuleInfo,
    function: Handle<mark::Function>,
) -> Result<(), AllocError>
    requires exact { IsExactRecord «module».now info.now }
    requires there { function < length «module».now.functions }
{
    for (global, _) in module.global_variables.iter() {
        let is_there = module.global_variables.contains_handle(global);
        if is_there && writes(module, info, function, global) {
            write!(text, " writes {}", global.index())?;
        }
    }
    Ok(())
}

/// Adds what a back end checks of a function.
fn add_checks(
    alloc: Global,
    text: &mut String,
    module: &Module,
    info: &ModuleInfo,
    function: Handle<mark::Function>,
) -> Result<(), AllocError>
    requires well_formed { IsWellFormed «module».now }
    requires exact { IsExactRecord «module».now info.now }
    requires there { function < length «module».now.functions }
{
    let policies = BoundsCheckPolicies {
        index: BoundsCheckPolicy::ReadZeroSkipWrite,
        buffer: BoundsCheckPolicy::ReadZeroSkipWrite,
        image_load: BoundsCheckPolicy::ReadZeroSkipWrite,
        binding_array: BoundsCheckPolicy::ReadZeroSkipWrite,
    };
    let checks = checks_of(alloc, module, info, function, policies)?;
    writeln!(
        text,
        " sizes known {} checks {} locals {}",
        checks.sizes_known,
        checks.indexes.len(),
        checks.locals.len()
    )
}

/// Adds the line on a function.
fn add_function(
    alloc: Global,
    text: &mut String,
    module: &Module,
    info: &ModuleInfo,
    function: Handle<mark::Function>,
) -> Result<(), AllocError>
    requires well_formed { IsWellFormed «module».now }
    requires exact { IsExactRecord «module».now info.now }
    requires there { function < length «module».now.functions }
{
    let varies = result_varies(module, info, function);
    let kills = kills(module, info, function);
    write!(
        text,
        "function {} varies {varies} kills {kills}",
        function.index()
    )?;
    add_reads(alloc, text, module, info, function)?;
    add_writes(text, module, info, function)?;
    add_samples(text, module, info, function)?;
    add_checks(alloc, text, module, info, function)
}

/// Adds a line on each function.
fn add_functions(
    alloc: Global,
    text: &mut String,
    module: &Module,
    info: &ModuleInfo,
) -> Result<(), AllocError>
    requires well_formed { IsWellFormed «module».now }
    requires exact { IsExactRecord «module».now info.now }
{
    for (function, _) in module.functions.iter() {
        if module.functions.contains_handle(function) {
            add_function(alloc, text, module, info, function)?;
        }
    }
    Ok(())
}

/// Adds what is recorded of each function, or why the module is refused.
fn add_info(alloc: Global, text: &mut String, module: &Module) -> Result<(), AllocError> {
    match analyzed(alloc, module) {
        Ok(info) => {
            let added = add_functions(alloc, text, module, &info);
            drop(info);
            added
        }
        Err(refused) => writeln!(text, "{refused:?}"),
    }
}

/// Adds the answers on a module.
fn add_module(alloc: Global, text: &mut String, module: &Module) -> Result<(), AllocError> {
    add_sum(alloc, text, module)?;
    add_third(alloc, text, module)?;
    add_entry_point(alloc, text, module)?;
    add_refusal(alloc, text, module)?;
    add_validity(alloc, text, module)?;
    add_flow(alloc, text, module)?;
    add_info(alloc, text, module)
}

/// Adds the answers on the module of a line.
fn add_line(alloc: Global, text: &mut String, line: &[u8]) -> Result<(), AllocError> {
    match read(alloc, line) {
        Ok(module) => {
            let added = add_module(alloc, text, &module);
            drop(module);
            added
        }
        Err(Unread::Text(ReadError::OutOfMemory)) => Err(AllocError),
        Err(unread) => writeln!(text, "{unread:?}"),
    }
}

/// Returns the answers on the modules of the lines.
pub fn answers(alloc: Global, input: &[u8]) -> Result<String, AllocError> {
    let mut text = String::new(alloc);
    add_constants(alloc, &mut text)?;
    for line in input.split_inclusive(|byte| *byte == b'\n') {
        add_line(alloc, &mut text, line)?;
    }
    Ok(text)
}
