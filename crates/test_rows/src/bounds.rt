//! Questions about policies of bounds checks: `bounds POLICY POLICY POLICY POLICY [N E]`, with the policies of indexes, buffers, loads of
//! images and binding arrays, which tells
//!
//! - whether each policy occurs among them;
//! - the policy of an access to expression E of function N, and the indexes in the function that are checked.
ghost use Rattle.std.specs.Prelude.{◌≡◌, length};
ghost use Rattle.shader_bounds.specs.Typed.{IsFunctionOf};
ghost use Rattle.shader_resolve.specs.WellFormed.{IsWellFormed};

use crate::told::Told;
use crate::words::Words;
use shader_analysis::{ModuleInfo, analyze_module};
use shader_arena::Handle;
use shader_bounds::{BoundsCheckPolicies, BoundsCheckPolicy, find_checked_indexes};
use shader_info::{Capabilities, FunctionError, FunctionInfo, ValidationFlags};
use shader_ir::{Function, Module, mark};
use shader_resolve::check_module;
use std::alloc::{AllocError, Global};

/// Returns the policy that the next word names.
fn next_policy(words: &mut Words<'_>) -> BoundsCheckPolicy {
    match words.next_word() {
        "Restrict" => BoundsCheckPolicy::Restrict,
        "ReadZeroSkipWrite" => BoundsCheckPolicy::ReadZeroSkipWrite,
        _ => BoundsCheckPolicy::Unchecked,
    }
}

/// Tells the policy of an access to an expression of a function, and the indexes that are checked.
fn tell_function(
    told: &mut Told,
    alloc: Global,
    policies: BoundsCheckPolicies,
    base: Handle<mark::Expression>,
    module: &Module,
    function: &Function,
    info: &FunctionInfo,
)
    requires well_formed { IsWellFormed «module».now }
    requires function { IsFunctionOf «module».now function.now }
{
    told.show("policy", policies.choose_policy(base, &module.types, info));
    match find_checked_indexes(alloc, module, function, info, policies) {
        Ok(checked) => {
            for position in checked.iter() {
                told.show("checked", position);
            }
            drop(checked);
        }
        Err(AllocError) => told.fail(),
    }
}

/// Tells of a function of a module with these infos.
#[tactic(auto, using(shader_bounds::proofs::SearchLemmas::is_function_at))]
fn tell_at(
    told: &mut Told,
    alloc: Global,
    policies: BoundsCheckPolicies,
    mut words: Words<'_>,
    module: &Module,
    infos: &ModuleInfo,
)
    requires well_formed { IsWellFormed «module».now }
    requires functions { length infos.now.functions ≡ length «module».now.functions }
{
    let handle: Handle<mark::Function> = Handle::from_index(words.number().unwrap_or(u32::MAX));
    let base = Handle::from_index(words.number().unwrap_or(u32::MAX));
    if module.functions.contains_handle(handle) {
        let (function, info) = (&module.functions[handle], &infos[handle]);
        tell_function(told, alloc, policies, base, module, function, info);
    }
}

/// Answers `bounds POLICY POLICY POLICY POLICY [N E]`. Control flow isn't checked, and binding arrays may be indexed non-uniformly.
pub fn tell(told: &mut Told, alloc: Global, mut words: Words<'_>, module: &Module) {
    let policies = BoundsCheckPolicies {
        index: next_policy(&mut words),
        buffer: next_policy(&mut words),
        image_load: next_policy(&mut words),
        binding_array: next_policy(&mut words),
    };
    for policy in [
        BoundsCheckPolicy::Restrict,
        BoundsCheckPolicy::ReadZeroSkipWrite,
        BoundsCheckPolicy::Unchecked,
    ] {
        if policies.contains(policy) {
            told.show("contained", policy);
        }
    }
    if check_module(module).is_err() {
        return;
    }
    match analyze_module(alloc, module, ValidationFlags(0), Capabilities(3)) {
        Ok(infos) => {
            tell_at(told, alloc, policies, words, module, &infos);
            drop(infos);
        }
        Err(error) => {
            if let FunctionError::OutOfMemory = &error.cause {
                told.fail();
            }
            drop(error);
        }
    }
}
