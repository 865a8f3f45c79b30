//! Questions about well-formedness, nesting, the end of an analysis and non-uniform values:
//!
//! - `fault`: the first fault with its location, and the fault that `check_module` reports;
//! - `nests NUMBER..`: whether the blocks nest no deeper than each number;
//! - `refusal`: where the analysis of the module ended and why, or `none`;
//! - `origins LOCATION [E]`: the chain from an expression or a result to a source, computed for it alone and from results computed once,
//!   and whether there is one. A LOCATION is `function N` or `entry N`.
use crate::told::Told;
use crate::words::Words;
use shader_analysis::analyze_module;
use shader_arena::Handle;
use shader_info::{Capabilities, ValidationFlags};
use shader_ir::Module;
use shader_resolve::{check_module, find_fault, nests_within};
use shader_uniformity_trace::{FunctionLocation, Link, Reasons, why_non_uniform};
use std::alloc::{AllocError, Global};

/// Tells the first fault of a module.
pub fn tell_fault(told: &mut Told, module: &Module) {
    told.show_lent("found", &find_fault(module));
    told.show("checked", check_module(module));
}

/// Tells for each number whether the blocks nest no deeper.
pub fn tell_nesting(told: &mut Told, words: Words<'_>, module: &Module) {
    for word in words.rest.split(' ') {
        match word.parse::<usize>() {
            Ok(levels) => told.show(word, nests_within(module, levels)),
            Err(_) => {}
        }
    }
}

/// Tells where the analysis of a well-formed module ends, with control flow checked and without capabilities.
pub fn tell_refusal(told: &mut Told, alloc: Global, module: &Module) {
    if check_module(module).is_err() {
        return;
    }
    let flags = ValidationFlags::CONTROL_FLOW_UNIFORMITY;
    match analyze_module(alloc, module, flags, Capabilities(0)) {
        Ok(infos) => {
            drop(infos);
            told.name("none");
        }
        Err(error) => {
            told.say("end", &error);
            drop(error);
        }
    }
}

/// Returns the location of a function that the words spell.
fn location(words: &mut Words<'_>) -> Option<FunctionLocation> {
    match words.next_word() {
        "function" => Some(FunctionLocation::Function(Handle::from_index(words.number()?))),
        "entry" => Some(FunctionLocation::EntryPoint(words.number()? as usize)),
        _ => None,
    }
}

/// Returns the link that the words spell.
fn link(words: &mut Words<'_>) -> Option<Link> {
    let location = location(words)?;
    match words.number() {
        Some(expression) => Some(Link::Expression(location, Handle::from_index(expression))),
        None => Some(Link::Result(location)),
    }
}

/// Tells the chain from a link of a well-formed module.
fn tell_chain(told: &mut Told, alloc: Global, module: &Module, link: Link) {
    if check_module(module).is_err() {
        return;
    }
    match Reasons::of(alloc, module) {
        Ok(reasons) => {
            told.show("differs", reasons.may_differ(&link));
            told.show_allocated("again", reasons.why(alloc, link));
            drop(reasons);
        }
        Err(AllocError) => told.fail(),
    }
    told.show_allocated("chain", why_non_uniform(alloc, module, link));
}

/// Tells the chain from the link that the words spell.
pub fn tell_origins(told: &mut Told, alloc: Global, mut words: Words<'_>, module: &Module) {
    match link(&mut words) {
        Some(link) => tell_chain(told, alloc, module, link),
        None => {}
    }
}
