//! Checks and analyses of a module.

ghost use Rattle.shader_resolve.specs.WellFormed.{IsWellFormed};

use shader_analysis::analyze_module;
use shader_arena::Handle;
use shader_info::{Capabilities, ValidationFlags};
use shader_ir::{Block, Module, Statement};
use shader_resolve::check_module;
use std::alloc::{AllocError, Global};

/// Returns `levels` nested `If`s on the first expression.
fn nested(alloc: Global, levels: usize) -> Result<Block, AllocError> {
    let mut body = Block::new(alloc);
    for _ in 0..levels {
        let mut outer = Block::new(alloc);
        outer.statements.push(Statement::If {
            condition: Handle::from_index(0),
            accept: body,
            reject: Block::new(alloc),
        })?;
        body = outer;
    }
    Ok(body)
}

/// Replaces the body of the first function by `levels` nested `If`s, if `levels` isn't 0.
pub fn nest(alloc: Global, module: &mut Module, levels: usize) -> Result<(), AllocError> {
    if levels == 0 {
        return Ok(());
    }
    let body = nested(alloc, levels)?;
    let first = Handle::from_index(0);
    if module.functions.contains_handle(first) {
        module.functions[first].body = body;
    }
    Ok(())
}

/// Checks the module `rounds` times, and returns how often it was well formed.
pub fn check(module: &Module, rounds: usize) -> usize {
    let mut done = 0usize;
    for _ in 0..rounds {
        if check_module(module).is_ok() {
            done = done.wrapping_add(1);
        }
    }
    done
}

/// Returns whether the analysis accepts the module.
fn is_accepted(alloc: Global, module: &Module) -> bool
    requires { IsWellFormed «module».now }
{
    let flags = ValidationFlags::CONTROL_FLOW_UNIFORMITY;
    analyze_module(alloc, module, flags, Capabilities(0)).is_ok()
}

/// Analyses the module `rounds` times if it is well formed, which is checked once, and returns how often it was accepted.
pub fn analyze(alloc: Global, module: &Module, rounds: usize) -> usize {
    let mut done = 0usize;
    if check_module(module).is_ok() {
        for _ in 0..rounds {
            if is_accepted(alloc, module) {
                done = done.wrapping_add(1);
            }
        }
    }
    done
}
