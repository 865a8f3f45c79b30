//! Tests of blocks nested up to the limit, which `read_module` accepts from no text.
use shader_ir::{Block, Function, Module, Statement};
use shader_resolve::{MOST_LEVELS, check_module, nests_within};
use std::alloc::Global;
use std::process::Abort;

const OUT_OF_MEMORY: &str = "out of memory";

/// Returns `levels` nested blocks, the innermost empty.
fn nested(rt: &impl Abort, alloc: Global, levels: usize) -> Block {
    let mut block = Block::new(alloc);
    for _ in 0..levels {
        let mut statements = Vec::new(alloc);
        statements
            .push(Statement::Block(block))
            .expect(rt, OUT_OF_MEMORY);
        block = Block { statements };
    }
    block
}

/// Asserts that a module of one body with this many nested blocks is well formed, and how deep it nests.
fn nests(rt: &impl Abort, alloc: Global, levels: usize) {
    let mut module = Module::new(alloc);
    let mut function = Function::new(alloc);
    function.body = nested(rt, alloc, levels);
    assert!(rt; module.functions.len() < 10);
    module.functions.append(function).expect(rt, OUT_OF_MEMORY);
    assert!(rt; check_module(&module) == Ok(()));
    assert!(rt; !nests_within(&module, levels) && nests_within(&module, levels.saturating_add(1)));
    drop(module)
}

/// Tests that the deepest module within the limit can be measured, checked and dropped, and so can one more level on this stack.
#[test]
fn the_limit_goes_through(rt: HostRuntime) {
    nests(&rt, rt.alloc(), MOST_LEVELS - 1);
    nests(&rt, rt.alloc(), MOST_LEVELS);
}
