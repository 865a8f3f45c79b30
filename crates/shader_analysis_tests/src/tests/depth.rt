//! Tests of blocks nested 200 deep, which no JSON text may have.
use crate::tests::infos::OUT_OF_MEMORY;
use shader_analysis::{ModuleInfo, analyze_module};
use shader_arena::Handle;
use shader_info::{
    AnalysisError, AnalysisLocation, Capabilities, FunctionError, UniformityDisruptor,
    UniformityRequirements, ValidationFlags,
};
use shader_ir::{Block, Module, Statement};
use shader_resolve::check_module;
use shader_samples::builders::{branch, emit};
use shader_samples::{over_a_float, with_matrix};
use std::alloc::{AllocError, Global};
use std::process::Abort;

/// Returns the statement inside 200 nested blocks.
fn deep(alloc: Global, innermost: Statement) -> Result<Vec<Statement>, AllocError> {
    let mut statements = vec![in alloc; innermost]?;
    for _ in 0..200 {
        let block = Statement::Block(Block { statements });
        statements = vec![in alloc; block]?;
    }
    Ok(statements)
}

/// Returns a module that loads a matrix after the statement was run 200 blocks deep in a branch on
/// a varying condition.
fn nest(alloc: Global, innermost: Statement) -> Result<Module, AllocError> {
    let choice = branch(0, deep(alloc, innermost)?, Vec::new(alloc));
    let statements = vec![in alloc; choice, emit(4, 5)]?;
    let function = with_matrix(alloc, statements)?;
    over_a_float(alloc, vec![in alloc; function]?)
}

fn analyzed(
    rt: &impl Abort,
    alloc: Global,
    innermost: Statement,
) -> Result<ModuleInfo, AnalysisError> {
    let module = nest(alloc, innermost).expect(rt, OUT_OF_MEMORY);
    assert!(rt; check_module(&module).is_ok());
    let flags = ValidationFlags::CONTROL_FLOW_UNIFORMITY;
    let answer = analyze_module(alloc, &module, flags, Capabilities(0));
    drop(module);
    answer
}

/// Returns whether the first function is refused for the matrix, expression 4, which it loads behind a `Kill`.
fn is_behind_kill(error: &AnalysisError) -> bool {
    let in_first = match error.place {
        AnalysisLocation::Function(function) => function == Handle::from_index(0),
        _ => false,
    };
    in_first
        && match &error.cause {
            FunctionError::NonUniformControlFlow(requirements, expression, disruptor) => {
                *requirements == UniformityRequirements::COOP_OPS
                    && *expression == Handle::from_index(4)
                    && matches!(disruptor, UniformityDisruptor::Discard)
            }
            _ => false,
        }
}

#[test]
fn exits_are_found_deep_inside(rt: HostRuntime) {
    match analyzed(&rt, rt.alloc(), Statement::Kill) {
        Ok(_) => panic!(&rt; "accepted"),
        Err(error) => assert!(rt; is_behind_kill(&error)),
    }
    let statements = Vec::new(rt.alloc());
    let empty = Statement::Block(Block { statements });
    assert!(rt; analyzed(&rt, rt.alloc(), empty).is_ok());
}
