//! Tests of the infos of a module's functions.
use crate::tests::infos::{OUT_OF_MEMORY, info};
use shader_analysis::{ModuleInfo, ValidationError, validate};
use shader_arena::Handle;
use shader_info::{
    AnalysisError, AnalysisLocation, Capabilities, FunctionError, GlobalUse, ValidationFlags,
};
use shader_ir::{
    AddressSpace, Expression, Function, FunctionArgument, GlobalVariable, Items, Literal, Module,
    Scalar, ScalarKind, Statement, Type, TypeInner, mark,
};
use shader_resolve::check_module;
use shader_samples::builders::{branch, emit};
use shader_samples::{over_a_float, with_matrix};
use std::alloc::{AllocError, Global};
use std::process::Abort;

/// Returns a module with a global and no function.
fn module(rt: &impl Abort, alloc: Global) -> Module {
    let mut module = Module::new(alloc);
    let variable = GlobalVariable {
        name: None,
        space: AddressSpace::Private,
        ty: Handle::from_index(0),
        init: None,
    };
    module
        .global_variables
        .append(variable)
        .expect(rt, OUT_OF_MEMORY);
    module
}

/// Returns a function with one expression, and with one argument if `takes_one`.
fn function(rt: &impl Abort, alloc: Global, takes_one: bool) -> Function {
    let mut function = Function::new(alloc);
    let literal = Expression::Literal(Literal::U32(7));
    function
        .expressions
        .append(literal)
        .expect(rt, OUT_OF_MEMORY);
    if takes_one {
        let argument = FunctionArgument {
            name: None,
            ty: Handle::from_index(0),
            binding: None,
        };
        function.arguments = Items::from(vec![in alloc; argument].expect(rt, OUT_OF_MEMORY));
    }
    function
}

#[test]
fn an_info_fits_a_function_with_its_arguments(rt: HostRuntime) {
    let alloc = rt.alloc();
    let module = module(&rt, alloc);
    let recorded = info(&rt, alloc, GlobalUse::READ);
    let with_argument = function(&rt, alloc, true);
    let without = function(&rt, alloc, false);
    assert!(rt; recorded.fits(&with_argument, &module));
    assert!(rt; !recorded.fits(&without, &module));
    drop(recorded);
    drop(with_argument);
    drop(without);
    drop(module);
}

#[test]
fn infos_are_found_where_they_were_added(rt: HostRuntime) {
    let alloc = rt.alloc();
    let mut module = ModuleInfo::new(alloc);
    let first: Handle<mark::Function> = Handle::from_index(0);
    let added = module.add_function(info(&rt, alloc, GlobalUse::READ));
    added.expect(&rt, OUT_OF_MEMORY);
    let read = info(&rt, alloc, GlobalUse::READ);
    assert!(rt; module[first].dominates_global_use(&read));
    drop(read);
    let added = module.add_entry_point(info(&rt, alloc, GlobalUse::WRITE));
    added.expect(&rt, OUT_OF_MEMORY);
    let written = info(&rt, alloc, GlobalUse::WRITE);
    assert!(rt; module.get_entry_point(0).dominates_global_use(&written));
    drop(written);
    assert!(rt; module.function_count() == 1 && module.entry_point_count() == 1);
    assert!(rt; module.global_expression_count() == 0);
    drop(module);
}

/// Adds a scalar of this many bytes to the types.
fn add_scalar(rt: &impl Abort, module: &mut Module, width: u8) {
    let scalar = Scalar {
        kind: ScalarKind::Uint,
        width,
    };
    let inner = TypeInner::Scalar(scalar);
    assert!(rt; !module.types.is_full());
    let inserted = module.types.insert(Type { name: None, inner });
    inserted.expect(rt, OUT_OF_MEMORY);
}

#[test]
fn modules_are_refused_for_the_first_reason(rt: HostRuntime) {
    let alloc = rt.alloc();
    let flags = ValidationFlags::CONTROL_FLOW_UNIFORMITY;
    let plain = Module::new(alloc);
    assert!(rt; validate(alloc, &plain, flags, Capabilities(0)).is_ok());
    let ill_formed = module(&rt, alloc);
    let faulty = validate(alloc, &ill_formed, flags, Capabilities(0));
    assert!(rt; matches!(&faulty, Err(ValidationError::Fault(_))));
}

#[test]
fn the_first_type_without_a_layout_is_named(rt: HostRuntime) {
    let alloc = rt.alloc();
    let mut module = Module::new(alloc);
    add_scalar(&rt, &mut module, 4);
    add_scalar(&rt, &mut module, 5);
    add_scalar(&rt, &mut module, 7);
    let unlaid = validate(alloc, &module, ValidationFlags(0), Capabilities(0));
    let is_second = match &unlaid {
        Err(ValidationError::Layout(error)) => Some(error.ty == Handle::from_index(1)),
        Err(ValidationError::OutOfMemory) => None,
        _ => Some(false),
    };
    assert!(rt; is_second.expect(&rt, OUT_OF_MEMORY));
    drop(module);
}

/// Returns a module whose first function loads a matrix, and whose second does so behind a `Kill` that only some invocations reach.
fn faulty_second(alloc: Global) -> Result<Module, AllocError> {
    let choice = branch(0, vec![in alloc; Statement::Kill]?, Vec::new(alloc));
    let first = with_matrix(alloc, vec![in alloc; emit(4, 5)]?)?;
    let second = with_matrix(alloc, vec![in alloc; choice, emit(4, 5)]?)?;
    over_a_float(alloc, vec![in alloc; first, second]?)
}

/// Returns whether the second function is refused for its control flow, and `None` if memory ran out.
fn refuses_second(error: &AnalysisError) -> Option<bool> {
    if matches!(&error.cause, FunctionError::OutOfMemory) {
        return None;
    }
    match error.place {
        AnalysisLocation::Function(function) => Some(
            function == Handle::from_index(1)
                && matches!(&error.cause, FunctionError::NonUniformControlFlow(..)),
        ),
        _ => Some(false),
    }
}

#[test]
fn a_fault_of_the_analysis_is_named(rt: HostRuntime) {
    let alloc = rt.alloc();
    let module = faulty_second(alloc).expect(&rt, OUT_OF_MEMORY);
    let flags = ValidationFlags::CONTROL_FLOW_UNIFORMITY;
    let refused = validate(alloc, &module, flags, Capabilities(0));
    drop(module);
    let is_named = match &refused {
        Err(ValidationError::Analysis(error)) => refuses_second(error),
        Err(ValidationError::OutOfMemory) => None,
        _ => Some(false),
    };
    assert!(rt; is_named.expect(&rt, OUT_OF_MEMORY));
}

/// Analyses the module's functions one by one until one is refused, and asserts that it is the second.
#[tactic(auto, using(shader_analysis::proofs::Growing::none_are_stored))]
fn adds_the_first_alone(rt: &impl Abort, alloc: Global, module: &Module) {
    assert!(rt; check_module(module).is_ok() && module.functions.len() == 2);
    let flags = ValidationFlags::CONTROL_FLOW_UNIFORMITY;
    let mut infos = ModuleInfo::new(alloc);
    let added = infos.add_next(module, flags, Capabilities(0));
    added.expect(rt, OUT_OF_MEMORY);
    let is_refused = match infos.add_next(module, flags, Capabilities(0)) {
        Ok(()) => Some(false),
        Err(error) => refuses_second(&error),
    };
    assert!(rt; is_refused.expect(rt, OUT_OF_MEMORY) && infos.function_count() == 1);
    drop(infos);
}

#[test]
fn a_faulty_function_is_not_added(rt: HostRuntime) {
    let module = faulty_second(rt.alloc()).expect(&rt, OUT_OF_MEMORY);
    adds_the_first_alone(&rt, rt.alloc(), &module);
    drop(module);
}

#[test]
fn a_copy_of_a_record_has_all(rt: HostRuntime) {
    let alloc = rt.alloc();
    let mut infos = ModuleInfo::new(alloc);
    let added = infos.add_function(info(&rt, alloc, GlobalUse::READ));
    added.expect(&rt, OUT_OF_MEMORY);
    let copy = infos.copy(alloc).expect(&rt, OUT_OF_MEMORY);
    drop(infos);
    assert!(rt; copy.function_count() == 1 && copy.entry_point_count() == 0);
    let first: Handle<mark::Function> = Handle::from_index(0);
    assert!(rt; copy[first].may_kill && copy[first].global_variable_count() == 1);
    drop(copy);
}
