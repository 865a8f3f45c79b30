//! Tests that fail one allocation of each growing call: what was given comes back, and the repeated call returns what it returns with
//! memory.
//!
//! With enough memory no request fails. If the allocator fails the Nth request of a test's process, the test still passes and prints a line
//! with `was refused`. The first N for which no test prints one is past all requests. For analyses and reports on modules the program
//! `test_rows` does the same.
ghost use Rattle.std.specs.Prelude.{◌≡◌, [], OnErr};

mod types;

use shader_analysis::ModuleInfo;
use shader_arena::{Arena, Handle};
use shader_info::{
    AnalysisError, Capabilities, FunctionError, FunctionInfo, GlobalUse, Uniformity,
    UniformityRequirements, ValidationFlags,
};
use shader_ir::{Expression, Items, Literal, Module, ShaderStages, mark};
use shader_resolve::{ResolveContext, ResolveError, check_module};
use shader_samples::builders::emit;
use shader_samples::{over_a_float, with_matrix};
use std::alloc::{AllocError, Global};
use std::collections::HashSet;
use std::io::Print;
use std::process::Abort;

fn say(rt: &(impl Abort + Print), what: &str) {
    println!(rt; "{what} was refused").expect(rt, "output");
}

/// Returns an info of a function that has no expressions and kills. This allocates nothing.
fn killing(alloc: Global) -> FunctionInfo {
    FunctionInfo {
        available_stages: ShaderStages::FRAGMENT,
        uniformity: Uniformity {
            non_uniform_result: None,
            requirements: UniformityRequirements(0),
        },
        may_kill: true,
        sampling_set: HashSet::new(alloc),
        global_uses: Items::from(Vec::new(alloc)),
        expressions: Items::from(Vec::new(alloc)),
        sampling: HashSet::new(alloc),
        dual_source_blending: false,
    }
}

fn add_function(rt: &(impl Abort + Print), infos: &mut ModuleInfo, info: FunctionInfo) {
    if let Err(failed) = infos.add_function(info) {
        say(rt, "an info");
        assert!(rt; failed.value.may_kill);
        assert!(rt; infos.add_function(failed.value).is_ok());
    }
}

fn add_entry_point(rt: &(impl Abort + Print), infos: &mut ModuleInfo, info: FunctionInfo) {
    if let Err(failed) = infos.add_entry_point(info) {
        say(rt, "an entry point");
        assert!(rt; failed.value.may_kill);
        assert!(rt; infos.add_entry_point(failed.value).is_ok());
    }
}

#[test]
fn of_infos(rt: HostRuntime) {
    let mut infos = ModuleInfo::new(rt.alloc());
    add_function(&rt, &mut infos, killing(rt.alloc()));
    add_entry_point(&rt, &mut infos, killing(rt.alloc()));
    assert!(rt; infos.function_count() == 1 && infos.entry_point_count() == 1);
    drop(infos);
}

/// Adds the type of the first global expression, which exists, to an empty record.
fn type_first(
    rt: &impl Abort,
    alloc: Global,
    module: &Module,
    infos: &mut ModuleInfo,
) -> Result<(), ResolveError>
    requires { infos.old.global_expressions ≡ [] }
    ensures { OnErr result (infos.new ≡ infos.old) }
{
    assert!(rt; check_module(module).is_ok());
    let first: Handle<mark::Expression> = Handle::from_index(0);
    assert!(rt; module.global_expressions.contains_handle(first));
    let locals = Arena::new(alloc);
    let context = ResolveContext::with_locals(module, &locals, &[]);
    infos.process_const_expression(first, &context, module.to_ctx())
}

/// Returns a module of one literal. An allocation that fails is tried again.
fn constant(rt: &(impl Abort + Print), alloc: Global) -> Module {
    let mut module = Module::new(alloc);
    assert!(rt; !module.global_expressions.is_full());
    let literal = Expression::Literal(Literal::U32(7));
    if let Err(failed) = module.global_expressions.append(literal) {
        say(rt, "a literal");
        assert!(rt; module.global_expressions.append(failed.value).is_ok());
    }
    module
}

#[test]
fn of_global_expressions(rt: HostRuntime) {
    let mut infos = ModuleInfo::new(rt.alloc());
    let module = constant(&rt, rt.alloc());
    if type_first(&rt, rt.alloc(), &module, &mut infos).is_err() {
        say(&rt, "a type");
        assert!(rt; type_first(&rt, rt.alloc(), &module, &mut infos).is_ok());
    }
    drop(module);
    drop(infos);
}

/// Returns the uses of three globals. An allocation that fails is tried again.
fn uses(rt: &(impl Abort + Print), alloc: Global) -> Items<GlobalUse> {
    let both = GlobalUse::READ | GlobalUse::WRITE;
    match vec![in alloc; GlobalUse::READ, GlobalUse::QUERY, both] {
        Ok(uses) => Items::from(uses),
        Err(_) => {
            say(rt, "a list of uses");
            let uses = vec![in alloc; GlobalUse::READ, GlobalUse::QUERY, both];
            Items::from(uses.expect(rt, "memory"))
        }
    }
}

#[test]
fn of_used_globals(rt: HostRuntime) {
    let alloc = rt.alloc();
    let mut info = killing(alloc);
    info.global_uses = uses(&rt, alloc);
    let globals = match info.globals_used(alloc, GlobalUse::READ) {
        Ok(globals) => globals,
        Err(_) => {
            say(&rt, "a list of globals");
            let again = info.globals_used(alloc, GlobalUse::READ);
            again.expect(&rt, "memory")
        }
    };
    assert!(rt; globals.len() == 2);
    assert!(rt; globals[0].index() == 0 && globals[1].index() == 2);
    drop(globals);
    drop(info);
}

/// Returns a module of one function, which loads a matrix.
fn loading(alloc: Global) -> Result<Module, AllocError> {
    let function = with_matrix(alloc, vec![in alloc; emit(4, 5)]?)?;
    over_a_float(alloc, vec![in alloc; function]?)
}

fn is_out_of_memory(error: &AnalysisError) -> bool {
    matches!(&error.cause, FunctionError::OutOfMemory)
}

/// Analyses the one function of the module. If an allocation fails, nothing is added, and the next call adds its info.
#[tactic(auto, using(shader_analysis::proofs::Growing::none_are_stored))]
fn add_only(rt: &(impl Abort + Print), alloc: Global, module: &Module) {
    assert!(rt; check_module(module).is_ok() && module.functions.len() == 1);
    let flags = ValidationFlags::CONTROL_FLOW_UNIFORMITY;
    let mut infos = ModuleInfo::new(alloc);
    if let Err(error) = infos.add_next(module, flags, Capabilities(0)) {
        say(rt, "the next function");
        assert!(rt; is_out_of_memory(&error) && infos.function_count() == 0);
        assert!(rt; infos.add_next(module, flags, Capabilities(0)).is_ok());
    }
    assert!(rt; infos.function_count() == 1);
    drop(infos);
}

#[test]
fn of_the_next_function(rt: HostRuntime) {
    let module = match loading(rt.alloc()) {
        Ok(module) => module,
        Err(_) => {
            say(&rt, "a module");
            loading(rt.alloc()).expect(&rt, "memory")
        }
    };
    add_only(&rt, rt.alloc(), &module);
    drop(module);
}
