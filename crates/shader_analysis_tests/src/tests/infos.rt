//! Tests of the infos of functions and modules, with infos built by hand.
use shader_arena::Handle;
use shader_info::{
    ExpressionInfo, FunctionInfo, GlobalOrArgument, GlobalUse, Sampling, SamplingKey, Uniformity,
    UniformityRequirements,
};
use shader_ir::proc::TypeResolution;
use shader_ir::{Items, Scalar, ShaderStages, TypeInner, mark};
use std::alloc::Global;
use std::collections::HashSet;
use std::process::Abort;

/// The message of a test that only an allocation failure makes fail.
pub const OUT_OF_MEMORY: &str = "out of memory";

const IMAGE: GlobalOrArgument = GlobalOrArgument::Argument(0);

fn global(position: u32) -> GlobalOrArgument {
    GlobalOrArgument::Global(Handle::from_index(position))
}

fn uniformity() -> Uniformity {
    Uniformity {
        non_uniform_result: None,
        requirements: UniformityRequirements::DERIVATIVE,
    }
}

/// Returns an info of a function with one argument and one expression, in a module with one global.
pub fn info(rt: &impl Abort, alloc: Global, uses: GlobalUse) -> FunctionInfo {
    let mut sampling_set = HashSet::new(alloc);
    let key = SamplingKey {
        image: Handle::from_index(0),
        sampler: Handle::from_index(0),
    };
    sampling_set.insert(key).expect(rt, OUT_OF_MEMORY);
    let mut sampling = HashSet::new(alloc);
    let pair = Sampling {
        image: IMAGE,
        sampler: global(0),
    };
    sampling.insert(pair).expect(rt, OUT_OF_MEMORY);
    let expression = ExpressionInfo {
        uniformity: uniformity(),
        ref_count: 3,
        ty: TypeResolution::Value(TypeInner::Scalar(Scalar::U32)),
    };
    let expressions = vec![in alloc; expression].expect(rt, OUT_OF_MEMORY);
    let global_uses = vec![in alloc; uses].expect(rt, OUT_OF_MEMORY);
    FunctionInfo {
        available_stages: ShaderStages::VERTEX | ShaderStages::FRAGMENT,
        uniformity: uniformity(),
        may_kill: true,
        sampling_set,
        global_uses: Items::from(global_uses),
        expressions: Items::from(expressions),
        sampling,
        dual_source_blending: false,
    }
}

#[test]
fn uses_dominate_those_among_them(rt: HostRuntime) {
    let alloc = rt.alloc();
    let read = info(&rt, alloc, GlobalUse::READ);
    let both = info(&rt, alloc, GlobalUse::READ | GlobalUse::WRITE);
    assert!(rt; both.dominates_global_use(&read) && both.dominates_global_use(&both));
    assert!(rt; !read.dominates_global_use(&both));
    drop(read);
    drop(both);
}

#[test]
fn a_copy_has_all(rt: HostRuntime) {
    let alloc = rt.alloc();
    let mut first = info(&rt, alloc, GlobalUse::QUERY);
    first.dual_source_blending = true;
    let copy = first.copy(alloc).expect(&rt, OUT_OF_MEMORY);
    let global_handle: Handle<mark::GlobalVariable> = Handle::from_index(0);
    let expression_handle: Handle<mark::Expression> = Handle::from_index(0);
    assert!(rt; copy.global_variable_count() == 1);
    assert!(rt; copy[global_handle] == GlobalUse::QUERY);
    assert!(rt; copy.expression_count() == 1);
    assert!(rt; copy[expression_handle].ref_count == 3);
    assert!(rt; copy.has_sampling(IMAGE, global(0)) && copy.sampling_set.len() == 1);
    assert!(rt; copy.may_kill && copy.available_stages == first.available_stages);
    assert!(rt; copy.dual_source_blending);
    drop(first);
    drop(copy);
}

/// Returns an info of a function without expressions, in a module without globals, which takes no memory.
fn empty_info(alloc: Global) -> FunctionInfo {
    FunctionInfo {
        available_stages: ShaderStages::VERTEX,
        uniformity: uniformity(),
        may_kill: false,
        sampling_set: HashSet::new(alloc),
        global_uses: Items::from(Vec::new(alloc)),
        expressions: Items::from(Vec::new(alloc)),
        sampling: HashSet::new(alloc),
        dual_source_blending: false,
    }
}

#[test]
fn a_copy_of_nothing_is_there(rt: HostRuntime) {
    let alloc = rt.alloc();
    let first = empty_info(alloc);
    let copy = first.copy(alloc).expect(&rt, OUT_OF_MEMORY);
    assert!(rt; copy.global_variable_count() == 0 && copy.expression_count() == 0);
    assert!(rt; copy.sampling_set.is_empty() && copy.sampling.is_empty());
    assert!(rt; !copy.may_kill && !copy.dual_source_blending);
    drop(first);
    drop(copy);
}

#[test]
fn a_copy_of_what_an_expression_has_is_equal(rt: HostRuntime) {
    let ty: Handle<mark::Type> = Handle::from_index(1);
    let first = ExpressionInfo {
        uniformity: uniformity(),
        ref_count: 2,
        ty: TypeResolution::Handle(ty),
    };
    let copy = first.copy(rt.alloc()).expect(&rt, OUT_OF_MEMORY);
    assert!(rt; copy.uniformity.requirements == UniformityRequirements::DERIVATIVE);
    assert!(rt; copy.uniformity.non_uniform_result.is_none() && copy.ref_count == 2);
    assert!(rt; copy.ty.handle() == Some(ty));
    drop(first);
    drop(copy);
}
