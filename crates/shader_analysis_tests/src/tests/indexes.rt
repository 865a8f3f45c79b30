//! Tests of policies that no row of `tests/data/rows` can express.
use crate::tests::infos::{OUT_OF_MEMORY, info};
use shader_arena::{Handle, UniqueArena};
use shader_bounds::{BoundsCheckPolicies, BoundsCheckPolicy};
use shader_info::{ExpressionInfo, GlobalUse};
use shader_ir::Items;
use shader_ir::proc::TypeResolution;

const POLICIES: BoundsCheckPolicies = BoundsCheckPolicies {
    index: BoundsCheckPolicy::ReadZeroSkipWrite,
    buffer: BoundsCheckPolicy::Restrict,
    image_load: BoundsCheckPolicy::Unchecked,
    binding_array: BoundsCheckPolicy::Unchecked,
};

#[test]
fn a_type_that_is_not_there_has_the_policy_of_indexes(rt: HostRuntime) {
    let mut info = info(&rt, rt.alloc(), GlobalUse::READ);
    let expression = ExpressionInfo {
        uniformity: info.uniformity,
        ref_count: 0,
        ty: TypeResolution::Handle(Handle::from_index(0)),
    };
    info.expressions = Items::from(vec![in rt.alloc(); expression].expect(&rt, OUT_OF_MEMORY));
    let types = UniqueArena::new(rt.alloc());
    let base = Handle::from_index(0);
    assert!(rt; POLICIES.choose_policy(base, &types, &info) == POLICIES.index);
    assert!(rt; BoundsCheckPolicy::default() == BoundsCheckPolicy::Unchecked);
    drop(types);
    drop(info);
}
