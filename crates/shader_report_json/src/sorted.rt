//! Recorded pairs in ascending order.
ghost use Rattle.std.specs.Prelude.{◌≡◌, IfOk};
ghost use Rattle.shader_report_json.specs.Sorted.{AreSamplingsOf, IsFunctionAnswer};

use report_json::{FunctionAnswer, ResourceKey, resource_key};
use shader_info::FunctionInfo;
use shader_ir::Items;
use std::alloc::{AllocError, Global};
use std::collections::BTreeSet;

/// Returns the pairs with an argument in ascending order.
fn samplings_of(
    alloc: Global,
    info: &FunctionInfo,
) -> Result<Items<(ResourceKey, ResourceKey)>, AllocError>
    ensures { IfOk result (AreSamplingsOf info.now) }
{
    let pairs: BTreeSet<(ResourceKey, ResourceKey)> = info
        .sampling
        .iter()
        .map(|pair| (resource_key(pair.image), resource_key(pair.sampler)))
        .collect(alloc)?;
    let pairs: Vec<(ResourceKey, ResourceKey)> = pairs.into_iter().collect(alloc)?;
    Ok(Items::from(pairs))
}

/// Returns the report on a function.
pub fn function_answer<'a>(
    alloc: Global,
    info: &'a FunctionInfo,
) -> Result<FunctionAnswer<'a>, AllocError>
    ensures info { IfOk result (λ answer. answer.info.now ≡ info.now) }
    ensures reported { IfOk result IsFunctionAnswer }
{
    Ok(FunctionAnswer {
        info,
        pairs: info.sorted_pairs(alloc)?,
        sampling: samplings_of(alloc, info)?,
    })
}
