//! The checks that a back end makes for a function.
ghost use Rattle.std.specs.Prelude.{◌≡◌, ◌↔◌, ℕ, Contains, IfOk, IsTrue};
ghost use Rattle.std.specs.List.Sorted.{IsStrictlyIncreasing};
ghost use Rattle.shader_arena.specs.Positions.{is_member};
ghost use Rattle.shader_bounds.specs.Typed.{IsFunctionOf};
ghost use Rattle.shader_resolve.specs.WellFormed.{IsWellFormed};
ghost use Rattle.shader_report_bounds.specs.Bounds.{AreCheckedIndexes, AreLocalTypes, IsFunctionBounds};

use crate::accesses::{AccessCheck, accesses_of};
use shader_arena::HandleSet;
use shader_bounds::{BoundsCheckPolicies, find_checked_indexes, oob_local_types};
use shader_info::FunctionInfo;
use shader_ir::{Function, Module, mark};
use std::alloc::{AllocError, Global};
use std::collections::BTreeSet;

/// The checks that a back end makes for a function.
#[derive(Drop)]
pub struct FunctionBounds {
    /// The accesses that need a check, ascending.
    pub accesses: Vec<AccessCheck>,
    /// The positions of the expressions that `find_checked_indexes` finds, ascending.
    pub checked_indexes: Vec<usize>,
    /// The positions of the types that `oob_local_types` finds, ascending.
    pub local_types: Vec<usize>,
}

/// Returns the positions of the handles in a set, ascending.
fn positions_of(alloc: Global, set: &HandleSet<mark::Expression>) -> Result<Vec<usize>, AllocError>
    ensures ascending { IfOk result (λ positions. IsStrictlyIncreasing positions.items) }
    ensures members { IfOk result (λ positions. (e : ℕ) → Contains positions.items e ↔ IsTrue (is_member set.now e)) }
{
    let mut positions = Vec::new(alloc);
    for handle in set.iter() {
        positions.push(handle.index())?;
    }
    Ok(positions)
}

/// Returns the positions of the checked indexes, ascending.
fn checked_indexes_of(
    alloc: Global,
    module: &Module,
    function: &Function,
    info: &FunctionInfo,
    policies: BoundsCheckPolicies,
) -> Result<Vec<usize>, AllocError>
    requires well_formed { IsWellFormed «module».now }
    requires function { IsFunctionOf «module».now function.now }
    ensures { IfOk result (λ indexes. AreCheckedIndexes «module».now function.now info.now policies indexes.items) }
{
    let checked = find_checked_indexes(alloc, module, function, info, policies)?;
    let indexes = positions_of(alloc, &checked)?;
    Ok(indexes)
}

/// Returns the positions of the types that need a local variable, ascending.
fn local_types_of(
    alloc: Global,
    module: &Module,
    function: &Function,
    info: &FunctionInfo,
    policies: BoundsCheckPolicies,
) -> Result<Vec<usize>, AllocError>
    requires well_formed { IsWellFormed «module».now }
    requires function { IsFunctionOf «module».now function.now }
    ensures { IfOk result (λ types. AreLocalTypes «module».now function.now info.now policies types.items) }
{
    let found = oob_local_types(alloc, module, function, info, policies)?;
    let sorted: BTreeSet<usize> = found.iter().map(|ty| ty.index()).collect(alloc)?;
    let types: Vec<usize> = sorted.into_iter().collect(alloc)?;
    Ok(types)
}

/// Returns the checks that a back end makes for a function under the policies.
///
/// The module is well formed if `check_module` returns `Ok`. With an info of the analysis and known sizes, each access that needs a check
/// is among the accesses.
///
/// # Errors
///
/// `AllocError` if an allocation fails.
pub fn bounds_of(
    alloc: Global,
    module: &Module,
    function: &Function,
    info: &FunctionInfo,
    policies: BoundsCheckPolicies,
) -> Result<FunctionBounds, AllocError>
    requires well_formed { IsWellFormed «module».now }
    requires function { IsFunctionOf «module».now function.now }
    ensures { IfOk result (IsFunctionBounds «module».now function.now info.now policies) }
{
    Ok(FunctionBounds {
        accesses: accesses_of(alloc, module, function, info, policies)?,
        checked_indexes: checked_indexes_of(alloc, module, function, info, policies)?,
        local_types: local_types_of(alloc, module, function, info, policies)?,
    })
}
