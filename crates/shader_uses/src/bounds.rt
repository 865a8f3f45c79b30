//! What a back end checks of a function's indexes.
ghost use Rattle.std.specs.Prelude.{◌≡◌, ◌<◌, ◌↔◌, ℕ, Contains, Some, IfOk, IsTrue, length, slice_get};
ghost use Rattle.shader_typing.specs.ArenaPositions.{is_member};
ghost use Rattle.shader_typing.specs.BoundsTyped.{Records};
ghost use Rattle.shader_typing.specs.Checked.{IsCheckedIndex};
ghost use Rattle.shader_typing.specs.ExactRecord.{IsExactRecord};
ghost use Rattle.shader_typing.specs.Function.{Function};
ghost use Rattle.shader_typing.specs.FunctionInfo.{FunctionInfo};
ghost use Rattle.shader_typing.specs.Lengths.{AreSizesKnown};
ghost use Rattle.shader_typing.specs.Locals.{IsOutOfBoundsType};
ghost use Rattle.shader_typing.specs.WellFormed.{IsWellFormed};

use shader_typing::arena::{Handle, HandleSet};
use shader_typing::ir::{Module, mark};
use shader_typing::proc::index::{
    BoundsCheckPolicies, find_checked_indexes, oob_local_types, sizes_known,
};
use shader_typing::valid::ModuleInfo;
use std::alloc::{AllocError, Global};
use std::collections::HashSet;

/// The checks that a back end makes for a function.
#[derive(Drop)]
pub struct Checks {
    /// True if all arrays have a known length.
    pub sizes_known: bool,
    /// The expressions that index and are checked.
    pub indexes: HandleSet<mark::Expression>,
    /// The types of the locals that stand for what is out of bounds.
    pub locals: HashSet<Handle<mark::Type>>,
}

/// Returns what a back end checks of a function of an analysed module.
///
/// # Errors
///
/// `AllocError` if memory can't be allocated.
#[tactic(auto, using(shader_typing::proofs::Answering::function_count, shader_typing::proofs::Fitting::is_function_at))]
pub fn checks_of(
    alloc: Global,
    module: &Module,
    info: &ModuleInfo,
    function: Handle<mark::Function>,
    policies: BoundsCheckPolicies,
) -> Result<Checks, AllocError>
    requires well_formed { IsWellFormed «module».now }
    requires exact { IsExactRecord «module».now info.now }
    requires there { function < length «module».now.functions }
    ensures sizes { IfOk result (λ checks. IsTrue checks.sizes_known ↔ AreSizesKnown «module».now) }
    ensures indexes { IfOk result (λ checks. (f : Function) (of : FunctionInfo) → slice_get «module».now.functions function ≡ Some f →
        slice_get info.now.functions function ≡ Some of → (e : ℕ) → IsTrue (is_member checks.indexes e)
        ↔ IsCheckedIndex «module».now f (Records of) policies e) }
    ensures locals { IfOk result (λ checks. (f : Function) (of : FunctionInfo) → slice_get «module».now.functions function ≡ Some f →
        slice_get info.now.functions function ≡ Some of → (ty : ℕ) → Contains checks.locals.keys ty
        ↔ IsOutOfBoundsType «module».now f (Records of) policies ty) }
{
    let of = &info[function];
    let function = &module.functions[function];
    Ok(Checks {
        sizes_known: sizes_known(module),
        indexes: find_checked_indexes(alloc, module, function, of, policies)?,
        locals: oob_local_types(alloc, module, function, of, policies)?,
    })
}
