//! One walk over the operands and the statements of a function, which finds all that is recorded of it beside its expressions and pairs.
mod statements;

ghost use Rattle.std.specs.Prelude.{◌≡◌, ◌<◌, ℕ, None, fold, length, replicate, slice_index};
ghost use Rattle.std.specs.List.{list_any};
ghost use Rattle.shader_ir.specs.Occurs.{occurrences, statements};
ghost use Rattle.shader_passes.specs.Calling.{is_call};
ghost use Rattle.shader_passes.specs.CalleeUses.{result_origin_after, uses_with_calls, with_needs_of};
ghost use Rattle.shader_passes.specs.Counting.{bits_in, counts_in};
ghost use Rattle.shader_passes.specs.CountsAndUses.{ref_counts_after};
ghost use Rattle.shader_passes.specs.Ends.{block_ends, block_fault, is_killing};
ghost use Rattle.shader_passes.specs.Facts.{origin_at};
ghost use Rattle.shader_passes.specs.Records.{facts_in};
ghost use Rattle.shader_passes.specs.Walked.{IsCounted};
ghost use Rattle.shader_passes.specs.Walking.{whole_state};

use crate::counting::Counting;
use crate::facts::Root;
use crate::flow::FlowViolation;
use bitflags::Flags;
use shader_arena::Handle;
use shader_info::{ExpressionInfo, FunctionInfo, GlobalUse, Uniformity, UniformityRequirements};
use shader_ir::{Function, mark};
use statements::Walk;

/// What is found of a function, beside what the records of its expressions and the uses of globals hold.
#[derive(Clone, Copy)]
pub struct Found {
    /// An expression whose reference count overflows, if any.
    pub full: Option<Handle<mark::Expression>>,
    /// The first non-uniform control flow violation, if any.
    pub first: Option<FlowViolation>,
    /// Whether the function may end an invocation while others go on.
    pub may_kill: bool,
    /// Whether the function calls another one.
    pub calls: bool,
    /// Its result's origin, and what it needs of the flow.
    pub uniformity: Uniformity,
}

/// Builds the walk, and goes over all operands and statements of a function.
fn walk_whole(
    infos: &[FunctionInfo],
    function: &Function,
    records: &mut [ExpressionInfo],
    roots: &[Root],
    uses: &mut [GlobalUse],
) -> Found
    requires { length records.old ≡ length roots.now }
    ensures records { records.new ≡ (whole_state infos.now roots.now (records.old, uses.old, None) function.now).0 }
    ensures uses { uses.new ≡ (whole_state infos.now roots.now (records.old, uses.old, None) function.now).1 }
    ensures full { result.full ≡ (whole_state infos.now roots.now (records.old, uses.old, None) function.now).2 }
    ensures first { result.first ≡ block_fault (origin_at (facts_in records.old roots.now)) (is_killing infos.now)
        (facts_in records.old roots.now) None function.now.body }
    ensures may_kill { result.may_kill
        ≡ (block_ends (origin_at (facts_in records.old roots.now)) (is_killing infos.now) None function.now.body).kills }
    ensures calls { result.calls ≡ list_any is_call (statements function.now.body) }
    ensures origin { result.uniformity.non_uniform_result
        ≡ fold (result_origin_after infos.now (facts_in records.old roots.now)) None (statements function.now.body) }
    ensures needs { result.uniformity.requirements.0
        ≡ fold (with_needs_of infos.now (facts_in records.old roots.now)) 0 (statements function.now.body) }
{
    let mut counting = Counting {
        records,
        roots,
        uses,
        full: None,
    };
    let mut walk = Walk {
        first: None,
        origin: None,
        requirements: UniformityRequirements::empty(),
        calls: false,
    };
    walk.walk_function(infos, &mut counting, function)
}

/// Counts all operands of a function in the records of its expressions, joins its own uses of globals and those of its callees, and decides
/// how its statements disrupt the flow.
pub fn walk_function(
    infos: &[FunctionInfo],
    function: &Function,
    records: &mut [ExpressionInfo],
    roots: &[Root],
    uses: &mut [GlobalUse],
) -> Found
    requires long { length records.old ≡ length roots.now }
    requires uncounted { counts_in records.old ≡ replicate (length function.now.expressions) 0 }
    requires unused { bits_in uses.old ≡ replicate (length uses.old) 0 }
    ensures counted { IsCounted function.now roots.now records.old records.new result.full }
    ensures uses { (g : ℕ) → g < length uses.new → slice_index (bits_in uses.new) g ≡ uses_with_calls infos.now g
        (slice_index (fold (ref_counts_after (facts_in records.old roots.now)) (
          replicate (length function.now.expressions) 0,
          replicate (length uses.old) 0,
          None,
        ) (occurrences function.now)).1 g) (statements function.now.body) }
    ensures first { result.first ≡ block_fault (origin_at (facts_in records.old roots.now)) (is_killing infos.now)
        (facts_in records.old roots.now) None function.now.body }
    ensures may_kill { result.may_kill
        ≡ (block_ends (origin_at (facts_in records.old roots.now)) (is_killing infos.now) None function.now.body).kills }
    ensures calls { result.calls ≡ list_any is_call (statements function.now.body) }
    ensures origin { result.uniformity.non_uniform_result
        ≡ fold (result_origin_after infos.now (facts_in records.old roots.now)) None (statements function.now.body) }
    ensures needs { result.uniformity.requirements.0
        ≡ fold (with_needs_of infos.now (facts_in records.old roots.now)) 0 (statements function.now.body) }
{
    walk_whole(infos, function, records, roots, uses)
}
