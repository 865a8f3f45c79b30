//! Contributions of callees to a function's results, uses of globals that are only named, and what emitted expressions need.
ghost use Rattle.std.specs.Prelude.{◌≡◌, ℕ, ◌<◌, length, slice_index, bit_or, fold, map};
ghost use Rattle.shader_arena.specs.Positions.{positions_between};
ghost use Rattle.shader_passes.specs.CalleeUses.{bits_at, named_by, named_once, recorded_uses, with_needs_in};
ghost use Rattle.shader_passes.specs.Counting.{bits_in};
ghost use Rattle.shader_passes.specs.Walking.{joined};

use crate::facts::Facts;
use bitflags::Flags;
use shader_arena::{Handle, Range};
use shader_info::{FunctionInfo, GlobalUse, UniformityRequirements};
use shader_ir::{NamedExpressions, mark};

/// Returns the recorded uses of a function.
#[inline(always)]
pub(crate) fn recorded_uses(
    infos: &[FunctionInfo],
    function: Handle<mark::Function>,
) -> &[GlobalUse]
    ensures { result.now ≡ recorded_uses infos.now function }
{
    match infos.get(function.index()) {
        Some(info) => info.global_uses.as_slice(),
        None => &[],
    }
}

/// Adds other uses to the uses, global by global.
#[tactic(auto, using(crate::proofs::UsesLemmas::bits))]
fn add_uses(uses: &mut [GlobalUse], other: &[GlobalUse])
    ensures { (g : ℕ) → g < length uses.new → slice_index (bits_in uses.new) g
        ≡ bit_or (slice_index (bits_in uses.old) g) (bits_at other.now g) }
{
    let both = uses.len().min(other.len());
    for position in 0..both {
        uses[position].0 = uses[position].0 | other[position].known().0;
    }
}

/// Joins other uses to the uses, global by global.
#[tactic(auto, using(crate::proofs::JoinLemmas::joins))]
pub(crate) fn join_uses(uses: &mut [GlobalUse], other: &[GlobalUse])
    ensures { uses.new ≡ joined uses.old other.now }
{
    add_uses(uses, other);
}

/// Marks a global without uses as queried, because it is named.
#[tactic(auto, using(crate::proofs::UsesLemmas::bits))]
fn name_global(uses: &mut [GlobalUse], global: Option<Handle<mark::GlobalVariable>>)
    ensures { bits_in uses.new ≡ named_once (bits_in uses.old) global }
{
    if let Some(global) = global {
        let position = global.index();
        if position < uses.len() && uses[position].0 == 0 {
            uses[position] = GlobalUse::QUERY;
        }
    }
}

/// Marks each global without uses that a named expression points into as queried.
pub fn name_globals(facts: &Facts<'_>, uses: &mut [GlobalUse], named: &NamedExpressions)
    ensures { bits_in uses.new ≡ fold (named_by facts.now) (bits_in uses.old) (map (λ entry. entry.0) named.now) }
{
    for (expression, _) in named.iter() {
        name_global(uses, facts.root_of(*expression));
    }
}

/// Returns what the expressions of a range need of the flow.
pub(crate) fn emitted_needs(
    facts: &Facts<'_>,
    range: &Range<mark::Expression>,
) -> UniformityRequirements
    ensures { result.0 ≡ with_needs_in facts.now 0 (positions_between range.now.0 range.now.1) }
{
    let mut requirements = UniformityRequirements::empty();
    for expression in range.iter() {
        requirements = requirements | facts.requirements_of(expression);
    }
    requirements
}
