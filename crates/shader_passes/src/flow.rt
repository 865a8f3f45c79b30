//! What disrupts the flow, and the expressions that need undisrupted flow.
ghost use Rattle.std.specs.Prelude.{◌≡◌};
ghost use Rattle.shader_arena.specs.Positions.{positions_between};
ghost use Rattle.shader_passes.specs.Ends.{disruptor_after, either, exit_cause, first_requiring, flow_violation, is_killing, on_branch};
ghost use Rattle.shader_passes.specs.Ends.{requires_uniform_flow};
ghost use Rattle.shader_passes.specs.Facts.{origin_at};

use crate::facts::Facts;
use bitflags::Flags;
use shader_arena::{Handle, Range};
use shader_info::{FunctionInfo, UniformityDisruptor, UniformityRequirements};
use shader_ir::mark;

/// The ways in which only some of the invocations may leave a block.
#[derive(Clone, Copy)]
pub struct Exits {
    pub returns: bool,
    pub kills: bool,
}

/// A non-uniform control flow violation: an expression that is emitted in disrupted flow, and what it needs of the flow.
#[derive(Clone, Copy)]
pub struct FlowViolation {
    pub requirements: UniformityRequirements,
    pub expression: Handle<mark::Expression>,
    pub disruptor: UniformityDisruptor,
}

/// No invocation leaves the block.
pub(crate) const STAYS: Exits = Exits {
    returns: false,
    kills: false,
};

/// Returns whether the function may end an invocation in flow that others don't follow.
#[inline(always)]
pub(crate) fn may_kill(infos: &[FunctionInfo], function: Handle<mark::Function>) -> bool
    ensures { result ≡ is_killing infos.now function }
{
    match infos.get(function.index()) {
        Some(info) => info.may_kill,
        None => false,
    }
}

/// Returns what disrupts the flow after the exits.
#[inline(always)]
fn exit_disruptor(exits: &Exits) -> Option<UniformityDisruptor>
    ensures { result ≡ exit_cause exits.now }
{
    if exits.returns {
        Some(UniformityDisruptor::Return)
    } else if exits.kills {
        Some(UniformityDisruptor::Discard)
    } else {
        None
    }
}

/// Returns what disrupts the flow after a statement.
#[inline(always)]
pub(crate) fn disruptor_after(
    disruptor: &Option<UniformityDisruptor>,
    exits: &Exits,
) -> Option<UniformityDisruptor>
    ensures { result ≡ disruptor_after disruptor.now exits.now }
{
    match disruptor {
        Some(cause) => Some(*cause),
        None => exit_disruptor(exits),
    }
}

/// Returns what disrupts the flow in a branch.
#[inline(always)]
pub(crate) fn on_branch(
    facts: &Facts<'_>,
    disruptor: &Option<UniformityDisruptor>,
    condition: Handle<mark::Expression>,
) -> Option<UniformityDisruptor>
    ensures { result ≡ on_branch (origin_at facts.now) disruptor.now condition }
{
    match disruptor {
        Some(cause) => Some(*cause),
        None => match facts.origin_of(condition) {
            Some(origin) => Some(UniformityDisruptor::Expression(origin)),
            None => None,
        },
    }
}

/// Returns how some of the invocations may leave a block by one of two ways.
#[inline(always)]
pub(crate) fn either(left: &Exits, right: &Exits) -> Exits
    ensures { result ≡ either left.now right.now }
{
    Exits {
        returns: left.returns | right.returns,
        kills: left.kills | right.kills,
    }
}

/// Returns whether an expression needs undisrupted flow.
fn requires_uniform_flow(facts: &Facts<'_>, expression: Handle<mark::Expression>) -> bool
    ensures { result ≡ requires_uniform_flow facts.now expression }
{
    !facts.requirements_of(expression).is_empty()
}

/// Returns the first expression of a range that needs undisrupted flow.
fn first_requiring(
    facts: &Facts<'_>,
    range: &Range<mark::Expression>,
) -> Option<Handle<mark::Expression>>
    ensures { result ≡ first_requiring facts.now (positions_between range.now.0 range.now.1) }
{
    for expression in range.iter() {
        if requires_uniform_flow(facts, expression) {
            return Some(expression);
        }
    }
    None
}

/// Returns the first violation by an expression of the range, if the flow is disrupted.
pub(crate) fn violation_in(
    facts: &Facts<'_>,
    disruptor: &Option<UniformityDisruptor>,
    range: &Range<mark::Expression>,
) -> Option<FlowViolation>
    ensures { result ≡ flow_violation facts.now disruptor.now (first_requiring facts.now (positions_between range.now.0 range.now.1)) }
{
    match disruptor {
        Some(cause) => match first_requiring(facts, range) {
            Some(expression) => Some(FlowViolation {
                requirements: facts.requirements_of(expression),
                expression,
                disruptor: *cause,
            }),
            None => None,
        },
        None => None,
    }
}
