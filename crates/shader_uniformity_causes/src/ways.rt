//! The way back through a body, to a source or to a caller.
ghost use Rattle.std.specs.Prelude.{IfOk};
ghost use Rattle.shader_uniformity_causes.specs.Ways.{IsWayBack, IsWayToCaller};

use crate::causes::PassedBy;
use shader_uniformity::{Fact, Rule, shortest_trace};
use std::alloc::{AllocError, Global};

/// A way back from a fact to one with which a call begins.
#[derive(Drop)]
pub struct Way {
    /// The implications on the way.
    pub trace: Vec<Rule>,
    /// The call that passes the fact at the end, or `None` if that is `Always`.
    pub by: Option<PassedBy>,
}

/// Returns the shortest way back to what one of some calls passes, for the first that has any.
fn way_to_caller(
    alloc: Global,
    rules: &[Rule],
    calls: &[PassedBy],
    fact: &Fact,
) -> Result<Option<Way>, AllocError>
    ensures { IfOk result (IsWayToCaller rules.now calls.now fact.now) }
{
    for by in calls {
        match shortest_trace(alloc, rules, &by.pass.beginning, fact)? {
            Some(trace) => {
                return Ok(Some(Way {
                    trace,
                    by: Some(*by),
                }));
            }
            None => {}
        }
    }
    Ok(None)
}

/// Returns the shortest way back from a fact to `Always`, or else one to what a call passes.
pub fn way_back(
    alloc: Global,
    rules: &[Rule],
    calls: &[PassedBy],
    fact: &Fact,
) -> Result<Option<Way>, AllocError>
    ensures { IfOk result (IsWayBack rules.now calls.now fact.now) }
{
    match shortest_trace(alloc, rules, &Fact::Always, fact)? {
        Some(trace) => Ok(Some(Way { trace, by: None })),
        None => {
            let way = way_to_caller(alloc, rules, calls, fact)?;
            Ok(way)
        }
    }
}
