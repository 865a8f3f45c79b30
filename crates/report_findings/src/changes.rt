//! Whether a need of an entry point would still be violated after a change.
ghost use Rattle.std.specs.Prelude.{◌≡◌, IfOk};
ghost use Rattle.report_findings.specs.Changes.{Follows, is_kept, remaining};

use shader_arena::Handle;
use shader_ir::mark;
use shader_uniformity::laws::traces_mark;
use shader_uniformity::{Fact, Rule, shortest_trace};
use std::alloc::{AllocError, Global};

/// A change of an entry point.
#[derive(Clone, Copy)]
pub enum Change {
    /// The statement at this position exits no blocks.
    NoJump(u32),
    /// All invocations compute the same value for an expression.
    OneValue(Handle<mark::Expression>),
}

/// Checks whether an implication holds after a change.
fn is_kept(change: &Change, rule: &Rule) -> bool
    ensures { result ≡ is_kept change.now rule.now }
{
    match change {
        Change::NoJump(jump) => match rule.effect {
            Fact::Leaves(_, _) => match rule.cause {
                Fact::Apart(position) => position != *jump,
                _ => true,
            },
            _ => true,
        },
        Change::OneValue(expression) => match rule.effect {
            Fact::Differs(handle) => handle != *expression,
            _ => true,
        },
    }
}

/// Returns the implications that hold after a change.
fn remaining(alloc: Global, rules: &[Rule], change: &Change) -> Result<Vec<Rule>, AllocError>
    ensures { IfOk result (λ left. left.items ≡ remaining change.now rules.now) }
{
    let mut left = Vec::new(alloc);
    for rule in rules {
        if is_kept(change, rule) {
            left.push(*rule)?;
        }
    }
    Ok(left)
}

/// Returns whether a fact follows from implications.
///
/// # Errors
///
/// `AllocError` if an allocation fails, or there are 2^32 implications.
pub fn follows(alloc: Global, rules: &[Rule], fact: &Fact) -> Result<bool, AllocError>
    ensures { IfOk result (Follows rules.now fact.now) }
{
    traces_mark();
    match shortest_trace(alloc, rules, &Fact::Always, fact)? {
        Some(_) => Ok(true),
        None => Ok(false),
    }
}

/// Returns whether a fact follows from the implications that hold after a change.
///
/// # Errors
///
/// `AllocError` if an allocation fails, or there are 2^32 implications.
pub fn follows_after(
    alloc: Global,
    rules: &[Rule],
    change: &Change,
    fact: &Fact,
) -> Result<bool, AllocError>
    ensures { IfOk result (Follows (remaining change.now rules.now) fact.now) }
{
    let left = remaining(alloc, rules, change)?;
    follows(alloc, left.as_slice(), fact)
}
