//! Implications, positions and moments.
ghost use Rattle.std.specs.Prelude.{◌≡◌, ◌+◌, ◌∷◌, ◌++◌, [], IfOk, OnOk};
ghost use Rattle.shader_uniformity.specs.Marks.{leads};
ghost use Rattle.shader_uniformity.specs.Positions.{reads_at, writes_at};

use crate::facts::{Fact, Place, Rule};
use shader_arena::Arena;
use shader_ir::{Expression, Items, mark};
use std::alloc::AllocError;

/// Adds an implication.
pub fn add_rule(rules: &mut Vec<Rule>, cause: Fact, effect: Fact) -> Result<(), AllocError>
    ensures { OnOk result (rules.new.items ≡ rules.old.items ++ leads cause effect ∷ []) }
{
    rules.push(Rule { cause, effect })?;
    Ok(())
}

/// Returns the next position. No module in memory is so large that positions run out.
pub fn next(position: u32) -> Result<u32, AllocError>
    ensures { IfOk result (λ behind. behind ≡ position + 1) }
{
    match position.checked_add(1) {
        Some(behind) => Ok(behind),
        None => Err(AllocError),
    }
}

/// Returns the moment at which the statement at a position reads memory.
pub fn reads_at(position: u32, around: Option<u32>) -> u32
    ensures { result ≡ reads_at position around }
{
    match around {
        Some(first) => first,
        None => position,
    }
}

/// Returns the moment at which the statement at a position writes memory.
pub fn writes_at(position: u32, around: Option<u32>) -> Result<u32, AllocError>
    ensures { IfOk result (λ moment. moment ≡ writes_at position around) }
{
    match around {
        Some(first) => Ok(first),
        None => next(position),
    }
}

/// The context of a function's implications, in addition to its statements.
#[derive(Clone, Copy)]
pub struct Scope<'a> {
    pub expressions: &'a Arena<Expression, mark::Expression>,
    pub places: &'a [Place],
    /// The summary of each function that may be called.
    pub callees: &'a [Items<Rule>],
    /// True if non-uniform derivatives and implicit levels are errors under the diagnostic filters.
    pub severe: bool,
}
