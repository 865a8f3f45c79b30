//! What to do about a violated need, by what would follow after a change of its function or entry point.
ghost use Rattle.std.specs.Prelude.{◌≡◌, false, IfOk, IfSome};
ghost use Rattle.report_findings.specs.Changes.{Follows, remaining};
ghost use Rattle.report_findings.specs.Help.{IfBehind, IfBehindInCalls, IfMoved, IfNoJump, IfOneValue, IsInOwnIf, IsWayToNeed};
ghost use Rattle.shader_uniformity_causes.specs.Callers.{AreCallers};
ghost use Rattle.shader_uniformity_needs.specs.Violations.{MayHold};

use crate::changes::{Change, follows, follows_after};
use crate::owners::{Around, own_if};
use crate::steady::is_steady;
use report_messages::{expression_text, result_text};
use report_names::{barrier_text, global_text, memory_barrier_text};
use report_places::{PathStep, StatementAt};
use shader_arena::Handle;
use shader_ir::{AddressSpace, Expression, Function, Items, Module, Statement, mark};
use shader_uniformity::{BodyLocation, Fact, Jump, Place, Rule};
use shader_uniformity_causes::{Cause, PassedBy, causes_of};
use shader_uniformity_needs::{Need, NeedKind};
use std::alloc::{AllocError, Global};

/// A violated need of a function or an entry point.
#[derive(Drop)]
pub struct BodyNeed<'a> {
    pub module: &'a Module,
    pub function: &'a Function,
    pub place: BodyLocation,
    /// The implications of the function.
    pub rules: Vec<Rule>,
    pub need: Need,
    /// The statement that has the need, and the way to it, if it was found.
    pub at: Option<StatementAt<'a>>,
}

/// Returns the word for a statement that exits blocks.
fn jump_word(jump: Jump) -> &'static str {
    match jump {
        Jump::Return => "return",
        Jump::Break => "break",
        Jump::Continue => "continue",
    }
}

/// Returns the first statement of a chain of causes that exits blocks.
fn first_jump(chain: &[Cause]) -> Option<(u32, Jump)> {
    for cause in chain {
        if let Fact::Leaves(jump, _) = cause.rule.effect {
            if let Fact::Apart(position) = cause.rule.cause {
                return Some((position, jump));
            }
        }
    }
    None
}

/// Returns the first expression of a chain of causes that reads memory which other invocations may have written.
fn first_load(chain: &[Cause]) -> Option<Handle<mark::Expression>> {
    for cause in chain {
        if let Fact::Differs(expression) = cause.rule.effect {
            if let Fact::Holds(Place::Shared, _) = cause.rule.cause {
                return Some(expression);
            }
        }
    }
    None
}

/// Returns the help to compute something at the start of an entry point. A text that is abbreviated says less than the other words.
pub fn start_words(
    alloc: Global,
    text: &str,
    other: &str,
    name: &str,
) -> Result<String, AllocError> {
    let what = if text.contains("...") {
        other.to_string(alloc)?
    } else {
        format!(in alloc; "`{text}`")?
    };
    let start = format!(in alloc; "compute {what} at the start of `{name}`")?;
    format!(in alloc; "{start}, before control flow diverges: it reads nothing that changes")
}

/// Returns a need of a derivative or a sample in words.
fn kind_words(kind: NeedKind) -> &'static str {
    match kind {
        NeedKind::ImplicitLevel => "the sample",
        _ => "the derivative",
    }
}

/// Checks whether control flow may diverge at a position in a call of the function or entry point at a place.
fn may_diverge(
    alloc: Global,
    module: &Module,
    known: &[Items<Rule>],
    callers: &[Vec<PassedBy>],
    place: BodyLocation,
    position: u32,
) -> Result<bool, AllocError>
    requires { AreCallers «module».now known.now callers.now }
    ensures { IfOk result (λ may. may ≡ false → MayHold «module».now known.now place (Fact.Apart position) → ⊥) }
{
    match causes_of(alloc, module, known, callers, place, &Fact::Apart(position))? {
        Some(_) => Ok(true),
        None => Ok(false),
    }
}

impl BodyNeed<'_> {
    /// Returns the text of what needs uniform control flow.
    fn text(&self, alloc: Global) -> Result<String, AllocError> {
        let function = self.function;
        let statement = match &self.at {
            Some(at) => Some(at.statement),
            None => None,
        };
        match statement {
            Some(Statement::ControlBarrier(barrier)) => barrier_text(alloc, *barrier),
            Some(Statement::MemoryBarrier(barrier)) => memory_barrier_text(alloc, *barrier),
            Some(Statement::WorkGroupUniformLoad { result, .. }) => {
                result_text(alloc, self.module, function, *result)
            }
            _ => match self.need.expression {
                Some(expression) => result_text(alloc, self.module, function, expression),
                None => String::from_str(alloc, "it"),
            },
        }
    }

    /// Returns whether the need would still be violated after a change.
    fn is_violated_after(&self, alloc: Global, change: Change) -> Result<bool, AllocError>
        ensures { IfOk result (Follows (remaining change self.now.rules.items) self.now.need.violated_by) }
    {
        follows_after(
            alloc,
            self.rules.as_slice(),
            &change,
            &self.need.violated_by,
        )
    }

    /// Returns whether control flow diverges at a position.
    fn diverges_at(&self, alloc: Global, position: u32) -> Result<bool, AllocError>
        ensures { IfOk result (Follows self.now.rules.items (Fact.Apart position)) }
    {
        follows(alloc, self.rules.as_slice(), &Fact::Apart(position))
    }

    /// Returns the help for an expression that may as well be computed at the start, where all invocations are.
    pub fn start_help(&self, alloc: Global, name: &str) -> Result<Option<String>, AllocError>
        ensures { IfOk result (IfMoved self.now) }
    {
        let Some(expression) = self.need.expression else {
            return Ok(None);
        };
        let function = self.function;
        if !is_steady(alloc, self.module, function, expression)? {
            return Ok(None);
        }
        let text = expression_text(alloc, self.module, function, expression)?;
        let help = start_words(alloc, text.as_str(), kind_words(self.need.kind), name)?;
        Ok(Some(help))
    }

    /// Returns where the `if` of the function's own statements stands in whose blocks a barrier is, if it is in such a block.
    fn own_if(&self) -> Result<Option<Around>, AllocError>
        requires { IsWayToNeed self.now }
        ensures { IfOk result (λ found. IfSome found (λ around. IsInOwnIf self.now around.begin around.end)) }
    {
        let Some(at) = &self.at else {
            return Ok(None);
        };
        match (self.need.kind, at.path.steps.as_slice()) {
            (
                NeedKind::Barrier | NeedKind::MemoryBarrier,
                [
                    PathStep::Statement(index),
                    PathStep::Accept | PathStep::Reject,
                    PathStep::Statement(_),
                ],
            ) => own_if(&self.function.body, *index),
            _ => Ok(None),
        }
    }

    /// Returns the help to move a barrier behind an `if`.
    fn behind_words(&self, alloc: Global) -> Result<String, AllocError> {
        let text = self.text(alloc)?;
        format!(in alloc; "move `{text}` after the `if`, so that all invocations reach it")
    }

    /// Returns the help for a barrier in an `if` of the entry point's own statements, at which and after which all invocations are.
    pub fn move_help(&self, alloc: Global) -> Result<Option<String>, AllocError>
        requires { IsWayToNeed self.now }
        ensures { IfOk result (IfBehind self.now) }
    {
        let Some(around) = self.own_if()? else {
            return Ok(None);
        };
        if self.diverges_at(alloc, around.begin)? || self.diverges_at(alloc, around.end)? {
            return Ok(None);
        }
        Ok(Some(self.behind_words(alloc)?))
    }

    /// Returns the help for a barrier in an `if` of the function's own statements, at which and after which all invocations are in each
    /// call of the function.
    pub fn move_in_calls_help(
        &self,
        alloc: Global,
        known: &[Items<Rule>],
        callers: &[Vec<PassedBy>],
    ) -> Result<Option<String>, AllocError>
        requires callers { AreCallers self.now.«module».now known.now callers.now }
        requires way { IsWayToNeed self.now }
        ensures { IfOk result (IfBehindInCalls known.now self.now) }
    {
        let module = self.module;
        let Some(around) = self.own_if()? else {
            return Ok(None);
        };
        if may_diverge(alloc, module, known, callers, self.place, around.begin)? {
            return Ok(None);
        }
        if may_diverge(alloc, module, known, callers, self.place, around.end)? {
            return Ok(None);
        }
        Ok(Some(self.behind_words(alloc)?))
    }

    /// Returns the help for a need that isn't violated without a statement that exits blocks.
    pub fn jump_help(&self, alloc: Global, chain: &[Cause]) -> Result<Option<String>, AllocError>
        ensures { IfOk result (IfNoJump self.now) }
    {
        let Some((position, jump)) = first_jump(chain) else {
            return Ok(None);
        };
        if self.is_violated_after(alloc, Change::NoJump(position))? {
            return Ok(None);
        }
        let word = jump_word(jump);
        let text = self.text(alloc)?;
        let work = format!(in alloc;
            "put the work after the `{word}` under an `if` instead of leaving by `{word}`"
        )?;
        let help = format!(in alloc; "{work}, and keep `{text}` outside of it")?;
        Ok(Some(help))
    }

    /// Returns the help for a need that isn't violated if all invocations read the same value of a variable of the workgroup.
    pub fn load_help(&self, alloc: Global, chain: &[Cause]) -> Result<Option<String>, AllocError>
        ensures { IfOk result (IfOneValue self.now) }
    {
        let Some(load) = first_load(chain) else {
            return Ok(None);
        };
        let Some(variable) = self.loaded(load) else {
            return Ok(None);
        };
        if self.is_violated_after(alloc, Change::OneValue(load))? {
            return Ok(None);
        }
        let name = global_text(alloc, self.module, variable)?;
        let help = format!(in alloc;
            "read `{name}` with `workgroupUniformLoad(&{name})`, which gives all invocations one value"
        )?;
        Ok(Some(help))
    }

    /// Returns the variable of the workgroup that an expression loads, if it loads one as a whole.
    fn loaded(&self, load: Handle<mark::Expression>) -> Option<Handle<mark::GlobalVariable>> {
        let expressions = &self.function.expressions;
        let Some(Expression::Load { pointer }) = expressions.try_get(load) else {
            return None;
        };
        let Some(Expression::GlobalVariable(variable)) = expressions.try_get(*pointer) else {
            return None;
        };
        match self.module.global_variables.try_get(*variable) {
            Some(global) if matches!(global.space, AddressSpace::WorkGroup) => Some(*variable),
            _ => None,
        }
    }
}
