//! What the causes of a violated need are about, and why.

use crate::owners::{Branch, broken_by, owner_of};
use crate::reasons::Reason;
use shader_arena::Handle;
use shader_ir::{AddressSpace, Expression, Function, Module, mark};
use shader_uniformity::{Fact, Jump, Place, Rule};

/// What a cause is about, and why it is one. Statements are given by their positions.
#[derive(Clone, Copy)]
pub enum Said {
    /// A statement.
    Statement(u32, Reason),
    /// An expression by which the statement at the position decides.
    Condition(u32, Handle<mark::Expression>, Reason),
    /// An expression, at the statement that evaluates it.
    Expression(Handle<mark::Expression>, Reason),
    /// An argument of the function.
    Argument(u32, Reason),
    /// An expression whose value is stored to memory.
    Stored(Handle<mark::Expression>, Place),
    /// A statement that stores to memory.
    Store(u32, Place),
    /// An expression that has a name.
    Let(Handle<mark::Expression>),
    /// A step that an author need not know.
    Nothing,
}

/// Returns why a statement that exits blocks is a cause. The first of these blocks is at a position.
fn jump_reason(function: &Function, jump: Jump, block: u32) -> Reason {
    match jump {
        Jump::Return => Reason::Returns,
        Jump::Break => match broken_by(&function.body, block) {
            Branch::Switch => Reason::LeavesSwitch,
            _ => Reason::LeavesLoop,
        },
        Jump::Continue => Reason::SkipsRound,
    }
}

/// Returns why a value by which a statement enters its blocks is a cause.
fn branch_reason(branch: Branch) -> Reason {
    match branch {
        Branch::If => Reason::Branches,
        Branch::Switch => Reason::Cases,
        Branch::Loop => Reason::Rounds,
    }
}

/// Returns why a value always differs, by the form of its expression.
fn source_reason(expression: &Expression) -> Reason {
    match expression {
        Expression::Derivative { .. } => Reason::Derivative,
        Expression::ImageSample { .. } => Reason::Sample,
        Expression::AtomicResult { .. } => Reason::Atomic,
        Expression::RayQueryProceedResult => Reason::RayQuery,
        Expression::SubgroupBallotResult | Expression::SubgroupOperationResult { .. } =>
            Reason::Subgroup,
        Expression::CallResult(_) => Reason::Call,
        _ => Reason::Differs,
    }
}

/// Returns why a value differs that is read from memory in an address space.
fn memory_reason(space: AddressSpace) -> Reason {
    match space {
        AddressSpace::WorkGroup => Reason::WorkGroupMemory,
        AddressSpace::Storage { .. } => Reason::Storage,
        AddressSpace::Handle => Reason::StorageTexture,
        AddressSpace::Private => Reason::PrivateVariable,
        _ => Reason::Memory,
    }
}

/// Returns the operand that tells which memory an expression reads.
fn pointer_of(expression: &Expression) -> Option<Handle<mark::Expression>> {
    match expression {
        Expression::Load { pointer } => Some(*pointer),
        Expression::ImageLoad { image, .. } => Some(*image),
        Expression::Access { base, .. } => Some(*base),
        Expression::AccessIndex { base, .. } => Some(*base),
        _ => None,
    }
}

/// Returns the global variable that an expression reads, if it names one through accesses.
fn global_read(function: &Function, read: &Expression) -> Option<Handle<mark::GlobalVariable>> {
    let mut expression = read;
    for _ in 0..function.expressions.len().saturating_add(1) {
        match expression {
            Expression::GlobalVariable(variable) => return Some(*variable),
            other => expression = function.expressions.try_get(pointer_of(other)?)?,
        }
    }
    None
}

/// Returns why a value differs that is read from memory.
fn load_reason(module: &Module, function: &Function, read: &Expression) -> Reason {
    match global_read(function, read) {
        Some(variable) => match module.global_variables.try_get(variable) {
            Some(global) => memory_reason(global.space),
            None => Reason::Memory,
        },
        None => Reason::Memory,
    }
}

/// Returns what is said of an expression that always differs.
fn source(function: &Function, handle: Handle<mark::Expression>) -> Said {
    match function.expressions.try_get(handle) {
        Some(Expression::FunctionArgument(index)) => Said::Argument(*index, Reason::OwnValue),
        Some(expression) => Said::Expression(handle, source_reason(expression)),
        None => Said::Nothing,
    }
}

/// Returns what is said of an expression that reads memory which differs.
fn load(module: &Module, function: &Function, handle: Handle<mark::Expression>) -> Said {
    match function.expressions.try_get(handle) {
        Some(expression) => Said::Expression(handle, load_reason(module, function, expression)),
        None => Said::Nothing,
    }
}

/// Returns what is said of a differing value by which invocations enter the block at a position.
fn branch(function: &Function, condition: Handle<mark::Expression>, block: u32) -> Said {
    match owner_of(&function.body, block) {
        Some((owner, branch)) => Said::Condition(owner, condition, branch_reason(branch)),
        None => Said::Nothing,
    }
}

/// Returns what is said of an expression that differs for a reason other than its operands.
fn differing(function: &Function, handle: Handle<mark::Expression>) -> Said {
    match function.expressions.try_get(handle) {
        Some(Expression::CallResult(_)) => Said::Expression(handle, Reason::Call),
        Some(_) => Said::Expression(handle, Reason::ComputedApart),
        None => Said::Nothing,
    }
}

/// Checks whether an expression has a name.
pub fn is_named(function: &Function, handle: Handle<mark::Expression>) -> bool {
    function.named_expressions.get(&handle).is_some()
}

/// Returns what is said of an expression that differs where another one does.
fn derived(function: &Function, handle: Handle<mark::Expression>) -> Said {
    match function.expressions.try_get(handle) {
        Some(Expression::CallResult(_)) => Said::Expression(handle, Reason::Call),
        Some(_) if is_named(function, handle) => Said::Let(handle),
        _ => Said::Nothing,
    }
}

/// Returns what is said of the cause by which only some invocations reach a position.
fn of_apart(function: &Function, cause: &Fact, position: u32) -> Said {
    match cause {
        Fact::Differs(condition) => branch(function, *condition, position),
        _ => Said::Nothing,
    }
}

/// Returns what is said of the cause by which only some invocations exit a block.
fn of_leaving(function: &Function, cause: &Fact, jump: Jump, block: u32) -> Said {
    match cause {
        Fact::Apart(position) => Said::Statement(*position, jump_reason(function, jump, block)),
        _ => Said::Nothing,
    }
}

/// Returns what is said of the cause by which an expression differs.
fn of_differing(
    module: &Module,
    function: &Function,
    cause: &Fact,
    handle: Handle<mark::Expression>,
) -> Said {
    match cause {
        Fact::Always => source(function, handle),
        Fact::Argument(index) => Said::Argument(*index, Reason::PassedValues),
        Fact::Holds(place, _) => match place {
            Place::Shared => load(module, function, handle),
            _ => Said::Nothing,
        },
        Fact::Apart(_) => differing(function, handle),
        Fact::Differs(_) => derived(function, handle),
        _ => Said::Nothing,
    }
}

/// Returns what is said of the cause by which memory holds different values.
fn of_holding(cause: &Fact, place: Place) -> Said {
    match cause {
        Fact::Behind(index) => Said::Argument(*index, Reason::PointedValues),
        Fact::Differs(handle) => Said::Stored(*handle, place),
        Fact::Apart(position) => Said::Store(*position, place),
        _ => Said::Nothing,
    }
}

/// Returns what is said of the cause by which a function returns different values.
fn of_giving(cause: &Fact) -> Said {
    match cause {
        Fact::Differs(handle) => Said::Expression(*handle, Reason::ReturnedValues),
        Fact::Apart(position) => Said::Statement(*position, Reason::ReturnsElsewhere),
        _ => Said::Nothing,
    }
}

/// Returns what is said of a cause in the body of a function.
pub fn said_of(module: &Module, function: &Function, rule: &Rule) -> Said {
    match &rule.effect {
        Fact::Apart(position) => of_apart(function, &rule.cause, *position),
        Fact::Leaves(jump, block) => of_leaving(function, &rule.cause, *jump, *block),
        Fact::Differs(handle) => of_differing(module, function, &rule.cause, *handle),
        Fact::Holds(place, _) => of_holding(&rule.cause, *place),
        Fact::Gives => of_giving(&rule.cause),
        _ => Said::Nothing,
    }
}

/// Returns what is said of a fact of the caller by which a call passes on what differs.
pub fn passed(fact: &Fact) -> Said {
    match fact {
        Fact::Apart(position) => Said::Statement(*position, Reason::CalledApart),
        Fact::Differs(handle) => Said::Expression(*handle, Reason::Passed),
        _ => Said::Nothing,
    }
}
