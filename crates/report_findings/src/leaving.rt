//! The `return` or `discard` by which naga takes control flow to diverge at an expression, if only one may be meant.

use shader_arena::Handle;
use shader_ir::{Block, Function, Module, Statement, mark};
use shader_uniformity::function_at;
use std::alloc::{AllocError, Global};

/// How invocations may have left before an expression.
#[derive(Clone, Copy)]
pub enum Leaving {
    Returned,
    Discarded,
}

/// What is looked for.
#[derive(Clone, Copy)]
struct Sought<'a> {
    leaving: Leaving,
    /// The expression before which invocations may have left.
    before: Option<Handle<mark::Expression>>,
    /// For each function whether invocations may be discarded in it.
    discarding: &'a [bool],
}

/// A walk along the statements of a function, by their positions, which are those of `shader_uniformity`.
#[derive(Clone, Copy)]
struct Walk {
    position: u32,
    /// How many statements by which invocations leave have been passed.
    count: usize,
    /// The position of the last one that isn't a call.
    last: Option<u32>,
    /// True at the expression.
    is_over: bool,
}

impl Walk {
    /// Returns a walk that begins at a position.
    fn from(position: u32) -> Walk {
        Walk {
            position,
            count: 0,
            last: None,
            is_over: false,
        }
    }

    /// Returns the walk so many positions later.
    fn later(self, positions: u32) -> Walk {
        Walk {
            position: self.position.saturating_add(positions),
            ..self
        }
    }

    /// Returns the walk behind a statement by which invocations leave.
    fn behind_one(self, mark: Option<u32>) -> Walk {
        Walk {
            count: self.count.saturating_add(1),
            last: mark,
            ..self
        }
    }
}

/// Checks whether an `Emit` evaluates the expression at which a walk is over.
fn is_end(statement: &Statement, sought: &Sought<'_>) -> bool {
    match (statement, sought.before) {
        (Statement::Emit(range), Some(expression)) => {
            let positions = range.index_range();
            let index = expression.index();
            positions.start as usize <= index && index < positions.end as usize
        }
        _ => false,
    }
}

/// Passes a statement without blocks.
fn in_leaf(statement: &Statement, walk: Walk, sought: &Sought<'_>) -> Walk {
    if is_end(statement, sought) {
        return Walk {
            is_over: true,
            ..walk
        };
    }
    let here = Some(walk.position);
    let passed = match (statement, sought.leaving) {
        (Statement::Return { .. }, Leaving::Returned) => walk.behind_one(here),
        (Statement::Kill, Leaving::Discarded) => walk.behind_one(here),
        (Statement::Call { function, .. }, Leaving::Discarded) => {
            if sought
                .discarding
                .get(function.index())
                .copied()
                .unwrap_or(false)
            {
                walk.behind_one(None)
            } else {
                walk
            }
        }
        _ => walk,
    };
    passed.later(1)
}

/// Passes a statement. The cases of a `Switch` together and the rounds of a `Loop` have a position too.
#[cycle(leaving)]
fn in_statement(statement: &Statement, walk: Walk, sought: &Sought<'_>) -> Walk {
    match statement {
        Statement::Block(inner) => in_block(inner, walk.later(1), sought),
        Statement::If { accept, reject, .. } => {
            let walk = in_block(accept, walk.later(1), sought);
            in_block(reject, walk, sought)
        }
        Statement::Loop {
            body,
            continuing,
            ..
        } => {
            let walk = in_block(body, walk.later(2), sought);
            in_block(continuing, walk, sought)
        }
        Statement::Switch { cases, .. } => {
            let mut walk = walk.later(2);
            for case in cases {
                walk = in_block(&case.body, walk, sought);
            }
            walk
        }
        other => in_leaf(other, walk, sought),
    }
}

/// Passes the statements of a block, unless the walk is over.
#[cycle(leaving)]
fn in_block(block: &Block, walk: Walk, sought: &Sought<'_>) -> Walk {
    let mut walk = walk;
    for statement in &block.statements {
        if walk.is_over {
            return walk;
        }
        walk = in_statement(statement, walk, sought);
    }
    if walk.is_over { walk } else { walk.later(1) }
}

/// Returns for each function whether invocations may be discarded in it, or in one that it calls.
fn discarding_functions(alloc: Global, module: &Module) -> Result<Vec<bool>, AllocError> {
    let mut discarding = Vec::new(alloc);
    for index in 0..module.functions.len() {
        let is_discarding = match function_at(module, index) {
            Some(function) => {
                let sought = Sought {
                    leaving: Leaving::Discarded,
                    before: None,
                    discarding: discarding.as_slice(),
                };
                in_block(&function.body, Walk::from(1), &sought).count > 0
            }
            None => false,
        };
        discarding.push(is_discarding)?;
    }
    Ok(discarding)
}

/// Returns the position of the statement by which invocations may have left before an expression, if there is only one.
///
/// # Errors
///
/// `AllocError` if an allocation fails.
pub fn left_at(
    alloc: Global,
    module: &Module,
    function: &Function,
    leaving: Leaving,
    expression: Handle<mark::Expression>,
) -> Result<Option<u32>, AllocError> {
    let discarding = match leaving {
        Leaving::Returned => Vec::new(alloc),
        Leaving::Discarded => discarding_functions(alloc, module)?,
    };
    let sought = Sought {
        leaving,
        before: Some(expression),
        discarding: discarding.as_slice(),
    };
    let walk = in_block(&function.body, Walk::from(1), &sought);
    Ok(if walk.count == 1 { walk.last } else { None })
}
