//! The statement of a function that isn't well formed.

use crate::lists::Lengths;
use crate::missing::of_statement;
use report_places::PathStep;
use shader_ir::{Block, Module, Statement};
use shader_resolve::ModuleFault;
use std::alloc::AllocError;

/// What is searched.
#[derive(Drop)]
pub struct Search<'a> {
    pub module: &'a Module,
    pub lengths: Lengths,
    /// The number of functions that may be called.
    pub earlier: usize,
    pub fault: ModuleFault,
}

impl<'a> Search<'a> {
    /// Checks whether a statement has the fault itself.
    fn is_faulty(&self, statement: &Statement) -> bool {
        match self.fault {
            ModuleFault::HandleOutOfRange => of_statement(&self.lengths, statement).is_some(),
            ModuleFault::EmitRange => match statement {
                Statement::Emit(range) => {
                    self.lengths.expressions < range.index_range().end as usize
                }
                _ => false,
            },
            ModuleFault::CalleeNotEarlier => match statement {
                Statement::Call { function, .. } => self.earlier <= function.index(),
                _ => false,
            },
            ModuleFault::ArgumentCount => match statement {
                Statement::Call {
                    function,
                    arguments,
                    ..
                } => match self.module.functions.try_get(*function) {
                    Some(callee) => callee.arguments.len() != arguments.len(),
                    None => false,
                },
                _ => false,
            },
            _ => false,
        }
    }
}

/// Searches a block inside of a statement, and extends the way to the statement that is found.
#[cycle(searching)]
fn go<'a>(
    block: &'a Block,
    search: &Search<'_>,
    way: &mut Vec<PathStep>,
    step: PathStep,
) -> Result<Option<&'a Statement>, AllocError> {
    way.push(step)?;
    if let Some(found) = in_block(block, search, way)? {
        return Ok(Some(found));
    }
    way.pop();
    Ok(None)
}

/// Returns the first statement of a block that has the fault, and extends the way to it.
#[cycle(searching)]
pub fn in_block<'a>(
    block: &'a Block,
    search: &Search<'_>,
    way: &mut Vec<PathStep>,
) -> Result<Option<&'a Statement>, AllocError> {
    let mut number = 0usize;
    for statement in &block.statements {
        way.push(PathStep::Statement(number))?;
        if search.is_faulty(statement) {
            return Ok(Some(statement));
        }
        if let Some(found) = in_blocks(statement, search, way)? {
            return Ok(Some(found));
        }
        way.pop();
        number = number.saturating_add(1);
    }
    Ok(None)
}

/// Returns the first statement that has the fault in the blocks of another one, and extends the way to it.
#[cycle(searching)]
fn in_blocks<'a>(
    statement: &'a Statement,
    search: &Search<'_>,
    way: &mut Vec<PathStep>,
) -> Result<Option<&'a Statement>, AllocError> {
    match statement {
        Statement::Block(inner) => go(inner, search, way, PathStep::Block),
        Statement::If { accept, reject, .. } => {
            match go(accept, search, way, PathStep::Accept)? {
                Some(found) => Ok(Some(found)),
                None => go(reject, search, way, PathStep::Reject),
            }
        }
        Statement::Switch { cases, .. } => {
            let mut number = 0usize;
            for case in cases {
                if let Some(found) = go(&case.body, search, way, PathStep::Case(number))? {
                    return Ok(Some(found));
                }
                number = number.saturating_add(1);
            }
            Ok(None)
        }
        Statement::Loop {
            body,
            continuing,
            ..
        } => match go(body, search, way, PathStep::Body)? {
            Some(found) => Ok(Some(found)),
            None => go(continuing, search, way, PathStep::Continuing),
        },
        _ => Ok(None),
    }
}
