//! Loops as `while` and `for`.

use shader_arena::Handle;
use shader_ir::{Block, Statement, mark};

/// The form in which a loop is shown. naga lowers `while` and `for` to a loop that begins by `if (c) {} else { break; }`.
#[derive(Clone, Copy)]
pub enum Head<'a> {
    /// A loop without such a beginning.
    Loop,
    /// A loop that ends when the condition is false.
    While(Handle<mark::Expression>),
    /// A loop that ends when the condition is false, and ends each round by a store.
    For(Handle<mark::Expression>, &'a Statement),
}

/// Returns the first statement of a block besides an `Emit`.
fn first_of(block: &Block) -> Option<&Statement> {
    for statement in &block.statements {
        match statement {
            Statement::Emit(_) => {}
            _ => return Some(statement),
        }
    }
    None
}

/// Returns whether a block is a `break` alone.
fn is_break(block: &Block) -> bool {
    match block.statements.as_slice().get(0) {
        Some(Statement::Break) => block.statements.as_slice().len() == 1,
        Some(_) => false,
        None => false,
    }
}

/// Returns the condition, if the statement leaves a loop when it is false and does nothing else.
fn tested(statement: &Statement) -> Option<Handle<mark::Expression>> {
    match statement {
        Statement::If {
            condition,
            accept,
            reject,
        } => {
            if accept.statements.as_slice().is_empty() && is_break(reject) {
                Some(*condition)
            } else {
                None
            }
        }
        _ => None,
    }
}

/// Returns the store that a block is, besides an `Emit`.
fn store_of(block: &Block) -> Option<&Statement> {
    let mut store = None;
    for statement in &block.statements {
        match statement {
            Statement::Emit(_) => {}
            Statement::Store { .. } => {
                if store.is_some() {
                    return None;
                }
                store = Some(statement);
            }
            _ => return None,
        }
    }
    store
}

/// Returns the form in which a statement is shown, if it is a loop.
pub fn head_of(statement: &Statement) -> Head<'_> {
    let Statement::Loop {
        body,
        continuing,
        break_if: None,
    } = statement
    else {
        return Head::Loop;
    };
    let Some(first) = first_of(body) else {
        return Head::Loop;
    };
    let Some(condition) = tested(first) else {
        return Head::Loop;
    };
    if continuing.statements.as_slice().is_empty() {
        return Head::While(condition);
    }
    match store_of(continuing) {
        Some(store) => Head::For(condition, store),
        None => Head::Loop,
    }
}
