//! The statements and blocks to which the steps of a way lead.

use report_places::PathStep;
use shader_ir::{Block, Statement};

/// Returns the block of a statement into which a step leads.
fn block_in(statement: &Statement, step: PathStep) -> Option<&Block> {
    match (statement, step) {
        (Statement::Block(inner), PathStep::Block) => Some(inner),
        (Statement::If { accept, .. }, PathStep::Accept) => Some(accept),
        (Statement::If { reject, .. }, PathStep::Reject) => Some(reject),
        (Statement::Loop { body, .. }, PathStep::Body) => Some(body),
        (Statement::Loop { continuing, .. }, PathStep::Continuing) => Some(continuing),
        (Statement::Switch { cases, .. }, PathStep::Case(number)) => {
            match cases.as_slice().get(number) {
                Some(case) => Some(&case.body),
                None => None,
            }
        }
        _ => None,
    }
}

/// Returns the statement to which a way leads from a block, if there is one.
pub fn statement_on<'a>(block: &'a Block, way: &[PathStep]) -> Option<&'a Statement> {
    let mut inside = Some(block);
    let mut found = None;
    for step in way {
        match *step {
            PathStep::Statement(index) => {
                found = inside?.statements.as_slice().get(index);
                inside = None;
            }
            step => inside = block_in(found?, step),
        }
    }
    found
}
