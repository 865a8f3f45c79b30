//! Flattens a block into a list of its statements.
ghost use Rattle.std.specs.Prelude.{◌≡◌, ◌++◌, OnOk, IfOk};
ghost use Rattle.shader_ir.specs.Occurs.{statements, statements_within};
ghost use Rattle.shader_ir.specs.BodyOf.{step_of};
ghost use Rattle.shader_passes.specs.StatementLists.{steps_of};

use shader_ir::{Block, Statement};
use std::alloc::{AllocError, Global};

/// Returns the statements of a block at any depth, in the order of the text.
///
/// # Errors
///
/// `AllocError` if the memory for one reference per statement can't be allocated.
pub fn statements_of<'a>(alloc: Global, block: &'a Block) -> Result<Vec<&'a Statement>, AllocError>
    ensures { IfOk result (λ all. steps_of all.items ≡ statements block.now) }
{
    let mut all = Vec::new(alloc);
    flatten_block(block, &mut all)?;
    Ok(all)
}

#[cycle(flatten)]
fn flatten_block<'a>(block: &'a Block, all: &mut Vec<&'a Statement>) -> Result<(), AllocError>
    ensures { OnOk result (steps_of all.new.items ≡ steps_of all.old.items ++ statements block.now) }
{
    for statement in &block.statements {
        all.push(statement)?;
        flatten_within(statement, all)?;
    }
    Ok(())
}

#[cycle(flatten)]
fn flatten_within<'a>(
    statement: &'a Statement,
    all: &mut Vec<&'a Statement>,
) -> Result<(), AllocError>
    ensures { OnOk result (steps_of all.new.items ≡ steps_of all.old.items ++ statements_within (step_of statement.now)) }
{
    match statement {
        Statement::Block(block) => flatten_block(block, all)?,
        Statement::If { accept, reject, .. } => {
            flatten_block(accept, all)?;
            flatten_block(reject, all)?;
        }
        Statement::Switch { cases, .. } => {
            for case in cases {
                flatten_block(&case.body, all)?;
            }
        }
        Statement::Loop {
            body,
            continuing,
            ..
        } => {
            flatten_block(body, all)?;
            flatten_block(continuing, all)?;
        }
        _ => {}
    }
    Ok(())
}
