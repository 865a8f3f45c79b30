//! The statements that make results.
ghost use Rattle.std.specs.Prelude.{◌≡◌, ◌∷◌, IfOk, IfSome, None, Some, fold, replicate, slice_get};
ghost use Rattle.shader_ir.specs.BodyOf.{step_of};
ghost use Rattle.shader_ir.specs.Occurs.{statements, statements_within};
ghost use Rattle.report_expressions.specs.Makers.{AreMakers, noted, noted_at, result_of, steps_of};

use shader_arena::Handle;
use shader_ir::{Block, Function, RayQueryFunction, Statement, mark};
use std::alloc::{AllocError, Global};

/// The statement that makes each result of a function's expressions: of an expression, the first statement in the text that names it as its
/// result.
#[derive(Drop)]
pub struct Makers<'a> {
    /// The statements, by the numbers of the expressions.
    pub statements: Vec<Option<&'a Statement>>,
}

/// Returns the expression that a statement names as its result.
pub fn result_of(statement: &Statement) -> Option<Handle<mark::Expression>>
    ensures { result ≡ result_of (step_of statement.now) }
{
    match statement {
        Statement::Atomic { result, .. }
        | Statement::WorkGroupUniformLoad { result, .. }
        | Statement::SubgroupBallot { result, .. }
        | Statement::SubgroupGather { result, .. }
        | Statement::SubgroupCollectiveOperation { result, .. } => Some(*result),
        Statement::Call { result, .. } => *result,
        Statement::RayQuery {
            fun: RayQueryFunction::Proceed { result },
            ..
        } => Some(*result),
        _ => None,
    }
}

/// Notes the statement for the result at an index, unless an earlier statement makes that.
fn note_at<'a>(table: &mut Vec<Option<&'a Statement>>, index: usize, maker: &'a Statement)
    ensures { steps_of table.new.items ≡ noted_at (steps_of table.old.items) (Some index) (step_of maker.now) }
{
    if index < table.len() {
        if table[index].is_none() {
            table[index] = Some(maker);
        }
    }
}

/// Notes the statement for its result, if it has one.
fn note<'a>(table: &mut Vec<Option<&'a Statement>>, maker: &'a Statement)
    ensures { steps_of table.new.items ≡ noted (steps_of table.old.items) (step_of maker.now) }
{
    match result_of(maker) {
        Some(result) => note_at(table, result.index(), maker),
        None => {}
    }
}

/// Notes the statements of a block.
#[cycle(noting)]
fn note_block<'a>(table: &mut Vec<Option<&'a Statement>>, block: &'a Block)
    ensures { steps_of table.new.items ≡ fold noted (steps_of table.old.items) (statements block.now) }
{
    for statement in &block.statements {
        note_statement(table, statement);
    }
}

/// Notes a statement, and those of its blocks.
#[cycle(noting)]
fn note_statement<'a>(table: &mut Vec<Option<&'a Statement>>, statement: &'a Statement)
    ensures { steps_of table.new.items
        ≡ fold noted (steps_of table.old.items) (step_of statement.now ∷ statements_within (step_of statement.now)) }
{
    note(table, statement);
    match statement {
        Statement::Block(inner) => note_block(table, inner),
        Statement::If { accept, reject, .. } => {
            note_block(table, accept);
            note_block(table, reject);
        }
        Statement::Loop {
            body,
            continuing,
            ..
        } => {
            note_block(table, body);
            note_block(table, continuing);
        }
        Statement::Switch { cases, .. } => {
            for case in cases {
                note_block(table, &case.body);
            }
        }
        _ => {}
    }
}

/// Returns a table without a statement for any expression.
fn empty_table<'a>(alloc: Global, count: usize) -> Result<Vec<Option<&'a Statement>>, AllocError>
    ensures { IfOk result (λ table. steps_of table.items ≡ replicate count None) }
{
    let mut table = Vec::new(alloc);
    for _position in 0..count {
        table.push(None)?;
    }
    Ok(table)
}

impl<'a> Makers<'a> {
    /// Returns the makers of a function's results.
    #[tactic(auto, using(crate::proofs::MakerLemmas::makers_are_first))]
    pub fn of(alloc: Global, function: &'a Function) -> Result<Makers<'a>, AllocError>
        ensures { IfOk result (λ makers. AreMakers function.now makers.statements.items) }
    {
        let mut statements = empty_table(alloc, function.expressions.len())?;
        note_block(&mut statements, &function.body);
        Ok(Makers { statements })
    }

    /// Returns the statement that makes an expression, if there is one.
    pub fn get(&self, expression: Handle<mark::Expression>) -> Option<&'a Statement>
        ensures { IfSome result (λ maker. slice_get self.now.statements.items expression ≡ Some (Some maker)) }
    {
        match self.statements.as_slice().get(expression.index()) {
            Some(maker) => *maker,
            None => None,
        }
    }
}
