//! The statements of a body by their positions, found in one walk.
ghost use Rattle.std.specs.Prelude.{◌≡◌, ℕ, ◌∷◌, [], ◌++◌, IfOk, OnOk, Some, None};
ghost use Rattle.std.specs.Option.{option_map};
ghost use Rattle.shader_ir.specs.BodyOf.{step_of};
ghost use Rattle.report_places.specs.Outlines.{IsOutline, way_in, ways_in_block, ways_in_step, ways_of};

use crate::paths::{PathStep, StatementAt, StatementPath};
use shader_ir::{Block, Items, Statement};
use std::alloc::{AllocError, Global};

/// The statements of a body by their positions. Positions are those of `shader_uniformity`.
#[derive(Drop)]
pub struct Outline<'a> {
    /// At each position the statement there, with the way to it. No statement is at position 0, or at the end of a block.
    pub rows: Vec<Option<StatementAt<'a>>>,
}

/// Returns a way with one more step.
fn longer(alloc: Global, way: &[PathStep], step: PathStep) -> Result<Vec<PathStep>, AllocError>
    ensures { IfOk result (λ longer. longer.items ≡ way.now ++ (step ∷ [])) }
{
    let mut longer = way.to_vec(alloc)?;
    longer.push(step)?;
    Ok(longer)
}

/// Adds a statement, by a step behind the way to what it stands in.
fn add_row<'a>(
    alloc: Global,
    rows: &mut Vec<Option<StatementAt<'a>>>,
    above: &[PathStep],
    step: PathStep,
    statement: &'a Statement,
) -> Result<(), AllocError>
    ensures { OnOk result (ways_of rows.new.items ≡ ways_of rows.old.items ++ (Some (above.now ++ (step ∷ [])) ∷ [])) }
{
    let path = StatementPath {
        steps: Items::from(longer(alloc, above, step)?),
    };
    rows.push(Some(StatementAt { path, statement }))?;
    Ok(())
}

/// Adds a position at which no statement is.
fn add_position<'a>(rows: &mut Vec<Option<StatementAt<'a>>>) -> Result<(), AllocError>
    ensures { OnOk result (ways_of rows.new.items ≡ ways_of rows.old.items ++ (None ∷ [])) }
{
    rows.push(None)?;
    Ok(())
}

/// Adds the statements of a block, and its end.
#[cycle(outlining)]
fn add_block<'a>(
    alloc: Global,
    rows: &mut Vec<Option<StatementAt<'a>>>,
    above: &[PathStep],
    block: &'a Block,
) -> Result<(), AllocError>
    ensures { OnOk result (ways_of rows.new.items ≡ ways_of rows.old.items ++ ways_in_block above.now 0 block.now) }
{
    for (index, statement) in block.statements.iter().enumerate() {
        let step = PathStep::Statement(index);
        add_row(alloc, rows, above, step, statement)?;
        let way = longer(alloc, above, step)?;
        add_within(alloc, rows, way.as_slice(), statement)?;
    }
    add_position(rows)
}

/// Adds the blocks of a statement that a way leads to.
#[cycle(outlining)]
fn add_within<'a>(
    alloc: Global,
    rows: &mut Vec<Option<StatementAt<'a>>>,
    way: &[PathStep],
    statement: &'a Statement,
) -> Result<(), AllocError>
    ensures { OnOk result (ways_of rows.new.items ≡ ways_of rows.old.items ++ ways_in_step way.now (step_of statement.now)) }
{
    match statement {
        Statement::Block(inner) => {
            let within = longer(alloc, way, PathStep::Block)?;
            add_block(alloc, rows, within.as_slice(), inner)
        }
        Statement::If { accept, reject, .. } => {
            let accepted = longer(alloc, way, PathStep::Accept)?;
            add_block(alloc, rows, accepted.as_slice(), accept)?;
            let rejected = longer(alloc, way, PathStep::Reject)?;
            add_block(alloc, rows, rejected.as_slice(), reject)
        }
        Statement::Loop {
            body,
            continuing,
            ..
        } => {
            add_position(rows)?;
            let first = longer(alloc, way, PathStep::Body)?;
            add_block(alloc, rows, first.as_slice(), body)?;
            let second = longer(alloc, way, PathStep::Continuing)?;
            add_block(alloc, rows, second.as_slice(), continuing)
        }
        Statement::Switch { cases, .. } => {
            add_position(rows)?;
            for (number, case) in cases.iter().enumerate() {
                let within = longer(alloc, way, PathStep::Case(number))?;
                add_block(alloc, rows, within.as_slice(), &case.body)?;
            }
            Ok(())
        }
        _ => Ok(()),
    }
}

impl<'a> Outline<'a> {
    /// Returns the statements of a body.
    ///
    /// # Errors
    ///
    /// `AllocError` if an allocation fails.
    pub fn of(alloc: Global, body: &'a Block) -> Result<Outline<'a>, AllocError>
        ensures { IfOk result (λ outline. IsOutline body.now outline.rows.items) }
    {
        let mut rows = Vec::new(alloc);
        add_position(&mut rows)?;
        add_block(alloc, &mut rows, &[], body)?;
        Ok(Outline { rows })
    }

    /// Returns the statements of a body without any.
    pub fn empty(alloc: Global) -> Outline<'a>
        ensures { (p : ℕ) → way_in (ways_of result.rows.items) p ≡ None }
    {
        Outline {
            rows: Vec::new(alloc),
        }
    }

    /// Returns the statement at a position, if there is one, and the way to it.
    ///
    /// # Errors
    ///
    /// `AllocError` if an allocation fails.
    pub fn get(&self, alloc: Global, position: u32) -> Result<Option<StatementAt<'a>>, AllocError>
        ensures { IfOk result (λ found. option_map (λ at. at.path.steps) found ≡ way_in (ways_of self.now.rows.items) position) }
    {
        match self.rows.as_slice().get(position as usize) {
            Some(Some(at)) => {
                let path = StatementPath {
                    steps: Items::from(at.path.steps.as_slice().to_vec(alloc)?),
                };
                Ok(Some(StatementAt {
                    path,
                    statement: at.statement,
                }))
            }
            Some(None) => Ok(None),
            None => Ok(None),
        }
    }
}
