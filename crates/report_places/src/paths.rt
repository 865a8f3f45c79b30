//! The way to a statement of a body, and the search for a statement.
ghost use Rattle.std.specs.Prelude.{◌≡◌, ◌+◌, ◌∷◌, [], IfOk};
ghost use Rattle.std.specs.Option.{option_map};
ghost use Rattle.shader_ir.specs.BodyOf.{cases_of, step_of};
ghost use Rattle.shader_uniformity.specs.Positions.{block_end, cases_end, step_end};
ghost use Rattle.report_places.specs.Paths.{IsEnd, end_of, evaluates, is_wanted, is_within, path_of, way_in_block, way_in_cases};
ghost use Rattle.report_places.specs.Paths.{way_in_step, way_to};
ghost use Rattle.report_places.specs.Tokens.{path_tokens};
ghost use Rattle.report_places.specs.Ways.{Finds};

use crate::pointers::statement_text;
use json::Writer;
use report_json::WriteJson;
use shader_arena::{Handle, Range};
use shader_ir::{Block, Items, RayQueryFunction, Statement, SwitchCase, mark};
use std::alloc::{AllocError, Global};
use std::collections::VecDeque;

/// A step of the way to a statement.
#[derive(Clone, Copy, Debug, PartialEq, Eq)]
pub enum PathStep {
    /// To the statement of this number in a block.
    Statement(usize),
    /// Into a nested block.
    Block,
    /// Into the first block of an `If`.
    Accept,
    /// Into the second block of an `If`.
    Reject,
    /// Into the body of a `Loop`.
    Body,
    /// Into the continuing block of a `Loop`.
    Continuing,
    /// Into the case of this number of a `Switch`.
    Case(usize),
}

/// The way from a function to one of its statements. It is written as a text, as `body[2].If.accept[0]`.
#[derive(Debug, Drop)]
pub struct StatementPath {
    /// The steps, from the statements of the function on.
    pub steps: Items<PathStep>,
}

impl WriteJson for StatementPath {
    ghost tokens = { λ path. path_tokens path };

    fn write_json(&self, alloc: Global, writer: &mut Writer) -> Result<(), AllocError> {
        let text = statement_text(alloc, self.steps.as_slice())?;
        text.write_json(alloc, writer)
    }
}

/// The statement that is looked for.
#[derive(Clone, Copy, Debug)]
pub enum Wanted {
    /// The one at this position. Positions are those of `shader_uniformity`.
    At(u32),
    /// The first that evaluates this expression.
    Evaluating(Handle<mark::Expression>),
}

/// The result of a search among statements.
#[derive(Drop)]
enum Search<'a> {
    /// The way to the statement, and the statement.
    Found(VecDeque<PathStep>, &'a Statement),
    /// The position after the statements that were searched.
    Behind(u32),
}

/// Returns the next position.
///
/// # Errors
///
/// `AllocError` after the last position: no statement is at it.
fn next(position: u32) -> Result<u32, AllocError>
    ensures { IfOk result (λ following. following ≡ position + 1) }
{
    match position.checked_add(1) {
        Some(following) => Ok(following),
        None => Err(AllocError),
    }
}

/// Checks whether an `Emit` of a range evaluates an expression.
fn is_within(range: &Range<mark::Expression>, expression: Handle<mark::Expression>) -> bool
    ensures { result ≡ is_within range.now.0 range.now.1 expression }
{
    let positions = range.index_range();
    let index = expression.index();
    positions.start as usize <= index && index < positions.end as usize
}

/// Checks whether a statement evaluates an expression: by an `Emit`, or as its result.
fn evaluates(statement: &Statement, expression: Handle<mark::Expression>) -> bool
    ensures { result ≡ evaluates expression (step_of statement.now) }
{
    match statement {
        Statement::Emit(range) => is_within(range, expression),
        Statement::Atomic { result, .. } => *result == expression,
        Statement::WorkGroupUniformLoad { result, .. } => *result == expression,
        Statement::Call {
            result: Some(result),
            ..
        } => *result == expression,
        Statement::RayQuery {
            fun: RayQueryFunction::Proceed { result },
            ..
        } => *result == expression,
        Statement::SubgroupBallot { result, .. } => *result == expression,
        Statement::SubgroupGather { result, .. } => *result == expression,
        Statement::SubgroupCollectiveOperation { result, .. } => *result == expression,
        _ => false,
    }
}

/// Checks whether a statement at a position is the one that is looked for.
fn is_wanted(wanted: &Wanted, position: u32, statement: &Statement) -> bool
    ensures { result ≡ is_wanted wanted.now position (step_of statement.now) }
{
    match wanted {
        Wanted::At(wanted) => position == *wanted,
        Wanted::Evaluating(expression) => evaluates(statement, *expression),
    }
}

/// Returns the way to the statement of a number in a block.
fn way_of_one(alloc: Global, index: usize) -> Result<VecDeque<PathStep>, AllocError>
    ensures { IfOk result (λ way. way.items ≡ PathStep.Statement index ∷ []) }
{
    let mut way = VecDeque::new(alloc);
    way.push_front(PathStep::Statement(index))?;
    Ok(way)
}

/// Puts a step before those of a way that was found.
fn after(step: PathStep, search: Search<'_>) -> Result<Search<'_>, AllocError>
    ensures way { IfOk result (λ longer. path_of longer ≡ option_map (λ way. step ∷ way) (path_of search.entry)) }
    ensures end { IfOk result (λ longer. end_of longer ≡ end_of search.entry) }
{
    match search {
        Search::Found(mut way, statement) => {
            way.push_front(step)?;
            Ok(Search::Found(way, statement))
        }
        Search::Behind(behind) => Ok(Search::Behind(behind)),
    }
}

/// Searches the statements of a block that begins at a position.
#[cycle(searching)]
fn in_block<'a>(
    alloc: Global,
    block: &'a Block,
    start: u32,
    wanted: &Wanted,
) -> Result<Search<'a>, AllocError>
    ensures way { IfOk result (λ search. path_of search ≡ way_in_block 0 start wanted.now block.now) }
    ensures end { IfOk result (λ search. IsEnd search (block_end start block.now)) }
{
    let mut position = start;
    for (index, statement) in block.statements.iter().enumerate() {
        if is_wanted(wanted, position, statement) {
            return Ok(Search::Found(way_of_one(alloc, index)?, statement));
        }
        let search = in_statement(alloc, statement, position, wanted)?;
        match after(PathStep::Statement(index), search)? {
            Search::Behind(behind) => position = behind,
            found => return Ok(found),
        }
    }
    Ok(Search::Behind(next(position)?))
}

/// Searches the blocks of the statement at a position.
#[cycle(searching)]
fn in_statement<'a>(
    alloc: Global,
    statement: &'a Statement,
    position: u32,
    wanted: &Wanted,
) -> Result<Search<'a>, AllocError>
    ensures way { IfOk result (λ search. path_of search ≡ way_in_step position wanted.now (step_of statement.now)) }
    ensures end { IfOk result (λ search. IsEnd search (step_end position (step_of statement.now))) }
{
    let first = next(position)?;
    match statement {
        Statement::Block(inner) => {
            let search = in_block(alloc, inner, first, wanted)?;
            after(PathStep::Block, search)
        }
        Statement::If { accept, reject, .. } => {
            let search = in_block(alloc, accept, first, wanted)?;
            match after(PathStep::Accept, search)? {
                Search::Behind(second) => {
                    let search = in_block(alloc, reject, second, wanted)?;
                    after(PathStep::Reject, search)
                }
                found => Ok(found),
            }
        }
        Statement::Loop {
            body,
            continuing,
            ..
        } => {
            let search = in_block(alloc, body, next(first)?, wanted)?;
            match after(PathStep::Body, search)? {
                Search::Behind(second) => {
                    let search = in_block(alloc, continuing, second, wanted)?;
                    after(PathStep::Continuing, search)
                }
                found => Ok(found),
            }
        }
        Statement::Switch { cases, .. } => in_cases(alloc, cases, next(first)?, wanted),
        _ => Ok(Search::Behind(first)),
    }
}

/// Searches the cases of a `Switch`, of which the first begins at a position.
#[cycle(searching)]
fn in_cases<'a>(
    alloc: Global,
    cases: &'a [SwitchCase],
    first: u32,
    wanted: &Wanted,
) -> Result<Search<'a>, AllocError>
    ensures way { IfOk result (λ search. path_of search ≡ way_in_cases 0 first wanted.now (cases_of cases.now)) }
    ensures end { IfOk result (λ search. IsEnd search (cases_end first (cases_of cases.now))) }
{
    let mut start = first;
    for (number, case) in cases.iter().enumerate() {
        let search = in_block(alloc, &case.body, start, wanted)?;
        match after(PathStep::Case(number), search)? {
            Search::Behind(behind) => start = behind,
            found => return Ok(found),
        }
    }
    Ok(Search::Behind(start))
}

/// A statement, and the way to it.
#[derive(Drop)]
pub struct StatementAt<'a> {
    pub path: StatementPath,
    pub statement: &'a Statement,
}

/// Returns the first statement of a body that is wanted, and the way to it.
///
/// # Errors
///
/// `AllocError` if an allocation fails, or the body has 2^32 statements.
#[tactic(auto, using(crate::proofs::WayLemmas::finds))]
pub fn find_statement<'a>(
    alloc: Global,
    body: &'a Block,
    wanted: &Wanted,
) -> Result<Option<StatementAt<'a>>, AllocError>
    ensures way { IfOk result (λ found. option_map (λ at. at.path.steps) found ≡ way_to wanted.now body.now) }
    ensures finds { Finds wanted.now body.now (way_to wanted.now body.now) }
{
    match in_block(alloc, body, 1, wanted)? {
        Search::Found(way, statement) => {
            let path = StatementPath {
                steps: Items::from(way.into_vec()),
            };
            Ok(Some(StatementAt { path, statement }))
        }
        Search::Behind(_) => Ok(None),
    }
}
