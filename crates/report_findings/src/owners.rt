//! The statement that a block belongs to, by the position of the block.
ghost use Rattle.std.specs.Prelude.{IfOk, IfSome};
ghost use Rattle.shader_ir.specs.BodyOf.{cases_of, step_of};
ghost use Rattle.shader_uniformity.specs.Positions.{block_end, cases_end, step_end};
ghost use Rattle.report_findings.specs.Owners.{IsBehind, IsIfAt};

use shader_ir::{Block, Statement, SwitchCase};
use shader_uniformity::rules::next;
use std::alloc::AllocError;

/// How a statement enters one of its blocks.
#[derive(Clone, Copy)]
pub enum Branch {
    /// An `If` or a plain block.
    If,
    Switch,
    Loop,
}

/// How a block is entered.
#[derive(Clone, Copy)]
struct Entry {
    /// The position of the statement that the block belongs to.
    owner: u32,
    branch: Branch,
    /// The statement that a `Break` in the block exits. Of none, `Branch::If`.
    broken: Branch,
}

impl Entry {
    /// Returns how a function is entered.
    fn of_function() -> Entry {
        Entry {
            owner: 0,
            branch: Branch::If,
            broken: Branch::If,
        }
    }

    /// Returns how a statement at a position of this block enters a block of its own.
    fn into(self, owner: u32, branch: Branch) -> Entry {
        let broken = match branch {
            Branch::If => self.broken,
            Branch::Switch | Branch::Loop => branch,
        };
        Entry {
            owner,
            branch,
            broken,
        }
    }
}

/// The result of a search for a block.
#[derive(Clone, Copy)]
enum Found {
    Entered(Entry),
    /// The position after what was searched.
    Behind(u32),
}

/// Searches a block that begins at a position. Positions are those of `shader_uniformity`.
#[cycle(owning)]
fn in_block(block: &Block, entry: Entry, start: u32, wanted: u32) -> Result<Found, AllocError>
    ensures { IfOk result (λ found. IsBehind found (block_end start block.now)) }
{
    if start == wanted {
        return Ok(Found::Entered(entry));
    }
    let mut position = start;
    for statement in &block.statements {
        match in_statement(statement, entry, position, wanted)? {
            Found::Entered(entry) => return Ok(Found::Entered(entry)),
            Found::Behind(behind) => position = behind,
        }
    }
    Ok(Found::Behind(next(position)?))
}

/// Searches the blocks of the statement at a position. The cases of a `Switch` together and the rounds of a `Loop` have one too.
#[cycle(owning)]
fn in_statement(
    statement: &Statement,
    around: Entry,
    owner: u32,
    wanted: u32,
) -> Result<Found, AllocError>
    ensures { IfOk result (λ found. IsBehind found (step_end owner (step_of statement.now))) }
{
    let first = next(owner)?;
    match statement {
        Statement::Block(inner) => in_block(inner, around.into(owner, Branch::If), first, wanted),
        Statement::If { accept, reject, .. } => {
            let branch = around.into(owner, Branch::If);
            match in_block(accept, branch, first, wanted)? {
                Found::Behind(behind) => in_block(reject, branch, behind, wanted),
                found => Ok(found),
            }
        }
        Statement::Loop {
            body,
            continuing,
            ..
        } => {
            let rounds = around.into(owner, Branch::Loop);
            if first == wanted {
                return Ok(Found::Entered(rounds));
            }
            match in_block(body, rounds, next(first)?, wanted)? {
                Found::Behind(behind) => in_block(continuing, rounds, behind, wanted),
                found => Ok(found),
            }
        }
        Statement::Switch { cases, .. } => {
            let entry = around.into(owner, Branch::Switch);
            if first == wanted {
                return Ok(Found::Entered(entry));
            }
            in_cases(cases, entry, next(first)?, wanted)
        }
        _ => Ok(Found::Behind(first)),
    }
}

/// Searches the cases of a `Switch`, of which the first begins at a position.
#[cycle(owning)]
fn in_cases(
    cases: &[SwitchCase],
    entry: Entry,
    first: u32,
    wanted: u32,
) -> Result<Found, AllocError>
    ensures { IfOk result (λ found. IsBehind found (cases_end first (cases_of cases.now))) }
{
    let mut start = first;
    for case in cases {
        match in_block(&case.body, entry, start, wanted)? {
            Found::Entered(entry) => return Ok(Found::Entered(entry)),
            Found::Behind(behind) => start = behind,
        }
    }
    Ok(Found::Behind(start))
}

/// Returns how the block at a position is entered, if there is one.
fn entry_of(body: &Block, block: u32) -> Option<Entry> {
    match in_block(body, Entry::of_function(), 1, block) {
        Ok(Found::Entered(entry)) => Some(entry),
        _ => None,
    }
}

/// Returns the position of the statement to which the block at a position belongs, and how it enters it, if it belongs to one.
pub fn owner_of(body: &Block, block: u32) -> Option<(u32, Branch)> {
    match entry_of(body, block) {
        Some(entry) if entry.owner != 0 => Some((entry.owner, entry.branch)),
        _ => None,
    }
}

/// Returns the kind of statement that a `Break` in the block at a position exits: a `Switch`, or else a `Loop`.
pub fn broken_by(body: &Block, block: u32) -> Branch {
    match entry_of(body, block) {
        Some(entry) => entry.broken,
        None => Branch::Loop,
    }
}

/// Where a statement stands.
#[derive(Clone, Copy)]
pub struct Around {
    /// Its position.
    pub begin: u32,
    /// The position behind it.
    pub end: u32,
}

/// Returns where an `if` stands that is one of a function's own statements, if there is one at the index.
///
/// # Errors
///
/// `AllocError` if the body has 2^32 statements.
#[tactic(auto, using(crate::proofs::OwnerLemmas::found_if, crate::proofs::OwnerLemmas::one_behind))]
pub fn own_if(body: &Block, index: usize) -> Result<Option<Around>, AllocError>
    ensures { IfOk result (λ found. IfSome found (λ around. IsIfAt body.now index around.begin around.end)) }
{
    let mut begin = 1u32;
    for (number, statement) in body.statements.iter().enumerate() {
        let Found::Behind(end) = in_statement(statement, Entry::of_function(), begin, 0)? else {
            return Ok(None);
        };
        if number == index {
            return Ok(match statement {
                Statement::If { .. } => Some(Around { begin, end }),
                _ => None,
            });
        }
        begin = end;
    }
    Ok(None)
}
