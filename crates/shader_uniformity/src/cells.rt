//! A table of facts: the cell of a fact has the first moment from which it is true.
ghost use Rattle.std.specs.Prelude.{◌≡◌, ◌<◌, ◌^◌, None, IfOk, length, replicate, slice_index_or};
ghost use Rattle.shader_uniformity.specs.Cells.{cell, cells_with, covers, holds, is_from, kind, moment, number};

use crate::facts::{Fact, Jump, Place};
use std::alloc::{AllocError, Global};

/// Returns the kind of a fact, below 16.
fn kind(fact: &Fact) -> usize
    ensures kind { result ≡ kind fact.now }
    ensures small { result < 16 }
{
    match fact {
        Fact::Always => 0,
        Fact::Flow => 1,
        Fact::Must => 2,
        Fact::Gives => 3,
        Fact::Argument(_) => 4,
        Fact::Behind(_) => 5,
        Fact::Left(_) => 6,
        Fact::Apart(_) => 7,
        Fact::Leaves(jump, _) => match jump {
            Jump::Break => 8,
            Jump::Continue => 9,
            Jump::Return => 10,
        },
        Fact::Differs(_) => 11,
        Fact::Holds(place, _) => match place {
            Place::Local(_) => 12,
            Place::Pointee(_) => 13,
            Place::Shared => 14,
            Place::Fixed => 15,
        },
    }
}

/// Returns the number of a fact among those of its kind.
fn number(fact: &Fact) -> usize
    ensures number { result ≡ number fact.now }
    ensures small { result < 2 ^ 32 }
{
    match fact {
        Fact::Argument(index) => *index as usize,
        Fact::Behind(index) => *index as usize,
        Fact::Left(index) => *index as usize,
        Fact::Apart(position) => *position as usize,
        Fact::Leaves(_, position) => *position as usize,
        Fact::Differs(expression) => expression.index(),
        Fact::Holds(place, _) => match place {
            Place::Local(index) => *index as usize,
            Place::Pointee(index) => *index as usize,
            Place::Shared => 0,
            Place::Fixed => 0,
        },
        Fact::Always | Fact::Flow | Fact::Must | Fact::Gives => 0,
    }
}

/// Returns the moment from which a fact is true, 0 for a fact without a moment.
pub fn moment(fact: &Fact) -> u32
    ensures { result ≡ moment fact.now }
{
    match fact {
        Fact::Holds(_, moment) => *moment,
        _ => 0,
    }
}

/// Returns the cell of a fact.
pub fn cell(fact: &Fact) -> usize
    ensures cell { result ≡ cell fact.now }
    ensures small { result < 2 ^ 37 }
{
    16 * number(fact) + kind(fact)
}

/// Returns the content of a cell, or `None` if there is no such cell.
pub fn at(table: &[Option<u32>], place: usize) -> Option<u32>
    ensures { result ≡ slice_index_or table.now place None }
{
    match table.get(place) {
        Some(first) => *first,
        None => None,
    }
}

/// Checks whether the second fact is the first one, or the same at a later moment.
pub fn covers(fact: &Fact, needed: &Fact) -> bool
    ensures { result ≡ covers fact.now needed.now }
{
    (cell(fact) == cell(needed)) & !(moment(needed) < moment(fact))
}

fn is_from(first: Option<u32>, moment: u32) -> bool
    ensures { result ≡ is_from first moment }
{
    match first {
        Some(start) => !(moment < start),
        None => false,
    }
}

/// Checks whether a table has a fact.
pub fn holds(table: &[Option<u32>], fact: &Fact) -> bool
    ensures { result ≡ holds table.now fact.now }
{
    is_from(at(table, cell(fact)), moment(fact))
}

/// Enters a fact that the table doesn't have.
pub fn enter(table: &mut Vec<Option<u32>>, fact: &Fact)
    requires { cell fact.now < length table.old.items }
    ensures length { length table.new.items ≡ length table.old.items }
    ensures table { table.new.items ≡ cells_with table.old.items fact.now }
{
    table[cell(fact)] = Some(moment(fact));
}

/// Returns a table of `width` empty cells.
pub fn empty(alloc: Global, width: usize) -> Result<Vec<Option<u32>>, AllocError>
    ensures { IfOk result (λ table. table.items ≡ replicate width None) }
{
    let mut table = Vec::with_capacity(alloc, width)?;
    for place in 0..width {
        table.push(None)?;
    }
    Ok(table)
}
