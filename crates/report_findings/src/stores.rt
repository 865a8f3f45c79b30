//! The statement that stores a value, and calls by what they pass and give back.

use report_expressions::{Line, Makers, Source, text_of_line};
use report_places::{BodyPlace, Wanted, statement_at};
use shader_arena::Handle;
use shader_ir::{Block, Function, Module, Statement, mark};
use shader_uniformity::Place;
use shader_uniformity::places::places;
use std::alloc::{AllocError, Global};

/// The most columns of a store and of the memory that it names.
const MOST_COLUMNS: usize = 100;

const MOST_SHOWN: usize = 48;

/// A statement that is looked for.
#[derive(Clone, Copy)]
enum Sought<'a> {
    /// The store of a value by one of the pointers that lead to a place. Each expression has an entry.
    Store(Handle<mark::Expression>, &'a [bool]),
    /// The call with a result.
    Call(Handle<mark::Expression>),
    /// A call of the function at an index that passes an argument.
    Passing(usize, Handle<mark::Expression>),
}

/// The result of a search.
#[derive(Clone, Copy)]
enum Found {
    At(u32),
    /// The position after what was searched.
    Behind(u32),
}

/// Checks whether two places are the same memory.
fn is_same_place(one: Place, other: Place) -> bool {
    match one {
        Place::Local(number) => matches!(other, Place::Local(another) if another == number),
        Place::Pointee(number) => matches!(other, Place::Pointee(another) if another == number),
        Place::Shared => matches!(other, Place::Shared),
        Place::Fixed => matches!(other, Place::Fixed),
    }
}

/// Checks whether a statement is the one that is looked for.
fn is_sought(statement: &Statement, sought: &Sought<'_>) -> bool {
    match statement {
        Statement::Store { pointer, value } => match sought {
            Sought::Store(stored, leads) => {
                *stored == *value && leads.get(pointer.index()).copied().unwrap_or(false)
            }
            Sought::Call(_) | Sought::Passing(..) => false,
        },
        Statement::Call {
            function,
            arguments,
            result,
        } => match sought {
            Sought::Call(called) => *result == Some(*called),
            Sought::Passing(callee, argument) => {
                function.index() == *callee && arguments.as_slice().contains(argument)
            }
            Sought::Store(..) => false,
        },
        _ => false,
    }
}

/// Searches a block that begins at a position. Positions are those of `shader_uniformity`.
#[cycle(seeking)]
fn in_block(block: &Block, start: u32, sought: &Sought<'_>) -> Found {
    let mut position = start;
    for statement in &block.statements {
        match in_statement(statement, position, sought) {
            Found::At(found) => return Found::At(found),
            Found::Behind(behind) => position = behind,
        }
    }
    Found::Behind(position.saturating_add(1))
}

/// Searches the statement at a position. The cases of a `Switch` together and the rounds of a `Loop` have one too.
#[cycle(seeking)]
fn in_statement(statement: &Statement, at: u32, sought: &Sought<'_>) -> Found {
    if is_sought(statement, sought) {
        return Found::At(at);
    }
    let first = at.saturating_add(1);
    let second = first.saturating_add(1);
    match statement {
        Statement::Block(inner) => in_block(inner, first, sought),
        Statement::If { accept, reject, .. } => match in_block(accept, first, sought) {
            Found::Behind(behind) => in_block(reject, behind, sought),
            found => found,
        },
        Statement::Loop {
            body,
            continuing,
            ..
        } => match in_block(body, second, sought) {
            Found::Behind(behind) => in_block(continuing, behind, sought),
            found => found,
        },
        Statement::Switch { cases, .. } => {
            let mut start = second;
            for case in cases {
                match in_block(&case.body, start, sought) {
                    Found::At(found) => return Found::At(found),
                    Found::Behind(behind) => start = behind,
                }
            }
            Found::Behind(start)
        }
        _ => Found::Behind(first),
    }
}

/// Returns the position of the statement that is looked for, the first one.
fn position_of(function: &Function, sought: &Sought<'_>) -> Option<u32> {
    match in_block(&function.body, 1, sought) {
        Found::At(position) => Some(position),
        Found::Behind(_) => None,
    }
}

/// Returns the position of the first store of a value to a place, if there is such a store.
///
/// # Errors
///
/// `AllocError` if an allocation fails.
pub fn store_position(
    alloc: Global,
    module: &Module,
    function: &Function,
    value: Handle<mark::Expression>,
    place: Place,
) -> Result<Option<u32>, AllocError> {
    let mut leads = Vec::new(alloc);
    for reached in places(alloc, module, &function.expressions)?.as_slice() {
        leads.push(is_same_place(*reached, place))?;
    }
    Ok(position_of(function, &Sought::Store(value, leads.as_slice())))
}

/// Returns the position of the call that makes a result.
pub fn call_position(function: &Function, made: Handle<mark::Expression>) -> Option<u32> {
    position_of(function, &Sought::Call(made))
}

/// Returns the position of the first call of the function at an index that passes an argument.
pub fn passing_position(
    function: &Function,
    callee: usize,
    argument: Handle<mark::Expression>,
) -> Option<u32> {
    position_of(function, &Sought::Passing(callee, argument))
}

/// Returns the memory that the store at a position names, as `a.b[3]`, if there is a store.
///
/// # Errors
///
/// `AllocError` if an allocation fails.
pub fn stored_text(
    alloc: Global,
    module: &Module,
    place: &BodyPlace,
    function: &Function,
    position: u32,
) -> Result<Option<String>, AllocError> {
    let Some(found) = statement_at(alloc, module, place, &Wanted::At(position))? else {
        return Ok(None);
    };
    let makers = Makers::of(alloc, function)?;
    let source = Source {
        module,
        function,
        makers: &makers,
        line: Line::Statement(found.statement),
        way: &[],
    };
    let line = text_of_line(alloc, &source, MOST_COLUMNS)?;
    match line.text.as_str().split_once(" = ") {
        Some((memory, _)) => {
            let text: String = memory.chars().take(MOST_SHOWN).collect(alloc)?;
            Ok(Some(text))
        }
        None => Ok(None),
    }
}
