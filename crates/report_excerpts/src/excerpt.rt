//! The excerpt of a function.

use crate::body::Body;
use crate::listing::list_block;
use crate::marks::Mark;
use crate::nesting::Marked;
use crate::rows::{MOST_COLUMNS, Rows, add_row};
use crate::signature::signature_of;
use crate::sites::{Site, site_of};
use report_expressions::Line;
use report_places::{BodyPlace, function_of};
use shader_ir::Module;
use std::alloc::{AllocError, Global};

/// Returns the arguments with marks.
fn marked_arguments(alloc: Global, marks: &[Mark<'_>]) -> Result<Vec<u32>, AllocError> {
    let mut found = Vec::new(alloc);
    for mark in marks {
        if let Some(argument) = mark.argument {
            found.push(argument)?;
        }
    }
    Ok(found)
}

/// Prints the first line of a function with the marks on its arguments.
fn add_signature(body: &Body<'_>, rows: &mut Rows, marks: &[Mark<'_>]) -> Result<(), AllocError> {
    let alloc = rows.alloc;
    let marked = marked_arguments(alloc, marks)?;
    let signature = signature_of(alloc, body, &marked, MOST_COLUMNS)?;
    rows.add_line(0, signature.text.as_str())?;
    for mark in marks {
        if let Some(argument) = mark.argument {
            if let Some((begin, end)) = signature.arguments.as_slice().get(argument as usize) {
                rows.add_mark(0, *begin, *end, mark.is_main, mark.label.as_str())?;
            }
        }
    }
    Ok(())
}

/// Returns the sites of the marks that aren't on arguments.
fn sites_of(alloc: Global, body: &Body<'_>, marks: &[Mark<'_>]) -> Result<Vec<Site>, AllocError> {
    let mut sites = Vec::new(alloc);
    for mark in marks {
        if mark.argument.is_none() {
            sites.push(site_of(alloc, body, mark)?)?;
        }
    }
    Ok(sites)
}

/// Prints the marked expressions that stand in no statement.
fn add_loose(body: &Body<'_>, rows: &mut Rows, sites: &[Site]) -> Result<(), AllocError> {
    for (index, site) in sites.iter().enumerate() {
        if site.way.is_empty() {
            if let Some(value) = site.value {
                add_row(body, rows, 1, &Line::Let(value), sites, &[index])?;
            }
        }
    }
    Ok(())
}

/// Returns the rows of an excerpt. If it is brief, these are only lines of statements with marks.
fn rows_of(body: &Body<'_>, marks: &[Mark<'_>], is_brief: bool) -> Result<String, AllocError> {
    let alloc = body.alloc;
    let mut rows = Rows::none(alloc, is_brief);
    if !is_brief {
        add_signature(body, &mut rows, marks)?;
    }
    let sites = sites_of(alloc, body, marks)?;
    add_loose(body, &mut rows, &sites)?;
    let marked = Marked::all(alloc, &sites)?;
    list_block(body, &mut rows, &body.function.body, &marked)?;
    Ok(rows.text)
}

/// Returns an excerpt of a function: its first line, each line with a mark, and the heads of the blocks around these. Under a line stand
/// its marks with their labels. Three dots stand for lines that are left out between. Lines have at most 100 columns beside indentation and
/// labels. What is no function has an empty excerpt.
///
/// # Errors
///
/// `AllocError` if an allocation fails.
pub fn excerpt_of(
    alloc: Global,
    module: &Module,
    place: BodyPlace,
    marks: &[Mark<'_>],
) -> Result<String, AllocError> {
    match function_of(module, &place) {
        Some(function) => rows_of(&Body::of(alloc, module, place, function)?, marks, false),
        None => Ok(String::new(alloc)),
    }
}

/// Returns the lines of a function's statements with marks, each with its marks under it.
///
/// # Errors
///
/// `AllocError` if an allocation fails.
pub fn lines_of(
    alloc: Global,
    module: &Module,
    place: BodyPlace,
    marks: &[Mark<'_>],
) -> Result<String, AllocError> {
    match function_of(module, &place) {
        Some(function) => rows_of(&Body::of(alloc, module, place, function)?, marks, true),
        None => Ok(String::new(alloc)),
    }
}
