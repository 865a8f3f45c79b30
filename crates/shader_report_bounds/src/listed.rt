//! Expressions and types in a line, separated by commas and `and`.
ghost use Rattle.std.specs.Prelude.{◌≡◌, IfOk, length, slice_get, string_bytes};
ghost use Rattle.shader_report_bounds.specs.Lines.{AreTexts, IsCheckedItem, IsCheckedLine, IsItem, IsLocalItem, IsLocalsLine, quoted};
ghost use Rattle.shader_report_bounds.specs.Lines.{locals_words, separator};

use crate::shown::{handle_at, shown_text};
use report_expressions::Makers;
use report_names::{MOST_NESTED, type_text};
use shader_ir::{Function, Module};
use std::alloc::{AllocError, Global};

/// Returns what stands in front of an item of a list.
fn separator(index: usize, count: usize) -> &'static str
    ensures { result.now ≡ separator index count }
{
    if index == 0 {
        ""
    } else if index == count.saturating_sub(1) {
        " and "
    } else {
        ", "
    }
}

/// Returns an item of a list in backquotes, behind a separator.
fn quoted(alloc: Global, index: usize, count: usize, text: &str) -> Result<String, AllocError>
    ensures { IfOk result (λ item. string_bytes item ≡ quoted index count text.now) }
{
    let separator = separator(index, count);
    format!(in alloc; "{separator}`{text}`")
}

/// Returns an expression of a list.
fn checked_item<'a>(
    alloc: Global,
    module: &'a Module,
    function: &'a Function,
    makers: &Makers<'a>,
    positions: &[usize],
    index: usize,
) -> Result<String, AllocError>
    ensures { IfOk result (λ text. IsCheckedItem «module».now function.now positions.now index (string_bytes text)) }
{
    match positions.get(index) {
        Some(position) => {
            let text = shown_text(alloc, module, function, makers, *position)?;
            quoted(alloc, index, positions.len(), text.as_str())
        }
        None => Ok(String::new(alloc)),
    }
}

/// Returns the expressions of a list.
fn checked_items<'a>(
    alloc: Global,
    module: &'a Module,
    function: &'a Function,
    makers: &Makers<'a>,
    positions: &[usize],
) -> Result<String, AllocError>
    ensures { IfOk result (λ text.
        AreTexts (IsCheckedItem «module».now function.now positions.now) (length positions.now) (string_bytes text)) }
{
    let mut text = String::new(alloc);
    for index in 0..positions.len() {
        let item = checked_item(alloc, module, function, makers, positions, index)?;
        text.push_str(item.as_str())?;
    }
    Ok(text)
}

/// Returns the line on the indexes that are checked before they are used, or an empty text if there are none.
pub(crate) fn checked_line<'a>(
    alloc: Global,
    module: &'a Module,
    function: &'a Function,
    makers: &Makers<'a>,
    positions: &[usize],
) -> Result<String, AllocError>
    ensures { IfOk result (λ text. IsCheckedLine «module».now function.now positions.now (string_bytes text)) }
{
    if positions.is_empty() {
        return Ok(String::new(alloc));
    }
    let items = checked_items(alloc, module, function, makers, positions)?;
    format!(in alloc; "  checked before use: {items}\n")
}

/// Returns a type of a list.
fn local_item(
    alloc: Global,
    module: &Module,
    positions: &[usize],
    index: usize,
) -> Result<String, AllocError>
    ensures { IfOk result (λ text. IsLocalItem «module».now positions.now index (string_bytes text)) }
{
    match positions.get(index) {
        Some(position) => {
            let text = type_text(alloc, module, handle_at(*position), MOST_NESTED)?;
            quoted(alloc, index, positions.len(), text.as_str())
        }
        None => Ok(String::new(alloc)),
    }
}

/// Returns the types of a list.
fn local_items(alloc: Global, module: &Module, positions: &[usize]) -> Result<String, AllocError>
    ensures { IfOk result (λ text. AreTexts (IsLocalItem «module».now positions.now) (length positions.now) (string_bytes text)) }
{
    let mut text = String::new(alloc);
    for index in 0..positions.len() {
        let item = local_item(alloc, module, positions, index)?;
        text.push_str(item.as_str())?;
    }
    Ok(text)
}

/// Returns what stands in front of the types of locals.
fn locals_words(count: usize) -> &'static str
    ensures { result.now ≡ locals_words count }
{
    if count == 1 {
        "a local of type"
    } else {
        "locals of types"
    }
}

/// Returns the line on the types of the locals to which pointers out of bounds lead, or an empty text if there are none.
pub(crate) fn locals_line(
    alloc: Global,
    module: &Module,
    positions: &[usize],
) -> Result<String, AllocError>
    ensures { IfOk result (λ text. IsLocalsLine «module».now positions.now (string_bytes text)) }
{
    if positions.is_empty() {
        return Ok(String::new(alloc));
    }
    let words = locals_words(positions.len());
    let items = local_items(alloc, module, positions)?;
    format!(in alloc; "  out of bounds, pointers lead to {words} {items}\n")
}
