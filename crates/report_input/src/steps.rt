//! Ways to values in JSON, as paths and as pointers.
ghost use Rattle.std.specs.Prelude.{◌≡◌, ◌++◌, IfOk, IfSome, OnOk, string_bytes};
ghost use Rattle.report_input.specs.Steps.{first_in_path, path_text, pointer_text, step_in_path, step_in_pointer, steps_in_path};

use report_diagnostics::Text;
use std::alloc::{AllocError, Global};

/// A step from a value to one inside it.
#[derive(Debug, Drop)]
pub enum Step {
    /// To a member of this name.
    Member(Text),
    /// To the item of this index.
    Item(usize),
}

/// Adds a step to a path.
fn add_to_path(text: &mut String, step: &Step) -> Result<(), AllocError>
    ensures { OnOk result (string_bytes text.new ≡ string_bytes text.old ++ step_in_path step.now) }
{
    match step {
        Step::Member(name) => {
            text.push_str(".")?;
            text.push_str(name.as_str())
        }
        Step::Item(index) => write!(text, "[{index}]"),
    }
}

/// Adds the first step to a path. No point stands before a member there.
fn begin_path(text: &mut String, step: &Step) -> Result<(), AllocError>
    ensures { OnOk result (string_bytes text.new ≡ string_bytes text.old ++ first_in_path step.now) }
{
    match step {
        Step::Member(name) => text.push_str(name.as_str()),
        Step::Item(_) => add_to_path(text, step),
    }
}

/// Adds steps to a path.
fn add_all_to_path(text: &mut String, steps: &[Step]) -> Result<(), AllocError>
    ensures { OnOk result (string_bytes text.new ≡ string_bytes text.old ++ steps_in_path steps.now) }
{
    for step in steps {
        add_to_path(text, step)?;
    }
    Ok(())
}

/// Returns the path of these steps, as `functions[2].arguments`.
///
/// # Errors
///
/// `AllocError` if an allocation fails.
pub fn path_text(alloc: Global, steps: &[Step]) -> Result<String, AllocError>
    ensures { IfOk result (λ text. string_bytes text ≡ path_text steps.now) }
{
    let mut text = String::new(alloc);
    if let Some((first, rest)) = steps.split_first() {
        begin_path(&mut text, first)?;
        add_all_to_path(&mut text, rest)?;
    }
    Ok(text)
}

/// Adds a step to a JSON pointer.
fn add_to_pointer(text: &mut String, step: &Step) -> Result<(), AllocError>
    ensures { OnOk result (string_bytes text.new ≡ string_bytes text.old ++ step_in_pointer step.now) }
{
    text.push_str("/")?;
    match step {
        Step::Member(name) => text.push_str(name.as_str()),
        Step::Item(index) => write!(text, "{index}"),
    }
}

/// Returns the JSON pointer (RFC 6901) of these steps, as `/functions/2/arguments`. No field has a `~` or a `/`, so nothing is escaped.
///
/// # Errors
///
/// `AllocError` if an allocation fails.
pub fn pointer_text(alloc: Global, steps: &[Step]) -> Result<Text, AllocError>
    ensures { IfOk result (λ text. text ≡ pointer_text steps.now) }
{
    let mut text = String::new(alloc);
    for step in steps {
        add_to_pointer(&mut text, step)?;
    }
    Ok(Text::from(text))
}

/// Adds the step to a member, unless its name has a character that a pointer would have to escape. Returns whether it did.
fn add_member(alloc: Global, steps: &mut Vec<Step>, name: &str) -> Result<bool, AllocError> {
    if name.contains('/') || name.contains('~') {
        return Ok(false);
    }
    let name = Text::from(name.to_string(alloc)?);
    steps.push(Step::Member(name))?;
    Ok(true)
}

/// Adds the step to the item of an index that ends with a bracket. Returns whether it has that form.
fn add_item(steps: &mut Vec<Step>, index: &str) -> Result<bool, AllocError> {
    let Some(digits) = index.strip_suffix(']') else {
        return Ok(false);
    };
    match digits.parse::<usize>() {
        Ok(index) => {
            steps.push(Step::Item(index))?;
            Ok(true)
        }
        Err(_) => Ok(false),
    }
}

/// Adds the steps of a part of a path without points: a name, with indexes behind it. Returns whether it has that form.
fn add_part(alloc: Global, steps: &mut Vec<Step>, part: &str) -> Result<bool, AllocError> {
    for (position, piece) in part.split('[').enumerate() {
        let is_added = if position > 0 {
            add_item(steps, piece)?
        } else if piece.is_empty() {
            true
        } else {
            add_member(alloc, steps, piece)?
        };
        if !is_added {
            return Ok(false);
        }
    }
    Ok(true)
}

/// Returns the steps of a path as far as it has the form of one.
fn parsed(alloc: Global, path: &str) -> Result<Vec<Step>, AllocError> {
    let mut steps = Vec::new(alloc);
    for part in path.split('.') {
        if !add_part(alloc, &mut steps, part)? {
            return Ok(steps);
        }
    }
    Ok(steps)
}

/// Returns the steps of a path, if it has the form of one.
///
/// # Errors
///
/// `AllocError` if an allocation fails.
pub fn steps_of(alloc: Global, path: &str) -> Result<Option<Vec<Step>>, AllocError>
    ensures { IfOk result (λ found. IfSome found (λ steps. path_text steps.items ≡ path.now)) }
{
    let steps = parsed(alloc, path)?;
    let text = path_text(alloc, steps.as_slice())?;
    if text.as_str() == path {
        Ok(Some(steps))
    } else {
        Ok(None)
    }
}

/// Returns the steps that stand behind others in a path, if the rest of the path has the form of such steps.
///
/// # Errors
///
/// `AllocError` if an allocation fails.
pub fn further_steps(alloc: Global, rest: &str) -> Result<Option<Vec<Step>>, AllocError>
    ensures { IfOk result (λ found. IfSome found (λ steps. steps_in_path steps.items ≡ rest.now)) }
{
    let steps = parsed(alloc, rest)?;
    let mut text = String::new(alloc);
    add_all_to_path(&mut text, steps.as_slice())?;
    if text.as_str() == rest {
        Ok(Some(steps))
    } else {
        Ok(None)
    }
}

/// Adds the step of a piece of a JSON pointer: an index, or else a name. Returns whether it has the form of one.
fn add_piece(alloc: Global, steps: &mut Vec<Step>, piece: &str) -> Result<bool, AllocError> {
    match piece.parse::<usize>() {
        Ok(index) => {
            steps.push(Step::Item(index))?;
            Ok(true)
        }
        Err(_) => add_member(alloc, steps, piece),
    }
}

/// Returns the steps of a JSON pointer as far as it has the form of one, without characters that are escaped.
fn parsed_pointer(alloc: Global, pointer: &str) -> Result<Vec<Step>, AllocError> {
    let mut steps = Vec::new(alloc);
    for piece in pointer.split('/').skip(1) {
        if !add_piece(alloc, &mut steps, piece)? {
            return Ok(steps);
        }
    }
    Ok(steps)
}

/// Returns the steps of a JSON pointer, if it has the form of one, without characters that are escaped.
///
/// # Errors
///
/// `AllocError` if an allocation fails.
pub fn steps_of_pointer(alloc: Global, pointer: &str) -> Result<Option<Vec<Step>>, AllocError>
    ensures { IfOk result (λ found. IfSome found (λ steps. pointer_text steps.items ≡ pointer.now)) }
{
    let steps = parsed_pointer(alloc, pointer)?;
    let text = pointer_text(alloc, steps.as_slice())?;
    if text.as_str() == pointer {
        Ok(Some(steps))
    } else {
        Ok(None)
    }
}

/// Returns the last member of a path, with the index of its item if the path ends with one.
pub fn last_step(path: &str) -> &str {
    match path.rfind('.') {
        Some(at) => &path[at + 1..],
        None => path,
    }
}
