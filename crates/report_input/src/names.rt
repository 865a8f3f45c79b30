//! The names that a value may be, and those that are near to a wrong one.

use std::alloc::{AllocError, Global};
use strsim::levenshtein;

/// The most names that stand in a label.
const MOST_IN_A_LABEL: usize = 8;

/// The most names that stand in a note unasked.
const MOST_IN_A_NOTE: usize = 24;

/// The most names that are suggested.
const MOST_SUGGESTED: usize = 3;

/// Returns the number of names that a requirement lists in backquotes.
pub fn count_of_names(wanted: &str) -> usize {
    wanted.split('`').count() / 2
}

/// Returns whether a requirement lists so many names that a label has no room for them.
pub fn has_many_names(wanted: &str) -> bool {
    MOST_IN_A_LABEL < count_of_names(wanted)
}

/// Returns the name in a description of a value: what is between its first and its last quote.
pub fn name_in(found: &str) -> &str {
    match (found.find('"'), found.rfind('"')) {
        (Some(first), Some(last)) if first < last => &found[first + 1..last],
        _ => found,
    }
}

/// Adds a name to a list, of which `left` more follow, behind a word that joins the last one.
fn add_listed(
    text: &mut String,
    name: &str,
    left: usize,
    joined_by: &str,
) -> Result<(), AllocError> {
    if !text.is_empty() {
        text.push_str(if left == 0 { joined_by } else { ", " })?;
    }
    text.push_str("`")?;
    text.push_str(name)?;
    text.push_str("`")
}

/// Returns all names that a requirement lists, as a list with "and".
fn all_names(alloc: Global, wanted: &str) -> Result<String, AllocError> {
    let mut text = String::new(alloc);
    let mut left = count_of_names(wanted);
    for (position, name) in wanted.split('`').enumerate() {
        if position % 2 == 1 && left > 0 {
            left = left.saturating_sub(1);
            add_listed(&mut text, name, left, " and ")?;
        }
    }
    Ok(text)
}

/// Returns how far a name is from a wrong one: nothing if they differ in case alone, and otherwise by the number of letters that are added,
/// left out or exchanged, whatever their case. Returns `None` if more than a third of the letters differ.
fn distance(alloc: Global, wrong: &str, name: &str) -> Result<Option<usize>, AllocError> {
    let one = wrong.to_ascii_lowercase(alloc)?;
    let other = name.to_ascii_lowercase(alloc)?;
    let found = levenshtein(alloc, one.as_str(), other.as_str())?;
    let most = wrong.chars().count() / 3;
    Ok(if found <= most { Some(found) } else { None })
}

/// Returns the names that a requirement lists and that are nearest to a wrong one, if any are near.
fn nearest<'a>(alloc: Global, wanted: &'a str, wrong: &str) -> Result<Vec<&'a str>, AllocError> {
    let mut best = usize::MAX;
    let mut names = Vec::new(alloc);
    for (position, name) in wanted.split('`').enumerate() {
        if position % 2 == 1 {
            if let Some(found) = distance(alloc, wrong, name)? {
                if found < best {
                    best = found;
                    names = Vec::new(alloc);
                }
                if found == best {
                    names.push(name)?;
                }
            }
        }
    }
    Ok(names)
}

/// Checks whether a name is one of several.
fn is_among(names: &[&str], wanted: &str) -> bool {
    for name in names {
        if *name == wanted {
            return true;
        }
    }
    false
}

/// Returns a question that names what a wrong name may stand for, if a requirement lists many names and one of them is near.
///
/// # Errors
///
/// `AllocError` if an allocation fails.
pub fn suggestion(alloc: Global, wanted: &str, wrong: &str) -> Result<Option<String>, AllocError> {
    if !has_many_names(wanted) {
        return Ok(None);
    }
    let names = nearest(alloc, wanted, wrong)?;
    let count = names.len().min(MOST_SUGGESTED);
    if count == 0 || is_among(names.as_slice(), wrong) {
        return Ok(None);
    }
    let mut text = String::new(alloc);
    let mut left = count;
    for name in names.iter().take(count) {
        left = left.saturating_sub(1);
        add_listed(&mut text, name, left, " or ")?;
    }
    Ok(Some(format!(in alloc; "did you mean {text}?")?))
}

/// Returns a note with the names that a requirement lists, if none of them is near to a wrong one, and they are many, but not too many to
/// be told unasked.
///
/// # Errors
///
/// `AllocError` if an allocation fails.
pub fn known_names(
    alloc: Global,
    wanted: &str,
    wrong: &str,
    explains: bool,
) -> Result<Option<String>, AllocError> {
    let is_told = explains || count_of_names(wanted) <= MOST_IN_A_NOTE;
    if !is_told || !has_many_names(wanted) || suggestion(alloc, wanted, wrong)?.is_some() {
        return Ok(None);
    }
    let names = all_names(alloc, wanted)?;
    Ok(Some(format!(in alloc; "known are {names}")?))
}
