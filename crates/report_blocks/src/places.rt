//! The place of what is wrong in the JSON, in words.
ghost use Rattle.std.specs.Prelude.{◌≡◌, IfOk, string_bytes};
ghost use Rattle.report_blocks.specs.Blocks.{AreJsonWords, position_text};

use report_diagnostics::Location;
use report_names::name_text;
use report_places::{BodyPlace, body_text, path_of_pointer};
use shader_arena::Handle;
use shader_ir::Module;
use std::alloc::{AllocError, Global};

/// Returns an item of a list of the module by its name, with the word for it, if it has a name.
fn item_words(
    alloc: Global,
    module: &Module,
    list: &str,
    index: u32,
) -> Result<Option<String>, AllocError> {
    let (word, name) = match list {
        "constants" => match module.constants.try_get(Handle::from_index(index)) {
            Some(found) => ("constant", &found.name),
            None => return Ok(None),
        },
        "overrides" => match module.overrides.try_get(Handle::from_index(index)) {
            Some(found) => ("override", &found.name),
            None => return Ok(None),
        },
        "global_variables" => match module.global_variables.try_get(Handle::from_index(index)) {
            Some(found) => ("global variable", &found.name),
            None => return Ok(None),
        },
        "types" => match module.types.try_get(Handle::from_index(index)) {
            Some(found) => ("type", &found.name),
            None => return Ok(None),
        },
        _ => return Ok(None),
    };
    match name {
        Some(name) => {
            let name = name_text(alloc, name.as_str())?;
            Ok(Some(format!(in alloc; "{word} `{name}`")?))
        }
        None => Ok(None),
    }
}

/// Returns the item to which a JSON pointer leads, in words, if it has a name.
fn pointed_words(
    alloc: Global,
    module: &Module,
    pointer: &str,
) -> Result<Option<String>, AllocError> {
    let mut pieces = pointer.split('/').skip(1);
    let (Some(list), Some(index)) = (pieces.next(), pieces.next()) else {
        return Ok(None);
    };
    match index.parse::<u32>() {
        Ok(index) => item_words(alloc, module, list, index),
        Err(_) => Ok(None),
    }
}

/// Returns the item that has a fault of the JSON, in words: the function, or what has a name.
///
/// # Errors
///
/// `AllocError` if an allocation fails.
pub fn owner_words(
    alloc: Global,
    module: &Module,
    location: &Location,
) -> Result<Option<String>, AllocError> {
    match location.body {
        Some(BodyPlace::ConstExpression(_)) => Ok(None),
        Some(place) => Ok(Some(body_text(alloc, module, &place)?)),
        None => match &location.pointer {
            Some(pointer) => pointed_words(alloc, module, pointer.as_str()),
            None => Ok(None),
        },
    }
}

/// Returns the line and the column of a place in the JSON, or nothing if they aren't known.
fn position_text(alloc: Global, location: &Location) -> Result<String, AllocError>
    ensures { IfOk result (λ text. string_bytes text ≡ position_text location.now.line location.now.column) }
{
    match (location.line, location.column) {
        (Some(line), Some(column)) => format!(in alloc; "line {line}, column {column}"),
        _ => Ok(String::new(alloc)),
    }
}

/// Returns the path of a place in the JSON, as far as that is known.
fn path_text(alloc: Global, location: &Location) -> Result<String, AllocError> {
    match (&location.path, &location.pointer) {
        (Some(path), _) => path.as_str().to_string(alloc),
        (None, Some(pointer)) => path_of_pointer(alloc, pointer.as_str()),
        (None, None) => Ok(String::new(alloc)),
    }
}

/// Returns what stands behind the line and the column of a place in the JSON: the path, and the item that the place belongs to in brackets.
/// If no path and no position is known, it is a byte, or the input as a whole.
fn path_words(
    alloc: Global,
    location: &Location,
    has_position: bool,
    owner: Option<String>,
) -> Result<String, AllocError> {
    let path = path_text(alloc, location)?;
    let place = match (has_position, path.is_empty()) {
        (true, true) => String::new(alloc),
        (true, false) => format!(in alloc; ": {path}")?,
        (false, false) => path,
        (false, true) => match location.byte {
            Some(byte) => format!(in alloc; "byte {byte}")?,
            None => "the input".to_string(alloc)?,
        },
    };
    match owner {
        Some(owner) => format!(in alloc; "{place} ({owner})"),
        None => Ok(place),
    }
}

/// Returns a place in the JSON in words: line and column, the path, and the item that the place belongs to in brackets, as far as they are
/// known.
///
/// # Errors
///
/// `AllocError` if an allocation fails.
pub fn json_words(
    alloc: Global,
    location: &Location,
    owner: Option<String>,
) -> Result<String, AllocError>
    ensures { IfOk result (λ text. AreJsonWords location.now (string_bytes text)) }
{
    let position = position_text(alloc, location)?;
    let words = path_words(alloc, location, !position.is_empty(), owner)?;
    format!(in alloc; "{position}{words}")
}
