//! Failures on the way up from a rejected value.
ghost use Rattle.std.specs.Prelude.{◌≡◌, ◌≢◌, ◌⊎◌, Err, OnOk, OnErr};
ghost use Rattle.shader_json_reader.specs.declared.failure.Failure.TheVariants.{OutOfMemory};
ghost use Rattle.shader_json_reader.specs.declared.error.ReadError.TheVariants as error;
ghost use Rattle.shader_json_reader.specs.Answers.{IsUnrefused};
ghost use Rattle.shader_json_reader.specs.Errors.{IsOfModule};

use crate::error::{ReadError, Wanted};
use crate::found::found_words;
use json::Value;
use std::alloc::{AllocError, AllocFailed, Global};
use std::fmt::Write;

/// The reason why a value wasn't read.
#[derive(Drop)]
pub enum Failure {
    /// An allocation failed.
    OutOfMemory,
    /// A value was rejected.
    Refused(Refusal),
}

/// The requirement that a rejected value fails, with the path to the value.
#[derive(Drop)]
pub struct Refusal {
    // The indexes of the items or members on the path down to the value, the last one first.
    steps: Vec<usize>,
    wanted: Wanted,
}

impl Failure {
    /// Returns the failure that rejects the current value.
    pub fn refused(alloc: Global, wanted: Wanted) -> Failure
        ensures { result ≢ OutOfMemory }
    {
        Failure::Refused(Refusal {
            steps: Vec::new(alloc),
            wanted,
        })
    }

    /// Returns the failure as seen from the array or object that has the current value as the item or member of this index. This allocates.
    pub fn within(self, index: usize) -> Failure
        ensures { self ≡ OutOfMemory → result ≡ OutOfMemory }
    {
        match self {
            Failure::OutOfMemory => Failure::OutOfMemory,
            Failure::Refused(Refusal { mut steps, wanted }) => match steps.push(index) {
                Ok(()) => Failure::Refused(Refusal { steps, wanted }),
                Err(_) => Failure::OutOfMemory,
            },
        }
    }

    /// Returns the error for a failure that is seen from the root. This allocates the path and a description of the value.
    pub fn into_read_error(self, alloc: Global, root: &Value<'_>) -> ReadError
        ensures memory { self ≡ OutOfMemory → result ≡ error.OutOfMemory }
        ensures module { (result ≡ error.OutOfMemory) ⊎ IsOfModule result }
    {
        match self {
            Failure::OutOfMemory => ReadError::OutOfMemory,
            Failure::Refused(Refusal { steps, wanted }) => {
                let steps = steps.as_slice();
                let Ok(path) = path_of(alloc, root, steps) else {
                    return ReadError::OutOfMemory;
                };
                match found_words(alloc, value_at(root, steps)) {
                    Ok(found) => ReadError::NotModule {
                        path,
                        wanted,
                        found,
                    },
                    Err(_) => ReadError::OutOfMemory,
                }
            }
        }
    }
}

impl From<AllocError> for Failure {
    ghost from_gives = { λ _ e. e ≡ OutOfMemory };

    fn from(_error: AllocError) -> Failure {
        Failure::OutOfMemory
    }
}

impl<T: Drop> From<AllocFailed<T>> for Failure {
    ghost from_gives = { λ _ e. e ≡ OutOfMemory };

    fn from(_failed: AllocFailed<T>) -> Failure {
        Failure::OutOfMemory
    }
}

/// Returns the result of reading the item or member of this index, with a failure as seen from the array or object.
pub fn within<T>(index: usize, read: Result<T, Failure>) -> Result<T, Failure>
    ensures ok { OnOk read (result ≡ read) }
    ensures err { OnErr read (OnOk result ⊥) }
    ensures memory { read ≡ Err OutOfMemory → result ≡ Err OutOfMemory }
    ensures accepts { IsUnrefused read → IsUnrefused result }
{
    match read {
        Ok(read) => Ok(read),
        Err(failure) => Err(failure.within(index)),
    }
}

/// Returns the path from the root along the steps, the last one first.
fn path_of(alloc: Global, root: &Value<'_>, steps: &[usize]) -> Result<String, AllocError> {
    let mut path = String::new(alloc);
    add_steps(&mut path, root, steps)?;
    Ok(path)
}

/// Appends the path from a value along the steps, the last one first.
fn add_steps(path: &mut String, value: &Value<'_>, steps: &[usize]) -> Result<(), AllocError> {
    let Some((step, rest)) = steps.split_last() else {
        return Ok(());
    };
    add_step(path, value, *step)?;
    match below(value, *step) {
        Some(next) => add_steps(path, next, rest),
        None => Ok(()),
    }
}

/// Returns the value to which the steps lead, the last one first.
fn value_at<'v, 'a>(value: &'v Value<'a>, steps: &[usize]) -> &'v Value<'a> {
    let Some((step, rest)) = steps.split_last() else {
        return value;
    };
    match below(value, *step) {
        Some(next) => value_at(next, rest),
        None => value,
    }
}

/// Returns the item or the member of that index.
fn below<'v, 'a>(value: &'v Value<'a>, step: usize) -> Option<&'v Value<'a>> {
    match value {
        Value::Array(items) => items.get(step),
        Value::Object(members) => match members.get(step) {
            Some(member) => Some(&member.1),
            None => None,
        },
        _ => None,
    }
}

/// Appends the step to the item or the member of that index.
fn add_step(path: &mut String, value: &Value<'_>, step: usize) -> Result<(), AllocError> {
    match value {
        Value::Object(members) => match members.get(step) {
            Some(member) => add_name(path, member.0),
            None => Ok(()),
        },
        _ => add_index(path, step),
    }
}

/// Appends the step to a member.
fn add_name(path: &mut String, name: &str) -> Result<(), AllocError> {
    if !path.is_empty() {
        path.push('.')?;
    }
    path.push_str(name)
}

/// Appends the step to an item.
fn add_index(path: &mut String, index: usize) -> Result<(), AllocError> {
    match write!(path, "[{index}]") {
        Ok(()) => Ok(()),
        Err(_) => Err(AllocError),
    }
}
