//! A module that comes as JSON from outside.
ghost use Rattle.std.specs.Prelude.{IfOk, OnOk};
ghost use Rattle.std.specs.Str.{IsUtf8};
ghost use Rattle.shader_typing.specs.Nesting.{NestsWithin};

use shader_json_module::{ReadError, read_module};
use shader_typing::ir::Module;
use shader_typing::valid::{MOST_LEVELS, nests_within};
use std::alloc::Global;

/// The reason why a text gives no module.
#[derive(Debug, Drop)]
pub enum Unread {
    /// It is no module as JSON, or an allocation failed.
    Text(ReadError),
    /// The blocks of the module nest too deep to be walked.
    TooDeep,
}

/// Reads a module that is fit to be walked by recursion, as the calls of `valid` do.
///
/// # Errors
///
/// The reason why there is none.
pub fn read(alloc: Global, text: &[u8]) -> Result<Module, Unread>
    ensures text { OnOk result (IsUtf8 text.now) }
    ensures nests { IfOk result (NestsWithin MOST_LEVELS) }
{
    match read_module(alloc, text) {
        Ok(module) if nests_within(&module, MOST_LEVELS) => Ok(module),
        Ok(_) => Err(Unread::TooDeep),
        Err(error) => Err(Unread::Text(error)),
    }
}
