//! Flags given by their names.
ghost use Rattle.std.specs.Prelude.{◌≢◌, IfErr, IfOk};
ghost use Rattle.json.specs.Value.{value_view};
ghost use Rattle.shader_json_reader.specs.Answers.{Accepts};
ghost use Rattle.shader_json_reader.specs.Numbers.{AreFlags};
ghost use Rattle.shader_json_reader.specs.declared.failure.Failure.TheVariants.{OutOfMemory};

use crate::context::Context;
use crate::failure::Failure;
use bitflags::Flags;
use json::Value;

/// Reads flags in the text form of `bitflags`: names separated by bars, with blanks around the
/// bars.
///
/// # Errors
///
/// A value that is no such text.
pub fn flags<B: Flags>(
    context: Context,
    value: &Value<'_>,
    wanted: &'static str,
) -> Result<B, Failure>
    ensures memory { IfErr result (λ e. e ≢ OutOfMemory) }
    ensures flags { IfOk result (λ flags. B.exact → AreFlags B.table (value_view value.now) (B.set_of flags)) }
    ensures accepts { B.exact → Accepts (AreFlags B.table (value_view value.now)) result }
{
    let Some(text) = value.as_str() else {
        return Err(context.refused(wanted));
    };
    match bitflags::parser::from_str_strict(text) {
        Ok(flags) => Ok(flags),
        Err(_) => Err(context.refused(wanted)),
    }
}
