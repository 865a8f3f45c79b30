//! Reads values that are names in a table.
ghost use Rattle.std.specs.Prelude.{◌≡◌, ◌≢◌, ℕ, List, IfErr, IfNone, IfOk, IfSome, IsTrue};
ghost use Rattle.json.specs.Json.{string};
ghost use Rattle.json.specs.Value.{value_view};
ghost use Rattle.shader_json_declarations.specs.Rows.{are_spelled, is_listed};
ghost use Rattle.shader_json_reader.specs.Answers.{Accepts};
ghost use Rattle.shader_json_reader.specs.declared.failure.Failure.TheVariants.{OutOfMemory};

use json::Value;
use shader_json_reader::{Context, Failure};

/// A type whose values have names in JSON.
pub trait Spelled: Copy {
    ghost spelling: { Self → List ℕ };
}

/// Returns the item of the first table entry with that name.
fn by_name<T: Spelled>(name: &str, table: &[(&str, T)]) -> Option<T>
    requires spelled { IsTrue (are_spelled T.spelling table.now) }
    requires listed { (item : T) → IsTrue (is_listed T.spelling table.now item) }
    ensures some { IfSome result (λ item. name.now ≡ T.spelling item) }
    ensures none { IfNone result ((item : T) → name.now ≢ T.spelling item) }
{
    for row in table {
        if row.0 == name {
            return Some(row.1);
        }
    }
    None
}

/// Returns the item that a string names in the table.
///
/// # Errors
///
/// A value that is no name of the table.
pub fn named<T: Spelled>(
    context: Context,
    value: &Value<'_>,
    table: &[(&str, T)],
    wanted: &'static str,
) -> Result<T, Failure>
    requires spelled { IsTrue (are_spelled T.spelling table.now) }
    requires listed { (item : T) → IsTrue (is_listed T.spelling table.now item) }
    ensures memory { IfErr result (λ e. e ≢ OutOfMemory) }
    ensures reads { IfOk result (λ item. value_view value.now ≡ string (T.spelling item)) }
    ensures accepts { Accepts (λ item. value_view value.now ≡ string (T.spelling item)) result }
{
    let found = match value.as_str() {
        Some(name) => by_name(name, table),
        None => None,
    };
    match found {
        Some(item) => Ok(item),
        None => Err(context.refused(wanted)),
    }
}
