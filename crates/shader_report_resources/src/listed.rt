//! Lists of the text output, each with a title.
ghost use Rattle.std.specs.Prelude.{◌≡◌, IfOk, string_bytes};
ghost use Rattle.shader_report_resources.specs.Listed.{listed};

use report_columns::{Row, rows_text};
use std::alloc::{AllocError, Global};

/// Returns the lines of a list behind an empty line and its title, or an empty text if there are none.
pub(crate) fn listed(alloc: Global, title: &str, rows: &[Row]) -> Result<String, AllocError>
    ensures { IfOk result (λ text. string_bytes text ≡ listed title.now rows.now) }
{
    if rows.is_empty() {
        return Ok(String::new(alloc));
    }
    let lines = rows_text(alloc, rows)?;
    format!(in alloc; "\n{title}\n{lines}")
}
