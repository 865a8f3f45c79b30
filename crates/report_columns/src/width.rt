//! How wide a text is, and texts of a width.
ghost use Rattle.std.specs.Prelude.{◌≡◌, IfOk, string_bytes};
ghost use Rattle.report_columns.specs.Columns.{columns_of, padded_text};

use std::alloc::{AllocError, Global};

/// Returns the number of columns that a text takes: one for each character.
pub fn columns_of(text: &str) -> usize
    ensures { result ≡ columns_of text.now }
{
    text.chars().count()
}

/// Returns a text with blanks behind it up to a width in columns. A wider text stands alone.
///
/// # Errors
///
/// `AllocError` if an allocation fails.
pub fn padded_text(alloc: Global, text: &str, width: usize) -> Result<String, AllocError>
    ensures { IfOk result (λ padded. string_bytes padded ≡ padded_text width text.now) }
{
    let columns = columns_of(text);
    let blanks = " ".repeat(alloc, width.saturating_sub(columns))?;
    format!(in alloc; "{text}{blanks}")
}
