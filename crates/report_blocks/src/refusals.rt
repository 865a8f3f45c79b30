//! The text on a refused module: the verdict, a block for each diagnostic, and the verdict again.
ghost use Rattle.std.specs.Prelude.{◌≡◌, IfOk, string_bytes};
ghost use Rattle.report_blocks.specs.Refusals.{IsRefusalText, more_line, verdict_line};

use crate::block::blocks_of;
use crate::chosen::chosen;
use crate::detail::Detail;
use report_diagnostics::Diagnostic;
use shader_ir::Module;
use std::alloc::{AllocError, Global};

/// Returns the line with the verdict and the number of errors.
fn verdict_line(alloc: Global, count: usize) -> Result<String, AllocError>
    ensures { IfOk result (λ text. string_bytes text ≡ verdict_line count) }
{
    if count == 1 {
        String::from_str(alloc, "refused: 1 error\n")
    } else {
        format!(in alloc; "refused: {count} errors\n")
    }
}

/// Returns the line that says how many diagnostics get no block, behind an empty line, or nothing if all get one.
fn more_line(alloc: Global, shown: usize, count: usize) -> Result<String, AllocError>
    ensures { IfOk result (λ text. string_bytes text ≡ more_line shown count) }
{
    if count <= shown {
        return Ok(String::new(alloc));
    }
    let more = count - shown;
    format!(in alloc; "\n... and {more} more, which `--all` shows\n")
}

/// Returns the text on a module with these diagnostics, which an input spells: a line with the verdict; blocks, and a line that says how
/// many more there are; what else is printed of the module; and the verdict again. An empty line stands before each block and before the
/// last line.
///
/// Each diagnostic has a block if all are shown. Otherwise at most 20 have one, and of those in sequence with the same causes the first
/// four, of which three are short.
///
/// # Errors
///
/// `AllocError` if an allocation fails.
pub fn refusal_text(
    alloc: Global,
    input: &[u8],
    module: &Module,
    diagnostics: &[Diagnostic],
    detail: Detail,
    sections: &str,
) -> Result<String, AllocError>
    ensures { IfOk result (λ text. IsRefusalText «module».now diagnostics.now detail sections.now (string_bytes text)) }
{
    let count = diagnostics.len();
    let verdict = verdict_line(alloc, count)?;
    let indexes = chosen(alloc, diagnostics, detail.shows_all)?;
    let blocks = blocks_of(
        alloc,
        input,
        module,
        diagnostics,
        detail,
        indexes.as_slice(),
    )?;
    let more = more_line(alloc, indexes.len(), count)?;
    format!(in alloc; "{verdict}{blocks}{more}{sections}\n{verdict}")
}
