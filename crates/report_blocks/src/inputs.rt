//! The text on an input that is no module: the verdict, a block, and the verdict again.
ghost use Rattle.std.specs.Prelude.{◌≡◌, IfOk, string_bytes};
ghost use Rattle.report_blocks.specs.Refusals.{IsInputText};

use crate::block::input_block;
use report_diagnostics::Diagnostic;
use std::alloc::{AllocError, Global};

/// Returns the text on an input that is no module, of which this is the diagnostic. An empty line stands before the block and before the
/// last line.
///
/// # Errors
///
/// `AllocError` if an allocation fails.
pub fn input_text(
    alloc: Global,
    input: &[u8],
    diagnostic: &Diagnostic,
    explains: bool,
) -> Result<String, AllocError>
    ensures { IfOk result (λ text. IsInputText explains diagnostic.now (string_bytes text)) }
{
    let block = input_block(alloc, input, diagnostic, explains)?;
    format!(in alloc; "not a module: 1 error\n{block}\nnot a module: 1 error\n")
}
