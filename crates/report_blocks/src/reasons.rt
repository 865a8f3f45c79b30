//! Why a result may differ between invocations.

use crate::causes::Causes;
use crate::excerpts::excerpts_from;
use report_diagnostics::Related;
use report_places::BodyPlace;
use shader_ir::Module;
use std::alloc::{AllocError, Global};

/// Returns why the result of an entry point may differ between invocations: a line that says so, and excerpts with each of the causes. They
/// lead from the result back to a source. Returns nothing if there are no causes.
///
/// # Errors
///
/// `AllocError` if an allocation fails.
pub fn reasons_text(
    alloc: Global,
    module: &Module,
    place: BodyPlace,
    related: &[Related],
) -> Result<String, AllocError> {
    if related.is_empty() {
        return Ok(String::new(alloc));
    }
    let causes = Causes {
        related,
        omitted: 0,
        shows_all: true,
    };
    let excerpts = excerpts_from(alloc, module, &causes, place)?;
    format!(in alloc; "  the result may differ between invocations\n{excerpts}")
}
