//! Why the result of an entry point may differ between invocations.
ghost use Rattle.std.specs.Prelude.{IfOk};
ghost use Rattle.report_findings.specs.Results.{AreCausesOfResult, HasSource};

use crate::related::causes_of_trace;
use crate::sites::{expression_location, expression_text_at};
use report_diagnostics::{Related, Text};
use report_places::BodyPlace;
use shader_analysis::ModuleInfo;
use shader_ir::{Items, Module};
use shader_uniformity::{BodyLocation, Fact, Rule, trace};
use std::alloc::{AllocError, Global};

/// Returns why the result of the entry point at an index may differ between invocations, from the result back to a source, by the rules of
/// WGSL. Returns `None` if it doesn't.
///
/// `known` has the summaries that `find_divergence` returns.
///
/// # Errors
///
/// `AllocError` if an allocation fails, or a function has 2^32 statements.
pub fn causes_of_result(
    alloc: Global,
    module: &Module,
    known: &[Items<Rule>],
    index: usize,
) -> Result<Option<Vec<Related>>, AllocError>
    ensures { IfOk result (AreCausesOfResult «module».now known.now index) }
{
    let place = BodyLocation::EntryPoint(index);
    match trace(alloc, module, known, place, &Fact::Always, &Fact::Gives)? {
        Some(rules) => {
            let causes = causes_of_trace(alloc, module, known, place, rules.as_slice())?;
            Ok(Some(causes))
        }
        None => Ok(None),
    }
}

/// Returns why the result of the entry point at an index may differ between invocations, by the rules of naga: the expression that they
/// record. Returns `None` if they record none.
///
/// # Errors
///
/// `AllocError` if an allocation fails.
pub fn source_of_result(
    alloc: Global,
    module: &Module,
    infos: &ModuleInfo,
    index: usize,
) -> Result<Option<Related>, AllocError>
    ensures { IfOk result (HasSource «module».now infos.now index) }
{
    if index >= infos.entry_point_count() {
        return Ok(None);
    }
    match infos.get_entry_point(index).uniformity.non_uniform_result {
        Some(expression) => {
            let place = BodyPlace::EntryPoint(index);
            let location = expression_location(alloc, module, &place, expression)?;
            let words = "differs between invocations by naga's rules";
            let message = Text::from(String::from_str(alloc, words)?);
            let text = expression_text_at(alloc, module, &location)?;
            let cause = Related {
                message,
                location,
                text,
            };
            Ok(Some(cause))
        }
        None => Ok(None),
    }
}
