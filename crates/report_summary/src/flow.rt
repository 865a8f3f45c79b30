//! The lines on uniform control flow.

use crate::counts::NeedCounts;
use crate::reached::Reached;
use std::alloc::{AllocError, Global};

/// The rules by which uniform control flow was checked.
#[derive(Clone, Copy, Debug, PartialEq, Eq)]
pub enum FlowRules {
    /// Those of WGSL.
    Wgsl,
    /// Those of naga.
    Naga,
    /// None.
    Unchecked,
}

/// Returns what was found of needs.
fn checked_line(
    alloc: Global,
    rules: FlowRules,
    is_entry_point: bool,
    needs: &NeedCounts,
) -> Result<String, AllocError> {
    let count = needs.total();
    if count == 0 {
        return Ok(String::new(alloc));
    }
    let words = needs.words(alloc)?;
    match rules {
        FlowRules::Unchecked => {
            let verb = if count == 1 { "is" } else { "are" };
            format!(in alloc;
                "  not checked: whether {words} {verb} reached in uniform control flow\n"
            )
        }
        FlowRules::Naga => {
            format!(in alloc; "  uniform control flow: {words}, accepted by naga's rules\n")
        }
        FlowRules::Wgsl => {
            if is_entry_point {
                format!(in alloc;
                    "  uniform control flow: {words}, reached by all invocations together\n"
                )
            } else {
                format!(in alloc; "  must be called in uniform control flow: {words}\n")
            }
        }
    }
}

/// Returns which needs filters of a severity exempt, or nothing if there are none.
fn exempt_line(alloc: Global, severity: &str, exempt: &NeedCounts) -> Result<String, AllocError> {
    if exempt.total() == 0 {
        return Ok(String::new(alloc));
    }
    let words = exempt.words(alloc)?;
    format!(in alloc; "  exempt by `@diagnostic({severity}, derivative_uniformity)`: {words}\n")
}

/// Returns the lines on uniform control flow of a function, which must be called in it if it isn't an entry point.
pub fn flow_lines(
    alloc: Global,
    rules: FlowRules,
    is_entry_point: bool,
    reached: &Reached,
) -> Result<String, AllocError> {
    let checked = checked_line(alloc, rules, is_entry_point, &reached.needs)?;
    let off = exempt_line(alloc, "off", &reached.off)?;
    let info = exempt_line(alloc, "info", &reached.info)?;
    let warning = exempt_line(alloc, "warning", &reached.warning)?;
    format!(in alloc; "{checked}{off}{info}{warning}")
}
