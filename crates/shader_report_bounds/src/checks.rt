//! Lines on accesses that need a check.
ghost use Rattle.std.specs.Prelude.{◌≡◌, IfOk, string_bytes};
ghost use Rattle.shader_report_bounds.specs.Lines.{AreCheckRows, IsCheckRow, length_text};

use crate::accesses::AccessCheck;
use crate::shown::shown_text;
use crate::written::policy_name;
use report_columns::Row;
use report_expressions::Makers;
use shader_bounds::IndexableLength;
use shader_ir::{Function, Module};
use std::alloc::{AllocError, Global};

/// Returns the length with which an index has to be compared.
fn length_text(alloc: Global, length: IndexableLength) -> Result<String, AllocError>
    ensures { IfOk result (λ text. string_bytes text ≡ length_text length) }
{
    match length {
        IndexableLength::Known(length) => format!(in alloc; "length {length}"),
        IndexableLength::Dynamic => String::from_str(alloc, "length known at run time"),
    }
}

/// Returns the line on an access.
fn check_row<'a>(
    alloc: Global,
    module: &'a Module,
    function: &'a Function,
    makers: &Makers<'a>,
    check: &AccessCheck,
) -> Result<Row, AllocError>
    ensures { IfOk result (λ row. IsCheckRow «module».now function.now check.now row) }
{
    let place = shown_text(alloc, module, function, makers, check.access)?;
    let length = length_text(alloc, check.length)?;
    let policy = policy_name(check.policy);
    let told = format!(in alloc; "{length}: {policy}")?;
    Ok(Row::new(place, told))
}

/// Returns a line for each access.
pub(crate) fn check_rows<'a>(
    alloc: Global,
    module: &'a Module,
    function: &'a Function,
    makers: &Makers<'a>,
    checks: &[AccessCheck],
) -> Result<Vec<Row>, AllocError>
    ensures { IfOk result (λ rows. AreCheckRows «module».now function.now checks.now rows.items) }
{
    let mut rows = Vec::new(alloc);
    for check in checks {
        let row = check_row(alloc, module, function, makers, check)?;
        rows.push(row)?;
    }
    Ok(rows)
}
