//! Expressions as lines on bounds checks show them.
ghost use Rattle.std.specs.Prelude.{◌≡◌, IfOk, string_bytes};
ghost use Rattle.report_expressions.specs.declared.line.Line.TheVariants as lines;
ghost use Rattle.shader_report_bounds.specs.Shown.{IsShown, handle_at};

use report_expressions::{Line, Makers, Source, text_of_line};
use shader_arena::Handle;
use shader_ir::{Function, Module, mark};
use std::alloc::{AllocError, Global};

/// The most columns of an expression.
const MOST_COLUMNS: usize = 48;

/// Returns the handle of the item at a position. No arena has a position beyond those of handles.
pub(crate) fn handle_at<T>(position: usize) -> Handle<T>
    ensures { result ≡ handle_at position }
{
    Handle::from_index(position.min(u32::MAX as usize) as u32)
}

/// Returns the text of a source's expression.
fn text_of(alloc: Global, source: &Source, position: usize) -> Result<String, AllocError>
    requires { source.now.line ≡ lines.Place (handle_at position) }
    ensures { IfOk result (λ text. IsShown source.now.«module».now source.now.function.now position (string_bytes text)) }
{
    let marked = text_of_line(alloc, source, MOST_COLUMNS)?;
    Ok(marked.text)
}

/// Returns the expression at a position; a pointer as the memory that it points to.
pub(crate) fn shown_text<'a>(
    alloc: Global,
    module: &'a Module,
    function: &'a Function,
    makers: &Makers<'a>,
    position: usize,
) -> Result<String, AllocError>
    ensures { IfOk result (λ text. IsShown «module».now function.now position (string_bytes text)) }
{
    let source = Source {
        module,
        function,
        makers,
        line: Line::Place(handle_at(position)),
        way: &[],
    };
    text_of(alloc, &source, position)
}
