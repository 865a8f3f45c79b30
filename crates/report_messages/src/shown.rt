//! Expressions as messages show them.

use report_expressions::{Line, Makers, Source, text_of_line};
use report_names::name_text;
use shader_arena::Handle;
use shader_ir::{Function, Module, mark};
use std::alloc::{AllocError, Global};

/// The most columns of an expression in a message.
const MOST_COLUMNS: usize = 48;

/// The most columns of an expression in a line of its own.
const MOST_IN_A_LINE: usize = 100;

/// Returns the text of an expression, given the statements that make results.
fn text_with<'a>(
    alloc: Global,
    module: &'a Module,
    function: &'a Function,
    makers: &Makers<'a>,
    expression: Handle<mark::Expression>,
    columns: usize,
) -> Result<String, AllocError> {
    let source = Source {
        module,
        function,
        makers,
        line: Line::Expression(expression),
        way: &[],
    };
    Ok(text_of_line(alloc, &source, columns)?.text)
}

/// Returns the text of an expression that reaches no result of a statement.
///
/// # Errors
///
/// `AllocError` if an allocation fails.
pub fn expression_text<'a>(
    alloc: Global,
    module: &'a Module,
    function: &'a Function,
    expression: Handle<mark::Expression>,
) -> Result<String, AllocError> {
    let makers = Makers {
        statements: Vec::new(alloc),
    };
    text_with(alloc, module, function, &makers, expression, MOST_COLUMNS)
}

/// Returns the text of an expression. The result of a statement is shown as what makes it.
///
/// # Errors
///
/// `AllocError` if an allocation fails.
pub fn result_text<'a>(
    alloc: Global,
    module: &'a Module,
    function: &'a Function,
    expression: Handle<mark::Expression>,
) -> Result<String, AllocError> {
    let makers = Makers::of(alloc, function)?;
    text_with(alloc, module, function, &makers, expression, MOST_COLUMNS)
}

/// Returns the text of an expression as a line of its own has it. The result of a statement is shown as what makes it.
///
/// # Errors
///
/// `AllocError` if an allocation fails.
pub fn line_text<'a>(
    alloc: Global,
    module: &'a Module,
    function: &'a Function,
    expression: Handle<mark::Expression>,
) -> Result<String, AllocError> {
    let makers = Makers::of(alloc, function)?;
    text_with(alloc, module, function, &makers, expression, MOST_IN_A_LINE)
}

/// Returns an operand as a message names it: by its name, or else as it is computed.
///
/// # Errors
///
/// `AllocError` if an allocation fails.
pub fn operand_text<'a>(
    alloc: Global,
    module: &'a Module,
    function: &'a Function,
    operand: Handle<mark::Expression>,
) -> Result<String, AllocError> {
    match function.named_expressions.get(&operand) {
        Some(name) => name_text(alloc, name.as_str()),
        None => {
            let text = result_text(alloc, module, function, operand)?;
            // A pointer is named as what it points to.
            let text = text.as_str();
            text.strip_prefix('&').unwrap_or(text).to_string(alloc)
        }
    }
}
