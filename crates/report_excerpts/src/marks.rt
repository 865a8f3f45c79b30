//! What an excerpt marks.

use report_places::PathStep;
use shader_arena::Handle;
use shader_ir::mark;

/// A place in a function that is marked, and what is said of it.
#[derive(Drop)]
pub struct Mark<'a> {
    /// The way to the statement. It is empty of an argument, and of an expression that no statement evaluates.
    pub way: &'a [PathStep],
    /// The expression, or none if the statement or the argument itself is marked.
    pub expression: Option<Handle<mark::Expression>>,
    /// The operand of the expression that is marked where the expression stands, or none if all of it is.
    pub operand: Option<Handle<mark::Expression>>,
    pub argument: Option<u32>,
    pub label: String,
    /// True of the place that a diagnostic is about, false of its causes.
    pub is_main: bool,
}
