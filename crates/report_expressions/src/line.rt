//! What is printed, and where its names come from.

use crate::makers::Makers;
use shader_arena::Handle;
use shader_ir::{Function, Module, Statement, SwitchValue, mark};

/// A line of a function.
#[derive(Clone, Copy)]
pub enum Line<'a> {
    /// An expression alone.
    Expression(Handle<mark::Expression>),
    /// An expression alone; a pointer as the memory that it points to, as `a[i]`.
    Place(Handle<mark::Expression>),
    /// An expression whose value gets its name, as `let x = a + b;`, or `_ = a + b;` if it has none.
    Let(Handle<mark::Expression>),
    /// A statement, or its head if it contains blocks.
    Statement(&'a Statement),
    /// The head of a loop that ends when the condition is false, as `while (a < b) {`.
    While(Handle<mark::Expression>),
    /// The head of such a loop that ends each round by a store, as `for (; i < n; i = i + 1) {`.
    For(Handle<mark::Expression>, &'a Statement),
    /// `} else {`.
    Else,
    /// The head of a case.
    Case(SwitchValue),
    /// `continuing {`.
    Continuing,
    /// The end of a loop, as `break if (a);`.
    BreakIf(Handle<mark::Expression>),
}

/// What a line is printed from.
#[derive(Clone, Copy)]
pub struct Source<'a, 'm, 'w> {
    pub module: &'a Module,
    pub function: &'a Function,
    /// The statements that make the results of `function`.
    pub makers: &'m Makers<'a>,
    pub line: Line<'a>,
    /// The operands on the way from the line to the marked one, which is the last. If there are none, the whole line is marked.
    pub way: &'w [Handle<mark::Expression>],
}
