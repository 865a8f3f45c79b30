//! The lists of a module and of its functions, and whether an index leads to an item of one.
ghost use Rattle.std.specs.Prelude.{◌≡◌, IfSome};
ghost use Rattle.std.specs.Option.{option_copied};
ghost use Rattle.report_messages.specs.Lists.{IsMissing, expressions_in, function_at, length_in, lengths_of, locals_in};

use report_places::{BodyPlace, function_of};
use shader_ir::{Function, Module};
use std::alloc::{AllocError, Global};

/// A list into which indexes lead.
#[derive(Clone, Copy)]
pub enum ListKind {
    Types,
    Constants,
    Overrides,
    GlobalVariables,
    GlobalExpressions,
    Functions,
    DiagnosticFilters,
    /// Those of the function at hand.
    Expressions,
    /// Those of the function at hand.
    LocalVariables,
}

/// An item of a list, by its index.
#[derive(Clone, Copy)]
pub struct Named {
    pub list: ListKind,
    pub index: usize,
}

/// The lengths of the lists.
#[derive(Clone, Copy)]
pub struct Lengths {
    pub types: usize,
    pub constants: usize,
    pub overrides: usize,
    pub global_variables: usize,
    pub global_expressions: usize,
    pub functions: usize,
    pub diagnostic_filters: usize,
    pub expressions: usize,
    pub local_variables: usize,
}

impl ListKind {
    /// Returns the word for an item of the list. That for more of them has an "s" at its end.
    pub fn word(self) -> &'static str {
        match self {
            ListKind::Types => "type",
            ListKind::Constants => "constant",
            ListKind::Overrides => "override",
            ListKind::GlobalVariables => "global variable",
            ListKind::GlobalExpressions => "global expression",
            ListKind::Functions => "function",
            ListKind::DiagnosticFilters => "diagnostic filter",
            ListKind::Expressions => "expression",
            ListKind::LocalVariables => "local variable",
        }
    }

    /// Returns the name of the list in the JSON of a module.
    pub fn member(self) -> &'static str {
        match self {
            ListKind::Types => "types",
            ListKind::Constants => "constants",
            ListKind::Overrides => "overrides",
            ListKind::GlobalVariables => "global_variables",
            ListKind::GlobalExpressions => "global_expressions",
            ListKind::Functions => "functions",
            ListKind::DiagnosticFilters => "diagnostic_filters",
            ListKind::Expressions => "expressions",
            ListKind::LocalVariables => "local_variables",
        }
    }

    /// Returns whether the list is one of a function.
    pub fn is_of_function(self) -> bool {
        matches!(self, ListKind::Expressions | ListKind::LocalVariables)
    }
}

/// Returns the function at a place, if there is one.
fn function_at<'a>(module: &'a Module, place: &Option<BodyPlace>) -> Option<&'a Function>
    ensures { option_copied result ≡ function_at «module».now place.now }
{
    match place {
        Some(place) => function_of(module, place),
        None => None,
    }
}

/// Returns the number of the expressions of a function.
fn expressions_in(function: Option<&Function>) -> usize
    ensures { result ≡ expressions_in (option_copied function.entry) }
{
    match function {
        Some(function) => function.expressions.len(),
        None => 0,
    }
}

/// Returns the number of the local variables of a function.
fn locals_in(function: Option<&Function>) -> usize
    ensures { result ≡ locals_in (option_copied function.entry) }
{
    match function {
        Some(function) => function.local_variables.len(),
        None => 0,
    }
}

impl Lengths {
    /// Returns the lengths of the lists of a module, and of the function at a place. Without a function, its lists have no items.
    pub fn of(module: &Module, place: &Option<BodyPlace>) -> Lengths
        ensures { result ≡ lengths_of «module».now place.now }
    {
        let function = function_at(module, place);
        Lengths {
            types: module.types.len(),
            constants: module.constants.len(),
            overrides: module.overrides.len(),
            global_variables: module.global_variables.len(),
            global_expressions: module.global_expressions.len(),
            functions: module.functions.len(),
            diagnostic_filters: module.diagnostic_filters.len(),
            expressions: expressions_in(function),
            local_variables: locals_in(function),
        }
    }

    /// Returns the length of a list.
    pub fn length_in(&self, list: ListKind) -> usize
        ensures { result ≡ length_in self.now list }
    {
        match list {
            ListKind::Types => self.types,
            ListKind::Constants => self.constants,
            ListKind::Overrides => self.overrides,
            ListKind::GlobalVariables => self.global_variables,
            ListKind::GlobalExpressions => self.global_expressions,
            ListKind::Functions => self.functions,
            ListKind::DiagnosticFilters => self.diagnostic_filters,
            ListKind::Expressions => self.expressions,
            ListKind::LocalVariables => self.local_variables,
        }
    }

    /// Returns the item at an index of a list if it doesn't exist.
    pub fn missing(&self, list: ListKind, index: usize) -> Option<Named>
        ensures { IfSome result (IsMissing self.now) }
    {
        if index < self.length_in(list) {
            None
        } else {
            Some(Named { list, index })
        }
    }
}

/// Returns a number with the word for what it counts, as `3 expressions` or `no functions`.
///
/// # Errors
///
/// `AllocError` if an allocation fails.
pub fn counted_text(alloc: Global, count: usize, word: &str) -> Result<String, AllocError> {
    match count {
        0 => format!(in alloc; "no {word}s"),
        1 => format!(in alloc; "1 {word}"),
        _ => format!(in alloc; "{count} {word}s"),
    }
}
