//! The function that an excerpt is of.

use report_expressions::Makers;
use report_places::BodyPlace;
use shader_arena::Handle;
use shader_ir::{Function, Module, mark};
use std::alloc::{AllocError, Global};

/// A function or the function of an entry point.
#[derive(Drop)]
pub struct Body<'a> {
    pub alloc: Global,
    pub module: &'a Module,
    pub place: BodyPlace,
    pub function: &'a Function,
    /// The statements that make the results of `function`.
    pub makers: Makers<'a>,
}

impl<'a> Body<'a> {
    /// Returns a function with the makers of its results.
    pub fn of(
        alloc: Global,
        module: &'a Module,
        place: BodyPlace,
        function: &'a Function,
    ) -> Result<Body<'a>, AllocError> {
        let makers = Makers::of(alloc, function)?;
        Ok(Body {
            alloc,
            module,
            place,
            function,
            makers,
        })
    }

    /// Checks whether the function names an expression.
    pub fn has_name(&self, expression: Handle<mark::Expression>) -> bool {
        self.function.named_expressions.get(&expression).is_some()
    }

    /// Checks whether an expression is behind the last one.
    pub fn is_behind(&self, expression: Handle<mark::Expression>) -> bool {
        self.function.expressions.len() <= expression.index()
    }
}
