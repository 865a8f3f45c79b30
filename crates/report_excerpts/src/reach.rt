//! In which expressions the text of another one stands.

use crate::body::Body;
use shader_arena::Handle;
use shader_ir::proc::{Operands, expression_operands, statement_operands};
use shader_ir::{Statement, mark};
use std::alloc::{AllocError, Global};

/// The expressions whose text has that of a target, as operands without a name are printed in it.
#[derive(Drop)]
pub struct Reach {
    target: Handle<mark::Expression>,
    /// Of each expression, by its number: the operand on the way to the target.
    steps: Vec<Option<Handle<mark::Expression>>>,
    /// The first such expression that has a name.
    pub named: Option<Handle<mark::Expression>>,
    /// The last such expression.
    pub last: Option<Handle<mark::Expression>>,
}

impl Reach {
    /// Returns the operand of an expression on the way to the target.
    fn step(&self, expression: Handle<mark::Expression>) -> Option<Handle<mark::Expression>> {
        match self.steps.as_slice().get(expression.index()) {
            Some(step) => *step,
            None => None,
        }
    }

    /// Checks whether the target stands in the text of an operand.
    fn leads(&self, body: &Body<'_>, operand: Handle<mark::Expression>) -> bool {
        operand == self.target || (self.step(operand).is_some() && !body.has_name(operand))
    }

    /// Returns the first of some operands in whose text the target stands.
    fn first(&self, body: &Body<'_>, operands: Operands<'_>) -> Option<Handle<mark::Expression>> {
        for (operand, _) in operands {
            if self.leads(body, operand) {
                return Some(operand);
            }
        }
        None
    }

    /// Returns the first operand of a statement in whose text the target stands.
    pub fn first_of(
        &self,
        body: &Body<'_>,
        statement: &Statement,
    ) -> Option<Handle<mark::Expression>> {
        self.first(body, statement_operands(statement))
    }

    /// Notes how an expression reaches the target, by its operands or by those of what makes it.
    fn note(
        &mut self,
        body: &Body<'_>,
        expression: Handle<mark::Expression>,
    ) -> Result<(), AllocError> {
        let step = if expression <= self.target {
            None
        } else {
            match body.makers.get(expression) {
                Some(maker) => self.first_of(body, maker),
                None => match body.function.expressions.try_get(expression) {
                    Some(found) => self.first(body, expression_operands(found)),
                    None => None,
                },
            }
        };
        self.steps.push(step)?;
        if step.is_none() {
            return Ok(());
        }
        if self.named.is_none() && body.has_name(expression) {
            self.named = Some(expression);
        }
        self.last = Some(expression);
        Ok(())
    }

    /// Returns the expressions of a function whose text has that of a target.
    pub fn of(
        alloc: Global,
        body: &Body<'_>,
        target: Handle<mark::Expression>,
    ) -> Result<Reach, AllocError> {
        let mut reach = Reach {
            target,
            steps: Vec::new(alloc),
            named: None,
            last: None,
        };
        for (expression, _) in body.function.expressions.iter() {
            reach.note(body, expression)?;
        }
        Ok(reach)
    }

    /// Returns the operands from the first one to the target.
    pub fn way_from(
        &self,
        alloc: Global,
        first: Handle<mark::Expression>,
    ) -> Result<Vec<Handle<mark::Expression>>, AllocError> {
        let mut way = Vec::new(alloc);
        let mut operand = first;
        for _ in 0..self.steps.len() {
            way.push(operand)?;
            if operand == self.target {
                return Ok(way);
            }
            match self.step(operand) {
                Some(next) => operand = next,
                None => return Ok(way),
            }
        }
        Ok(way)
    }

    /// Returns the operands from those of an expression to the target.
    pub fn way_within(
        &self,
        alloc: Global,
        expression: Handle<mark::Expression>,
    ) -> Result<Vec<Handle<mark::Expression>>, AllocError> {
        match self.step(expression) {
            Some(first) => self.way_from(alloc, first),
            None => Ok(Vec::new(alloc)),
        }
    }
}
