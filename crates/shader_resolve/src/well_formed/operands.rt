//! Checks of the operands of expressions and statements.
ghost use Rattle.std.specs.Prelude.{◌≡◌};
ghost use Rattle.shader_ir.specs.BodyOf.{step_of};
ghost use Rattle.shader_ir.specs.Operands.{expression_operands, statement_operands};
ghost use Rattle.shader_resolve.specs.ModuleTests.{operands_below};

use super::expressions::is_below;
use shader_arena::Handle;
use shader_ir::proc::{Label, Visitor, visit_expression, visit_statement};
use shader_ir::{Expression, Statement, mark};

/// A test of whether the operands that it visits are below a bound.
#[derive(Drop)]
struct BoundTest {
    bound: usize,
    passes: bool,
}

impl Visitor for BoundTest {
    ghost use Rattle.std.specs.Prelude.{◌&&◌, nat_lt};

    ghost step = { λ test operand. record test { passes = test.passes && nat_lt operand.0 test.bound } };

    #[inline(always)]
    fn visit(&mut self, operand: Handle<mark::Expression>, _label: Label) {
        self.passes = self.passes & is_below(operand, self.bound);
    }
}

/// Returns whether all operands of an expression are below a bound.
#[inline(always)]
#[tactic(auto, using(crate::proofs::BelowLemmas::tests_all))]
pub fn expression_operands_below(expression: &Expression, bound: usize) -> bool
    ensures { result ≡ operands_below bound (expression_operands expression.now) }
{
    let mut test = BoundTest {
        bound,
        passes: true,
    };
    visit_expression(expression, &mut test);
    test.passes
}

/// Returns whether all operands of a statement are below a bound.
#[inline(always)]
#[tactic(auto, using(crate::proofs::BelowLemmas::tests_all))]
pub fn statement_operands_below(statement: &Statement, bound: usize) -> bool
    ensures { result ≡ operands_below bound (statement_operands (step_of statement.now)) }
{
    let mut test = BoundTest {
        bound,
        passes: true,
    };
    visit_statement(statement, &mut test);
    test.passes
}
