//! A range check of the operands of an expression.
ghost use Rattle.std.specs.Prelude.{◌↔◌, IsTrue};
ghost use Rattle.shader_resolve.specs.WellFormed.{OperandsBelow};

use shader_ir::Expression;
use shader_ir::proc::expression_operands;

/// Returns whether all operands of an expression are below a bound.
pub fn operands_below(expression: &Expression, bound: usize) -> bool
    ensures { IsTrue result ↔ OperandsBelow bound expression.now }
{
    expression_operands(expression).all(|(operand, _)| operand.index() < bound)
}
