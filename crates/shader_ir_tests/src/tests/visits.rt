//! Tests of a caller's visitor, which sees the operands that the iterators hand out.
ghost use Rattle.std.specs.Prelude.{◌+◌, ◌*◌, ◌%◌, ◌^◌, Some};

use crate::tests::OUT_OF_MEMORY;
use shader_arena::Handle;
use shader_ir::proc::{
    Label, Operands, Visitor, expression_operands, statement_operands, visit_expression,
    visit_statement,
};
use shader_ir::{Expression, Items, MathFunction, Statement, mark};
use std::process::Abort;

/// What was seen: the numbers of the operands as octal digits, of which the last is the last one's, and its label.
#[derive(Clone, Copy)]
struct Seen {
    digits: usize,
    last: Option<Label>,
}

impl Visitor for Seen {
    ghost step = { λ seen operand. record { digits = ((seen.digits * 8) % 2 ^ 64 + operand.0) % 2 ^ 64; last = Some operand.1 } };

    fn visit(&mut self, operand: Handle<mark::Expression>, label: Label) {
        self.digits = self.digits.wrapping_mul(8).wrapping_add(operand.index());
        self.last = Some(label);
    }
}

const NOTHING: Seen = Seen {
    digits: 0,
    last: None,
};

/// Returns what a visitor sees that is given the operands of an iterator.
fn handed_out(operands: Operands<'_>) -> Seen {
    let mut seen = NOTHING;
    for (operand, label) in operands {
        seen.visit(operand, label);
    }
    seen
}

/// Asserts what a visitor sees of an expression.
fn sees<R: Abort>(rt: &R, expression: &Expression, digits: usize, last: Label) {
    let mut seen = NOTHING;
    visit_expression(expression, &mut seen);
    assert!(rt; seen.digits == digits && seen.last == Some(last));
    let others = handed_out(expression_operands(expression));
    assert!(rt; others.digits == digits && others.last == Some(last));
}

/// Asserts what a visitor sees of a statement.
fn sees_of<R: Abort>(rt: &R, statement: &Statement, digits: usize, last: Label) {
    let mut seen = NOTHING;
    visit_statement(statement, &mut seen);
    assert!(rt; seen.digits == digits && seen.last == Some(last));
    let others = handed_out(statement_operands(statement));
    assert!(rt; others.digits == digits && others.last == Some(last));
}

fn at(position: u32) -> Handle<mark::Expression> {
    Handle::from_index(position)
}

#[test]
fn of_operands_that_are_absent(rt: HostRuntime) {
    let clamp = Expression::Math {
        fun: MathFunction::Clamp,
        arg: at(1),
        arg1: None,
        arg2: Some(at(2)),
        arg3: None,
    };
    sees(&rt, &clamp, 0o12, Label::Read);
    sees(&rt, &Expression::ArrayLength(at(3)), 0o3, Label::Query);
}

#[test]
fn of_labels(rt: HostRuntime) {
    let store = Statement::Store {
        pointer: at(7),
        value: at(5),
    };
    sees_of(&rt, &store, 0o75, Label::Read);
    let part = Expression::AccessIndex {
        base: at(4),
        index: 2,
    };
    sees(&rt, &part, 0o4, Label::Part);
}

#[test]
fn of_many_arguments(rt: HostRuntime) {
    let mut arguments = Vec::new(rt.alloc());
    for position in 0..20_000_u32 {
        arguments.push(at(position % 8)).expect(&rt, OUT_OF_MEMORY);
    }
    let call = Statement::Call {
        function: Handle::from_index(0),
        arguments: Items::from(arguments),
        result: None,
    };
    sees_of(&rt, &call, 0o345670123456701234567, Label::Read);
}
