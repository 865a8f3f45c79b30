//! Questions about the items of a module:
//!
//! - `part`: the number of items of each kind, and of each constant, override, global variable and special type its fields;
//! - `part function N [E]`, `part entry N`: the fields of a function, and the operands of expression E and of statement E of its body;
//! - `literals`: the global expressions that are literals, of a float the bits.
use crate::told::Told;
use crate::words::Words;
use shader_arena::Handle;
use shader_ir::proc::{Operands, expression_operands, statement_operands};
use shader_ir::{Block, Expression, Function, Literal, Module, Statement, SwitchCase, SwitchValue};

/// Tells how many items a module has of each kind.
fn tell_counts(told: &mut Told, module: &Module) {
    let ctx = module.to_ctx();
    told.show("types", ctx.types.len());
    told.show("constants", ctx.constants.len());
    told.show("overrides", ctx.overrides.len());
    told.show("expressions", ctx.global_expressions.len());
    told.show("globals", module.global_variables.len());
    told.show("functions", module.functions.len());
    told.show("entries", module.entry_points.len());
    told.show("filters", module.diagnostic_filters.len());
}

/// Tells the declarations of a module.
fn tell_declared(told: &mut Told, module: &Module) {
    for (_, constant) in module.constants.iter() {
        told.show("constant", (&constant.name, constant.ty, constant.init));
    }
    for (_, sizer) in module.overrides.iter() {
        told.show("override", (&sizer.name, sizer.ty, sizer.init));
    }
    for (_, global) in module.global_variables.iter() {
        told.show(
            "global",
            (&global.name, global.ty, global.init, global.space),
        );
    }
    told.show("intersection", module.special_types.ray_intersection);
    told.show("vertex", module.special_types.ray_vertex_return);
    for predeclared in module.special_types.predeclared_types.iter() {
        told.show("predeclared", predeclared);
    }
}

/// Tells a literal by the name of its variant and its value.
fn tell_literal(told: &mut Told, literal: Literal) {
    match literal {
        Literal::F64(bits) => told.show("F64", bits),
        Literal::F32(bits) => told.show("F32", bits),
        Literal::F16(bits) => told.show("F16", bits),
        Literal::AbstractFloat(bits) => told.show("AbstractFloat", bits),
        Literal::U16(value) => told.show("U16", value),
        Literal::I16(value) => told.show("I16", value),
        Literal::U32(value) => told.show("U32", value),
        Literal::I32(value) => told.show("I32", value),
        Literal::U64(value) => told.show("U64", value),
        Literal::I64(value) => told.show("I64", value),
        Literal::AbstractInt(value) => told.show("AbstractInt", value),
        Literal::Bool(value) => told.show("Bool", value),
    }
}

/// Answers `literals`.
pub fn tell_literals(told: &mut Told, module: &Module) {
    for (_, expression) in module.global_expressions.iter() {
        if let Expression::Literal(literal) = expression {
            tell_literal(told, *literal);
        }
    }
}

/// Tells the value of a case.
fn tell_value(told: &mut Told, value: SwitchValue) {
    match value {
        SwitchValue::I32(value) => told.show("i32", value),
        SwitchValue::U32(value) => told.show("u32", value),
        SwitchValue::Default => told.name("default"),
    }
}

/// Tells a case.
#[cycle(tell)]
fn tell_case(told: &mut Told, case: &SwitchCase) {
    tell_value(told, case.value);
    tell_block(told, &case.body);
    told.show("falls", case.fall_through);
}

/// Tells a statement, by its name if it controls the flow.
#[cycle(tell)]
fn tell_statement(told: &mut Told, statement: &Statement) {
    match statement {
        Statement::Kill => told.name("Kill"),
        Statement::Block(block) => tell_block(told, block),
        Statement::If {
            condition,
            accept,
            reject,
        } => {
            told.show("If", *condition);
            tell_block(told, accept);
            tell_block(told, reject);
        }
        Statement::Switch { selector, cases } => {
            told.show("Switch", *selector);
            for case in cases {
                tell_case(told, case);
            }
        }
        Statement::Loop {
            body,
            continuing,
            ..
        } => {
            told.name("Loop");
            tell_block(told, body);
            tell_block(told, continuing);
        }
        _ => told.name("other"),
    }
}

/// Tells a block.
#[cycle(tell)]
fn tell_block(told: &mut Told, block: &Block) {
    told.name("{");
    for statement in &block.statements {
        tell_statement(told, statement);
    }
    told.name("}");
}

/// Tells the fields of a function.
fn tell_function(told: &mut Told, function: &Function) {
    told.show("name", &function.name);
    for argument in &function.arguments {
        told.show("argument", (&argument.name, argument.ty, argument.binding));
    }
    for (_, local) in function.local_variables.iter() {
        told.show("local", (&local.name, local.ty, local.init));
    }
    told.show("function-expressions", function.expressions.len());
    for named in function.named_expressions.iter() {
        told.show("named", named);
    }
    tell_block(told, &function.body);
}

/// Tells the operands of an expression or a statement, after this name.
fn tell_operands(told: &mut Told, name: &str, operands: Operands<'_>) {
    told.name(name);
    for operand in operands {
        told.show("operand", operand);
    }
}

/// Tells the operands of an expression and of a statement of a function.
fn tell_at(told: &mut Told, number: u32, function: &Function) {
    if let Some(expression) = function.expressions.try_get(Handle::from_index(number)) {
        tell_operands(told, "of-expression", expression_operands(expression));
    }
    if let Some(statement) = function.body.statements.get(number as usize) {
        tell_operands(told, "of-statement", statement_operands(statement));
    }
}

/// Answers `part`, `part function N [E]` and `part entry N`.
pub fn tell(told: &mut Told, mut words: Words<'_>, module: &Module) {
    let kind = words.next_word();
    let Some(number) = words.number() else {
        tell_counts(told, module);
        tell_declared(told, module);
        return;
    };
    if kind == "entry" {
        if let Some(entry) = module.entry_points.as_slice().get(number as usize) {
            told.show("stage", entry.stage as u8);
            told.show("entry-name", &entry.name);
            tell_function(told, &entry.function);
        }
    } else {
        if let Some(function) = module.functions.try_get(Handle::from_index(number)) {
            tell_function(told, function);
            tell_at(told, words.number().unwrap_or(0), function);
        }
    }
}
