//! What items, expressions and statements name that doesn't exist.
ghost use Rattle.std.specs.Prelude.{IfSome};
ghost use Rattle.report_messages.specs.Lists.{IsMissing};

use crate::lists::{Lengths, ListKind, Named};
use report_expressions::result_of;
use shader_arena::Handle;
use shader_ir::proc::{expression_operands, statement_operands};
use shader_ir::{ArraySize, Expression, Function, SpecialTypes, Statement, TypeInner, mark};

/// Returns the item that an optional handle names, if it doesn't exist.
fn optional<T>(lengths: &Lengths, list: ListKind, handle: Option<Handle<T>>) -> Option<Named>
    ensures { IfSome result (IsMissing lengths.now) }
{
    match handle {
        Some(handle) => lengths.missing(list, handle.index()),
        None => None,
    }
}

/// Returns the type, or else the initial value, that doesn't exist.
pub fn of_variable(
    lengths: &Lengths,
    ty: Handle<mark::Type>,
    values: ListKind,
    init: Option<Handle<mark::Expression>>,
) -> Option<Named>
    ensures { IfSome result (IsMissing lengths.now) }
{
    match lengths.missing(ListKind::Types, ty.index()) {
        Some(named) => Some(named),
        None => optional(lengths, values, init),
    }
}

/// Returns the first special type that doesn't exist.
pub fn of_special_types(lengths: &Lengths, special: &SpecialTypes) -> Option<Named>
    ensures { IfSome result (IsMissing lengths.now) }
{
    for ty in [special.ray_intersection, special.ray_vertex_return] {
        if let Some(named) = optional(lengths, ListKind::Types, ty) {
            return Some(named);
        }
    }
    for (_, ty) in special.predeclared_types.iter() {
        if let Some(named) = lengths.missing(ListKind::Types, ty.index()) {
            return Some(named);
        }
    }
    None
}

/// Returns the number of elements that doesn't exist.
fn of_size(lengths: &Lengths, size: ArraySize) -> Option<Named>
    ensures { IfSome result (IsMissing lengths.now) }
{
    match size {
        ArraySize::Pending(handle) => lengths.missing(ListKind::Overrides, handle.index()),
        ArraySize::Constant(_) | ArraySize::Dynamic => None,
    }
}

/// Returns the first item that a type names and that doesn't exist.
pub fn of_type(lengths: &Lengths, inner: &TypeInner) -> Option<Named>
    ensures { IfSome result (IsMissing lengths.now) }
{
    match inner {
        TypeInner::Pointer { base, .. } => lengths.missing(ListKind::Types, base.index()),
        TypeInner::Array { base, size, .. } | TypeInner::BindingArray { base, size } => {
            match lengths.missing(ListKind::Types, base.index()) {
                Some(named) => Some(named),
                None => of_size(lengths, *size),
            }
        }
        TypeInner::Struct { members, .. } => {
            for member in members.as_slice() {
                if let Some(named) = lengths.missing(ListKind::Types, member.ty.index()) {
                    return Some(named);
                }
            }
            None
        }
        _ => None,
    }
}

/// Returns the first item that doesn't exist and that a function names in its arguments, its result and its local variables.
fn of_signature(lengths: &Lengths, function: &Function) -> Option<Named>
    ensures { IfSome result (IsMissing lengths.now) }
{
    for argument in function.arguments.as_slice() {
        if let Some(named) = lengths.missing(ListKind::Types, argument.ty.index()) {
            return Some(named);
        }
    }
    if let Some(result) = function.result {
        if let Some(named) = lengths.missing(ListKind::Types, result.ty.index()) {
            return Some(named);
        }
    }
    for (_, local) in function.local_variables.iter() {
        if let Some(named) = of_variable(lengths, local.ty, ListKind::Expressions, local.init) {
            return Some(named);
        }
    }
    None
}

/// Returns the first item that doesn't exist and that a function names outside of its expressions and statements.
pub fn of_declarations(lengths: &Lengths, function: &Function) -> Option<Named>
    ensures { IfSome result (IsMissing lengths.now) }
{
    if let Some(named) = of_signature(lengths, function) {
        return Some(named);
    }
    for (handle, _) in function.named_expressions.iter() {
        if let Some(named) = lengths.missing(ListKind::Expressions, handle.index()) {
            return Some(named);
        }
    }
    optional(
        lengths,
        ListKind::DiagnosticFilters,
        function.diagnostic_filter_leaf,
    )
}

/// Returns the item that an expression names besides its operands, if it doesn't exist.
fn of_name(lengths: &Lengths, expression: &Expression) -> Option<Named>
    ensures { IfSome result (IsMissing lengths.now) }
{
    match expression {
        Expression::Constant(handle) => lengths.missing(ListKind::Constants, handle.index()),
        Expression::Override(handle) => lengths.missing(ListKind::Overrides, handle.index()),
        Expression::ZeroValue(ty)
        | Expression::Compose { ty, .. }
        | Expression::AtomicResult { ty, .. }
        | Expression::WorkGroupUniformLoadResult { ty }
        | Expression::SubgroupOperationResult { ty } => {
            lengths.missing(ListKind::Types, ty.index())
        }
        Expression::GlobalVariable(handle) => {
            lengths.missing(ListKind::GlobalVariables, handle.index())
        }
        Expression::LocalVariable(handle) => {
            lengths.missing(ListKind::LocalVariables, handle.index())
        }
        Expression::CallResult(handle) => lengths.missing(ListKind::Functions, handle.index()),
        _ => None,
    }
}

/// Returns the first item that an expression of a list names and that doesn't exist.
pub fn of_expression(
    lengths: &Lengths,
    operands: ListKind,
    expression: &Expression,
) -> Option<Named>
    ensures { IfSome result (IsMissing lengths.now) }
{
    if let Some(named) = of_name(lengths, expression) {
        return Some(named);
    }
    for (operand, _) in expression_operands(expression) {
        if let Some(named) = lengths.missing(operands, operand.index()) {
            return Some(named);
        }
    }
    None
}

/// Returns the first item that a statement names and that doesn't exist, without those that the statements in its blocks name.
pub fn of_statement(lengths: &Lengths, statement: &Statement) -> Option<Named>
    ensures { IfSome result (IsMissing lengths.now) }
{
    if let Statement::Call { function, .. } = statement {
        if let Some(named) = lengths.missing(ListKind::Functions, function.index()) {
            return Some(named);
        }
    }
    for (operand, _) in statement_operands(statement) {
        if let Some(named) = lengths.missing(ListKind::Expressions, operand.index()) {
            return Some(named);
        }
    }
    optional(lengths, ListKind::Expressions, result_of(statement))
}
