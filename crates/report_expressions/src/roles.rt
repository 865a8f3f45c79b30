//! Where an operand stands, and the brackets that it needs there.

use shader_ir::BinaryOperator;

/// Where an operand stands.
#[derive(Clone, Copy)]
pub enum Role {
    /// Alone, shown as it is computed even if it has a name.
    Root,
    /// Alone, a pointer that stands for the memory that it points to.
    RootPlace,
    /// Between brackets or commas.
    Whole,
    /// To the left of an operator.
    Left(BinaryOperator),
    /// To the right of an operator.
    Right(BinaryOperator),
    /// Behind an operator that has one operand.
    Unary,
    /// In front of an index, a member or components.
    Base,
    /// A pointer that stands for the memory that it points to.
    Place,
    /// A pointer that stands for the memory, in front of an index or a member.
    PlaceBase,
}

/// How tightly an operator binds (WGSL, "Operator Precedence and Associativity"). Operators of one level that may not be mixed without
/// brackets have levels of their own.
#[derive(Clone, Copy, PartialEq)]
enum Level {
    And,
    ExclusiveOr,
    InclusiveOr,
    LogicalAnd,
    LogicalOr,
    Comparison,
    Shift,
    Sum,
    Product,
}

/// Returns the level of an operator.
fn level_of(op: BinaryOperator) -> Level {
    match op {
        BinaryOperator::Add | BinaryOperator::Subtract => Level::Sum,
        BinaryOperator::Multiply | BinaryOperator::Divide | BinaryOperator::Modulo => {
            Level::Product
        }
        BinaryOperator::Equal
        | BinaryOperator::NotEqual
        | BinaryOperator::Less
        | BinaryOperator::LessEqual
        | BinaryOperator::Greater
        | BinaryOperator::GreaterEqual => Level::Comparison,
        BinaryOperator::And => Level::And,
        BinaryOperator::ExclusiveOr => Level::ExclusiveOr,
        BinaryOperator::InclusiveOr => Level::InclusiveOr,
        BinaryOperator::LogicalAnd => Level::LogicalAnd,
        BinaryOperator::LogicalOr => Level::LogicalOr,
        BinaryOperator::ShiftLeft | BinaryOperator::ShiftRight => Level::Shift,
    }
}

/// Returns whether the operands of an operator on this level may be sums and products.
fn takes_sums(outer: Level, inner: Level) -> bool {
    match inner {
        Level::Product => matches!(
            outer,
            Level::Sum | Level::Comparison | Level::LogicalAnd | Level::LogicalOr
        ),
        Level::Sum | Level::Shift => matches!(
            outer,
            Level::Comparison | Level::LogicalAnd | Level::LogicalOr
        ),
        Level::Comparison => matches!(outer, Level::LogicalAnd | Level::LogicalOr),
        _ => false,
    }
}

/// Returns whether an operation on two operands needs brackets where it stands.
pub fn brackets_operation(role: Role, op: BinaryOperator) -> bool {
    let inner = level_of(op);
    match role {
        Role::Root | Role::RootPlace | Role::Whole => false,
        Role::Left(outer) => {
            let outer = level_of(outer);
            let chains = outer == inner && outer != Level::Comparison && outer != Level::Shift;
            !chains && !takes_sums(outer, inner)
        }
        Role::Right(outer) => !takes_sums(level_of(outer), inner),
        Role::Unary | Role::Base | Role::Place | Role::PlaceBase => true,
    }
}

/// Returns whether an operation on one operand needs brackets where it stands.
pub fn brackets_sign(role: Role) -> bool {
    matches!(
        role,
        Role::Unary | Role::Base | Role::Place | Role::PlaceBase
    )
}
