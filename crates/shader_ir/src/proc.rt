//! Queries on types, their sizes and layouts, and the operands of expressions and statements.

mod alignment;
mod backward;
mod conversion;
mod known_numbers;
mod layouter;
mod operands;
mod scalars;
mod sizes;
mod type_methods;
mod type_resolution;
mod type_trees;
mod visitor;

pub use alignment::Alignment;
pub use backward::types_backward;
pub use known_numbers::{KnownIndex, ResolveArraySizeError};
pub use layouter::{
    LayoutError, LayoutErrorInner, Layouter, TypeLayout, UpdateError, UpdateReport,
};
pub use operands::{
    ExpressionOperands, Label, Operands, StatementOperands, expression_operands, statement_operands,
};
pub use scalars::{
    ConcreteIntScalars, VectorSizes, concrete_int_scalars, vector_size_str, vector_sizes,
};
pub use sizes::{MAX_TYPE_SIZE, sizes_in_range, sizes_in_range_from};
pub use type_resolution::{TypeResolution, compare_types};
pub use visitor::{Visitor, visit_expression, visit_statement};
