//! The names of naga's `proc` that concern typing, from the crates below.

pub mod index;

pub use index::{BoundsCheckPolicies, BoundsCheckPolicy, IndexableLength, IndexableLengthError};
pub use shader_expression_types::type_of;
pub use shader_ir::GlobalCtx;
pub use shader_ir::proc::{
    Alignment, ConcreteIntScalars, ExpressionOperands, KnownIndex, Label, LayoutError,
    LayoutErrorInner, Layouter, Operands, ResolveArraySizeError, StatementOperands, TypeLayout,
    TypeResolution, UpdateError, UpdateReport, VectorSizes, Visitor, compare_types,
    concrete_int_scalars, expression_operands, sizes_in_range, sizes_in_range_from,
    statement_operands, types_backward, vector_size_str, vector_sizes, visit_expression,
    visit_statement,
};
pub use shader_overloads as overloads;
pub use shader_overloads::{
    Conclusion, MathOverloads, MissingSpecialType, OverloadSet, Rule, rule_of,
};
pub use shader_resolve::{ResolveContext, ResolveError};
