//! The data of shader modules, and queries on types.
#![tactic(auto)]

mod binding;
mod copies;
mod count;
mod expression;
mod flags;
mod function;
mod image;
mod items;
pub mod laws;
mod literal;
mod map;
pub mod mark;
mod module;
mod name;
mod operators;
pub mod proc;
mod same;
mod scalar;
mod statement;
mod types;

pub use binding::{Binding, BuiltIn};
pub use count::Count;
pub use expression::{CooperativeData, Expression, ImageQuery, SampleLevel};
pub use flags::{Barrier, ShaderStages, StorageAccess};
pub use function::{
    EntryPoint, Function, FunctionArgument, FunctionResult, LocalVariable, NamedExpressions,
    ShaderStage,
};
pub use image::{ImageClass, ImageDimension, StorageFormat};
pub use items::Items;
pub use literal::Literal;
pub use map::Map;
pub use module::{
    Constant, DiagnosticFilterNode, DiagnosticRule, GlobalCtx, GlobalVariable, Module, Override,
    PredeclaredType, Severity, SpecialTypes,
};
pub use name::Name;
pub use operators::{
    BinaryOperator, DerivativeAxis, DerivativeControl, MathFunction, RelationalFunction,
    SwizzleComponent, UnaryOperator,
};
pub use same::Same;
pub use scalar::{CooperativeRole, CooperativeSize, Scalar, ScalarKind, VectorSize};
pub use shader_arena::TryCopy;
pub use statement::{
    AtomicFunction, Block, CollectiveOperation, Direction, GatherMode, RayPipelineFunction,
    RayQueryFunction, Statement, SubgroupOperation, SwitchCase, SwitchValue,
};
pub use types::{AddressSpace, ArraySize, StructMember, Type, TypeInner};
