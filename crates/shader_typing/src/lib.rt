//! The typing layer at naga's paths: `arena`, `ir`, `proc`, `valid`, `diagnostic_filter` and `front`; the IR at the root too; and
//! `uniformity`, which naga has not. This crate hands on the names of the crates below it, and its `specs/` the words of their public
//! contracts, so that a user names one crate; of its own it has `laws` over several of them. No crate of the layer stands on it.
#![tactic(auto)]

pub mod diagnostic_filter;
pub mod front;
pub mod laws;
pub mod proc;
pub mod uniformity;
pub mod valid;

pub use shader_arena as arena;
pub use shader_arena::{Arena, Handle, Range, UniqueArena};
pub use shader_ir as ir;
pub use shader_ir::{
    AddressSpace, ArraySize, AtomicFunction, Barrier, BinaryOperator, Binding, Block, BuiltIn,
    CollectiveOperation, Constant, CooperativeData, CooperativeRole, CooperativeSize, Count,
    DerivativeAxis, DerivativeControl, DiagnosticFilterNode, DiagnosticRule, Direction, EntryPoint,
    Expression, Function, FunctionArgument, FunctionResult, GatherMode, GlobalCtx, GlobalVariable,
    ImageClass, ImageDimension, ImageQuery, Items, Literal, LocalVariable, Map, MathFunction,
    Module, Name, NamedExpressions, Override, PredeclaredType, RayPipelineFunction,
    RayQueryFunction, RelationalFunction, Same, SampleLevel, Scalar, ScalarKind, Severity,
    ShaderStage, ShaderStages, SpecialTypes, Statement, StorageAccess, StorageFormat, StructMember,
    SubgroupOperation, SwitchCase, SwitchValue, SwizzleComponent, TryCopy, Type, TypeInner,
    UnaryOperator, VectorSize,
};
