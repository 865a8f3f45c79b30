//! The names of naga's `valid`: well-formed modules, the analysis, what it records and why it refuses.
pub use bitflags::Flags;
pub use shader_analysis::{ModuleInfo, ValidationError, analyze_module, is_fault, validate};
pub use shader_info::{
    AnalysisError, AnalysisLocation, AnalysisReport, Capabilities, ExpressionError, ExpressionInfo,
    ExpressionReport, FunctionError, FunctionErrorReport, FunctionInfo, GlobalOrArgument,
    GlobalUse, NonUniformResult, Sampling, SamplingKey, Uniformity, UniformityDisruptor,
    UniformityRequirements, ValidationFlags,
};
pub use shader_ir::ShaderStages;
pub use shader_ir::proc::MAX_TYPE_SIZE;
pub use shader_resolve::{
    FaultAt, FaultAtReport, MOST_LEVELS, ModuleFault, ModuleFaultReport, ModuleLocation,
    check_module, find_fault, nests_within,
};
