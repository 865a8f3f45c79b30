//! The results of the analysis of functions, and its errors.
#![tactic(auto)]

mod copies;
mod error;
mod fits;
mod flags;
mod info;
mod report;

pub use error::{
    AnalysisError, AnalysisLocation, ExpressionError, FunctionError, UniformityDisruptor,
};
pub use flags::{Capabilities, GlobalUse, UniformityRequirements, ValidationFlags};
pub use info::{
    ExpressionInfo, FunctionInfo, GlobalOrArgument, NonUniformResult, Sampling, SamplingKey,
    Uniformity,
};
pub use report::{AnalysisReport, ExpressionReport, FunctionErrorReport};
