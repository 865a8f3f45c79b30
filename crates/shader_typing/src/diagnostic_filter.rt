//! The names of naga's `diagnostic_filter`: the filters of a module, and the severity that they give a violation.
pub use shader_ir::{DiagnosticFilterNode, DiagnosticRule, Severity};
pub use shader_passes::filters::derivative_severity;
