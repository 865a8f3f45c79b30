//! What is said of the place that a diagnostic is about.

use report_diagnostics::{Code, FlowCode, ResourceCode, TypeCode};

/// Returns what is said of a statement or an expression that needs uniform control flow.
fn flow_label(code: FlowCode) -> &'static str {
    match code {
        FlowCode::Derivative | FlowCode::ImplicitLevel => "needs all invocations of the quad",
        FlowCode::Barrier | FlowCode::MemoryBarrier | FlowCode::UniformLoad => {
            "needs all invocations of the workgroup"
        }
        FlowCode::CooperativeOperation => "needs all invocations of the subgroup",
    }
}

/// Returns what is said of an expression without a type.
fn type_label(code: TypeCode) -> &'static str {
    match code {
        TypeCode::IndexPastTheEnd => "has no such component",
        TypeCode::NotIndexable => "is an access to a value without components",
        TypeCode::PointeeNotIndexable => "is an access to what can't be indexed in this way",
        TypeCode::NotAScalar => "is filled from what isn't a scalar",
        TypeCode::NotAVector => "takes components of what isn't a vector",
        TypeCode::NotAPointer => "loads from what isn't a pointer",
        TypeCode::NotAnImage => "takes what isn't a texture",
        TypeCode::WrongOperands => "isn't defined for the types of these operands",
        TypeCode::NoOverload => "isn't defined for the types of these arguments",
        TypeCode::NoSuchArgument => "no such argument",
        TypeCode::NoResult => "has no value",
        TypeCode::NoResultType => "has this struct for its type",
    }
}

/// Returns what is said of a use of a resource.
fn resource_label(code: ResourceCode) -> &'static str {
    match code {
        ResourceCode::NonUniformTextureIndex | ResourceCode::NonUniformStorageTextureIndex => {
            "the index may differ between invocations"
        }
        ResourceCode::NotAResource => "a texture or a sampler that is chosen as the shader runs",
        ResourceCode::NotBindable => "the elements are neither textures nor samplers",
    }
}

/// Returns what is said of the place of a diagnostic, by its code.
pub fn label_of(code: Code) -> &'static str {
    match code {
        Code::Flow(code) => flow_label(code),
        Code::Type(code) => type_label(code),
        Code::Resource(code) => resource_label(code),
        Code::TooManyUses => "is used too often",
        Code::Input(_) | Code::Module(_) | Code::Layout(_) => "here",
    }
}
