//! The names of built-in values, and of ways to interpolate, as WGSL spells them.
ghost use Rattle.std.specs.Prelude.{◌≡◌, IfOk, string_bytes};
ghost use Rattle.std.specs.Option.{option_map};
ghost use Rattle.shader_report_resources.specs.Builtins.{builtin_text, common_word, flow_text, flow_word, mesh_word, or_name};

use report_names::name_text;
use std::alloc::{AllocError, Global};

/// Returns the name of a built-in value that WGSL has (WGSL, "Built-in Inputs and Outputs").
#[tactic(auto, unfolding(crate::specs::Builtins::common_word))]
fn common_word(name: &str) -> Option<&'static str>
    ensures { option_map (λ word. word.now) result ≡ common_word name.now }
{
    match name {
        "VertexIndex" => Some("vertex_index"),
        "InstanceIndex" => Some("instance_index"),
        "ClipDistance" => Some("clip_distances"),
        "Position" => Some("position"),
        "FrontFacing" => Some("front_facing"),
        "FragDepth" => Some("frag_depth"),
        "PrimitiveIndex" => Some("primitive_index"),
        "SampleIndex" => Some("sample_index"),
        "SampleMask" => Some("sample_mask"),
        "LocalInvocationId" => Some("local_invocation_id"),
        "LocalInvocationIndex" => Some("local_invocation_index"),
        "GlobalInvocationId" => Some("global_invocation_id"),
        "WorkGroupId" => Some("workgroup_id"),
        "NumWorkGroups" => Some("num_workgroups"),
        "SubgroupInvocationId" => Some("subgroup_invocation_id"),
        "SubgroupSize" => Some("subgroup_size"),
        "SubgroupId" => Some("subgroup_id"),
        "NumSubgroups" => Some("num_subgroups"),
        _ => None,
    }
}

/// Returns the name of a built-in value that naga's extensions of WGSL have.
#[tactic(auto, unfolding(crate::specs::Builtins::mesh_word))]
fn mesh_word(name: &str) -> Option<&'static str>
    ensures { option_map (λ word. word.now) result ≡ mesh_word name.now }
{
    match name {
        "ViewIndex" => Some("view_index"),
        "Barycentric" => Some("barycentric"),
        "MeshTaskSize" => Some("mesh_task_size"),
        "CullPrimitive" => Some("cull_primitive"),
        "PointIndex" => Some("point_index"),
        "LineIndices" => Some("line_indices"),
        "TriangleIndices" => Some("triangle_indices"),
        "VertexCount" => Some("vertex_count"),
        "Vertices" => Some("vertices"),
        "PrimitiveCount" => Some("primitive_count"),
        "Primitives" => Some("primitives"),
        _ => None,
    }
}

/// Returns the name of an interpolation type or sampling (WGSL, "Interpolation").
#[tactic(auto, unfolding(crate::specs::Builtins::flow_word))]
fn flow_word(name: &str) -> Option<&'static str>
    ensures { option_map (λ word. word.now) result ≡ flow_word name.now }
{
    match name {
        "Perspective" => Some("perspective"),
        "Linear" => Some("linear"),
        "Flat" => Some("flat"),
        "PerVertex" => Some("per_vertex"),
        "Center" => Some("center"),
        "Centroid" => Some("centroid"),
        "Sample" => Some("sample"),
        "First" => Some("first"),
        "Either" => Some("either"),
        _ => None,
    }
}

/// Returns a word, or naga's name if there is none.
fn or_name(alloc: Global, word: Option<&'static str>, name: &str) -> Result<String, AllocError>
    ensures { IfOk result (λ text. string_bytes text ≡ or_name (option_map (λ word. word.now) word.entry) name.now) }
{
    match word {
        Some(word) => String::from_str(alloc, word),
        None => name_text(alloc, name),
    }
}

/// Returns a built-in value, given naga's name.
pub(crate) fn builtin_text(alloc: Global, name: &str) -> Result<String, AllocError>
    ensures { IfOk result (λ text. string_bytes text ≡ builtin_text name.now) }
{
    match common_word(name) {
        Some(word) => String::from_str(alloc, word),
        None => or_name(alloc, mesh_word(name), name),
    }
}

/// Returns how or where in a pixel a value is interpolated, given naga's name.
pub(crate) fn flow_text(alloc: Global, name: &str) -> Result<String, AllocError>
    ensures { IfOk result (λ text. string_bytes text ≡ flow_text name.now) }
{
    or_name(alloc, flow_word(name), name)
}
