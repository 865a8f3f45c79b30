//! The table of naga's built-in values, and look-ups in it.
ghost use Rattle.std.specs.Prelude.{◌≡◌};
ghost use Rattle.std.specs.Option.{option_map};
ghost use Rattle.shader_builtins.specs.BuiltIns.{built_in_named, flag_named, is_named, named_in, row_of, rows_of, same_flag};
ghost use Rattle.shader_builtins.specs.BuiltIns.{wgsl_name, word_in};

use crate::numbers::*;
use shader_ir::BuiltIn;

/// A built-in value: naga's name, the flag that is its payload, the value in the IR, and the name in WGSL.
type Row = (&'static str, Option<bool>, BuiltIn, Option<&'static str>);

/// naga's built-in values.
const TABLE: [Row; 52] = [
    ("Position", Some(false), POSITION, Some("position")),
    ("Position", Some(true), POSITION_INVARIANT, Some("position")),
    ("ViewIndex", None, VIEW_INDEX, Some("view_index")),
    ("BaseInstance", None, BASE_INSTANCE, None),
    ("BaseVertex", None, BASE_VERTEX, None),
    ("ClipDistance", None, CLIP_DISTANCE, Some("clip_distances")),
    ("CullDistance", None, CULL_DISTANCE, None),
    (
        "InstanceIndex",
        None,
        INSTANCE_INDEX,
        Some("instance_index"),
    ),
    ("PointSize", None, POINT_SIZE, None),
    ("VertexIndex", None, VERTEX_INDEX, Some("vertex_index")),
    ("DrawIndex", None, DRAW_INDEX, Some("draw_index")),
    ("DrawID", None, DRAW_ID, None),
    ("FragDepth", None, FRAG_DEPTH, Some("frag_depth")),
    ("PointCoord", None, POINT_COORD, None),
    ("FrontFacing", None, FRONT_FACING, Some("front_facing")),
    (
        "PrimitiveIndex",
        None,
        PRIMITIVE_INDEX,
        Some("primitive_index"),
    ),
    ("Barycentric", Some(true), BARYCENTRIC, Some("barycentric")),
    (
        "Barycentric",
        Some(false),
        BARYCENTRIC_NO_PERSPECTIVE,
        Some("barycentric_no_perspective"),
    ),
    ("SampleIndex", None, SAMPLE_INDEX, Some("sample_index")),
    ("SampleMask", None, SAMPLE_MASK, Some("sample_mask")),
    (
        "GlobalInvocationId",
        None,
        GLOBAL_INVOCATION_ID,
        Some("global_invocation_id"),
    ),
    (
        "LocalInvocationId",
        None,
        LOCAL_INVOCATION_ID,
        Some("local_invocation_id"),
    ),
    (
        "LocalInvocationIndex",
        None,
        LOCAL_INVOCATION_INDEX,
        Some("local_invocation_index"),
    ),
    (
        "WorkGroupId",
        None,
        BuiltIn::WorkGroupId,
        Some("workgroup_id"),
    ),
    (
        "WorkGroupSize",
        None,
        BuiltIn::WorkGroupSize,
        Some("workgroup_size"),
    ),
    (
        "NumWorkGroups",
        None,
        BuiltIn::NumWorkGroups,
        Some("num_workgroups"),
    ),
    ("NumSubgroups", None, NUM_SUBGROUPS, Some("num_subgroups")),
    ("SubgroupId", None, SUBGROUP_ID, Some("subgroup_id")),
    ("SubgroupSize", None, SUBGROUP_SIZE, Some("subgroup_size")),
    (
        "SubgroupInvocationId",
        None,
        SUBGROUP_INVOCATION_ID,
        Some("subgroup_invocation_id"),
    ),
    ("MeshTaskSize", None, MESH_TASK_SIZE, Some("mesh_task_size")),
    (
        "CullPrimitive",
        None,
        CULL_PRIMITIVE,
        Some("cull_primitive"),
    ),
    ("PointIndex", None, POINT_INDEX, Some("point_index")),
    ("LineIndices", None, LINE_INDICES, Some("line_indices")),
    (
        "TriangleIndices",
        None,
        TRIANGLE_INDICES,
        Some("triangle_indices"),
    ),
    ("VertexCount", None, VERTEX_COUNT, Some("vertex_count")),
    ("Vertices", None, VERTICES, Some("vertices")),
    (
        "PrimitiveCount",
        None,
        PRIMITIVE_COUNT,
        Some("primitive_count"),
    ),
    ("Primitives", None, PRIMITIVES, Some("primitives")),
    (
        "RayInvocationId",
        None,
        RAY_INVOCATION_ID,
        Some("ray_invocation_id"),
    ),
    (
        "NumRayInvocations",
        None,
        NUM_RAY_INVOCATIONS,
        Some("num_ray_invocations"),
    ),
    (
        "InstanceCustomData",
        None,
        INSTANCE_CUSTOM_DATA,
        Some("instance_custom_data"),
    ),
    (
        "GeometryIndex",
        None,
        GEOMETRY_INDEX,
        Some("geometry_index"),
    ),
    (
        "WorldRayOrigin",
        None,
        WORLD_RAY_ORIGIN,
        Some("world_ray_origin"),
    ),
    (
        "WorldRayDirection",
        None,
        WORLD_RAY_DIRECTION,
        Some("world_ray_direction"),
    ),
    (
        "ObjectRayOrigin",
        None,
        OBJECT_RAY_ORIGIN,
        Some("object_ray_origin"),
    ),
    (
        "ObjectRayDirection",
        None,
        OBJECT_RAY_DIRECTION,
        Some("object_ray_direction"),
    ),
    ("RayTmin", None, RAY_T_MIN, Some("ray_t_min")),
    (
        "RayTCurrentMax",
        None,
        RAY_T_CURRENT_MAX,
        Some("ray_t_current_max"),
    ),
    (
        "ObjectToWorld",
        None,
        OBJECT_TO_WORLD,
        Some("object_to_world"),
    ),
    (
        "WorldToObject",
        None,
        WORLD_TO_OBJECT,
        Some("world_to_object"),
    ),
    ("HitKind", None, HIT_KIND, Some("hit_kind")),
];

/// Checks whether two flags are the same: both absent, or of one truth value.
fn is_same_flag(flag: Option<bool>, other: Option<bool>) -> bool
    ensures { result ≡ same_flag flag other }
{
    match (flag, other) {
        (None, None) => true,
        (Some(flag), Some(other)) => flag == other,
        _ => false,
    }
}

/// Checks whether a row has that name and flag.
fn is_named(row: &Row, name: &str, flag: Option<bool>) -> bool
    ensures { result ≡ is_named name.now flag (row_of row.now) }
{
    row.0 == name && is_same_flag(row.1, flag)
}

/// Returns the value of the first row with that name and flag.
#[tactic(auto, unfolding(crate::specs::BuiltIns::named_in))]
fn named_in(table: &[Row], name: &str, flag: Option<bool>) -> Option<BuiltIn>
    ensures { result ≡ named_in (rows_of table.now) name.now flag }
{
    for row in table {
        if is_named(row, name, flag) {
            return Some(row.2);
        }
    }
    None
}

/// Returns the name in WGSL of the first row with that value.
#[tactic(auto, unfolding(crate::specs::BuiltIns::word_in))]
fn word_in(table: &[Row], built_in: BuiltIn) -> Option<&'static str>
    ensures { option_map (λ word. word.now) result ≡ word_in (rows_of table.now) built_in }
{
    for row in table {
        if row.2 == built_in {
            return row.3;
        }
    }
    None
}

/// Returns the built-in value with that name in naga's IR, whose payload is that flag.
#[tactic(auto, unfolding(crate::specs::BuiltIns::built_in_named))]
pub fn built_in_named(name: &str, flag: Option<bool>) -> Option<BuiltIn>
    ensures { result ≡ built_in_named name.now flag }
{
    named_in(&TABLE, name, flag)
}

/// Returns the name of the flag that is the payload of the built-in values with that name in naga's IR.
#[tactic(auto, unfolding(crate::specs::BuiltIns::flag_named))]
pub fn flag_named(name: &str) -> Option<&'static str>
    ensures { option_map (λ word. word.now) result ≡ flag_named name.now }
{
    match name {
        "Position" => Some("invariant"),
        "Barycentric" => Some("perspective"),
        _ => None,
    }
}

/// Returns the name of a built-in value in WGSL (WGSL, "Built-in Inputs and Outputs") or in naga's extension of it. Of those that only
/// other languages have, `WorkGroupSize` has a name too.
#[tactic(auto, unfolding(crate::specs::BuiltIns::wgsl_name))]
pub fn wgsl_name(built_in: BuiltIn) -> Option<&'static str>
    ensures { option_map (λ word. word.now) result ≡ wgsl_name built_in }
{
    word_in(&TABLE, built_in)
}
