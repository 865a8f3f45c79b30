//! The numbers of naga's built-in values that have no variant in the IR.

use shader_ir::BuiltIn;

/// The position of a vertex or a fragment (naga's `Position`, not invariant).
pub const POSITION: BuiltIn = BuiltIn::Other(0);
/// The same, invariant.
pub const POSITION_INVARIANT: BuiltIn = BuiltIn::Other(1);
/// naga's `ViewIndex`.
pub const VIEW_INDEX: BuiltIn = BuiltIn::Other(2);
/// naga's `BaseInstance`.
pub const BASE_INSTANCE: BuiltIn = BuiltIn::Other(3);
/// naga's `BaseVertex`.
pub const BASE_VERTEX: BuiltIn = BuiltIn::Other(4);
/// naga's `ClipDistance`.
pub const CLIP_DISTANCE: BuiltIn = BuiltIn::Other(5);
/// naga's `CullDistance`.
pub const CULL_DISTANCE: BuiltIn = BuiltIn::Other(6);
/// naga's `InstanceIndex`.
pub const INSTANCE_INDEX: BuiltIn = BuiltIn::Other(7);
/// naga's `PointSize`.
pub const POINT_SIZE: BuiltIn = BuiltIn::Other(8);
/// naga's `VertexIndex`.
pub const VERTEX_INDEX: BuiltIn = BuiltIn::Other(9);
/// naga's `DrawIndex`.
pub const DRAW_INDEX: BuiltIn = BuiltIn::Other(10);
/// `DrawIndex` under the name that it had in earlier releases of naga.
pub const DRAW_ID: BuiltIn = BuiltIn::Other(11);
/// naga's `FragDepth`.
pub const FRAG_DEPTH: BuiltIn = BuiltIn::Other(12);
/// naga's `PointCoord`.
pub const POINT_COORD: BuiltIn = BuiltIn::Other(13);
/// naga's `FrontFacing`.
pub const FRONT_FACING: BuiltIn = BuiltIn::Other(14);
/// naga's `PrimitiveIndex`.
pub const PRIMITIVE_INDEX: BuiltIn = BuiltIn::Other(15);
/// The barycentric coordinates, with perspective.
pub const BARYCENTRIC: BuiltIn = BuiltIn::Other(16);
/// The same without perspective.
pub const BARYCENTRIC_NO_PERSPECTIVE: BuiltIn = BuiltIn::Other(17);
/// naga's `SampleIndex`.
pub const SAMPLE_INDEX: BuiltIn = BuiltIn::Other(18);
/// naga's `SampleMask`.
pub const SAMPLE_MASK: BuiltIn = BuiltIn::Other(19);
/// naga's `GlobalInvocationId`.
pub const GLOBAL_INVOCATION_ID: BuiltIn = BuiltIn::Other(20);
/// naga's `LocalInvocationId`.
pub const LOCAL_INVOCATION_ID: BuiltIn = BuiltIn::Other(21);
/// naga's `LocalInvocationIndex`.
pub const LOCAL_INVOCATION_INDEX: BuiltIn = BuiltIn::Other(22);
/// naga's `NumSubgroups`.
pub const NUM_SUBGROUPS: BuiltIn = BuiltIn::Other(23);
/// naga's `SubgroupId`.
pub const SUBGROUP_ID: BuiltIn = BuiltIn::Other(24);
/// naga's `SubgroupSize`.
pub const SUBGROUP_SIZE: BuiltIn = BuiltIn::Other(25);
/// naga's `SubgroupInvocationId`.
pub const SUBGROUP_INVOCATION_ID: BuiltIn = BuiltIn::Other(26);
/// naga's `MeshTaskSize`.
pub const MESH_TASK_SIZE: BuiltIn = BuiltIn::Other(27);
/// naga's `CullPrimitive`.
pub const CULL_PRIMITIVE: BuiltIn = BuiltIn::Other(28);
/// naga's `PointIndex`.
pub const POINT_INDEX: BuiltIn = BuiltIn::Other(29);
/// naga's `LineIndices`.
pub const LINE_INDICES: BuiltIn = BuiltIn::Other(30);
/// naga's `TriangleIndices`.
pub const TRIANGLE_INDICES: BuiltIn = BuiltIn::Other(31);
/// naga's `VertexCount`.
pub const VERTEX_COUNT: BuiltIn = BuiltIn::Other(32);
/// naga's `Vertices`.
pub const VERTICES: BuiltIn = BuiltIn::Other(33);
/// naga's `PrimitiveCount`.
pub const PRIMITIVE_COUNT: BuiltIn = BuiltIn::Other(34);
/// naga's `Primitives`.
pub const PRIMITIVES: BuiltIn = BuiltIn::Other(35);
/// naga's `RayInvocationId`.
pub const RAY_INVOCATION_ID: BuiltIn = BuiltIn::Other(36);
/// naga's `NumRayInvocations`.
pub const NUM_RAY_INVOCATIONS: BuiltIn = BuiltIn::Other(37);
/// naga's `InstanceCustomData`.
pub const INSTANCE_CUSTOM_DATA: BuiltIn = BuiltIn::Other(38);
/// naga's `GeometryIndex`.
pub const GEOMETRY_INDEX: BuiltIn = BuiltIn::Other(39);
/// naga's `WorldRayOrigin`.
pub const WORLD_RAY_ORIGIN: BuiltIn = BuiltIn::Other(40);
/// naga's `WorldRayDirection`.
pub const WORLD_RAY_DIRECTION: BuiltIn = BuiltIn::Other(41);
/// naga's `ObjectRayOrigin`.
pub const OBJECT_RAY_ORIGIN: BuiltIn = BuiltIn::Other(42);
/// naga's `ObjectRayDirection`.
pub const OBJECT_RAY_DIRECTION: BuiltIn = BuiltIn::Other(43);
/// naga's `RayTmin`.
pub const RAY_T_MIN: BuiltIn = BuiltIn::Other(44);
/// naga's `RayTCurrentMax`.
pub const RAY_T_CURRENT_MAX: BuiltIn = BuiltIn::Other(45);
/// naga's `ObjectToWorld`.
pub const OBJECT_TO_WORLD: BuiltIn = BuiltIn::Other(46);
/// naga's `WorldToObject`.
pub const WORLD_TO_OBJECT: BuiltIn = BuiltIn::Other(47);
/// naga's `HitKind`.
pub const HIT_KIND: BuiltIn = BuiltIn::Other(48);
