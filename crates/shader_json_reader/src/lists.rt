//! The lists of names that descriptions of required values abbreviate.

/// Descriptions of required values, each with the same description that lists all allowed names.
const LISTS: [(&str, &str); 22] = [
    (
        "an address space",
        "an address space: `Function`, `Private`, `WorkGroup`, `Uniform`, `Handle`, `Immediate`, `TaskPayload`, `RayPayload`, \
         `IncomingRayPayload` or `Storage` with its access",
    ),
    (
        "a built-in value",
        "a built-in value: `Position`, `ViewIndex`, `BaseInstance`, `BaseVertex`, `ClipDistance`, `CullDistance`, \
         `InstanceIndex`, `PointSize`, `VertexIndex`, `DrawIndex`, `DrawID`, `FragDepth`, `PointCoord`, `FrontFacing`, \
         `PrimitiveIndex`, `Barycentric`, `SampleIndex`, `SampleMask`, `GlobalInvocationId`, `LocalInvocationId`, \
         `LocalInvocationIndex`, `WorkGroupId`, `WorkGroupSize`, `NumWorkGroups`, `NumSubgroups`, `SubgroupId`, `SubgroupSize`, \
         `SubgroupInvocationId`, `MeshTaskSize`, `CullPrimitive`, `PointIndex`, `LineIndices`, `TriangleIndices`, \
         `VertexCount`, `Vertices`, `PrimitiveCount`, `Primitives`, `RayInvocationId`, `NumRayInvocations`, \
         `InstanceCustomData`, `GeometryIndex`, `WorldRayOrigin`, `WorldRayDirection`, `ObjectRayOrigin`, `ObjectRayDirection`, \
         `RayTmin`, `RayTCurrentMax`, `ObjectToWorld`, `WorldToObject` or `HitKind`",
    ),
    (
        "the name of a kind of scalars",
        "a kind of scalars: `Sint`, `Uint`, `Float`, `Bool`, `AbstractInt` or `AbstractFloat`",
    ),
    (
        "the name of a storage format",
        "a storage format: `R8Unorm`, `R8Snorm`, `R8Uint`, `R8Sint`, `Rg8Unorm`, `Rg8Snorm`, `Rg8Uint`, `Rg8Sint`, `Rgba8Unorm`, \
         `Rgba8Snorm`, `Rgba8Uint`, `Rgba8Sint`, `R16Unorm`, `R16Snorm`, `R16Float`, `R16Uint`, `R16Sint`, `Rg16Unorm`, \
         `Rg16Snorm`, `Rg16Float`, `Rg16Uint`, `Rg16Sint`, `Rgba16Unorm`, `Rgba16Snorm`, `Rgba16Float`, `Rgba16Uint`, \
         `Rgba16Sint`, `R32Float`, `R32Uint`, `R32Sint`, `Rg32Float`, `Rg32Uint`, `Rg32Sint`, `Rgba32Float`, `Rgba32Uint`, \
         `Rgba32Sint`, `Bgra8Unorm`, `Rgb10a2Unorm`, `Rgb10a2Uint`, `Rg11b10Ufloat` or `R64Uint`",
    ),
    (
        "the name of a unary operator",
        "a unary operator: `Negate`, `LogicalNot` or `BitwiseNot`",
    ),
    (
        "the name of a binary operator",
        "a binary operator: `Add`, `Subtract`, `Multiply`, `Divide`, `Modulo`, `Equal`, `NotEqual`, `Less`, `LessEqual`, \
         `Greater`, `GreaterEqual`, `And`, `ExclusiveOr`, `InclusiveOr`, `LogicalAnd`, `LogicalOr`, `ShiftLeft` or `ShiftRight`",
    ),
    (
        "the name of a relational function",
        "a relational function: `All`, `Any`, `IsNan` or `IsInf`",
    ),
    (
        "the name of a builtin function",
        "a built-in function: `Abs`, `Min`, `Max`, `Clamp`, `Saturate`, `Cos`, `Cosh`, `Sin`, `Sinh`, `Tan`, `Tanh`, `Acos`, \
         `Asin`, `Atan`, `Atan2`, `Asinh`, `Acosh`, `Atanh`, `Radians`, `Degrees`, `Ceil`, `Floor`, `Round`, `Fract`, `Trunc`, \
         `Modf`, `Frexp`, `Ldexp`, `Exp`, `Exp2`, `Log`, `Log2`, `Pow`, `Dot`, `Dot4I8Packed`, `Dot4U8Packed`, `Outer`, `Cross`, \
         `Distance`, `Length`, `Normalize`, `FaceForward`, `Reflect`, `Refract`, `Sign`, `Fma`, `Mix`, `Step`, `SmoothStep`, \
         `Sqrt`, `InverseSqrt`, `Inverse`, `Transpose`, `Determinant`, `QuantizeToF16`, `CountTrailingZeros`, `CountLeadingZeros`, \
         `CountOneBits`, `ReverseBits`, `ExtractBits`, `InsertBits`, `FirstTrailingBit`, `FirstLeadingBit`, `Pack4x8snorm`, \
         `Pack4x8unorm`, `Pack2x16snorm`, `Pack2x16unorm`, `Pack2x16float`, `Pack4xI8`, `Pack4xU8`, `Pack4xI8Clamp`, \
         `Pack4xU8Clamp`, `Unpack4x8snorm`, `Unpack4x8unorm`, `Unpack2x16snorm`, `Unpack2x16unorm`, `Unpack2x16float`, \
         `Unpack4xI8` or `Unpack4xU8`",
    ),
    (
        "the name of a subgroup operation",
        "a subgroup operation: `All`, `Any`, `Add`, `Mul`, `Min`, `Max`, `And`, `Or` or `Xor`",
    ),
    (
        "an atomic function",
        "an atomic function: `Add`, `Subtract`, `And`, `ExclusiveOr`, `InclusiveOr`, `Min`, `Max` or `Exchange`",
    ),
    (
        "a mode of gathering",
        "a mode of gathering: `BroadcastFirst`, `Broadcast`, `Shuffle`, `ShuffleDown`, `ShuffleUp`, `ShuffleXor`, `QuadBroadcast` \
         or `QuadSwap`",
    ),
    (
        "a type",
        "a type: `Scalar`, `Vector`, `Matrix`, `CooperativeMatrix`, `Atomic`, `Pointer`, `ValuePointer`, `Array`, `Struct`, \
         `Image`, `Sampler`, `AccelerationStructure`, `RayQuery` or `BindingArray`",
    ),
    (
        "a class of images",
        "a class of images: `Sampled`, `Depth`, `Storage` or `External`",
    ),
    (
        "a level to sample at",
        "a level to sample at: `Auto`, `Zero`, `Exact`, `Bias` or `Gradient`",
    ),
    (
        "a query of an image",
        "a query of an image: `Size`, `NumLevels`, `NumLayers` or `NumSamples`",
    ),
    (
        "a literal",
        "a literal: `F64`, `F32`, `F16`, `U16`, `I16`, `U32`, `I32`, `U64`, `I64`, `Bool`, `AbstractInt` or `AbstractFloat`",
    ),
    (
        "the size of an array",
        "the size of an array: `Constant` with a number, `Pending` with an override, or `Dynamic`",
    ),
    (
        "a predeclared type",
        "a predeclared type: `ModfResult`, `FrexpResult` or `AtomicCompareExchangeWeakResult`",
    ),
    (
        "a function of ray queries",
        "a function of ray queries: `Initialize`, `Proceed`, `GenerateIntersection`, `ConfirmIntersection` or `Terminate`",
    ),
    (
        "a function of ray pipelines",
        "a function of ray pipelines: `TraceRay`",
    ),
    (
        "an expression",
        "an expression: `Literal`, `Constant`, `Override`, `ZeroValue`, `Compose`, `Access`, `AccessIndex`, `Splat`, `Swizzle`, \
         `FunctionArgument`, `GlobalVariable`, `LocalVariable`, `Load`, `ImageSample`, `ImageLoad`, `ImageQuery`, `Unary`, \
         `Binary`, `Select`, `Derivative`, `Relational`, `Math`, `As`, `CallResult`, `AtomicResult`, `WorkGroupUniformLoadResult`, \
         `ArrayLength`, `RayQueryVertexPositions`, `RayQueryProceedResult`, `RayQueryGetIntersection`, `SubgroupBallotResult`, \
         `SubgroupOperationResult`, `CooperativeLoad` or `CooperativeMultiplyAdd`",
    ),
    (
        "a statement",
        "a statement: `Emit`, `Block`, `If`, `Switch`, `Loop`, `Break`, `Continue`, `Return`, `Kill`, `ControlBarrier`, \
         `MemoryBarrier`, `Store`, `ImageStore`, `Atomic`, `ImageAtomic`, `WorkGroupUniformLoad`, `Call`, `RayQuery`, \
         `RayPipelineFunction`, `SubgroupBallot`, `SubgroupGather`, `SubgroupCollectiveOperation` or `CooperativeStore`",
    ),
];

/// Adds the allowed names to the description of a required value, if it is one of `LISTS`.
pub fn listed(words: &'static str) -> &'static str {
    for row in &LISTS {
        if row.0 == words {
            return row.1;
        }
    }
    words
}
