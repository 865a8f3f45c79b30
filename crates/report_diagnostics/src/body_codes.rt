//! The codes of what is refused of a function's expressions and statements.
ghost use Rattle.std.specs.Prelude.{◌≡◌};
ghost use Rattle.report_diagnostics.specs.Codes.{flow_code, flow_name, resource_code, resource_name, type_code, type_name};

/// The codes of expressions without a type.
#[derive(Clone, Copy, Debug, PartialEq, Eq)]
pub enum TypeCode {
    /// A constant index is past the components, columns or members of its base.
    IndexPastTheEnd,
    /// The base of an access has no components.
    NotIndexable,
    /// The base of an access points to a value without such components.
    PointeeNotIndexable,
    /// The operand isn't a scalar.
    NotAScalar,
    /// The operand isn't a vector.
    NotAVector,
    /// The operand isn't a pointer.
    NotAPointer,
    /// The operand isn't an image.
    NotAnImage,
    /// The operation doesn't take these operands.
    WrongOperands,
    /// No overload of the built-in function takes these arguments.
    NoOverload,
    /// The function has no such argument.
    NoSuchArgument,
    /// The called function returns nothing.
    NoResult,
    /// The module lacks the type of the result.
    NoResultType,
}

impl TypeCode {
    /// Returns the code, as `T001`.
    pub fn code(self) -> &'static str
        ensures { result.now ≡ type_code self }
    {
        match self {
            TypeCode::IndexPastTheEnd => "T001",
            TypeCode::NotIndexable => "T002",
            TypeCode::PointeeNotIndexable => "T003",
            TypeCode::NotAScalar => "T004",
            TypeCode::NotAVector => "T005",
            TypeCode::NotAPointer => "T006",
            TypeCode::NotAnImage => "T007",
            TypeCode::WrongOperands => "T008",
            TypeCode::NoOverload => "T009",
            TypeCode::NoSuchArgument => "T010",
            TypeCode::NoResult => "T011",
            TypeCode::NoResultType => "T012",
        }
    }

    /// Returns the name, as `index-past-the-end`.
    pub fn name(self) -> &'static str
        ensures { result.now ≡ type_name self }
    {
        match self {
            TypeCode::IndexPastTheEnd => "index-past-the-end",
            TypeCode::NotIndexable => "not-indexable",
            TypeCode::PointeeNotIndexable => "pointee-not-indexable",
            TypeCode::NotAScalar => "not-a-scalar",
            TypeCode::NotAVector => "not-a-vector",
            TypeCode::NotAPointer => "not-a-pointer",
            TypeCode::NotAnImage => "not-an-image",
            TypeCode::WrongOperands => "wrong-operands",
            TypeCode::NoOverload => "no-overload",
            TypeCode::NoSuchArgument => "no-such-argument",
            TypeCode::NoResult => "no-result",
            TypeCode::NoResultType => "no-result-type",
        }
    }
}

/// The codes of uses of resources.
#[derive(Clone, Copy, Debug, PartialEq, Eq)]
pub enum ResourceCode {
    /// An array of textures or samplers is indexed by a value that may differ between invocations.
    NonUniformTextureIndex,
    /// An array of storage textures is indexed by a value that may differ between invocations.
    NonUniformStorageTextureIndex,
    /// A texture or a sampler is neither a global variable nor an argument.
    NotAResource,
    /// A binding array has elements other than textures and samplers.
    NotBindable,
}

impl ResourceCode {
    /// Returns the code, as `R001`.
    pub fn code(self) -> &'static str
        ensures { result.now ≡ resource_code self }
    {
        match self {
            ResourceCode::NonUniformTextureIndex => "R001",
            ResourceCode::NonUniformStorageTextureIndex => "R002",
            ResourceCode::NotAResource => "R003",
            ResourceCode::NotBindable => "R004",
        }
    }

    /// Returns the name, as `non-uniform-texture-index`.
    pub fn name(self) -> &'static str
        ensures { result.now ≡ resource_name self }
    {
        match self {
            ResourceCode::NonUniformTextureIndex => "non-uniform-texture-index",
            ResourceCode::NonUniformStorageTextureIndex => "non-uniform-storage-texture-index",
            ResourceCode::NotAResource => "not-a-resource",
            ResourceCode::NotBindable => "not-bindable",
        }
    }
}

/// The codes of needs of uniform control flow that only some invocations may reach (WGSL, "Uniformity").
#[derive(Clone, Copy, Debug, PartialEq, Eq)]
pub enum FlowCode {
    /// A derivative.
    Derivative,
    /// A sample whose level is computed from neighbouring invocations.
    ImplicitLevel,
    /// A control barrier.
    Barrier,
    /// A memory barrier.
    MemoryBarrier,
    /// A uniform load, also of a pointer that may differ between invocations.
    UniformLoad,
    /// An operation on a cooperative matrix.
    CooperativeOperation,
}

impl FlowCode {
    /// Returns the code, as `U101`.
    pub fn code(self) -> &'static str
        ensures { result.now ≡ flow_code self }
    {
        match self {
            FlowCode::Derivative => "U101",
            FlowCode::ImplicitLevel => "U102",
            FlowCode::Barrier => "U103",
            FlowCode::MemoryBarrier => "U104",
            FlowCode::UniformLoad => "U105",
            FlowCode::CooperativeOperation => "U106",
        }
    }

    /// Returns the name, as `derivative-in-divergent-flow`.
    pub fn name(self) -> &'static str
        ensures { result.now ≡ flow_name self }
    {
        match self {
            FlowCode::Derivative => "derivative-in-divergent-flow",
            FlowCode::ImplicitLevel => "implicit-level-in-divergent-flow",
            FlowCode::Barrier => "barrier-in-divergent-flow",
            FlowCode::MemoryBarrier => "memory-barrier-in-divergent-flow",
            FlowCode::UniformLoad => "uniform-load-in-divergent-flow",
            FlowCode::CooperativeOperation => "cooperative-operation-in-divergent-flow",
        }
    }
}
