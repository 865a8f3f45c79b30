//! The codes of inputs, of modules and of their types.
ghost use Rattle.std.specs.Prelude.{◌≡◌};
ghost use Rattle.report_diagnostics.specs.Codes.{input_code, input_name, layout_code, layout_name, module_code, module_name};

/// The codes of inputs that are no module.
#[derive(Clone, Copy, Debug, PartialEq, Eq)]
pub enum InputCode {
    /// The input is empty.
    EmptyInput,
    /// The input isn't UTF-8.
    NotUtf8,
    /// The input is something other than JSON, as a shader.
    NotAModule,
    /// The input isn't JSON.
    InvalidJson,
    /// The input nests deeper than is read.
    NestsTooDeep,
    /// The input is longer than is read.
    TooLong,
    /// An object lacks a field.
    MissingField,
    /// An object has a field twice.
    RepeatedField,
    /// A value isn't of the form that is expected.
    WrongValue,
    /// A name isn't one of those that are expected.
    UnknownName,
    /// Two types are equal.
    RepeatedType,
    /// A value is of a form that isn't supported.
    Unsupported,
}

impl InputCode {
    /// Returns the code, as `I001`.
    pub fn code(self) -> &'static str
        ensures { result.now ≡ input_code self }
    {
        match self {
            InputCode::EmptyInput => "I001",
            InputCode::NotUtf8 => "I002",
            InputCode::NotAModule => "I003",
            InputCode::InvalidJson => "I004",
            InputCode::NestsTooDeep => "I005",
            InputCode::TooLong => "I006",
            InputCode::MissingField => "I011",
            InputCode::RepeatedField => "I012",
            InputCode::WrongValue => "I013",
            InputCode::UnknownName => "I014",
            InputCode::RepeatedType => "I015",
            InputCode::Unsupported => "I016",
        }
    }

    /// Returns the name, as `empty-input`.
    pub fn name(self) -> &'static str
        ensures { result.now ≡ input_name self }
    {
        match self {
            InputCode::EmptyInput => "empty-input",
            InputCode::NotUtf8 => "not-utf8",
            InputCode::NotAModule => "not-a-module",
            InputCode::InvalidJson => "invalid-json",
            InputCode::NestsTooDeep => "nests-too-deep",
            InputCode::TooLong => "too-long",
            InputCode::MissingField => "missing-field",
            InputCode::RepeatedField => "repeated-field",
            InputCode::WrongValue => "wrong-value",
            InputCode::UnknownName => "unknown-name",
            InputCode::RepeatedType => "repeated-type",
            InputCode::Unsupported => "unsupported",
        }
    }
}

/// The codes of modules that aren't well formed.
#[derive(Clone, Copy, Debug, PartialEq, Eq)]
pub enum ModuleCode {
    /// A handle is past the end of its arena.
    IndexOutOfRange,
    /// An `Emit` names an expression past the end of its function's.
    EmitOutOfRange,
    /// A type names itself or a later type.
    TypeNotEarlier,
    /// An expression names itself or a later expression.
    OperandNotEarlier,
    /// A diagnostic filter names itself or a later filter.
    FilterNotEarlier,
    /// A function calls itself or a later function.
    CalleeNotEarlier,
    /// A call passes more or fewer arguments than its callee takes.
    ArgumentCount,
    /// A function takes an argument of a `ValuePointer` type.
    ValuePointerArgument,
}

impl ModuleCode {
    /// Returns the code, as `M001`.
    pub fn code(self) -> &'static str
        ensures { result.now ≡ module_code self }
    {
        match self {
            ModuleCode::IndexOutOfRange => "M001",
            ModuleCode::EmitOutOfRange => "M002",
            ModuleCode::TypeNotEarlier => "M003",
            ModuleCode::OperandNotEarlier => "M004",
            ModuleCode::FilterNotEarlier => "M005",
            ModuleCode::CalleeNotEarlier => "M006",
            ModuleCode::ArgumentCount => "M007",
            ModuleCode::ValuePointerArgument => "M008",
        }
    }

    /// Returns the name, as `index-out-of-range`.
    pub fn name(self) -> &'static str
        ensures { result.now ≡ module_name self }
    {
        match self {
            ModuleCode::IndexOutOfRange => "index-out-of-range",
            ModuleCode::EmitOutOfRange => "emit-out-of-range",
            ModuleCode::TypeNotEarlier => "type-not-earlier",
            ModuleCode::OperandNotEarlier => "operand-not-earlier",
            ModuleCode::FilterNotEarlier => "filter-not-earlier",
            ModuleCode::CalleeNotEarlier => "callee-not-earlier",
            ModuleCode::ArgumentCount => "argument-count",
            ModuleCode::ValuePointerArgument => "value-pointer-argument",
        }
    }
}

/// The codes of types without a layout.
#[derive(Clone, Copy, Debug, PartialEq, Eq)]
pub enum LayoutCode {
    /// The width of a scalar isn't a power of two.
    OddWidth,
    /// The type is larger than a type may be.
    TooLarge,
}

impl LayoutCode {
    /// Returns the code, as `L001`.
    pub fn code(self) -> &'static str
        ensures { result.now ≡ layout_code self }
    {
        match self {
            LayoutCode::OddWidth => "L001",
            LayoutCode::TooLarge => "L002",
        }
    }

    /// Returns the name, as `odd-width`.
    pub fn name(self) -> &'static str
        ensures { result.now ≡ layout_name self }
    {
        match self {
            LayoutCode::OddWidth => "odd-width",
            LayoutCode::TooLarge => "too-large",
        }
    }
}
