//! What each code means, in a sentence. docs/DIAGNOSTICS.md has the same sentences.

use crate::body_codes::{FlowCode, ResourceCode, TypeCode};
use crate::codes::Code;
use crate::module_codes::{InputCode, LayoutCode, ModuleCode};

/// Returns the sentence of an input that is no module.
fn input_sentence(code: InputCode) -> &'static str {
    match code {
        InputCode::EmptyInput => "There is nothing to read.",
        InputCode::NotUtf8 => "JSON is UTF-8, and this byte is no part of a character in it.",
        InputCode::NotAModule =>
            "The input has another format; `report` reads the JSON of naga 30.",
        InputCode::InvalidJson => "The input isn't JSON from this byte on.",
        InputCode::NestsTooDeep => "At most 128 arrays and objects nest, and at most 4,000 blocks.",
        InputCode::TooLong => "An input has at most 268,435,456 bytes.",
        InputCode::MissingField => "Each field of an object of naga 30 has to be there.",
        InputCode::RepeatedField => "A field or a key stands once in an object.",
        InputCode::WrongValue => "The value is of another kind than in naga 30, or out of range.",
        InputCode::UnknownName =>
            "The name is none that `report` knows; it reads the JSON of naga 30.",
        InputCode::RepeatedType => "No two types of a module are equal.",
        InputCode::Unsupported => "This part of naga 30 isn't read.",
    }
}

/// Returns the sentence of a module that isn't well formed.
fn module_sentence(code: ModuleCode) -> &'static str {
    match code {
        ModuleCode::IndexOutOfRange => "Each index is less than the number of items in its list.",
        ModuleCode::EmitOutOfRange => "A statement emits expressions that its function has.",
        ModuleCode::TypeNotEarlier => "A type is made of types before it.",
        ModuleCode::OperandNotEarlier => "The operands of an expression stand before it.",
        ModuleCode::FilterNotEarlier => "The parent of a diagnostic filter stands before it.",
        ModuleCode::CalleeNotEarlier =>
            "A function calls functions before it, and so never itself.",
        ModuleCode::ArgumentCount => "A call passes as many arguments as its function takes.",
        ModuleCode::ValuePointerArgument => "No argument of a function has a type `ValuePointer`.",
    }
}

/// Returns the sentence of an expression without a type.
fn type_sentence(code: TypeCode) -> &'static str {
    match code {
        TypeCode::IndexPastTheEnd => "A constant index is less than the number of components.",
        TypeCode::NotIndexable => "This value has no components.",
        TypeCode::PointeeNotIndexable => "This pointer leads to a value without components.",
        TypeCode::NotAScalar => "The operand has to be a scalar.",
        TypeCode::NotAVector => "The operand has to be a vector.",
        TypeCode::NotAPointer => "The operand has to be a pointer.",
        TypeCode::NotAnImage => "The operand has to be an image.",
        TypeCode::WrongOperands => "The operator doesn't take operands of these types.",
        TypeCode::NoOverload => "The function has no overload that takes these types.",
        TypeCode::NoSuchArgument => "The function has fewer arguments.",
        TypeCode::NoResult => "The called function returns nothing.",
        TypeCode::NoResultType => "The module lacks the type that naga gives this result.",
    }
}

/// Returns the sentence of a type without a layout.
fn layout_sentence(code: LayoutCode) -> &'static str {
    match code {
        LayoutCode::OddWidth => "The width of a scalar is a power of two.",
        LayoutCode::TooLarge => "A count or a size is at most 1,073,741,824.",
    }
}

/// Returns the sentence of a use of a resource.
fn resource_sentence(code: ResourceCode) -> &'static str {
    match code {
        ResourceCode::NonUniformTextureIndex => {
            "This device indexes textures and samplers by uniform values alone."
        }
        ResourceCode::NonUniformStorageTextureIndex => {
            "This device indexes storage textures by uniform values alone."
        }
        ResourceCode::NotAResource => "What is sampled is a global variable or an argument.",
        ResourceCode::NotBindable =>
            "A binding array that is indexed here holds images or samplers.",
    }
}

/// Returns the sentence of what needs uniform control flow.
fn flow_sentence(code: FlowCode) -> &'static str {
    match code {
        FlowCode::Derivative => "A derivative compares the invocations of a quad.",
        FlowCode::ImplicitLevel =>
            "The level follows from derivatives, which compare the invocations of a quad.",
        FlowCode::Barrier => "A barrier waits for all invocations of the workgroup.",
        FlowCode::MemoryBarrier => "A memory barrier is for all invocations of the workgroup.",
        FlowCode::UniformLoad =>
            "A uniform load waits for all invocations, and all load from one place.",
        FlowCode::CooperativeOperation =>
            "All invocations of the subgroup take part in this operation.",
    }
}

/// Returns what a code means, in a sentence.
pub fn sentence_of(code: Code) -> &'static str {
    match code {
        Code::Input(code) => input_sentence(code),
        Code::Module(code) => module_sentence(code),
        Code::Type(code) => type_sentence(code),
        Code::Layout(code) => layout_sentence(code),
        Code::Resource(code) => resource_sentence(code),
        Code::Flow(code) => flow_sentence(code),
        Code::TooManyUses => "The number of uses of an expression fits into 64 bits.",
    }
}
