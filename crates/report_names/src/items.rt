//! Items by their names, or by their numbers if they have none.
ghost use Rattle.std.specs.Prelude.{◌≡◌, IfOk, slice_get, string_bytes};
ghost use Rattle.report_names.specs.Items.{argument_text, constant_text, function_text, global_text, item_text, kind_word, local_text};
ghost use Rattle.report_names.specs.Items.{number_text, override_text};

use crate::names::name_text;
use shader_arena::Handle;
use shader_ir::{Function, Module, Name, mark};
use std::alloc::{AllocError, Global};

/// The kind of an item that has a number.
#[derive(Clone, Copy)]
pub enum ItemKind {
    /// An argument of a function.
    Argument,
    /// A constant of a module.
    Constant,
    /// An expression of a function or of a module.
    Expression,
    /// A function of a module.
    Function,
    /// A global variable.
    Global,
    /// A local variable.
    Local,
    /// A member of a struct.
    Member,
    /// An override of a module.
    Override,
    /// A struct type.
    Struct,
    /// Any other type.
    Type,
}

/// Returns the word for a kind.
pub fn kind_word(kind: ItemKind) -> &'static str
    ensures { result.now ≡ kind_word kind }
{
    match kind {
        ItemKind::Argument => "argument",
        ItemKind::Constant => "constant",
        ItemKind::Expression => "expression",
        ItemKind::Function => "function",
        ItemKind::Global => "global",
        ItemKind::Local => "local",
        ItemKind::Member => "member",
        ItemKind::Override => "override",
        ItemKind::Struct => "struct",
        ItemKind::Type => "type",
    }
}

/// Returns the number of an item behind the word for its kind, as `local#2`. The `#` shows that this isn't the shader's text.
pub fn number_text(alloc: Global, kind: ItemKind, index: usize) -> Result<String, AllocError>
    ensures { IfOk result (λ text. string_bytes text ≡ number_text kind index) }
{
    let word = kind_word(kind);
    format!(in alloc; "{word}#{index}")
}

/// Returns an item by its name, or by its number if the name is absent or empty.
pub fn item_text(
    alloc: Global,
    kind: ItemKind,
    name: &Option<Name>,
    index: usize,
) -> Result<String, AllocError>
    ensures { IfOk result (λ text. string_bytes text ≡ item_text kind name.now index) }
{
    match name {
        Some(name) => {
            if name.as_str().is_empty() {
                number_text(alloc, kind, index)
            } else {
                name_text(alloc, name.as_str())
            }
        }
        None => number_text(alloc, kind, index),
    }
}

/// Returns an argument of a function. A number past the last argument is shown as such.
pub fn argument_text(alloc: Global, function: &Function, index: u32) -> Result<String, AllocError>
    ensures { IfOk result (λ text. string_bytes text ≡ argument_text function.now index) }
{
    let kind = ItemKind::Argument;
    match function.arguments.as_slice().get(index as usize) {
        Some(argument) => item_text(alloc, kind, &argument.name, index as usize),
        None => number_text(alloc, kind, index as usize),
    }
}

/// Returns a local variable of a function.
pub fn local_text(
    alloc: Global,
    function: &Function,
    local: Handle<mark::LocalVariable>,
) -> Result<String, AllocError>
    ensures { IfOk result (λ text. string_bytes text ≡ local_text function.now local) }
{
    let kind = ItemKind::Local;
    match function.local_variables.try_get(local) {
        Some(variable) => item_text(alloc, kind, &variable.name, local.index()),
        None => number_text(alloc, kind, local.index()),
    }
}

/// Returns a global variable of a module.
pub fn global_text(
    alloc: Global,
    module: &Module,
    global: Handle<mark::GlobalVariable>,
) -> Result<String, AllocError>
    ensures { IfOk result (λ text. string_bytes text ≡ global_text «module».now global) }
{
    let kind = ItemKind::Global;
    match module.global_variables.try_get(global) {
        Some(variable) => item_text(alloc, kind, &variable.name, global.index()),
        None => number_text(alloc, kind, global.index()),
    }
}

/// Returns a constant of a module.
pub fn constant_text(
    alloc: Global,
    module: &Module,
    constant: Handle<mark::Constant>,
) -> Result<String, AllocError>
    ensures { IfOk result (λ text. string_bytes text ≡ constant_text «module».now constant) }
{
    let kind = ItemKind::Constant;
    match module.constants.try_get(constant) {
        Some(found) => item_text(alloc, kind, &found.name, constant.index()),
        None => number_text(alloc, kind, constant.index()),
    }
}

/// Returns an override of a module.
pub fn override_text(
    alloc: Global,
    module: &Module,
    handle: Handle<mark::Override>,
) -> Result<String, AllocError>
    ensures { IfOk result (λ text. string_bytes text ≡ override_text «module».now handle) }
{
    let kind = ItemKind::Override;
    match module.overrides.try_get(handle) {
        Some(found) => item_text(alloc, kind, &found.name, handle.index()),
        None => number_text(alloc, kind, handle.index()),
    }
}

/// Returns a function of a module.
pub fn function_text(
    alloc: Global,
    module: &Module,
    function: Handle<mark::Function>,
) -> Result<String, AllocError>
    ensures { IfOk result (λ text. string_bytes text ≡ function_text «module».now function) }
{
    let kind = ItemKind::Function;
    match module.functions.try_get(function) {
        Some(found) => item_text(alloc, kind, &found.name, function.index()),
        None => number_text(alloc, kind, function.index()),
    }
}
