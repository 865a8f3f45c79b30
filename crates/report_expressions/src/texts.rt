//! The texts of words.
ghost use Rattle.std.specs.Prelude.{◌≡◌, IfOk, Some, string_bytes};
ghost use Rattle.report_names.specs.Literals.{IsText};
ghost use Rattle.report_expressions.specs.Texts.{case_text, item_word_text, word_text};

use crate::line::Source;
use crate::pieces::Word;
use report_names::{
    ItemKind, MOST_NESTED, argument_text, barrier_text, collective_text, constant_text,
    cooperative_text, function_text, global_text, item_text, literal_text, local_text,
    memory_barrier_text, name_text, number_text, override_text, scalar_text, type_text,
    vector_text,
};
use shader_arena::Handle;
use shader_ir::{CooperativeRole, CooperativeSize, Scalar, SwitchValue, TypeInner, mark};
use std::alloc::{AllocError, Global};

/// Returns the name that the function gives to an expression, or its number if it gives none.
fn named_text(
    alloc: Global,
    source: &Source,
    handle: Handle<mark::Expression>,
) -> Result<String, AllocError> {
    match source.function.named_expressions.get(&handle) {
        Some(name) => name_text(alloc, name.as_str()),
        None => number_text(alloc, ItemKind::Expression, handle.index()),
    }
}

/// Returns a member of a struct behind its point, by its name or its number.
fn member_text(
    alloc: Global,
    source: &Source,
    ty: Handle<mark::Type>,
    index: u32,
) -> Result<String, AllocError> {
    if let Some(found) = source.module.types.try_get(ty) {
        if let TypeInner::Struct { members, .. } = &found.inner {
            if let Some(member) = members.as_slice().get(index as usize) {
                let name = item_text(alloc, ItemKind::Member, &member.name, index as usize)?;
                return format!(in alloc; ".{name}");
            }
        }
    }
    format!(in alloc; ".member#{index}")
}

/// Returns the load of a cooperative matrix, by naga's extension of WGSL.
fn load_text(
    alloc: Global,
    columns: CooperativeSize,
    rows: CooperativeSize,
    role: CooperativeRole,
    by_rows: bool,
) -> Result<String, AllocError> {
    let matrix = cooperative_text(alloc, columns, rows, Scalar::F32, role)?;
    if by_rows {
        format!(in alloc; "coopLoadT<{matrix}>")
    } else {
        format!(in alloc; "coopLoad<{matrix}>")
    }
}

/// Returns the value of a case.
fn case_text(alloc: Global, value: SwitchValue) -> Result<String, AllocError>
    ensures { IfOk result (λ text. IsText (case_text value) (string_bytes text)) }
{
    match value {
        SwitchValue::I32(number) => format!(in alloc; "case {number}"),
        SwitchValue::U32(number) => format!(in alloc; "case {number}u"),
        SwitchValue::Default => String::from_str(alloc, "default"),
    }
}

/// Returns the text of a word that names an item of the function or of the module.
fn item_word_text(alloc: Global, source: &Source, word: &Word) -> Result<String, AllocError>
    ensures { IfOk result (λ text. IsText (item_word_text source.now word.now) (string_bytes text)) }
{
    match word {
        Word::Argument(index) => argument_text(alloc, source.function, *index),
        Word::Constant(constant) => constant_text(
            alloc,
            source.module,
            Handle::from_index(*constant),
        ),
        Word::Override(handle) => override_text(alloc, source.module, Handle::from_index(*handle)),
        Word::Global(global) => global_text(alloc, source.module, Handle::from_index(*global)),
        Word::Local(local) => local_text(alloc, source.function, Handle::from_index(*local)),
        Word::Function(function) => function_text(
            alloc,
            source.module,
            Handle::from_index(*function),
        ),
        Word::Type(ty) => type_text(alloc, source.module, Handle::from_index(*ty), MOST_NESTED),
        Word::Named(handle) => named_text(alloc, source, Handle::from_index(*handle)),
        Word::Numbered(handle) => number_text(alloc, ItemKind::Expression, *handle as usize),
        Word::Member(ty, index) => member_text(alloc, source, Handle::from_index(*ty), *index),
        Word::Fixed(_)
        | Word::Literal(_)
        | Word::Index(_)
        | Word::Scalar(_)
        | Word::Vector(..)
        | Word::Bitcast(_)
        | Word::CooperativeLoad(..)
        | Word::Collective(..)
        | Word::Barrier(_)
        | Word::MemoryBarrier(_)
        | Word::Case(_) => Ok(String::new(alloc)),
    }
}

/// Returns the text of a word.
pub fn word_text(alloc: Global, source: &Source, word: &Word) -> Result<String, AllocError>
    ensures { IfOk result (λ text. IsText (word_text source.now word.now) (string_bytes text)) }
{
    match word {
        Word::Fixed(text) => String::from_str(alloc, text),
        Word::Literal(literal) => literal_text(alloc, *literal),
        Word::Index(index) => format!(in alloc; "{index}"),
        Word::Scalar(scalar) => scalar_text(alloc, *scalar),
        Word::Vector(size, scalar) => vector_text(alloc, *size, *scalar),
        Word::Bitcast(scalar) => {
            let scalar = scalar_text(alloc, *scalar)?;
            format!(in alloc; "bitcast<{scalar}>")
        }
        Word::CooperativeLoad(columns, rows, role, by_rows) => {
            load_text(alloc, *columns, *rows, *role, *by_rows)
        }
        Word::Collective(op, collective_op) => collective_text(alloc, *op, *collective_op),
        Word::Barrier(barrier) => barrier_text(alloc, *barrier),
        Word::MemoryBarrier(barrier) => memory_barrier_text(alloc, *barrier),
        Word::Case(value) => case_text(alloc, *value),
        Word::Argument(_)
        | Word::Constant(_)
        | Word::Override(_)
        | Word::Global(_)
        | Word::Local(_)
        | Word::Function(_)
        | Word::Type(_)
        | Word::Named(_)
        | Word::Numbered(_)
        | Word::Member(..) => item_word_text(alloc, source, word),
    }
}
