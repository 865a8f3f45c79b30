//! What is said of an access to something that isn't there.

use crate::lists::counted_text;
use crate::phrases::{type_phrase, with_article};
use crate::typed::Typed;
use crate::wording::Wording;
use report_names::{ItemKind, MOST_NESTED, item_text, type_text, vector_text};
use shader_arena::Handle;
use shader_ir::{Expression, Module, StructMember, TypeInner, VectorSize, mark};
use std::alloc::{AllocError, Global};

/// What an index chooses.
#[derive(Clone, Copy)]
enum Parts {
    Components(usize),
    Columns(usize),
    Members(usize),
}

impl Parts {
    /// Returns the word for one of them.
    fn word(self) -> &'static str {
        match self {
            Parts::Components(_) => "component",
            Parts::Columns(_) => "column",
            Parts::Members(_) => "member",
        }
    }

    /// Returns how many there are.
    fn count(self) -> usize {
        match self {
            Parts::Components(count) | Parts::Columns(count) | Parts::Members(count) => count,
        }
    }
}

/// Returns the number that a size stands for.
fn number_of(size: VectorSize) -> usize {
    match size {
        VectorSize::Bi => 2,
        VectorSize::Tri => 3,
        VectorSize::Quad => 4,
    }
}

/// Returns the type that a pointer leads to, or the type itself.
pub fn pointee<'a>(module: &'a Module, inner: &'a TypeInner) -> &'a TypeInner {
    match inner {
        TypeInner::Pointer { base, .. } => match module.types.try_get(*base) {
            Some(found) => &found.inner,
            None => inner,
        },
        _ => inner,
    }
}

/// Returns what an index into a value of a type chooses, if the type has a fixed number of them.
fn parts_of(inner: &TypeInner) -> Option<Parts> {
    match inner {
        TypeInner::Vector { size, .. }
        | TypeInner::ValuePointer {
            size: Some(size),
            ..
        } => { Some(Parts::Components(number_of(*size))) }
        TypeInner::Matrix { columns, .. } => Some(Parts::Columns(number_of(*columns))),
        TypeInner::Struct { members, .. } => Some(Parts::Members(members.len())),
        _ => None,
    }
}

/// Returns a component by its name, or a number with the word for what it counts.
fn part_text(alloc: Global, parts: Parts, index: usize) -> Result<String, AllocError> {
    let letter = match parts {
        Parts::Components(_) => match index {
            0 => "x",
            1 => "y",
            2 => "z",
            3 => "w",
            _ => "",
        },
        _ => "",
    };
    if letter.is_empty() {
        index.to_string(alloc)
    } else {
        format!(in alloc; "`{letter}`")
    }
}

/// Returns the name of the last member of a struct.
fn last_member(alloc: Global, members: &[StructMember]) -> Result<Option<String>, AllocError> {
    match members.last() {
        Some(member) => {
            let index = members.len().saturating_sub(1);
            let name = item_text(alloc, ItemKind::Member, &member.name, index)?;
            Ok(Some(format!(in alloc; "`{name}`")?))
        }
        None => Ok(None),
    }
}

/// Returns what is said of the base: its type, and the last part that it has.
fn last_label(
    alloc: Global,
    phrase: &str,
    inner: &TypeInner,
    parts: Parts,
) -> Result<String, AllocError> {
    let word = parts.word();
    let last = match inner {
        TypeInner::Struct { members, .. } => last_member(alloc, members.as_slice())?,
        _ => Some(part_text(alloc, parts, parts.count().saturating_sub(1))?),
    };
    match last {
        Some(last) => format!(in alloc; "{phrase}, whose last {word} is {last}"),
        None => format!(in alloc; "{phrase}, which has no {word}s"),
    }
}

/// Returns the type of an operand, or of what it points to, with its article.
fn pointee_phrase(
    alloc: Global,
    typed: &Typed<'_>,
    operand: Handle<mark::Expression>,
) -> Result<String, AllocError> {
    let text = match typed.inner(operand) {
        Some(TypeInner::Pointer { base, .. }) => {
            type_text(alloc, typed.module, *base, MOST_NESTED)?
        }
        Some(
            TypeInner::ValuePointer {
                size: Some(size),
                scalar,
                ..
            },
        ) => { vector_text(alloc, *size, *scalar)? }
        _ => return type_phrase(alloc, typed, operand),
    };
    with_article(alloc, text.as_str())
}

/// Returns what is said of a constant index past the last part of what it indexes.
pub fn past_the_end(
    alloc: Global,
    typed: &Typed<'_>,
    base: Handle<mark::Expression>,
    index: u32,
) -> Result<Option<Wording>, AllocError> {
    let Some(inner) = typed.inner(base) else {
        return Ok(None);
    };
    let inner = pointee(typed.module, inner);
    let Some(parts) = parts_of(inner) else {
        return Ok(None);
    };
    let word = parts.word();
    let part = part_text(alloc, parts, index as usize)?;
    let name = typed.operand_text(alloc, base)?;
    let count = counted_text(alloc, parts.count(), word)?;
    let message = format!(in alloc; "{word} {part} doesn't exist: `{name}` has {count}")?;
    let phrase = pointee_phrase(alloc, typed, base)?;
    let label = last_label(alloc, phrase.as_str(), inner, parts)?;
    Ok(Some(Wording::of(alloc, message).labelled(Some(base), label)))
}

/// Returns the base of an access.
fn base_of(typed: &Typed<'_>) -> Option<Handle<mark::Expression>> {
    match typed.expression()? {
        Expression::Access { base, .. } | Expression::AccessIndex { base, .. } => Some(*base),
        _ => None,
    }
}

/// Returns what is said of an access to a member by an index that isn't known before the shader runs.
fn computed_member(
    alloc: Global,
    typed: &Typed<'_>,
    base: Handle<mark::Expression>,
    phrase: &str,
) -> Result<Option<Wording>, AllocError> {
    let name = typed.operand_text(alloc, base)?;
    let message = format!(in alloc; "a member of `{name}` can't be chosen by a computed index")?;
    let label = format!(in alloc; "{phrase}, whose members are chosen by name")?;
    Ok(Some(Wording::of(alloc, message).labelled(Some(base), label)))
}

/// Returns what is said of an access to a value that can't be indexed.
pub fn not_indexable(
    alloc: Global,
    typed: &Typed<'_>,
    base: Handle<mark::Expression>,
) -> Result<Option<Wording>, AllocError> {
    let phrase = type_phrase(alloc, typed, base)?;
    if let Some(TypeInner::Struct { .. }) = typed.inner(base) {
        return computed_member(alloc, typed, base, phrase.as_str());
    }
    let name = typed.operand_text(alloc, base)?;
    let message = format!(in alloc; "`{name}` can't be indexed")?;
    let label = format!(in alloc; "{phrase}, which has no components")?;
    Ok(Some(Wording::of(alloc, message).labelled(Some(base), label)))
}

/// Returns what is said of an access through a pointer to what can't be indexed.
pub fn pointee_not_indexable(
    alloc: Global,
    typed: &Typed<'_>,
    ty: Handle<mark::Type>,
) -> Result<Option<Wording>, AllocError> {
    let Some(base) = base_of(typed) else {
        return Ok(None);
    };
    let text = type_text(alloc, typed.module, ty, MOST_NESTED)?;
    let phrase = with_article(alloc, text.as_str())?;
    match typed.module.types.try_get(ty) {
        Some(found) if matches!(found.inner, TypeInner::Struct { .. }) => {
            computed_member(alloc, typed, base, phrase.as_str())
        }
        _ => {
            let name = typed.operand_text(alloc, base)?;
            let message = format!(in alloc; "`{name}` can't be indexed")?;
            let label = format!(in alloc; "points to {phrase}, which has no components")?;
            Ok(Some(Wording::of(alloc, message).labelled(Some(base), label)))
        }
    }
}
