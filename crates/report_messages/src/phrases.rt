//! Phrases on types.

use crate::typed::Typed;
use shader_arena::Handle;
use shader_ir::mark;
use std::alloc::{AllocError, Global};

/// Checks whether a name of a type is spoken with a vowel first, as that of `i32`, `f16` or `array`.
fn begins_with_vowel(text: &str) -> bool {
    let mut is_f = false;
    for (index, character) in text.chars().take(2).enumerate() {
        if index == 0 {
            match character {
                'a' | 'e' | 'i' | 'o' | 'A' | 'E' | 'I' | 'O' => return true,
                'f' => is_f = true,
                _ => return false,
            }
        } else {
            return is_f && character.is_ascii_digit();
        }
    }
    false
}

/// Returns a type with its article, as ``a `u32` `` or ``an `f32` ``.
pub fn with_article(alloc: Global, text: &str) -> Result<String, AllocError> {
    if begins_with_vowel(text) {
        format!(in alloc; "an `{text}`")
    } else {
        format!(in alloc; "a `{text}`")
    }
}

/// Returns the type of an operand with its article, or "a value" if the type isn't known.
pub fn type_phrase(
    alloc: Global,
    typed: &Typed<'_>,
    operand: Handle<mark::Expression>,
) -> Result<String, AllocError> {
    match typed.type_text(alloc, operand)? {
        Some(text) => with_article(alloc, text.as_str()),
        None => "a value".to_string(alloc),
    }
}
